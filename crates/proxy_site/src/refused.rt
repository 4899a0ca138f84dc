// How the proxy ends where there is no configuration.
ghost use Rattle.std.specs.Prelude.{◌≡◌, ◌++◌, ◌≤◌, OnOk};
ghost use Rattle.io_ports.specs.Faults.{Rose};
ghost use Rattle.proxy_site.specs.Reasons.{reason_status};
ghost use Rattle.proxy_site.specs.Serving.{TellsEnd, end_line, end_status};

use crate::reason::{ServeReason, Served};
use io_ports::{Failed, NoMemory, Octets, Sink};
use session_config::{ConfigEnd, put_refusal};
use session_run::{Status, write_all};
use std::alloc::Global;

/// Writes the line of a configuration that isn't there, if it has one, and answers how the proxy ends.
#[tactic(auto, using(crate::proofs::Ending::end_lost))]
pub fn end_at_config<K: Sink>(alloc: Global, end: ConfigEnd, out: &mut K) -> Served
    ensures tells { TellsEnd end result.status (K.contents out.old) (K.contents out.new) }
    ensures told { result.status ≡ reason_status result.reason }
    ensures write_fault { result.status ≡ Status.WriteFault → Rose (K.faults out.old) (K.faults out.new) }
    ensures no_fall { K.faults out.old ≤ K.faults out.new }
{
    let mut line = Octets::new(alloc);
    match put_end(&end, &mut line) {
        Ok(()) => write_end(end, line.as_slice(), out),
        Err(NoMemory) => Served::by(ServeReason::Memory),
    }
}

#[tactic(auto, using(crate::proofs::Ending::end_written, crate::proofs::Ending::end_cut, crate::proofs::Ending::end_write_fault))]
fn write_end<K: Sink>(end: ConfigEnd, line: &[u8], out: &mut K) -> Served
    requires { line.now ≡ end_line end }
    ensures tells { TellsEnd end result.status (K.contents out.old) (K.contents out.new) }
    ensures told { result.status ≡ reason_status result.reason }
    ensures write_fault { result.status ≡ Status.WriteFault → Rose (K.faults out.old) (K.faults out.new) }
    ensures no_fall { K.faults out.old ≤ K.faults out.new }
{
    match write_all(out, line) {
        Ok(()) => Served::by(reason_of(end)),
        Err(Failed) => Served::by(ServeReason::Write),
    }
}

// Running out of memory may leave some of the line.
fn put_end(end: &ConfigEnd, line: &mut Octets) -> Result<(), NoMemory>
    ensures { OnOk result (line.new ≡ line.old ++ end_line end.now) }
{
    match end {
        ConfigEnd::Refused(fault) => put_refusal(fault, line),
        ConfigEnd::TooLong => line.push_all(b"refused length config\n"),
        ConfigEnd::ReadFault => Ok(()),
        ConfigEnd::Memory => Ok(()),
    }
}

fn reason_of(end: ConfigEnd) -> ServeReason
    ensures { reason_status result ≡ end_status end }
{
    match end {
        ConfigEnd::Refused(fault) => ServeReason::Config(fault),
        ConfigEnd::TooLong => ServeReason::LongConfig,
        ConfigEnd::ReadFault => ServeReason::ConfigRead,
        ConfigEnd::Memory => ServeReason::Memory,
    }
}
