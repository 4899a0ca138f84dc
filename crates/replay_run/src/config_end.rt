// How a replay ends where there is no configuration.
ghost use Rattle.std.specs.Prelude.{◌≡◌, ◌++◌, ◌≤◌, ◌⊎◌, OnOk};
ghost use Rattle.io_ports.specs.Faults.{Rose};
ghost use Rattle.replay_run.specs.ReplayUnder.{EndsAtConfig, end_status, end_text};

use crate::reason::{Outcome, Reason};
use io_ports::{Failed, NoMemory, Octets, Sink};
use session_config::{ConfigEnd, put_refusal};
use session_run::{Status, write_all};
use std::alloc::Global;

/// Writes the line of a configuration that isn't there, if it has one, and answers how the replay ends.
pub fn end_at_config<K: Sink>(alloc: Global, end: ConfigEnd, out: &mut K) -> Outcome
    ensures ends { EndsAtConfig end (K.contents out.old) (K.contents out.new) result.status }
    ensures status { (result.status ≡ end_status end) ⊎ (result.status ≡ Status.Memory) ⊎ (result.status ≡ Status.WriteFault) }
    ensures read_fault { result.status ≡ Status.ReadFault → end ≡ ConfigEnd.ReadFault }
    ensures write_fault { result.status ≡ Status.WriteFault → Rose (K.faults out.old) (K.faults out.new) }
    ensures no_fall { K.faults out.old ≤ K.faults out.new }
{
    let mut text = Octets::new(alloc);
    match put_end(&end, &mut text) {
        Ok(()) => write_end(end, text.as_slice(), out),
        Err(NoMemory) => Outcome {
            status: Status::Memory,
            reason: Reason::Memory,
        },
    }
}

fn write_end<K: Sink>(end: ConfigEnd, text: &[u8], out: &mut K) -> Outcome
    requires { text.now ≡ end_text end }
    ensures ends { EndsAtConfig end (K.contents out.old) (K.contents out.new) result.status }
    ensures status { (result.status ≡ end_status end) ⊎ (result.status ≡ Status.Memory) ⊎ (result.status ≡ Status.WriteFault) }
    ensures read_fault { result.status ≡ Status.ReadFault → end ≡ ConfigEnd.ReadFault }
    ensures write_fault { result.status ≡ Status.WriteFault → Rose (K.faults out.old) (K.faults out.new) }
    ensures no_fall { K.faults out.old ≤ K.faults out.new }
{
    match write_all(out, text) {
        Ok(()) => of_end(end),
        Err(Failed) => Outcome {
            status: Status::WriteFault,
            reason: Reason::Write,
        },
    }
}

// Running out of memory may leave some of the line.
fn put_end(end: &ConfigEnd, text: &mut Octets) -> Result<(), NoMemory>
    ensures { OnOk result (text.new ≡ text.old ++ end_text end.now) }
{
    match end {
        ConfigEnd::Refused(fault) => put_refusal(fault, text),
        ConfigEnd::TooLong => text.push_all(b"refused length config\n"),
        ConfigEnd::ReadFault => Ok(()),
        ConfigEnd::Memory => Ok(()),
    }
}

fn of_end(end: ConfigEnd) -> Outcome
    ensures { result.status ≡ end_status end }
{
    match end {
        ConfigEnd::Refused(fault) => Outcome {
            status: Status::Config,
            reason: Reason::Config(fault),
        },
        ConfigEnd::TooLong => Outcome {
            status: Status::TooLong,
            reason: Reason::LongConfig,
        },
        ConfigEnd::ReadFault => Outcome {
            status: Status::ReadFault,
            reason: Reason::ConfigRead,
        },
        ConfigEnd::Memory => Outcome {
            status: Status::Memory,
            reason: Reason::Memory,
        },
    }
}
