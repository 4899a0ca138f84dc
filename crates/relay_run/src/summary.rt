// The summary of a relay's session: peaks, pauses and the number of dispatches.
ghost use Rattle.std.specs.Prelude.{◌≡◌, ◌++◌, OnOk, OnErr};
ghost use Rattle.relay_run.specs.Summaries.{Summarizes, logged_peak, logged_peaks};

use crate::relay_log::RelayLog;
use crate::write_log::WriteLog;
use io_ports::{NoMemory, Octets};
use std::alloc::Global;
use tape_summary::{put_done, put_pauses, put_write_peak};

/// Appends the summary of the tape that a log stands for. After running out of memory the text is as it was.
pub fn write_relay_summary(alloc: Global, log: &RelayLog, into: &mut Octets) -> Result<(), NoMemory>
    ensures ok { OnOk result (Summarizes log.now into.old into.new) }
    ensures err { OnErr result (into.new ≡ into.old) }
{
    let mut text = Octets::from_slice(alloc, into.as_slice())?;
    put_writes(&mut text, &log.writes)?;
    put_pauses(&mut text, &log.pauses)?;
    put_done(&mut text, log.pauses.turns())?;
    *into = text;
    Ok(())
}

// Appends the peaks of each connection's write buffer.
fn put_writes(into: &mut Octets, log: &WriteLog) -> Result<(), NoMemory>
    ensures { OnOk result (into.new ≡ into.old ++ logged_peaks log.now) }
{
    let mut rest = log.conns();
    while let Some((conn, after)) = rest.split_first() {
        put_write(into, log, *conn)?;
        rest = after;
    }
    Ok(())
}

fn put_write(into: &mut Octets, log: &WriteLog, conn: u32) -> Result<(), NoMemory>
    ensures { OnOk result (into.new ≡ into.old ++ logged_peak log.now conn) }
{
    put_write_peak(into, conn, log.limit(), log.level(conn).most)
}
