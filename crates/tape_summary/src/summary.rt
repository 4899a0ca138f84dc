// The summary of a session: peaks, pauses and the number of dispatches.
ghost use Rattle.std.specs.Prelude.{◌≡◌, ◌++◌, OnOk, OnErr, flat_map};
ghost use Rattle.tape_summary.specs.Summarizes.{Summarizes, flow_peak_lines, pause_lines, peak_lines};

use crate::pauses::PauseLog;
use crate::peaks::PeakLog;
use crate::report::{put_done, put_flow_peak, put_paused, put_write_peak};
use crate::tape_log::TapeLog;
use flow_gate::FlowId;
use io_ports::{NoMemory, Octets};
use std::alloc::Global;

/// Appends the summary of the tape that a log stands for. After running out of memory the text is as it was.
pub fn write_summary(alloc: Global, log: &TapeLog, into: &mut Octets) -> Result<(), NoMemory>
    ensures ok { OnOk result (Summarizes log.now into.old into.new) }
    ensures err { OnErr result (into.new ≡ into.old) }
{
    let mut text = Octets::from_slice(alloc, into.as_slice())?;
    put_peaks(&mut text, &log.peaks)?;
    put_pauses(&mut text, &log.pauses)?;
    put_done(&mut text, log.pauses.turns())?;
    *into = text;
    Ok(())
}

// Appends the peaks of each stream's buffers, and of the write buffer.
fn put_peaks(into: &mut Octets, log: &PeakLog) -> Result<(), NoMemory>
    ensures { OnOk result (into.new ≡ into.old ++ peak_lines log.now) }
{
    put_streams(into, log)?;
    put_write_peak(into, 0, log.limits().write, log.write().most)
}

// Appends the peaks of each stream's buffers.
fn put_streams(into: &mut Octets, log: &PeakLog) -> Result<(), NoMemory>
    ensures { OnOk result (into.new ≡ into.old ++ flat_map (flow_peak_lines log.now) log.now.started.items) }
{
    let mut rest = log.started();
    while let Some((x, after)) = rest.split_first() {
        put_stream(into, log, *x)?;
        rest = after;
    }
    Ok(())
}

fn put_stream(into: &mut Octets, log: &PeakLog, x: u64) -> Result<(), NoMemory>
    ensures { OnOk result (into.new ≡ into.old ++ flow_peak_lines log.now x) }
{
    let flow = FlowId {
        exchange: x,
        back: false,
    };
    let limits = log.limits();
    let levels = log.flow(x);
    put_flow_peak(into, b"recv", flow, limits.recv, levels.recv.most)?;
    put_flow_peak(into, b"send", flow, limits.send, levels.send.most)
}

/// Appends a line for each pause. Running out of memory may leave some of them.
pub fn put_pauses(into: &mut Octets, log: &PauseLog) -> Result<(), NoMemory>
    ensures { OnOk result (into.new ≡ into.old ++ pause_lines log.now.pauses.items) }
{
    let mut rest = log.pauses();
    while let Some((pause, after)) = rest.split_first() {
        put_paused(into, *pause)?;
        rest = after;
    }
    Ok(())
}
