// Lines of a summary, written behind what stands in a text. Running out of memory may leave some of a line.
ghost use Rattle.std.specs.Prelude.{◌≡◌, ◌++◌, ◌∷◌, [], codes, decimal, OnOk};
ghost use Rattle.flow_notes.specs.Flow.{flow_word};
ghost use Rattle.flow_notes.specs.Line.{newline};
ghost use Rattle.tape_summary.specs.Pausing.{told_pause};
ghost use Rattle.tape_laws.specs.Report.{paused_line, peak_line, report_line};

use crate::line_end::LineEnd;
use crate::pauses::Pause;
use crate::words::{put_behind, put_flow};
use flow_gate::FlowId;
use io_ports::{NoMemory, Octets};

/// Appends the line of a pause: the flow, the buffer, its dispatch, and that of its resume.
pub fn put_paused(into: &mut Octets, pause: Pause) -> Result<(), NoMemory>
    ensures { OnOk result (into.new ≡ into.old ++ paused_line (told_pause pause)) }
{
    let spot = pause.spot;
    let mut line = LineEnd::new();
    line.put_until(pause.until);
    line.put(b" ");
    line.put_number(pause.at);
    line.put(b" ");
    line.put_buffer(spot.buffer);
    line.put_flow(spot.flow);
    line.put(b"paused ");
    into.push_all(line.as_slice())
}

/// Appends the line of a flow's buffer: its name, its limit and its peak in octets; nothing where it never held an octet.
/// Running out of memory may leave some of the line.
pub fn put_flow_peak(
    into: &mut Octets,
    name: &[u8],
    flow: FlowId,
    limit: u32,
    peak: u64,
) -> Result<(), NoMemory>
    ensures { OnOk result (into.new ≡ into.old ++ peak_line (name.now ∷ flow_word flow ∷ []) limit peak) }
{
    if peak == 0 {
        return Ok(());
    }
    into.push_all(b"peak ")?;
    into.push_all(name)?;
    into.push_all(b" ")?;
    put_flow(into, flow)?;
    put_numbers(into, limit, peak)
}

/// The same of a stage of a flow, by its place from 1. Running out of memory may leave some of the line.
pub fn put_stage_peak(
    into: &mut Octets,
    flow: FlowId,
    place: u64,
    limit: u32,
    peak: u64,
) -> Result<(), NoMemory>
    ensures { OnOk result (into.new ≡ into.old ++ peak_line (codes "stage" ∷ flow_word flow ∷ decimal place ∷ []) limit peak) }
{
    if peak == 0 {
        return Ok(());
    }
    into.push_all(b"peak stage ")?;
    put_flow(into, flow)?;
    put_behind(into, b" ", place)?;
    put_numbers(into, limit, peak)
}

/// The same of a connection's write buffer. Running out of memory may leave some of the line.
pub fn put_write_peak(into: &mut Octets, conn: u32, limit: u32, peak: u64) -> Result<(), NoMemory>
    ensures { OnOk result (into.new ≡ into.old ++ peak_line (codes "write" ∷ decimal conn ∷ []) limit peak) }
{
    if peak == 0 {
        return Ok(());
    }
    put_behind(into, b"peak write ", u64::from(conn))?;
    put_numbers(into, limit, peak)
}

// Appends a limit and a peak, and ends the line.
fn put_numbers(into: &mut Octets, limit: u32, peak: u64) -> Result<(), NoMemory>
    ensures { OnOk result (into.new ≡ into.old ++ (codes " " ++ (decimal limit ++ (codes " " ++ (decimal peak ++ newline))))) }
{
    put_behind(into, b" ", u64::from(limit))?;
    put_behind(into, b" ", peak)?;
    into.push_all(b"\n")
}

/// Appends the last line: how many dispatches there were. Running out of memory may leave some of the line.
pub fn put_done(into: &mut Octets, turns: u64) -> Result<(), NoMemory>
    ensures { OnOk result (into.new ≡ into.old ++ report_line (codes "done" ∷ decimal turns ∷ [])) }
{
    put_behind(into, b"done ", turns)?;
    into.push_all(b"\n")
}
