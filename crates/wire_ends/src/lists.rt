// What is put on the waiting list of a connection.
ghost use Rattle.std.specs.Prelude.{◌≤◌, ◌+◌, OnOk};
ghost use Rattle.wire_outlet.specs.Waiting.{IsFrameable};
ghost use Rattle.wire_state.specs.Progress.{to_go};
ghost use Rattle.wire_state.specs.Sound.{IsSound};
ghost use Rattle.wire_state.specs.Worlds.{KeepsOk};

use flow_notes::CloseCause;
use h2_frames::codes::ENHANCE_YOUR_CALM;
use io_ports::NoMemory;
use wire_outlet::{Control, Waiting};
use wire_state::{Task, WireCore, is_stream};

/// Appends control octets to the waiting list of an open connection. Where the list is full, they are dropped, and the
/// connection is to be closed.
pub fn put(core: &mut WireCore, conn: u32, control: Control) -> Result<(), NoMemory>
    requires sound { IsSound core.old }
    ensures sound { OnOk result (IsSound core.new) }
    ensures go { OnOk result (to_go core.new ≤ to_go core.old + 6) }
    ensures octets { KeepsOk result core.old core.new }
{
    if append(core, conn, Waiting::Answer(control))? {
        return Ok(());
    }
    flood(core, conn)
}

/// Puts a RST_STREAM frame.
pub fn put_reset(core: &mut WireCore, conn: u32, stream: u32, code: u32) -> Result<(), NoMemory>
    requires sound { IsSound core.old }
    ensures sound { OnOk result (IsSound core.new) }
    ensures go { OnOk result (to_go core.new ≤ to_go core.old + 6) }
    ensures octets { KeepsOk result core.old core.new }
{
    if append_reset(core, conn, stream, code)? {
        return Ok(());
    }
    flood(core, conn)
}

/// Appends a unit to the waiting list of a connection, unless it is closed. The answer is false where the list is full: then
/// the unit is dropped.
pub(crate) fn append(core: &mut WireCore, number: u32, unit: Waiting) -> Result<bool, NoMemory>
    requires sound { IsSound core.old }
    requires unit { IsFrameable unit }
    ensures sound { OnOk result (IsSound core.new) }
    ensures go { OnOk result (to_go core.new ≤ to_go core.old + 5) }
    ensures octets { KeepsOk result core.old core.new }
{
    core.stir(number)?;
    append_at(core, number, unit)
}

fn append_at(core: &mut WireCore, number: u32, unit: Waiting) -> Result<bool, NoMemory>
    requires sound { IsSound core.old }
    requires unit { IsFrameable unit }
    ensures sound { OnOk result (IsSound core.new) }
    ensures go { to_go core.new ≤ to_go core.old + 4 }
    ensures octets { KeepsOk result core.old core.new }
{
    let most = core.config.limits.control_frames;
    match core.conns.get_mut(&number) {
        Some(conn) => conn.put(unit, most),
        None => Ok(true),
    }
}

/// Appends a RST_STREAM frame, as `append`. One on no stream isn't.
pub(crate) fn append_reset(
    core: &mut WireCore,
    conn: u32,
    stream: u32,
    code: u32,
) -> Result<bool, NoMemory>
    requires sound { IsSound core.old }
    ensures sound { OnOk result (IsSound core.new) }
    ensures go { OnOk result (to_go core.new ≤ to_go core.old + 5) }
    ensures octets { KeepsOk result core.old core.new }
{
    if !is_stream(stream) {
        return Ok(true);
    }
    let reset = Control::rst_stream(core.alloc, stream, code)?;
    append(core, conn, Waiting::Answer(reset))
}

/// A connection is to be closed, since its waiting list was full.
pub(crate) fn flood(core: &mut WireCore, conn: u32) -> Result<(), NoMemory>
    requires sound { IsSound core.old }
    ensures sound { OnOk result (IsSound core.new) }
    ensures go { OnOk result (to_go core.new ≤ to_go core.old + 1) }
    ensures octets { KeepsOk result core.old core.new }
{
    core.begin(Task::Close {
        conn,
        code: ENHANCE_YOUR_CALM,
        cause: CloseCause::Flood,
    })
}
