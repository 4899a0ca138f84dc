// Drains: the units of a connection are framed.
ghost use Rattle.std.specs.Prelude.{◌≡◌, ◌≤◌, ◌<◌, ◌+◌, ◌++◌, IfOk, OnOk, length, true};
ghost use Rattle.wire_flows.specs.Writes.{watchers_on};
ghost use Rattle.wire_state.specs.Agenda.{stirred_at, top_go};
ghost use Rattle.wire_state.specs.Noting.{Appends, risen_of};
ghost use Rattle.wire_state.specs.Progress.{to_go, conn_go};
ghost use Rattle.wire_state.specs.Sound.{IsSound};
ghost use Rattle.wire_state.specs.Worlds.{Goes, Keeps, Pays};

use crate::controls::{frame_credit, frame_first_credit, frame_stream_credit, frame_waiting};
use crate::units::frame_flow;
use flow_notes::Notes;
use io_ports::NoMemory;
use wire_flows::WireFlows;
use wire_state::{Conn, NextUnit, Stirred, Task, WireCore, note_pauses};

/// The task AskDrain: the connection is drained, unless it is being drained. Its first unit is framed at once.
#[inline(always)]
pub fn ask_drain(core: &mut WireCore, number: u32, notes: &mut Notes) -> Result<(), NoMemory>
    requires sound { IsSound core.old }
    requires top { top_go core.old.agenda ≡ 2 }
    ensures sound { OnOk result (IsSound core.new) }
    ensures go { OnOk result (to_go core.new < to_go core.old) }
    ensures notes { Appends notes.old notes.new }
    ensures octets { Goes result core.old notes.old core.new notes.new }
{
    core.end_task();
    drain_now(core, number, notes)
}

/// A connection is drained from now on, unless it is being drained. Its first unit is framed at once.
#[inline(always)]
pub(crate) fn drain_now(core: &mut WireCore, number: u32, notes: &mut Notes) -> Result<(), NoMemory>
    requires sound { IsSound core.old }
    ensures sound { OnOk result (IsSound core.new) }
    ensures go { OnOk result (to_go core.new ≤ to_go core.old) }
    ensures notes { Appends notes.old notes.new }
    ensures octets { Goes result core.old notes.old core.new notes.new }
{
    if core.stirred.is_calm(number) || core.agenda.is_draining(number) {
        return Ok(());
    }
    match look_at(core, number) {
        Some(unit) => begin_drain(core, number, unit, notes),
        None => Ok(()),
    }
}

/// A connection, if there is one, is drained from now on, unless it is being drained.
pub(crate) fn drain_at(
    core: &mut WireCore,
    conn: Option<u32>,
    notes: &mut Notes,
) -> Result<(), NoMemory>
    requires sound { IsSound core.old }
    ensures sound { OnOk result (IsSound core.new) }
    ensures go { OnOk result (to_go core.new ≤ to_go core.old) }
    ensures notes { Appends notes.old notes.new }
    ensures octets { Goes result core.old notes.old core.new notes.new }
{
    match conn {
        Some(conn) => drain_now(core, conn, notes),
        None => Ok(()),
    }
}

/// A connection, of which this unit goes next, is drained from now on, unless it is being drained.
pub(crate) fn drain_by(
    core: &mut WireCore,
    number: u32,
    unit: NextUnit,
    notes: &mut Notes,
) -> Result<(), NoMemory>
    requires sound { IsSound core.old }
    ensures sound { OnOk result (IsSound core.new) }
    ensures go { OnOk result (to_go core.new ≤ to_go core.old) }
    ensures notes { Appends notes.old notes.new }
    ensures octets { Goes result core.old notes.old core.new notes.new }
{
    if core.agenda.is_draining(number) {
        return Ok(());
    }
    begin_drain(core, number, unit, notes)
}

/// A connection is drained from now on, beginning with this unit, which goes next there.
pub fn begin_drain(
    core: &mut WireCore,
    number: u32,
    unit: NextUnit,
    notes: &mut Notes,
) -> Result<(), NoMemory>
    requires sound { IsSound core.old }
    ensures sound { OnOk result (IsSound core.new) }
    ensures go { OnOk result (to_go core.new + stirred_at number core.old.stirred.conns.items ≤ to_go core.old) }
    ensures notes { Appends notes.old notes.new }
    ensures octets { Goes result core.old notes.old core.new notes.new }
{
    core.begin(Task::Drain(number))?;
    frame_next(core, number, unit, notes)?;
    drain_on(core, number, notes)
}

// A drain, of which a unit was framed, goes on at once, unless that began what goes before the next unit.
#[inline(always)]
pub(crate) fn drain_on(core: &mut WireCore, number: u32, notes: &mut Notes) -> Result<(), NoMemory>
    requires sound { IsSound core.old }
    ensures sound { OnOk result (IsSound core.new) }
    ensures go { OnOk result (to_go core.new ≤ to_go core.old) }
    ensures notes { Appends notes.old notes.new }
    ensures octets { Goes result core.old notes.old core.new notes.new }
{
    if goes_on(core, number) {
        return drain(core, number, notes);
    }
    Ok(())
}

/// The task Drain: units of the connection are framed, unless its write buffer is above or it is closed, until one begins what
/// goes before the next.
#[inline(always)]
pub fn drain(core: &mut WireCore, number: u32, notes: &mut Notes) -> Result<(), NoMemory>
    requires sound { IsSound core.old }
    requires top { top_go core.old.agenda ≡ 1 }
    ensures sound { OnOk result (IsSound core.new) }
    ensures go { OnOk result (to_go core.new < to_go core.old) }
    ensures notes { Appends notes.old notes.new }
    ensures octets { Goes result core.old notes.old core.new notes.new }
{
    while drain_one(core, number, notes)? {}
    Ok(())
}

// The next unit of the connection is framed. The answer is whether the next one goes on at once.
#[inline(always)]
fn drain_one(core: &mut WireCore, number: u32, notes: &mut Notes) -> Result<bool, NoMemory>
    requires sound { IsSound core.old }
    requires top { top_go core.old.agenda ≡ 1 }
    ensures sound { OnOk result (IsSound core.new) }
    ensures go { OnOk result (to_go core.new < to_go core.old) }
    ensures top { IfOk result (λ more. more ≡ true → top_go core.new.agenda ≡ 1) }
    ensures notes { Appends notes.old notes.new }
    ensures octets { Goes result core.old notes.old core.new notes.new }
{
    match look_at(core, number) {
        Some(unit) => {
            frame_next(core, number, unit, notes)?;
            Ok(goes_on(core, number))
        }
        None => {
            core.end_task();
            Ok(false)
        }
    }
}

// Whether the drain of the connection goes on next.
#[tactic(auto, using(crate::proofs::Framing::top_weight))]
fn goes_on(core: &WireCore, number: u32) -> bool
    ensures { result ≡ true → top_go core.entry.now.agenda ≡ 1 }
{
    match core.agenda.top() {
        Some(Task::Drain(next)) => next == number,
        _ => false,
    }
}

// Frames what goes next at a connection that is drained. Where that can't be framed, the drain is given up.
fn frame_next(
    core: &mut WireCore,
    number: u32,
    unit: NextUnit,
    notes: &mut Notes,
) -> Result<(), NoMemory>
    requires sound { IsSound core.old }
    requires top { top_go core.old.agenda ≡ 1 }
    ensures sound { OnOk result (IsSound core.new) }
    ensures go { OnOk result (to_go core.new + (1 + stirred_at number core.old.stirred.conns.items) ≤ to_go core.old) }
    ensures notes { Appends notes.old notes.new }
    ensures octets { Goes result core.old notes.old core.new notes.new }
{
    match unit {
        NextUnit::Waiting => frame_waiting(core, number, notes),
        NextUnit::FirstCredit => frame_first_credit(core, number, notes),
        NextUnit::Credit => frame_credit(core, number, notes),
        NextUnit::StreamCredit(exchange) => frame_stream_credit(core, number, exchange, notes),
        NextUnit::Flow(exchange) => frame_flow(core, number, exchange, false, notes),
        NextUnit::Body(exchange) => frame_flow(core, number, exchange, true, notes),
    }
}

// What may be framed at a connection now. Where that is nothing, it is calm.
#[inline(always)]
fn look_at(core: &mut WireCore, number: u32) -> Option<NextUnit>
    requires sound { IsSound core.old }
    ensures sound { IsSound core.new }
    ensures go { to_go core.new ≤ to_go core.old }
    ensures stirred { length core.new.stirred.conns.items ≡ length core.old.stirred.conns.items }
    ensures rest { core.new ≡ record core.old { conns = core.new.conns; stirred = core.new.stirred } }
    ensures octets { Keeps core.old core.new }
{
    match core.conns.get_mut(&number) {
        Some(conn) => look(conn, &core.flows, &mut core.stirred, number),
        None => None,
    }
}

// As `unit_at`. A connection at which nothing may be framed is calm, unless it is draining: then it may be closed.
#[inline(always)]
fn look(conn: &mut Conn, flows: &WireFlows, stirred: &mut Stirred, number: u32) -> Option<NextUnit>
    ensures rest { conn.new ≡ record conn.old { credits = conn.new.credits } }
    ensures go { conn_go conn.new ≡ conn_go conn.old }
    ensures stirred { length stirred.new.conns.items ≡ length stirred.old.conns.items }
{
    let unit = unit_at(conn, flows);
    if unit.is_some() || conn.draining.is_some() {
        return unit;
    }
    stirred.calm_down(number);
    None
}

/// What may be framed at a connection now.
#[inline(always)]
pub(crate) fn next_unit(core: &mut WireCore, number: u32) -> Option<NextUnit>
    requires sound { IsSound core.old }
    ensures sound { IsSound core.new }
    ensures go { to_go core.new ≤ to_go core.old }
    ensures rest { core.new ≡ record core.old { conns = core.new.conns } }
    ensures octets { Keeps core.old core.new }
{
    match core.conns.get_mut(&number) {
        Some(conn) => unit_at(conn, &core.flows),
        None => None,
    }
}

#[inline(always)]
fn unit_at(conn: &mut Conn, flows: &WireFlows) -> Option<NextUnit>
    ensures rest { conn.new ≡ record conn.old { credits = conn.new.credits } }
    ensures go { conn_go conn.new ≡ conn_go conn.old }
{
    if conn.may_write() {
        conn.next_unit(flows)
    } else {
        None
    }
}

/// A unit was framed at a connection. Where the write buffer rose by it, its flows are held back, each with its note.
#[inline(always)]
pub(crate) fn unit_framed(
    core: &mut WireCore,
    conn: u32,
    rose: bool,
    notes: &mut Notes,
) -> Result<(), NoMemory>
    requires sound { IsSound core.old }
    ensures sound { OnOk result (IsSound core.new) }
    ensures go { OnOk result (to_go core.new ≤ to_go core.old + 1) }
    ensures notes { Appends notes.old notes.new }
    ensures octets { Goes result core.old (notes.old ++ risen_of rose conn (watchers_on conn core.old.flows)) core.new notes.new }
{
    core.stir(conn)?;
    note_risen(core, conn, rose, notes)
}

/// Where the write buffer of a connection rose, the flows that go to it are held back: each with its note.
pub(crate) fn note_risen(
    core: &WireCore,
    conn: u32,
    rose: bool,
    notes: &mut Notes,
) -> Result<(), NoMemory>
    ensures notes { Appends notes.old notes.new }
    ensures octets { Pays result (risen_of rose conn (watchers_on conn core.entry.now.flows)) notes.old notes.new }
{
    if rose {
        return note_pauses(&core.flows, conn, notes);
    }
    Ok(())
}
