// What time and overload end.
ghost use Rattle.std.specs.Prelude.{◌≡◌, ◌≤◌, ◌<◌, ◌+◌, ◌-◌, ◌*◌, ◌^◌, MatchOption, OnOk};
ghost use Rattle.wire_state.specs.Agenda.{top_go};
ghost use Rattle.wire_state.specs.Noting.{Appends};
ghost use Rattle.wire_state.specs.Progress.{to_go};
ghost use Rattle.wire_state.specs.Sound.{IsSound};
ghost use Rattle.wire_state.specs.Worlds.{Goes, Keeps, KeepsOk};

use flow_notes::{Cause, CloseCause, FireKind, Note, Notes};
use h2_frames::codes::NO_ERROR;
use io_ports::NoMemory;
use wire_ends::{Origin, begin_draining, close, doom};
use wire_state::{Task, WireCore, note};
use wire_timers::Due;

/// The task Fires: the timers that are due now are taken, to fire one after the other.
pub fn fires(core: &mut WireCore) -> Result<(), NoMemory>
    requires sound { IsSound core.old }
    requires top { top_go core.old.agenda ≡ 2 }
    ensures sound { OnOk result (IsSound core.new) }
    ensures go { OnOk result (to_go core.new < to_go core.old) }
    ensures octets { KeepsOk result core.old core.new }
{
    take_due(core)?;
    core.go_on(Task::Fire)
}

// The timers that are due now are taken.
fn take_due(core: &mut WireCore) -> Result<(), NoMemory>
    requires sound { IsSound core.old }
    ensures sound { OnOk result (IsSound core.new) }
    ensures go { OnOk result (to_go core.new ≤ to_go core.old) }
    ensures agenda { core.new.agenda ≡ core.old.agenda }
    ensures octets { KeepsOk result core.old core.new }
{
    let due = core.timers.take_due(core.now)?;
    core.due = due;
    Ok(())
}

/// The task Fire: the next timer that is due fires, unless what it is about has ended.
pub fn fire(core: &mut WireCore, notes: &mut Notes) -> Result<(), NoMemory>
    requires sound { IsSound core.old }
    requires top { top_go core.old.agenda ≡ 1 }
    ensures sound { OnOk result (IsSound core.new) }
    ensures go { OnOk result (to_go core.new < to_go core.old) }
    ensures notes { Appends notes.old notes.new }
    ensures octets { Goes result core.old notes.old core.new notes.new }
{
    match first_due(core) {
        Some(due) => fire_one(core, due, notes),
        None => {
            core.end_task();
            Ok(())
        }
    }
}

// The timer that fires next isn't due any more.
fn first_due(core: &mut WireCore) -> Option<Due>
    requires sound { IsSound core.old }
    ensures sound { IsSound core.new }
    ensures go { MatchOption result (to_go core.new ≤ to_go core.old) (λ due. to_go core.new + 1 ≤ to_go core.old) }
    ensures agenda { core.new.agenda ≡ core.old.agenda }
    ensures octets { Keeps core.old core.new }
{
    match core.due.take_first() {
        Some(due) => Some(due),
        None => None,
    }
}

// A timer fires, unless what it is about has ended.
fn fire_one(core: &mut WireCore, due: Due, notes: &mut Notes) -> Result<(), NoMemory>
    requires sound { IsSound core.old }
    ensures sound { OnOk result (IsSound core.new) }
    ensures go { OnOk result (to_go core.new ≤ to_go core.old) }
    ensures notes { Appends notes.old notes.new }
    ensures octets { Goes result core.old notes.old core.new notes.new }
{
    match due.kind {
        FireKind::ConnectionIdle => fire_conn(core, due, notes),
        _ => fire_exchange(core, due, notes),
    }
}

// The timer of a connection fires, unless that is closed.
fn fire_conn(core: &mut WireCore, due: Due, notes: &mut Notes) -> Result<(), NoMemory>
    requires sound { IsSound core.old }
    ensures sound { OnOk result (IsSound core.new) }
    ensures go { OnOk result (to_go core.new ≤ to_go core.old) }
    ensures notes { Appends notes.old notes.new }
    ensures octets { Goes result core.old notes.old core.new notes.new }
{
    let Due { kind, id } = due;
    let conn = u32::try_from(id).unwrap_or(u32::MAX);
    if !core.is_open(conn) {
        return Ok(());
    }
    note(notes, Note::Fire { kind, id })?;
    close(core, conn, NO_ERROR, CloseCause::Idle, notes)
}

// A timer of an exchange fires, unless that is doomed.
fn fire_exchange(core: &mut WireCore, due: Due, notes: &mut Notes) -> Result<(), NoMemory>
    requires sound { IsSound core.old }
    ensures sound { OnOk result (IsSound core.new) }
    ensures go { OnOk result (to_go core.new ≤ to_go core.old) }
    ensures notes { Appends notes.old notes.new }
    ensures octets { Goes result core.old notes.old core.new notes.new }
{
    let Due { kind, id } = due;
    if !core.flows.is_live(id) {
        return Ok(());
    }
    note(notes, Note::Fire { kind, id })?;
    doom(core, id, Cause::Timeout { kind }, Origin::Neither, notes)
}

/// The task Resets: the next exchange that the overload manager gives up.
pub fn resets(core: &mut WireCore, left: u32, notes: &mut Notes) -> Result<(), NoMemory>
    requires sound { IsSound core.old }
    requires top { top_go core.old.agenda ≡ left + 1 }
    ensures sound { OnOk result (IsSound core.new) }
    ensures go { OnOk result (to_go core.new < to_go core.old) }
    ensures notes { Appends notes.old notes.new }
    ensures octets { Goes result core.old notes.old core.new notes.new }
{
    match core.load.next_reset() {
        Some(exchange) if left > 0 => {
            core.go_on(Task::Resets(left - 1))?;
            doom(core, exchange, Cause::Overload, Origin::Neither, notes)
        }
        _ => {
            core.end_task();
            Ok(())
        }
    }
}

/// The task Drains: the next client connection begins to drain.
pub fn drains(core: &mut WireCore, after: u32) -> Result<(), NoMemory>
    requires sound { IsSound core.old }
    requires top { top_go core.old.agenda ≡ 8 * (2 ^ 32 - after) + 1 }
    ensures sound { OnOk result (IsSound core.new) }
    ensures go { OnOk result (to_go core.new < to_go core.old) }
    ensures octets { KeepsOk result core.old core.new }
{
    match core.links.next_client(after) {
        Some(conn) if conn > after => {
            core.go_on(Task::Drains(conn))?;
            begin_draining(core, conn)
        }
        _ => {
            core.end_task();
            Ok(())
        }
    }
}
