// Runs: the octets of a flow go on.
ghost use Rattle.std.specs.Prelude.{◌≡◌, ◌≤◌, ◌<◌, ◌+◌, OnOk, if◌then◌else◌, true};
ghost use Rattle.wire_flows.specs.Flows.{is_live_in};
ghost use Rattle.wire_state.specs.Agenda.{top_go};
ghost use Rattle.wire_state.specs.Noting.{Appends};
ghost use Rattle.wire_state.specs.Progress.{to_go};
ghost use Rattle.wire_state.specs.Sound.{IsSound};
ghost use Rattle.wire_state.specs.Worlds.{Goes, Keeps, KeepsOk};

use crate::drains::{drain_at, drain_by, next_unit};
use crate::moves::go_on;
use crate::passes::pass_list;
use flow_notes::{Cause, Notes};
use io_ports::NoMemory;
use wire_ends::{Origin, doom};
use wire_flows::Outcome;
use wire_state::{Course, NextUnit, Task, WireCore};

/// The task AskRun: the flow is run, unless it is being run. Its first move is made at once.
pub fn ask_run(core: &mut WireCore, course: Course, notes: &mut Notes) -> Result<(), NoMemory>
    requires sound { IsSound core.old }
    requires top { top_go core.old.agenda ≡ 7 }
    ensures sound { OnOk result (IsSound core.new) }
    ensures go { OnOk result (to_go core.new < to_go core.old) }
    ensures notes { Appends notes.old notes.new }
    ensures octets { Goes result core.old notes.old core.new notes.new }
{
    core.end_task();
    if core.agenda.is_running(course.flow) {
        return Ok(());
    }
    if !core.flows.holds(course.flow) {
        return pass_list(core, course, notes);
    }
    core.begin(Task::Run {
        course,
        tried: false,
    })?;
    move_on(core, course, false, notes)
}

/// The task Run: a move; where none may go, its connections are drained, and it is looked at once more.
pub fn run(
    core: &mut WireCore,
    course: Course,
    tried: bool,
    notes: &mut Notes,
) -> Result<(), NoMemory>
    requires sound { IsSound core.old }
    requires top { top_go core.old.agenda ≡ (if tried then 1 else 6) }
    ensures sound { OnOk result (IsSound core.new) }
    ensures go { OnOk result (to_go core.new < to_go core.old) }
    ensures notes { Appends notes.old notes.new }
    ensures octets { Goes result core.old notes.old core.new notes.new }
{
    if core.flows.holds(course.flow) {
        return move_on(core, course, tried, notes);
    }
    core.end_task();
    if tried {
        return Ok(());
    }
    drain_both(core, course, notes)
}

// A move of a flow with octets, which is being run.
fn move_on(
    core: &mut WireCore,
    course: Course,
    tried: bool,
    notes: &mut Notes,
) -> Result<(), NoMemory>
    requires sound { IsSound core.old }
    requires top { top_go core.old.agenda ≡ (if tried then 1 else 6) }
    ensures sound { OnOk result (IsSound core.new) }
    ensures go { OnOk result (to_go core.new < to_go core.old) }
    ensures notes { Appends notes.old notes.new }
    ensures octets { Goes result core.old notes.old core.new notes.new }
{
    match core.flows.step(course.flow)? {
        Outcome::Moved(moved) => go_on(core, course, tried, moved, notes),
        Outcome::TooLarge => overfull(core, course, tried, notes),
        Outcome::Still => stop(core, course, tried, notes),
    }
}

// A flow without octets has nothing to move, and a drain brings it none: it isn't looked at once more. Its connections are
// drained, the one that it goes to first and at once.
#[inline(always)]
pub(crate) fn drain_both(
    core: &mut WireCore,
    course: Course,
    notes: &mut Notes,
) -> Result<(), NoMemory>
    requires sound { IsSound core.old }
    ensures sound { OnOk result (IsSound core.new) }
    ensures go { OnOk result (to_go core.new ≤ to_go core.old + 2) }
    ensures notes { Appends notes.old notes.new }
    ensures octets { Goes result core.old notes.old core.new notes.new }
{
    let from = next_from(core, course.from);
    match unit_to(core, course.to) {
        Some((to, unit)) => {
            ask_drain(core, from)?;
            drain_by(core, to, unit, notes)
        }
        None => drain_at(core, from, notes),
    }
}

// The connection that is to be drained next, if there is one: none where that is what goes on next.
pub(crate) fn next_from(core: &WireCore, conn: Option<u32>) -> Option<u32> {
    match (core.agenda.top(), conn) {
        (Some(Task::AskDrain(next)), Some(conn)) if next == conn => None,
        _ => conn,
    }
}

// A Hold can't take the body of a flow.
fn overfull(
    core: &mut WireCore,
    course: Course,
    tried: bool,
    notes: &mut Notes,
) -> Result<(), NoMemory>
    requires sound { IsSound core.old }
    requires top { top_go core.old.agenda ≡ (if tried then 1 else 6) }
    ensures sound { OnOk result (IsSound core.new) }
    ensures go { OnOk result (to_go core.new < to_go core.old) }
    ensures notes { Appends notes.old notes.new }
    ensures octets { Goes result core.old notes.old core.new notes.new }
{
    if core.flows.is_live(course.flow.exchange) {
        return too_large(core, course, notes);
    }
    stop(core, course, tried, notes)
}

// Nothing may move: it is looked at once more, unless it has been.
fn stop(core: &mut WireCore, course: Course, tried: bool, notes: &mut Notes) -> Result<(), NoMemory>
    requires sound { IsSound core.old }
    requires top { top_go core.old.agenda ≡ (if tried then 1 else 6) }
    ensures sound { OnOk result (IsSound core.new) }
    ensures go { OnOk result (to_go core.new < to_go core.old) }
    ensures notes { Appends notes.old notes.new }
    ensures octets { Goes result core.old notes.old core.new notes.new }
{
    if tried {
        core.end_task();
        return Ok(());
    }
    stand_still(core, course, notes)
}

// Nothing may move: where something may be framed at one of its connections, they are drained, the one that the flow goes to
// first and at once, and then it is looked at once more. Else the run has ended.
fn stand_still(core: &mut WireCore, course: Course, notes: &mut Notes) -> Result<(), NoMemory>
    requires sound { IsSound core.old }
    requires top { top_go core.old.agenda ≡ 6 }
    ensures sound { OnOk result (IsSound core.new) }
    ensures go { OnOk result (to_go core.new < to_go core.old) }
    ensures notes { Appends notes.old notes.new }
    ensures octets { Goes result core.old notes.old core.new notes.new }
{
    if let Some((to, unit)) = unit_to(core, course.to) {
        look_again(core, course)?;
        return drain_by(core, to, unit, notes);
    }
    if may_frame(core, course.from) {
        return look_again(core, course);
    }
    core.end_task();
    Ok(())
}

// The flow is looked at once more, behind a drain of the connection that it comes from.
fn look_again(core: &mut WireCore, course: Course) -> Result<(), NoMemory>
    requires sound { IsSound core.old }
    requires top { top_go core.old.agenda ≡ 6 }
    ensures sound { OnOk result (IsSound core.new) }
    ensures go { OnOk result (to_go core.new < to_go core.old) }
    ensures octets { KeepsOk result core.old core.new }
{
    core.go_on(Task::Run {
        course,
        tried: true,
    })?;
    ask_drain(core, course.from)
}

// What goes next at a connection, if there is one, with its number.
fn unit_to(core: &mut WireCore, conn: Option<u32>) -> Option<(u32, NextUnit)>
    requires sound { IsSound core.old }
    ensures sound { IsSound core.new }
    ensures go { to_go core.new ≤ to_go core.old }
    ensures rest { core.new ≡ record core.old { conns = core.new.conns } }
    ensures octets { Keeps core.old core.new }
{
    let number = conn?;
    if core.stirred.is_calm(number) {
        return None;
    }
    let unit = next_unit(core, number)?;
    Some((number, unit))
}

// Whether something may be framed at a connection, if there is one.
fn may_frame(core: &mut WireCore, conn: Option<u32>) -> bool
    requires sound { IsSound core.old }
    ensures sound { IsSound core.new }
    ensures go { to_go core.new ≤ to_go core.old }
    ensures rest { core.new ≡ record core.old { conns = core.new.conns; stirred = core.new.stirred } }
    ensures octets { Keeps core.old core.new }
{
    match conn {
        Some(conn) => !core.stirred.is_calm(conn) && core.may_frame(conn),
        None => false,
    }
}

/// A connection, if there is one, is to be drained.
pub(crate) fn ask_drain(core: &mut WireCore, conn: Option<u32>) -> Result<(), NoMemory>
    requires sound { IsSound core.old }
    ensures sound { OnOk result (IsSound core.new) }
    ensures go { OnOk result (to_go core.new ≤ to_go core.old + 2) }
    ensures rest { core.new ≡ record core.old { agenda = core.new.agenda } }
    ensures octets { KeepsOk result core.old core.new }
{
    match conn {
        Some(conn) => core.begin(Task::AskDrain(conn)),
        None => Ok(()),
    }
}

// A Hold can't take the body: the exchange is doomed.
fn too_large(core: &mut WireCore, course: Course, notes: &mut Notes) -> Result<(), NoMemory>
    requires sound { IsSound core.old }
    requires top { 1 ≤ top_go core.old.agenda }
    requires live { is_live_in core.old.flows course.flow.exchange ≡ true }
    ensures sound { OnOk result (IsSound core.new) }
    ensures go { OnOk result (to_go core.new < to_go core.old) }
    ensures notes { Appends notes.old notes.new }
    ensures octets { Goes result core.old notes.old core.new notes.new }
{
    core.go_on(Task::Run {
        course,
        tried: false,
    })?;
    ask_drain(core, course.to)?;
    doom(
        core,
        course.flow.exchange,
        Cause::TooLarge,
        Origin::of(course.flow),
        notes,
    )
}
