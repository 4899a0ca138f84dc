// Small steps.
ghost use Rattle.std.specs.Prelude.{◌≡◌, ◌<◌, [], IfOk, OnOk, Some, false, true};
ghost use Rattle.wire_flows.specs.Writes.{lows_on};
ghost use Rattle.wire_state.specs.Agenda.{top_go};
ghost use Rattle.wire_state.specs.Noting.{Appends};
ghost use Rattle.wire_state.specs.Progress.{task_go, to_go};
ghost use Rattle.wire_state.specs.Sound.{IsSound};
ghost use Rattle.wire_state.specs.Worlds.{Goes, KeepsOk, TellsAll};

use crate::rounds::next_round;
use flow_notes::Notes;
use io_ports::NoMemory;
use wire_ends::{close_task, doom_task, end, losses};
use wire_in::{read, waste};
use wire_out::{ask_drain, ask_run, drain, run, tell};
use wire_state::{Task, WireCore};
use wire_turns::{drains, fire, fires, resets, ticks};

/// Small steps until nothing is under way and no connection has anything to do. Where the event may have eased the write buffer of
/// a connection, the flows that go there are told first.
pub(crate) fn settle(
    core: &mut WireCore,
    eased: Option<u32>,
    notes: &mut Notes,
) -> Result<(), NoMemory>
    requires sound { IsSound core.old }
    ensures sound { OnOk result (IsSound core.new) }
    ensures notes { Appends notes.old notes.new }
    ensures octets { TellsAll eased result core.old notes.old core.new notes.new }
{
    match eased {
        Some(conn) => tell_all(core, conn, notes),
        None => go_to_rest(core, notes),
    }
}

fn go_to_rest(core: &mut WireCore, notes: &mut Notes) -> Result<(), NoMemory>
    requires sound { IsSound core.old }
    ensures sound { OnOk result (IsSound core.new) }
    ensures notes { Appends notes.old notes.new }
    ensures octets { Goes result core.old notes.old core.new notes.new }
{
    while go_on(core, notes)? {}
    Ok(())
}

// The flows that go to a connection are told one after the other that its write buffer drained, each once nothing is under way.
fn tell_all(core: &mut WireCore, conn: u32, notes: &mut Notes) -> Result<(), NoMemory>
    requires sound { IsSound core.old }
    ensures sound { OnOk result (IsSound core.new) }
    ensures notes { Appends notes.old notes.new }
    ensures octets { TellsAll (Some conn) result core.old notes.old core.new notes.new }
{
    while tell_next(core, conn, notes)? {}
    drain_told(core, conn, notes)
}

// The flows that go to a connection were told: it is drained, and small steps go on until nothing is under way.
fn drain_told(core: &mut WireCore, conn: u32, notes: &mut Notes) -> Result<(), NoMemory>
    requires sound { IsSound core.old }
    requires told { lows_on conn core.old.flows ≡ [] }
    ensures sound { OnOk result (IsSound core.new) }
    ensures notes { Appends notes.old notes.new }
    ensures octets { TellsAll (Some conn) result core.old notes.old core.new notes.new }
{
    drain_where(core, conn)?;
    go_to_rest(core, notes)
}

// Units are framed at a connection next, if there are any.
fn drain_where(core: &mut WireCore, conn: u32) -> Result<(), NoMemory>
    requires sound { IsSound core.old }
    ensures sound { OnOk result (IsSound core.new) }
    ensures octets { KeepsOk result core.old core.new }
{
    if core.may_frame(conn) {
        return core.begin(Task::AskDrain(conn));
    }
    Ok(())
}

// One small step, or the next flow is told. The answer is false where there was nothing to do.
#[tactic(auto, using(crate::proofs::Agendas::top_weight))]
fn tell_next(core: &mut WireCore, conn: u32, notes: &mut Notes) -> Result<bool, NoMemory>
    requires sound { IsSound core.old }
    ensures sound { OnOk result (IsSound core.new) }
    ensures go { IfOk result (λ more. more ≡ true → to_go core.new < to_go core.old) }
    ensures notes { Appends notes.old notes.new }
    ensures told { IfOk result (λ more. more ≡ false → lows_on conn core.new.flows ≡ []) }
    ensures octets { Goes result core.old notes.old core.new notes.new }
{
    match core.agenda.top() {
        Some(task) => {
            step(core, task, notes)?;
            Ok(true)
        }
        None => tell(core, conn, notes),
    }
}

// One small step. The answer is false where there was nothing to do.
#[tactic(auto, using(crate::proofs::Agendas::top_weight))]
fn go_on(core: &mut WireCore, notes: &mut Notes) -> Result<bool, NoMemory>
    requires sound { IsSound core.old }
    ensures sound { OnOk result (IsSound core.new) }
    ensures go { IfOk result (λ more. more ≡ true → to_go core.new < to_go core.old) }
    ensures notes { Appends notes.old notes.new }
    ensures octets { Goes result core.old notes.old core.new notes.new }
{
    match core.agenda.top() {
        Some(task) => {
            step_often(core, task, notes)?;
            Ok(true)
        }
        None => next_round(core, notes),
    }
}

// As `step`. The tasks that each exchange has are looked at first and within the loop of the steps, so that the others, and what they
// keep on the stack, cost those nothing.
#[inline(always)]
fn step_often(core: &mut WireCore, task: Task, notes: &mut Notes) -> Result<(), NoMemory>
    requires sound { IsSound core.old }
    requires top { top_go core.old.agenda ≡ task_go task }
    ensures sound { OnOk result (IsSound core.new) }
    ensures go { OnOk result (to_go core.new < to_go core.old) }
    ensures notes { Appends notes.old notes.new }
    ensures octets { Goes result core.old notes.old core.new notes.new }
{
    match task {
        Task::AskDrain(conn) => ask_drain(core, conn, notes),
        Task::AskRun(course) => ask_run(core, course, notes),
        Task::Read(conn) => read(core, conn, notes),
        task => step(core, task, notes),
    }
}

// One small step of the task on top.
#[inline(never)]
fn step(core: &mut WireCore, task: Task, notes: &mut Notes) -> Result<(), NoMemory>
    requires sound { IsSound core.old }
    requires top { top_go core.old.agenda ≡ task_go task }
    ensures sound { OnOk result (IsSound core.new) }
    ensures go { OnOk result (to_go core.new < to_go core.old) }
    ensures notes { Appends notes.old notes.new }
    ensures octets { Goes result core.old notes.old core.new notes.new }
{
    match task {
        Task::AskDrain(conn) => ask_drain(core, conn, notes),
        Task::Drain(conn) => drain(core, conn, notes),
        Task::AskRun(course) => ask_run(core, course, notes),
        Task::Run { course, tried } => run(core, course, tried, notes),
        Task::End(exchange) => end(core, exchange, notes),
        Task::Doom { exchange, cause } => doom_task(core, exchange, cause, notes),
        Task::Close { conn, code, cause } => close_task(core, conn, code, cause, notes),
        Task::Losses { conn, last } => losses(core, conn, last, notes),
        Task::Read(conn) => read(core, conn, notes),
        Task::Waste { conn, stream, n } => waste(core, conn, stream, n, notes),
        Task::Ticks { exchange, back } => ticks(core, exchange, back),
        Task::Fires => fires(core),
        Task::Fire => fire(core, notes),
        Task::Resets(left) => resets(core, left, notes),
        Task::Drains(after) => drains(core, after),
    }
}
