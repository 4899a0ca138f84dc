// Moves: what octets begin that went from one place of a flow to the next.
ghost use Rattle.flow_rules.specs.Pausing.{CanPause};
ghost use Rattle.flow_notes.specs.declared.notes.Note.TheVariants as note;
ghost use Rattle.std.specs.Prelude.{◌≡◌, ◌≤◌, ◌+◌, ◌++◌, ◌∷◌, [], IfSome, OnOk, if◌then◌else◌};
ghost use Rattle.wire_flows.specs.Moves.{IsMove};
ghost use Rattle.wire_state.specs.Agenda.{top_go};
ghost use Rattle.wire_state.specs.Noting.{Appends, crossed_of, late_of, moved_of, pause_of, resume_of};
ghost use Rattle.wire_state.specs.Progress.{to_go};
ghost use Rattle.wire_state.specs.Sound.{IsSound};
ghost use Rattle.wire_state.specs.Worlds.{Goes, KeepsOk, Pays, Settles};

use crate::passes::pass_body;
use crate::runs::ask_drain;
use flow_gate::{BufferId, FlowId};
use flow_notes::{Cause, Note, Notes};
use io_ports::NoMemory;
use wire_ends::{Origin, doom};
use wire_flows::{Moved, Outcome};
use wire_state::{Course, Task, WireCore, note};

/// What a move begins, and its notes.
pub(crate) fn go_on(
    core: &mut WireCore,
    course: Course,
    tried: bool,
    moved: Moved,
    notes: &mut Notes,
) -> Result<(), NoMemory>
    requires sound { IsSound core.old }
    requires top { top_go core.old.agenda ≡ (if tried then 1 else 6) }
    requires moved { IsMove course.flow (Outcome.Moved moved) }
    ensures sound { OnOk result (IsSound core.new) }
    ensures go { OnOk result (to_go core.new ≤ to_go core.old + 11) }
    ensures notes { Appends notes.old notes.new }
    ensures octets { Settles (late_of course.flow moved) result core.old (notes.old ++ moved_of course.flow moved) core.new notes.new }
{
    try_anew(core, course, tried)?;
    owe_moved(core, course, moved)?;
    core.stir_some(course.to)?;
    note(
        notes,
        Note::Move {
            flow: course.flow,
            place: moved.place,
            n: moved.n,
        },
    )?;
    cross(core, course, moved, notes)
}

// The run of a flow goes on as one that hasn't looked once more.
fn try_anew(core: &mut WireCore, course: Course, tried: bool) -> Result<(), NoMemory>
    requires sound { IsSound core.old }
    requires top { top_go core.old.agenda ≡ (if tried then 1 else 6) }
    ensures sound { OnOk result (IsSound core.new) }
    ensures go { OnOk result (to_go core.new ≤ to_go core.old + 5) }
    ensures rest { core.new ≡ record core.old { agenda = core.new.agenda } }
    ensures octets { KeepsOk result core.old core.new }
{
    if tried {
        return core.go_on(Task::Run {
            course,
            tried: false,
        });
    }
    Ok(())
}

// Octets that left the receive buffer are owed to the stream and the connection that they came from.
fn owe_moved(core: &mut WireCore, course: Course, moved: Moved) -> Result<(), NoMemory>
    requires sound { IsSound core.old }
    ensures sound { OnOk result (IsSound core.new) }
    ensures go { OnOk result (to_go core.new ≤ to_go core.old + 1) }
    ensures octets { KeepsOk result core.old core.new }
{
    match course.from {
        Some(from) if moved.place == 0 => owe_from(core, from, course.flow.exchange, moved.n),
        _ => Ok(()),
    }
}

fn owe_from(core: &mut WireCore, from: u32, exchange: u64, n: u32) -> Result<(), NoMemory>
    requires sound { IsSound core.old }
    ensures sound { OnOk result (IsSound core.new) }
    ensures go { OnOk result (to_go core.new ≤ to_go core.old + 1) }
    ensures octets { KeepsOk result core.old core.new }
{
    core.stir(from)?;
    moved_at(core, from, exchange, n)
}

fn moved_at(core: &mut WireCore, number: u32, exchange: u64, n: u32) -> Result<(), NoMemory>
    requires sound { IsSound core.old }
    ensures sound { OnOk result (IsSound core.new) }
    ensures go { OnOk result (to_go core.new ≤ to_go core.old) }
    ensures rest { core.new ≡ record core.old { conns = core.new.conns } }
    ensures octets { KeepsOk result core.old core.new }
{
    match core.conns.get_mut(&number) {
        Some(conn) => conn.moved(exchange, n),
        None => Ok(()),
    }
}

// What a move crossed: the pauses, and then the doom of an overflow, or the telling of a Meter that drained. The connection that
// the flow goes to is drained, behind a doom.
fn cross(
    core: &mut WireCore,
    course: Course,
    moved: Moved,
    notes: &mut Notes,
) -> Result<(), NoMemory>
    requires sound { IsSound core.old }
    requires moved { IsMove course.flow (Outcome.Moved moved) }
    ensures sound { OnOk result (IsSound core.new) }
    ensures go { OnOk result (to_go core.new ≤ to_go core.old + 3) }
    ensures notes { Appends notes.old notes.new }
    ensures octets { Settles (late_of course.flow moved) result core.old (notes.old ++ crossed_of course.flow moved) core.new notes.new }
{
    note_pause(course.flow, moved.rose, notes)?;
    if moved.overflow {
        ask_drain(core, course.to)?;
        let exchange = course.flow.exchange;
        return doom(core, exchange, Cause::Overflow, Origin::Neither, notes);
    }
    resume_where(core, course, moved.drained, notes)?;
    pass_body(core, course, notes)
}

// Where a Meter of a flow has drained, the flow is told.
fn resume_where(
    core: &mut WireCore,
    course: Course,
    drained: Option<BufferId>,
    notes: &mut Notes,
) -> Result<(), NoMemory>
    requires sound { IsSound core.old }
    requires own { IfSome drained (CanPause course.flow) }
    ensures sound { OnOk result (IsSound core.new) }
    ensures go { OnOk result (to_go core.new ≤ to_go core.old) }
    ensures notes { Appends notes.old notes.new }
    ensures octets { Goes result core.old (notes.old ++ resume_of course.flow drained) core.new notes.new }
{
    match drained {
        Some(buffer) => resume(core, course, buffer, notes),
        None => Ok(()),
    }
}

// The buffer of a flow that its octets went to became above.
fn note_pause(flow: FlowId, rose: Option<BufferId>, notes: &mut Notes) -> Result<(), NoMemory>
    requires { IfSome rose (CanPause flow) }
    ensures notes { Appends notes.old notes.new }
    ensures paid { Pays result (pause_of flow rose) notes.old notes.new }
{
    match rose {
        Some(buffer) => note(notes, Note::Pause { flow, buffer }),
        None => Ok(()),
    }
}

// The Meter of a flow has drained, and the flow was told.
fn resume(
    core: &mut WireCore,
    course: Course,
    buffer: BufferId,
    notes: &mut Notes,
) -> Result<(), NoMemory>
    requires sound { IsSound core.old }
    requires own { CanPause course.flow buffer }
    ensures sound { OnOk result (IsSound core.new) }
    ensures go { OnOk result (to_go core.new ≤ to_go core.old) }
    ensures notes { Appends notes.old notes.new }
    ensures octets { Goes result core.old (notes.old ++ note.Resume course.flow buffer ∷ []) core.new notes.new }
{
    let flow = course.flow;
    core.look_due(course)?;
    core.rouse_some(course.from);
    note(notes, Note::Resume { flow, buffer })
}
