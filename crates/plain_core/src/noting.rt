// The notes of each small step. Where memory is refused, a front of them stands.
ghost use Rattle.std.specs.Prelude.{◌∷◌, IfOk};
ghost use Rattle.plain_core.specs.Flows.{IsSettled};
ghost use Rattle.plain_core.specs.Noting.{AppendsNotes, AppendsSome, low_of, pauses_of, resumes_of, rise_of};
ghost use Rattle.plain_core.specs.Telling.{TellsUpTo};
ghost use Rattle.flow_gate.specs.Board.{pending_on, watchers_of};

use crate::flows::Flows;
use crate::telling::{Told, next_told};
use flow_gate::{BufferId, FlowId, Gates};
use flow_notes::{Note, Notes};
use io_ports::NoMemory;

/// Writes a pause for each flow that watches the buffer, in the order in which they began to.
pub(crate) fn note_pauses(
    gates: &Gates,
    buffer: BufferId,
    notes: &mut Notes,
) -> Result<(), NoMemory>
    ensures { AppendsNotes notes.old (pauses_of buffer (watchers_of gates.now buffer)) notes.new result }
{
    notes.push_pauses(gates.watchers(buffer), buffer)
}

/// Writes a note and then, where its buffer rose, the pauses.
pub(crate) fn note_and_rise(
    note: Note,
    rose: bool,
    gates: &Gates,
    buffer: BufferId,
    notes: &mut Notes,
) -> Result<(), NoMemory>
    ensures { AppendsNotes notes.old (note ∷ rise_of rose buffer (watchers_of gates.now buffer)) notes.new result }
{
    notes.push(note)?;
    if rose {
        note_pauses(gates, buffer, notes)?;
    }
    Ok(())
}

/// Writes the resume of a send buffer's low, where it drained.
pub(crate) fn note_low(flow: FlowId, drained: bool, notes: &mut Notes) -> Result<(), NoMemory>
    ensures { AppendsNotes notes.old (low_of drained flow) notes.new result }
{
    if drained {
        notes.push(Note::Resume {
            flow,
            buffer: BufferId::Send(flow),
        })?;
    }
    Ok(())
}

/// Writes a resume for each flow that is to be told that the write buffer drained, up to the first that goes on.
pub(crate) fn note_resumes(flows: &Flows, notes: &mut Notes) -> Result<Told, NoMemory>
    requires { IsSettled flows.now }
    ensures told { IfOk result (λ told. TellsUpTo flows.now notes.old told notes.new) }
    ensures front { AppendsSome notes.old (resumes_of (BufferId.Write 0) (pending_on flows.now.gates (BufferId.Write 0))) notes.new }
{
    let told = next_told(flows);
    notes.push_resumes(flows.lows(), told.n, BufferId::Write(0))?;
    Ok(told)
}
