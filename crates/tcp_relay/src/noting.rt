// The notes of what an event did.
ghost use Rattle.std.specs.Prelude.{[], ◌∷◌};
ghost use Rattle.tcp_relay.specs.Effects.{arrival_of, drained_of, leaving_of, loss_of, notes_of, pause_of};
ghost use Rattle.tcp_relay.specs.Noting.{AppendsNotes};

use crate::effect::{Effect, Ended, Left};
use flow_gate::{BufferId, FlowId};
use flow_notes::{Cause, CloseCause, Event, Note, Notes};
use io_ports::{NoMemory, Octets};
use std::alloc::Global;

/// Writes the notes behind the turn note. Where memory is refused, those so far stand.
pub(crate) fn note_effect(
    alloc: Global,
    event: &Event,
    effect: Effect,
    notes: &mut Notes,
) -> Result<(), NoMemory>
    ensures { AppendsNotes notes.old (notes_of event.now effect) notes.new result }
{
    match effect {
        Effect::Nothing => Ok(()),
        Effect::Paired { exchange, conn, to } => notes.push(Note::Start {
            exchange,
            conn,
            stream: 0,
            to,
        }),
        Effect::Refused { conn } => note_close(conn, CloseCause::Overload, notes),
        Effect::Carried { flow, to, rose } => {
            note_arrival(alloc, event, flow, notes)?;
            note_pause(flow, to, rose, notes)
        }
        Effect::Left(left) => note_leaving(left, notes),
        Effect::Lost { conn, ended } => note_loss(conn, ended, notes),
    }
}

// The octets of a read arrive.
fn note_arrival(
    alloc: Global,
    event: &Event,
    flow: FlowId,
    notes: &mut Notes,
) -> Result<(), NoMemory>
    ensures { AppendsNotes notes.old (arrival_of event.now flow) notes.new result }
{
    let Event::Read { octets, .. } = event else {
        return Ok(());
    };
    notes.push(Note::Arrive {
        flow,
        octets: Octets::from_slice(alloc, octets.as_slice())?,
    })
}

// The flow is paused, where the write buffer that it goes to rose.
fn note_pause(flow: FlowId, to: u32, rose: bool, notes: &mut Notes) -> Result<(), NoMemory>
    ensures { AppendsNotes notes.old (pause_of rose flow to) notes.new result }
{
    if !rose {
        return Ok(());
    }
    notes.push(Note::Pause {
        flow,
        buffer: BufferId::Write(to),
    })
}

fn note_close(conn: u32, cause: CloseCause, notes: &mut Notes) -> Result<(), NoMemory>
    ensures { AppendsNotes notes.old (Note.Close conn 0 cause ∷ []) notes.new result }
{
    notes.push(Note::Close {
        conn,
        code: 0,
        cause,
    })
}

// The connection is closed as drained, if it is.
fn note_drained(conn: u32, closed: bool, notes: &mut Notes) -> Result<(), NoMemory>
    ensures { AppendsNotes notes.old (drained_of closed conn) notes.new result }
{
    if !closed {
        return Ok(());
    }
    note_close(conn, CloseCause::Drained, notes)
}

// Octets leave, and what follows from that.
fn note_leaving(left: Left, notes: &mut Notes) -> Result<(), NoMemory>
    ensures { AppendsNotes notes.old (leaving_of left) notes.new result }
{
    let Left { conn, n, .. } = left;
    notes.push(Note::Out { conn, n })?;
    if let Some(flow) = left.resumed {
        notes.push(Note::Resume {
            flow,
            buffer: BufferId::Write(conn),
        })?;
    }
    note_drained(conn, left.closed, notes)
}

// The connection is lost, and its pair, if it was in one, is doomed and gone.
fn note_loss(conn: u32, ended: Option<Ended>, notes: &mut Notes) -> Result<(), NoMemory>
    ensures { AppendsNotes notes.old (loss_of conn ended) notes.new result }
{
    note_close(conn, CloseCause::Lost, notes)?;
    let Some(ended) = ended else {
        return Ok(());
    };
    let exchange = ended.exchange;
    let cause = Cause::ConnLost { conn };
    notes.push(Note::Doom { exchange, cause })?;
    notes.push(Note::Gone { exchange })?;
    note_drained(ended.other, ended.closed, notes)
}
