// What carries events out, and the notes of small steps. Each of these appends notes that have a spelling and begin no dispatch, also where memory is refused.
ghost use Rattle.std.specs.Prelude.{◌≡◌, ◌++◌, ◌∷◌, [], OnOk};
ghost use Rattle.wire_flows.specs.Writes.{watchers_on};
ghost use Rattle.wire_state.specs.Noting.{Appends, IsStep, answers_of, heads_of, pauses_of};
ghost use Rattle.wire_state.specs.Sound.{IsSound};
ghost use Rattle.wire_state.specs.Worlds.{IsIdle, Pays, Shows, TurnsAnew};

use crate::wire_core::WireCore;
use flow_gate::BufferId;
use flow_notes::{Event, Note, Notes};
use io_ports::{NoMemory, Octets};
use wire_flows::WireFlows;

/// What carries an event out on the core of wire sessions, behind the turn note: its effect, small steps until nothing is left to
/// do, and the sweep. Who drives a core is given one, and so stands on none of what comes in and goes out.
pub trait CarryOut {
    /// Carries the event out, and appends the notes of what is done. The core is sound behind it, unless memory is refused: then
    /// the notes so far stand.
    fn carry_out(
        &self,
        core: &mut WireCore,
        event: &Event,
        notes: &mut Notes,
    ) -> Result<(), NoMemory>
        requires sound { IsSound core.old }
        ensures sound { OnOk result (IsSound core.new) }
        ensures notes { Appends notes.old notes.new }
        ensures octets { TurnsAnew result event.now core.old notes.old core.new notes.new };
}

/// Writes a note.
#[inline(always)]
pub fn note(notes: &mut Notes, note: Note) -> Result<(), NoMemory>
    requires { IsStep note }
    ensures notes { Appends notes.old notes.new }
    ensures told { OnOk result (notes.new ≡ notes.old ++ note ∷ []) }
    ensures paid { Pays result (note ∷ []) notes.old notes.new }
    ensures idle { IsIdle note → Shows result notes.old notes.new }
{
    notes.push(note)
}

/// Writes that control octets went out on a connection. Without octets there is nothing to say.
pub fn note_answer(notes: &mut Notes, conn: u32, octets: Octets) -> Result<(), NoMemory>
    ensures notes { Appends notes.old notes.new }
    ensures told { OnOk result (notes.new ≡ notes.old ++ answers_of conn octets) }
    ensures paid { Pays result (answers_of conn octets) notes.old notes.new }
{
    if octets.is_empty() {
        return Ok(());
    }
    note(notes, Note::Answer { conn, octets })
}

/// Writes that a field block went out on a stream of a connection. Without octets there is nothing to say.
#[inline(always)]
pub fn note_head(notes: &mut Notes, conn: u32, stream: u32, octets: Octets) -> Result<(), NoMemory>
    ensures notes { Appends notes.old notes.new }
    ensures told { OnOk result (notes.new ≡ notes.old ++ heads_of conn stream octets) }
    ensures paid { Pays result (heads_of conn stream octets) notes.old notes.new }
{
    if octets.is_empty() {
        return Ok(());
    }
    note(
        notes,
        Note::Head {
            conn,
            stream,
            octets,
        },
    )
}

/// Writes a pause for each flow that the write buffer of a connection holds back, in the order in which they began to watch it.
pub fn note_pauses(flows: &WireFlows, conn: u32, notes: &mut Notes) -> Result<(), NoMemory>
    ensures notes { Appends notes.old notes.new }
    ensures told { OnOk result (notes.new ≡ notes.old ++ pauses_of conn (watchers_on conn flows.now)) }
    ensures paid { Pays result (pauses_of conn (watchers_on conn flows.now)) notes.old notes.new }
{
    let buffer = BufferId::Write(conn);
    notes.push_pauses(flows.watchers(buffer), buffer)
}
