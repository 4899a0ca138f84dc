// What follows a dispatch: connections that are done with are closed, and the journal is handed its notes.
ghost use Rattle.flow_notes.specs.Event.{IsEvent};
ghost use Rattle.flow_notes.specs.Passages.{notes_of_passage};
ghost use Rattle.shared_state.specs.PermitSeats.{view};
ghost use Rattle.std.specs.Prelude.{◌∷◌, ◌≡◌, ◌≤◌, []};
ghost use Rattle.worker_core.specs.Sessions.{RestsWire};
ghost use Rattle.worker_loop.specs.Carrying.{is_done, named_in};
ghost use Rattle.worker_loop.specs.Clauses.{CarriesAs, EndsAll, EndsOne, numbers_in};
ghost use Rattle.worker_loop.specs.Keeping.{Holds, Keeps, Rises};
ghost use Rattle.worker_loop.specs.Places.{place_of};

use crate::events::{Pad, dispatch};
use crate::turns::Ended;
use flow_notes::{Event, Names, Note, Notes, Passage};
use shared_state::{PermitSeat, Permits};
use wire_state::CarryOut;
use worker_core::Core;
use worker_parts::{HeldPermits, Journal};
use worker_ports::Wires;

/// Writes an event's line, dispatches it, closes the connections that are done with by it, and hands its notes to the journal.
#[tactic(none)]
pub(crate) fn carry_out<W: Wires, J: Journal, D: CarryOut>(
    carry: &D,
    core: &mut Core,
    permits: &Permits,
    seat: &mut PermitSeat,
    held: &mut HeldPermits,
    wires: &mut W,
    journal: &mut J,
    names: &Names,
    pad: &mut Pad,
    event: &Event,
) -> Result<(), Ended>
    requires core { RestsWire core.old.kind }
    requires event { IsEvent names.now event.now }
    requires holds { Holds permits.now seat.old held.old }
    ensures carries { CarriesAs names.now (event.now ∷ []) core.old.kind (place_of (J.contents journal.old) (J.told journal.old) (W.seen wires.old) held.old (view seat.old)) result core.new.kind (place_of (J.contents journal.new) (J.told journal.new) (W.seen wires.new) held.new (view seat.new)) }
    ensures keeps { Keeps permits.now (W.seen wires.old) held.old (view seat.old) (W.seen wires.new) held.new seat.new }
    ensures rises { Rises result (W.faults wires.old) (W.faults wires.new) (J.faults journal.old) (J.faults journal.new) }
{
    dispatch(carry, core, journal, names, pad, event)?;
    settle(core, permits, seat, held, wires, &pad.notes);
    match journal.noted(&mut pad.notes) {
        Ok(()) => Ok(()),
        Err(_) => Err(Ended::Memory),
    }
}

// Ends each connection that is closed, or of which octets left, in these notes, where it is done with.
#[tactic(none)]
fn settle<W: Wires>(
    core: &Core,
    permits: &Permits,
    seat: &mut PermitSeat,
    held: &mut HeldPermits,
    wires: &mut W,
    notes: &Notes,
)
    requires { Holds permits.now seat.old held.old }
    ensures ends { EndsAll core.now.kind notes.now (W.seen wires.old) held.old (view seat.old) (W.seen wires.new) held.new (view seat.new) }
    ensures keeps { Keeps permits.now (W.seen wires.old) held.old (view seat.old) (W.seen wires.new) held.new seat.new }
    ensures no_fall { W.faults wires.old ≤ W.faults wires.new }
{
    for passage in notes.passages() {
        settle_passage(core, permits, seat, held, wires, passage);
    }
}

#[tactic(none)]
fn settle_passage<W: Wires>(
    core: &Core,
    permits: &Permits,
    seat: &mut PermitSeat,
    held: &mut HeldPermits,
    wires: &mut W,
    passage: Passage<'_>,
)
    requires { Holds permits.now seat.old held.old }
    ensures ends { EndsAll core.now.kind (notes_of_passage passage.entry) (W.seen wires.old) held.old (view seat.old) (W.seen wires.new) held.new (view seat.new) }
    ensures keeps { Keeps permits.now (W.seen wires.old) held.old (view seat.old) (W.seen wires.new) held.new seat.new }
    ensures no_fall { W.faults wires.old ≤ W.faults wires.new }
{
    if let Some(conn) = named_by(passage) {
        end_done(core, permits, seat, held, wires, conn);
    }
}

// The connection that is closed, or of which octets left, in a passage.
fn named_by(passage: Passage<'_>) -> Option<u32>
    ensures { named_in (notes_of_passage passage.entry) ≡ numbers_in result }
{
    let Passage::One(note) = passage else {
        return None;
    };
    match note {
        Note::Close { conn, .. } => Some(*conn),
        Note::Out { conn, .. } => Some(*conn),
        _ => None,
    }
}

// A connection that the core has closed, and of which no octets wait any more, is closed, and its permit left.
#[tactic(none)]
fn end_done<W: Wires>(
    core: &Core,
    permits: &Permits,
    seat: &mut PermitSeat,
    held: &mut HeldPermits,
    wires: &mut W,
    conn: u32,
)
    requires { Holds permits.now seat.old held.old }
    ensures ends { EndsOne core.now.kind conn (W.seen wires.old) held.old (view seat.old) (W.seen wires.new) held.new (view seat.new) }
    ensures keeps { Keeps permits.now (W.seen wires.old) held.old (view seat.old) (W.seen wires.new) held.new seat.new }
    ensures no_fall { W.faults wires.old ≤ W.faults wires.new }
{
    if is_done_with(core, conn) {
        wires.close(conn);
        held.leave(permits, seat, conn);
    }
}

// Whether the core has closed a connection, and no octets wait for it.
fn is_done_with(core: &Core, conn: u32) -> bool
    ensures { result ≡ is_done core.now.kind conn }
{
    if !core.closing(conn) {
        return false;
    }
    core.out_front(conn).is_empty()
}
