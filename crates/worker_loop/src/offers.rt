// Offering what waits for the connections.
ghost use Rattle.shared_state.specs.PermitSeats.{view};
ghost use Rattle.std.specs.Prelude.{◌<◌, ◌≡◌, ◌≤◌, ◌^◌, length, take};
ghost use Rattle.worker_core.specs.Sessions.{RestsWire};
ghost use Rattle.worker_loop.specs.Clauses.{OffersAllAs, OffersAs};
ghost use Rattle.worker_loop.specs.Keeping.{Holds, Keeps, Rises};
ghost use Rattle.worker_loop.specs.Places.{place_of};

use crate::events::Pad;
use crate::settling::carry_out;
use crate::turns::Ended;
use flow_notes::{Event, Names};
use io_ports::Failed;
use shared_state::{PermitSeat, Permits};
use wire_state::CarryOut;
use worker_core::Core;
use worker_parts::{HeldPermits, Journal};
use worker_ports::Wires;

/// How many octets are offered at once at most, as an event of room tells it.
const MOST_ROOM: usize = 2_147_483_647;

/// Offers what waits, once to each connection, by their numbers. What a connection took is dispatched as room.
#[tactic(none)]
pub(crate) fn offer_all<W: Wires, J: Journal, D: CarryOut>(
    carry: &D,
    core: &mut Core,
    permits: &Permits,
    seat: &mut PermitSeat,
    held: &mut HeldPermits,
    wires: &mut W,
    journal: &mut J,
    names: &Names,
    pad: &mut Pad,
) -> Result<(), Ended>
    requires core { RestsWire core.old.kind }
    requires holds { Holds permits.now seat.old held.old }
    ensures offers { OffersAllAs names.now core.old.kind (place_of (J.contents journal.old) (J.told journal.old) (W.seen wires.old) held.old (view seat.old)) result core.new.kind (place_of (J.contents journal.new) (J.told journal.new) (W.seen wires.new) held.new (view seat.new)) }
    ensures keeps { Keeps permits.now (W.seen wires.old) held.old (view seat.old) (W.seen wires.new) held.new seat.new }
    ensures rises { Rises result (W.faults wires.old) (W.faults wires.new) (J.faults journal.old) (J.faults journal.new) }
{
    let mut last = 0;
    while let Some(conn) = core.out_after(last) {
        offer_one(
            carry, core, permits, seat, held, wires, journal, names, pad, conn,
        )?;
        last = conn;
    }
    Ok(())
}

// Offers a front of what waits for a connection, and dispatches what it took.
#[tactic(none)]
fn offer_one<W: Wires, J: Journal, D: CarryOut>(
    carry: &D,
    core: &mut Core,
    permits: &Permits,
    seat: &mut PermitSeat,
    held: &mut HeldPermits,
    wires: &mut W,
    journal: &mut J,
    names: &Names,
    pad: &mut Pad,
    conn: u32,
) -> Result<(), Ended>
    requires core { RestsWire core.old.kind }
    requires holds { Holds permits.now seat.old held.old }
    ensures fits { conn < 2 ^ 32 }
    ensures offers { OffersAs names.now conn core.old.kind (place_of (J.contents journal.old) (J.told journal.old) (W.seen wires.old) held.old (view seat.old)) result core.new.kind (place_of (J.contents journal.new) (J.told journal.new) (W.seen wires.new) held.new (view seat.new)) }
    ensures keeps { Keeps permits.now (W.seen wires.old) held.old (view seat.old) (W.seen wires.new) held.new seat.new }
    ensures rises { Rises result (W.faults wires.old) (W.faults wires.new) (J.faults journal.old) (J.faults journal.new) }
{
    let front = first_of(core.out_front(conn));
    if front.is_empty() {
        return Ok(());
    }
    let took = match wires.offer(conn, front) {
        Ok(took) => took,
        Err(Failed) => return Err(Ended::WiresFault),
    };
    if took == 0 {
        return Ok(());
    }
    let event = Event::Room {
        conn,
        n: took as u32,
    };
    carry_out(
        carry, core, permits, seat, held, wires, journal, names, pad, &event,
    )
}

// As much of a front as may leave at once.
fn first_of(front: &[u8]) -> &[u8]
    ensures is { result.now ≡ take (length result.now) front.now }
    ensures some { 0 < length front.now → 0 < length result.now }
    ensures most { length result.now ≤ 2147483647 }
{
    &front[..front.len().min(MOST_ROOM)]
}
