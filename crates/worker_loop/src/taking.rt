// What the connections tell.
ghost use Rattle.number_set.specs.NumberSet.{has};
ghost use Rattle.shared_state.specs.PermitSeats.{view};
ghost use Rattle.std.specs.Prelude.{◌≡◌, ◌≤◌, ◌⊎◌, IfErr, IfOk, false, length, true, ℕ};
ghost use Rattle.worker_core.specs.Sessions.{RestsWire};
ghost use Rattle.worker_loop.specs.Clauses.{Admits, MayTakeUp, TakesAs, TakesUpAs};
ghost use Rattle.worker_loop.specs.Keeping.{AreUpTo, Holds, Keeps, Permitted, Rises};
ghost use Rattle.worker_loop.specs.Places.{place_of};
ghost use Rattle.worker_loop.specs.Turns as spec;
ghost use Rattle.worker_loop.specs.declared.turns.Ended.TheVariants as ended;
ghost use Rattle.worker_ports.specs.declared.wires.Wired.TheVariants as wired;

use crate::events::Pad;
use crate::settling::carry_out;
use crate::turns::Ended;
use flow_notes::{Event, Names};
use shared_state::{PermitSeat, Permits};
use wire_state::CarryOut;
use worker_core::Core;
use worker_parts::{HeldPermits, Journal};
use worker_ports::{WireRefusal, Wired, Wires};

/// Takes what came next, and dispatches its event. Answers whether the worker is to stop.
#[tactic(none)]
pub(crate) fn take_next<W: Wires, J: Journal, D: CarryOut>(
    carry: &D,
    core: &mut Core,
    permits: &Permits,
    seat: &mut PermitSeat,
    held: &mut HeldPermits,
    wires: &mut W,
    journal: &mut J,
    names: &Names,
    pad: &mut Pad,
) -> Result<bool, Ended>
    requires core { RestsWire core.old.kind }
    requires holds { Holds permits.now seat.old held.old }
    requires names { (W.seen wires.old).clusters ≡ length names.now }
    requires below { AreUpTo (W.seen wires.old).greatest held.old }
    ensures takes { TakesAs names.now core.old.kind (place_of (J.contents journal.old) (J.told journal.old) (W.seen wires.old) held.old (view seat.old)) result core.new.kind (place_of (J.contents journal.new) (J.told journal.new) (W.seen wires.new) held.new (view seat.new)) }
    ensures keeps { Keeps permits.now (W.seen wires.old) held.old (view seat.old) (W.seen wires.new) held.new seat.new }
    ensures rises { Rises result (W.faults wires.old) (W.faults wires.new) (J.faults journal.old) (J.faults journal.new) }
{
    let given = match wires.next() {
        Ok(given) => given,
        Err(WireRefusal::Failed) => return Err(Ended::WiresFault),
        Err(WireRefusal::NoMemory) => return Err(Ended::Memory),
    };
    let stops = is_stop(&given);
    take_up(
        carry, core, permits, seat, held, wires, journal, names, pad, given,
    )?;
    Ok(stops)
}

fn is_stop(given: &Wired) -> bool
    ensures { result ≡ spec.is_stop given.now }
{
    matches!(given, Wired::Stop)
}

// Dispatches the event of what was given.
#[tactic(none)]
fn take_up<W: Wires, J: Journal, D: CarryOut>(
    carry: &D,
    core: &mut Core,
    permits: &Permits,
    seat: &mut PermitSeat,
    held: &mut HeldPermits,
    wires: &mut W,
    journal: &mut J,
    names: &Names,
    pad: &mut Pad,
    given: Wired,
) -> Result<(), Ended>
    requires core { RestsWire core.old.kind }
    requires holds { Holds permits.now seat.old held.old }
    requires given { MayTakeUp names.now (W.seen wires.old) held.old given }
    ensures takes { TakesUpAs names.now given core.old.kind (place_of (J.contents journal.old) (J.told journal.old) (W.seen wires.old) held.old (view seat.old)) result core.new.kind (place_of (J.contents journal.new) (J.told journal.new) (W.seen wires.new) held.new (view seat.new)) }
    ensures keeps { Keeps permits.now (W.seen wires.old) held.old (view seat.old) (W.seen wires.new) held.new seat.new }
    ensures rises { Rises result (W.faults wires.old) (W.faults wires.new) (J.faults journal.old) (J.faults journal.new) }
{
    match given {
        Wired::Accept(conn) => let_in(
            carry, core, permits, seat, held, wires, journal, names, pad, conn,
        ),
        Wired::Join(conn, cluster) => {
            let event = Event::Join { conn, cluster };
            carry_out(
                carry, core, permits, seat, held, wires, journal, names, pad, &event,
            )
        }
        Wired::Read(conn, octets) => {
            let event = Event::Read { conn, octets };
            carry_out(
                carry, core, permits, seat, held, wires, journal, names, pad, &event,
            )
        }
        Wired::Lost(conn) => {
            held.leave(permits, seat, conn);
            let event = Event::Gone { conn };
            carry_out(
                carry, core, permits, seat, held, wires, journal, names, pad, &event,
            )
        }
        Wired::Idle => Ok(()),
        Wired::Stop => Ok(()),
    }
}

// Dispatches the accept of a client's connection, or closes the connection where it isn't taken.
#[tactic(none)]
fn let_in<W: Wires, J: Journal, D: CarryOut>(
    carry: &D,
    core: &mut Core,
    permits: &Permits,
    seat: &mut PermitSeat,
    held: &mut HeldPermits,
    wires: &mut W,
    journal: &mut J,
    names: &Names,
    pad: &mut Pad,
    conn: u32,
) -> Result<(), Ended>
    requires core { RestsWire core.old.kind }
    requires holds { Holds permits.now seat.old held.old }
    requires none { has held.old conn ≡ false }
    requires came { conn ≤ (W.seen wires.old).greatest }
    ensures takes { TakesUpAs names.now (wired.Accept conn) core.old.kind (place_of (J.contents journal.old) (J.told journal.old) (W.seen wires.old) held.old (view seat.old)) result core.new.kind (place_of (J.contents journal.new) (J.told journal.new) (W.seen wires.new) held.new (view seat.new)) }
    ensures keeps { Keeps permits.now (W.seen wires.old) held.old (view seat.old) (W.seen wires.new) held.new seat.new }
    ensures rises { Rises result (W.faults wires.old) (W.faults wires.new) (J.faults journal.old) (J.faults journal.new) }
{
    let taken = admits(core, permits, seat, held, conn)?;
    if !taken {
        wires.close(conn);
        return Ok(());
    }
    let event = Event::Accept { conn };
    carry_out(
        carry, core, permits, seat, held, wires, journal, names, pad, &event,
    )
}

// Whether a client's connection is taken: the core takes some, and there is a permit for it, which it has from now on.
#[tactic(none)]
fn admits(
    core: &Core,
    permits: &Permits,
    seat: &mut PermitSeat,
    held: &mut HeldPermits,
    conn: u32,
) -> Result<bool, Ended>
    requires holds { Holds permits.now seat.old held.old }
    requires none { has held.old conn ≡ false }
    ensures admits { IfOk result (λ taken. Admits core.now.kind permits.now conn (view seat.old) held.old taken (view seat.new) held.new) }
    ensures holds { Holds permits.now seat.new held.new }
    ensures permitted { Permitted held.old (view seat.old) held.new (view seat.new) }
    ensures more { (c : ℕ) → has held.new c ≡ true → (c ≡ conn) ⊎ (has held.old c ≡ true) }
    ensures err { IfErr result (λ end. (end ≡ ended.Memory) × (seat.new ≡ seat.old) × (held.new ≡ held.old)) }
{
    if !core.takes_accepts() {
        return Ok(false);
    }
    match held.enter(permits, seat, conn) {
        Ok(taken) => Ok(taken),
        Err(_) => Err(Ended::Memory),
    }
}
