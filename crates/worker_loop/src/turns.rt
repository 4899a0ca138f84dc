// The turns of a live worker.
ghost use Rattle.io_ports.specs.Faults.{Rose};
ghost use Rattle.post_queue.specs.Clauses.{IsRunnerOf};
ghost use Rattle.post_queue.specs.Pass as hands;
ghost use Rattle.post_queue.specs.Posts.{IsAllowed};
ghost use Rattle.shared_state.specs.Following.{looks};
ghost use Rattle.shared_state.specs.PermitSeats.{view};
ghost use Rattle.std.specs.Prelude.{◌<◌, ◌^◌, ◌∷◌, ◌≡◌, ◌≢◌, All, IfSome, [], length};
ghost use Rattle.worker_core.specs.Sessions.{RestsWire};
ghost use Rattle.worker_loop.specs.Carrying.{obeys, post_event};
ghost use Rattle.worker_loop.specs.Clauses.{CarriesAs, RunsAs, TurnsAs};
ghost use Rattle.worker_loop.specs.Keeping.{AreUpTo, Holds, Keeps, Rises};
ghost use Rattle.worker_loop.specs.Parts.{AtWires, InTurns, InWorld, Lines, Tape};
ghost use Rattle.worker_loop.specs.Places.{place_of};
ghost use Rattle.worker_loop.specs.Turns.{sides_of};
ghost use Rattle.worker_loop.specs.Works.{Works};
ghost use Rattle.worker_loop.specs.declared.turns.Ended.TheVariants as ended;

use crate::events::Pad;
use crate::offers::offer_all;
use crate::settling::carry_out;
use crate::taking::take_next;
use flow_notes::{Event, Names};
use io_ports::NoMemory;
use post_queue::{Post, PostBox, RunnerPass};
use shared_state::{Follower, PermitSeat, Permits, Snapshot};
use std::alloc::Global;
use std::sync::Wait;
use wire_state::CarryOut;
use worker_core::Core;
use worker_parts::{HeldPermits, Journal};
use worker_ports::{Clock, Gate, Wires};

/// How the work of a worker ended.
#[derive(Clone, Copy, PartialEq, Eq)]
pub enum Ended {
    /// After all its turns, in none of which it was to stop.
    Turns,
    /// At the end of a turn in which it was to stop.
    Stopped,
    /// The connections failed.
    WiresFault,
    /// The journal failed. The event whose line wasn't written whole wasn't dispatched.
    JournalFault,
    /// Out of memory.
    Memory,
}

impl From<NoMemory> for Ended {
    ghost from_gives = { λ _ end. end ≡ ended.Memory };

    fn from(_: NoMemory) -> Self {
        Ended::Memory
    }
}

/// Runs so many turns. In each the gate is passed, with the number of the turn; the clock is asked, and its moment dispatched; the
/// box is drained once, and each post dispatched; the follower is asked once for what is newer than what the core obeyed last, and
/// that is obeyed; the connections are asked once what came, and that is dispatched; then, by their numbers,
/// each connection for which octets wait is offered a front of them once, and what it took is dispatched as room. An event's
/// line is written to the journal before the event is dispatched, and its notes are handed over once it is.
///
/// A client's connection that the core doesn't take or for which there is no permit is closed, and nothing is dispatched.
/// Connections that the core has closed are closed once no octets wait for them. A permit is left when its connection is lost
/// or closed. After a turn in which the worker is to stop the work ends.
#[tactic(none)]
pub fn work<R: Wait, W: Wires, C: Clock, G: Gate, J: Journal, D: CarryOut>(
    rt: &R,
    alloc: Global,
    carry: &D,
    core: &mut Core,
    posts: &PostBox,
    pass: &mut RunnerPass,
    follower: &mut Follower,
    permits: &Permits,
    seat: &mut PermitSeat,
    held: &mut HeldPermits,
    wires: &mut W,
    clock: &mut C,
    gate: &mut G,
    journal: &mut J,
    names: &Names,
    turns: u64,
) -> Ended
    requires core { RestsWire core.old.kind }
    requires holds { Holds permits.now seat.old held.old }
    requires pass { IsRunnerOf posts.now pass.old }
    requires names { (W.seen wires.old).clusters ≡ length names.now }
    requires below { AreUpTo (W.seen wires.old).greatest held.old }
    ensures works { Works names.now turns (sides_of (C.moments clock.old) (hands.view pass.old.pass) (looks follower.old) follower.old.kept) core.old.kind (place_of (J.contents journal.old) (J.told journal.old) (W.seen wires.old) held.old (view seat.old)) result (sides_of (C.moments clock.new) (hands.view pass.new.pass) (looks follower.new) follower.new.kept) core.new.kind (place_of (J.contents journal.new) (J.told journal.new) (W.seen wires.new) held.new (view seat.new)) }
    ensures core { result ≢ ended.Memory → RestsWire core.new.kind }
    ensures pass { IsRunnerOf posts.now pass.new }
    ensures keeps { Keeps permits.now (W.seen wires.old) held.old (view seat.old) (W.seen wires.new) held.new seat.new }
    ensures lines { Lines names.now result (J.contents journal.old) (J.contents journal.new) (J.told journal.old) (J.told journal.new) }
    ensures tape { Tape result core.old.kind core.new.kind (J.told journal.old) (J.told journal.new) }
    ensures wires { AtWires result (W.seen wires.old) (W.seen wires.new) (J.told journal.old) (J.told journal.new) }
    ensures octets { InWorld result core.old.kind core.new.kind (W.seen wires.old) (W.seen wires.new) (J.told journal.old) (J.told journal.new) }
    ensures turns { InTurns turns result (sides_of (C.moments clock.old) (hands.view pass.old.pass) (looks follower.old) follower.old.kept) (sides_of (C.moments clock.new) (hands.view pass.new.pass) (looks follower.new) follower.new.kept) core.old.kind core.new.kind (J.told journal.old) (J.told journal.new) }
    ensures wires_fault { result ≡ ended.WiresFault → Rose (W.faults wires.old) (W.faults wires.new) }
    ensures journal_fault { result ≡ ended.JournalFault → Rose (J.faults journal.old) (J.faults journal.new) }
{
    let mut pad = Pad::new(alloc);
    'turns: for turn in 0..turns {
        gate.pass(point_of(turn));
        let stops = match take_turn(
            rt, alloc, carry, core, posts, pass, follower, permits, seat, held, wires, clock,
            journal, names, &mut pad,
        ) {
            Ok(stops) => stops,
            Err(end) => return end,
        };
        if stops {
            return Ended::Stopped;
        }
    }
    Ended::Turns
}

// The gate's point of a turn, counted from 0: its number from 1 on, as far as there are numbers.
fn point_of(turn: u64) -> u32 {
    u32::try_from(turn.saturating_add(1)).unwrap_or(u32::MAX)
}

// One turn behind the gate. Answers whether the worker is to stop.
#[tactic(none)]
fn take_turn<R: Wait, W: Wires, C: Clock, J: Journal, D: CarryOut>(
    rt: &R,
    alloc: Global,
    carry: &D,
    core: &mut Core,
    posts: &PostBox,
    pass: &mut RunnerPass,
    follower: &mut Follower,
    permits: &Permits,
    seat: &mut PermitSeat,
    held: &mut HeldPermits,
    wires: &mut W,
    clock: &mut C,
    journal: &mut J,
    names: &Names,
    pad: &mut Pad,
) -> Result<bool, Ended>
    requires core { RestsWire core.old.kind }
    requires holds { Holds permits.now seat.old held.old }
    requires pass { IsRunnerOf posts.now pass.old }
    requires names { (W.seen wires.old).clusters ≡ length names.now }
    requires below { AreUpTo (W.seen wires.old).greatest held.old }
    ensures turns { TurnsAs names.now (sides_of (C.moments clock.old) (hands.view pass.old.pass) (looks follower.old) follower.old.kept) core.old.kind (place_of (J.contents journal.old) (J.told journal.old) (W.seen wires.old) held.old (view seat.old)) result (sides_of (C.moments clock.new) (hands.view pass.new.pass) (looks follower.new) follower.new.kept) core.new.kind (place_of (J.contents journal.new) (J.told journal.new) (W.seen wires.new) held.new (view seat.new)) }
    ensures pass { IsRunnerOf posts.now pass.new }
    ensures keeps { Keeps permits.now (W.seen wires.old) held.old (view seat.old) (W.seen wires.new) held.new seat.new }
    ensures rises { Rises result (W.faults wires.old) (W.faults wires.new) (J.faults journal.old) (J.faults journal.new) }
{
    let tick = Event::Tick { now: clock.now() };
    carry_out(
        carry, core, permits, seat, held, wires, journal, names, pad, &tick,
    )?;
    drop(tick);
    let list = match posts.drain_if_any(rt, alloc, pass) {
        Ok(list) => list,
        Err(NoMemory) => return Err(Ended::Memory),
    };
    let drained = list.as_slice();
    run_posts(
        carry, core, permits, seat, held, wires, journal, names, pad, drained,
    )?;
    drop(list);
    let newer = match follower.newer(rt, alloc, core.obeyed()) {
        Ok(newer) => newer,
        Err(NoMemory) => return Err(Ended::Memory),
    };
    obey(
        carry, core, permits, seat, held, wires, journal, names, pad, newer,
    )?;
    let stops = take_next(carry, core, permits, seat, held, wires, journal, names, pad)?;
    offer_all(carry, core, permits, seat, held, wires, journal, names, pad)?;
    Ok(stops)
}

// Dispatches each post.
#[tactic(none)]
fn run_posts<W: Wires, J: Journal, D: CarryOut>(
    carry: &D,
    core: &mut Core,
    permits: &Permits,
    seat: &mut PermitSeat,
    held: &mut HeldPermits,
    wires: &mut W,
    journal: &mut J,
    names: &Names,
    pad: &mut Pad,
    posts: &[Post],
) -> Result<(), Ended>
    requires core { RestsWire core.old.kind }
    requires holds { Holds permits.now seat.old held.old }
    requires posts { All IsAllowed posts.now }
    ensures runs { RunsAs names.now posts.now core.old.kind (place_of (J.contents journal.old) (J.told journal.old) (W.seen wires.old) held.old (view seat.old)) result core.new.kind (place_of (J.contents journal.new) (J.told journal.new) (W.seen wires.new) held.new (view seat.new)) }
    ensures keeps { Keeps permits.now (W.seen wires.old) held.old (view seat.old) (W.seen wires.new) held.new seat.new }
    ensures rises { Rises result (W.faults wires.old) (W.faults wires.new) (J.faults journal.old) (J.faults journal.new) }
{
    let mut rest = posts;
    while let Some((post, after)) = rest.split_first() {
        run_post(
            carry, core, permits, seat, held, wires, journal, names, pad, post,
        )?;
        rest = after;
    }
    Ok(())
}

// Dispatches a post.
#[tactic(none)]
fn run_post<W: Wires, J: Journal, D: CarryOut>(
    carry: &D,
    core: &mut Core,
    permits: &Permits,
    seat: &mut PermitSeat,
    held: &mut HeldPermits,
    wires: &mut W,
    journal: &mut J,
    names: &Names,
    pad: &mut Pad,
    post: &Post,
) -> Result<(), Ended>
    requires core { RestsWire core.old.kind }
    requires holds { Holds permits.now seat.old held.old }
    requires post { IsAllowed post.now }
    ensures carries { CarriesAs names.now (post_event post.now ∷ []) core.old.kind (place_of (J.contents journal.old) (J.told journal.old) (W.seen wires.old) held.old (view seat.old)) result core.new.kind (place_of (J.contents journal.new) (J.told journal.new) (W.seen wires.new) held.new (view seat.new)) }
    ensures keeps { Keeps permits.now (W.seen wires.old) held.old (view seat.old) (W.seen wires.new) held.new seat.new }
    ensures rises { Rises result (W.faults wires.old) (W.faults wires.new) (J.faults journal.old) (J.faults journal.new) }
{
    let event = Event::Post {
        poster: post.poster,
        number: post.number,
        job: post.job,
    };
    carry_out(
        carry, core, permits, seat, held, wires, journal, names, pad, &event,
    )
}

// Dispatches what the follower answered, if that is anything newer.
#[tactic(none)]
fn obey<W: Wires, J: Journal, D: CarryOut>(
    carry: &D,
    core: &mut Core,
    permits: &Permits,
    seat: &mut PermitSeat,
    held: &mut HeldPermits,
    wires: &mut W,
    journal: &mut J,
    names: &Names,
    pad: &mut Pad,
    newer: Option<Snapshot>,
) -> Result<(), Ended>
    requires core { RestsWire core.old.kind }
    requires holds { Holds permits.now seat.old held.old }
    requires version { IfSome newer (λ s. s.version < 2 ^ 63) }
    ensures carries { CarriesAs names.now (obeys newer) core.old.kind (place_of (J.contents journal.old) (J.told journal.old) (W.seen wires.old) held.old (view seat.old)) result core.new.kind (place_of (J.contents journal.new) (J.told journal.new) (W.seen wires.new) held.new (view seat.new)) }
    ensures keeps { Keeps permits.now (W.seen wires.old) held.old (view seat.old) (W.seen wires.new) held.new seat.new }
    ensures rises { Rises result (W.faults wires.old) (W.faults wires.new) (J.faults journal.old) (J.faults journal.new) }
{
    let Some(snapshot) = newer else {
        return Ok(());
    };
    let event = Event::Obey {
        version: snapshot.version,
        pressures: snapshot.pressures,
    };
    carry_out(
        carry, core, permits, seat, held, wires, journal, names, pad, &event,
    )
}
