// Permits and states over several threads.
ghost use Rattle.std.specs.Prelude.{All, IfSome};
ghost use Rattle.std.specs.Thread.{IsSync};
ghost use Rattle.shared_state.specs.PermitSeats.{IsSeatOf, IsNewSeat, seats_in};

use crate::said::holds;
use shared_state::{PermitSeat, PermitSeats, Permits};
use std::sync::atomic::{AtomicU64, Ordering};
use std::test::*;
use std::thread;
use std::thread::Threads;

/// What a thread saw of the permits: how many it was given, and the most that were held at once.
#[derive(Clone, Copy, PartialEq, Eq)]
struct Saw {
    given: u64,
    most: u64,
}

const EACH: u64 = 100_000;

/// Enters and leaves, with a counter of those inside.
fn enter_and_leave(permits: &Permits, inside: &AtomicU64, mut seat: PermitSeat) -> Saw
    requires { IsSeatOf permits.now seat }
{
    let mut saw = Saw { given: 0, most: 0 };
    for _ in 0..EACH {
        if let Ok(permit) = permits.enter(&mut seat) {
            let others = inside.fetch_add(1, Ordering::SeqCst);
            saw.most = saw.most.max(others.saturating_add(1));
            saw.given = saw.given.saturating_add(1);
            inside.fetch_sub(1, Ordering::SeqCst);
            permits.leave(&mut seat, permit);
        }
    }
    saw
}

fn two<R: Threads + Sync>(
    rt: &R,
    permits: &Permits,
    inside: &AtomicU64,
    a: PermitSeat,
    b: PermitSeat,
) -> (Saw, Saw)
    requires { IsSeatOf permits.now a × IsSeatOf permits.now b }
{
    thread::join(
        rt,
        move || -> Saw
            requires { IsSeatOf permits.now a }
        { enter_and_leave(permits, inside, a) },
        move || -> Saw
            requires { IsSeatOf permits.now b }
        { enter_and_leave(permits, inside, b) },
    )
}

fn four<R: Threads + Sync>(
    rt: &R,
    permits: &Permits,
    seats: (PermitSeat, PermitSeat, PermitSeat, PermitSeat),
) -> [Saw; 4]
    requires { IsSeatOf permits.now seats.0 × IsSeatOf permits.now seats.1 × IsSeatOf permits.now seats.2 × IsSeatOf permits.now seats.3 }
{
    let inside = AtomicU64::new(0);
    let counter = &inside;
    let (a, b, c, d) = seats;
    let (first, second) = thread::join(
        rt,
        move || -> (Saw, Saw)
            requires { IsSync R.row × IsSeatOf permits.now a × IsSeatOf permits.now b }
        { two(rt, permits, counter, a, b) },
        move || -> (Saw, Saw)
            requires { IsSync R.row × IsSeatOf permits.now c × IsSeatOf permits.now d }
        { two(rt, permits, counter, c, d) },
    );
    [first.0, first.1, second.0, second.1]
}

fn seat_of(permits: &Permits, seats: &mut PermitSeats) -> Option<PermitSeat>
    requires { All (IsNewSeat permits.now) (seats_in seats.old) }
    ensures seat { IfSome result (IsSeatOf permits.now) }
    ensures others { All (IsNewSeat permits.now) (seats_in seats.new) }
{
    let _ = permits;
    seats.take_one()
}

#[test]
fn no_more_than_three_are_inside(rt: HostRuntime) -> Result<(), Fail> {
    let (permits, mut seats) = Permits::new(rt.alloc(), 3, 4)?;
    let a = seat_of(&permits, &mut seats).ok_or("a seat")?;
    let b = seat_of(&permits, &mut seats).ok_or("a seat")?;
    let c = seat_of(&permits, &mut seats).ok_or("a seat")?;
    let d = seat_of(&permits, &mut seats).ok_or("a seat")?;
    let mut idle: u64 = 0;
    for saw in four(&rt, &permits, (a, b, c, d)) {
        holds(&rt, saw.most <= 3);
        if saw.given == 0 {
            idle = idle.saturating_add(1);
        }
    }
    // One may be refused each time, where the three others rest inside; no second one can.
    holds(&rt, idle <= 1);
    Ok(())
}
