//! Rows whose answers come from outside.
ghost use Rattle.std.specs.Prelude.{◌≡◌, ◌<◌, ◌≤◌, ◌^◌, length};
ghost use Rattle.std.specs.VecDeque.{deque_len};
ghost use Rattle.scaled_timer.specs.Timing.{AreHeld};

use crate::said::{holds, same, same_in};
use link_lists::Steps;
use scaled_timer::{Fired, Timer, TimerKind, Timers};
use std::alloc::{AllocGlobal, Global};
use std::collections::VecDeque;
use std::marker::Brand;
use std::process::Abort;
use std::sync::ledger::{Blank, Ledger};

fn none_held(alloc: Global, timers: &Timers) -> VecDeque<Timer>
    ensures { AreHeld result.items timers.now }
{
    let _ = timers;
    VecDeque::new(alloc)
}

fn set_state(timers: &mut Timers, held: &VecDeque<Timer>, ppm: u32)
    requires held { AreHeld held.now.items timers.old }
    requires ppm { ppm ≤ 1000000 }
    ensures held { AreHeld held.now.items timers.new }
    ensures latest { timers.new.latest ≡ timers.old.latest }
{
    let _ = held;
    timers.set_state(ppm);
}

/// Arms a timer and keeps it behind the others. False after running out of memory.
fn arm<L: Ledger>(
    timers: &mut Timers,
    held: &mut VecDeque<Timer>,
    kind: u32,
    id: u64,
    now: u64,
    steps: &mut Steps<L>,
) -> bool
    requires held { AreHeld held.old.items timers.old }
    requires kind { kind < length timers.old.kinds }
    requires later { timers.old.latest ≤ now }
    requires now { now < 2 ^ 60 }
    ensures held { AreHeld held.new.items timers.new }
    ensures kinds { timers.new.kinds ≡ timers.old.kinds }
    ensures latest { timers.new.latest ≤ now }
{
    let Ok(timer) = timers.arm(kind, id, now) else {
        return false;
    };
    match held.push_back(timer) {
        Ok(()) => true,
        Err(failed) => {
            timers.disarm(failed.value, steps);
            false
        }
    }
}

/// Takes back the first timer.
fn disarm_first<L: Ledger>(timers: &mut Timers, held: &mut VecDeque<Timer>, steps: &mut Steps<L>)
    requires { AreHeld held.old.items timers.old }
    ensures held { AreHeld held.new.items timers.new }
    ensures kinds { timers.new.kinds ≡ timers.old.kinds }
    ensures latest { timers.new.latest ≡ timers.old.latest }
    ensures fewer { 0 < deque_len held.old → deque_len held.new < deque_len held.old }
{
    if let Some(timer) = held.pop_front() {
        timers.disarm(timer, steps);
    }
}

/// Puts the first timer behind the others.
fn pass_over<L: Ledger>(timers: &mut Timers, held: &mut VecDeque<Timer>, steps: &mut Steps<L>)
    requires { AreHeld held.old.items timers.old }
    ensures held { AreHeld held.new.items timers.new }
    ensures kinds { timers.new.kinds ≡ timers.old.kinds }
    ensures latest { timers.new.latest ≡ timers.old.latest }
{
    let Some(timer) = held.pop_front() else {
        return;
    };
    if let Err(failed) = held.push_back(timer) {
        timers.disarm(failed.value, steps);
    }
}

fn give_back<L: Ledger>(timers: &mut Timers, mut held: VecDeque<Timer>, steps: &mut Steps<L>)
    requires { AreHeld held.items timers.old }
{
    while !held.is_empty() {
        disarm_first(timers, &mut held, steps);
    }
    held.destroy_empty();
}

/// The numbers of the timers that fire.
fn turn(alloc: Global, timers: &mut Timers, held: &VecDeque<Timer>, now: u64) -> Option<Vec<Fired>>
    requires held { AreHeld held.now.items timers.old }
    requires later { timers.old.latest ≤ now }
    requires now { now < 2 ^ 60 }
    ensures held { AreHeld held.now.items timers.new }
    ensures kinds { timers.new.kinds ≡ timers.old.kinds }
    ensures latest { timers.new.latest ≤ now }
{
    let fired = timers.turn(now).ok()?;
    fired.as_slice().to_vec(alloc).ok()
}

fn pair(min: u64, max: u64) -> TimerKind
    requires ordered { min ≤ max }
    requires small { max < 2 ^ 40 }
    ensures { (result.min ≡ min) × (result.max ≡ max) }
{
    TimerKind { min, max }
}

/// One timer of 1,000 to 5,000 milliseconds, armed at 0: what turns at 3,000 give under the states 0 and 500,000.
fn shrunk<L: Ledger>(alloc: Global, blank: Blank) -> Option<[Option<Vec<Fired>>; 2]>
    requires { (blank.name ≡ L.name) × (blank.parts ≡ L.parts) × (0 < L.parts) }
{
    let mut steps = Steps::<L>::open(blank);
    let mut timers = Timers::new(alloc, &[pair(1000, 5000)]).ok()?;
    let mut held = none_held(alloc, &timers);
    let armed = arm(&mut timers, &mut held, 0, 7, 0, &mut steps);
    let before = turn(alloc, &mut timers, &held, 3000);
    set_state(&mut timers, &held, 500_000);
    let after = turn(alloc, &mut timers, &held, 3000);
    give_back(&mut timers, held, &mut steps);
    if armed { Some([before, after]) } else { None }
}

#[test]
fn a_timer_is_due_as_the_state_rises(rt: HostRuntime) {
    let got = shrunk::<Brand>(rt.alloc(), Blank::new(1));
    holds(&rt, got.is_some());
    if let Some([before, after]) = got {
        fired_are(&rt, before, &[]);
        fired_are(&rt, after, &[Fired { kind: 0, id: 7 }]);
    }
}

fn fired_are(rt: &impl Abort, got: Option<Vec<Fired>>, wanted: &[Fired]) {
    match got {
        Some(fired) => same(rt, &fired.as_slice(), &wanted),
        None => holds(rt, false),
    }
}

/// Arms timers of three kinds, one after the other: the kind, the number and the moment of each, which is 36 at most.
fn arm_all<L: Ledger>(
    timers: &mut Timers,
    held: &mut VecDeque<Timer>,
    arms: &[(u32, u64, u64)],
    steps: &mut Steps<L>,
) -> bool
    requires held { AreHeld held.old.items timers.old }
    requires kinds { length timers.old.kinds ≡ 3 }
    requires first { timers.old.latest ≡ 0 }
    ensures held { AreHeld held.new.items timers.new }
    ensures latest { timers.new.latest ≤ 36 }
{
    let mut last = 0u64;
    for one in arms {
        let (kind, id, now) = *one;
        if kind >= 3 || now < last || now > 36 {
            return false;
        }
        last = now;
        if !arm(timers, held, kind, id, now, steps) {
            return false;
        }
    }
    true
}

/// Timers of three kinds, of 30, 20 and 10 milliseconds, that are armed so: what fires at 36.
fn fired_of<L: Ledger>(alloc: Global, arms: &[(u32, u64, u64)], blank: Blank) -> Option<Vec<Fired>>
    requires { (blank.name ≡ L.name) × (blank.parts ≡ L.parts) × (0 < L.parts) }
{
    let mut steps = Steps::<L>::open(blank);
    let mut timers = Timers::new(alloc, &[pair(30, 30), pair(20, 20), pair(10, 10)]).ok()?;
    let mut held = none_held(alloc, &timers);
    let armed = arm_all(&mut timers, &mut held, arms, &mut steps);
    let fired = turn(alloc, &mut timers, &held, 36);
    give_back(&mut timers, held, &mut steps);
    if armed { fired } else { None }
}

fn fires(rt: &(impl AllocGlobal + Abort), arms: &[(u32, u64, u64)], wanted: &[Fired]) {
    let got = fired_of::<Brand>(rt.alloc(), arms, Blank::new(1));
    fired_are(rt, got, wanted);
}

// Of those armed at 0, 5 and 10 one is due at 25 and two at 30.
#[test]
fn equal_moments_go_by_arming(rt: HostRuntime) {
    fires(&rt, &EQUAL, &EQUAL_FIRED);
}

const EQUAL: [(u32, u64, u64); 4] = [(0, 1, 0), (1, 2, 5), (1, 3, 10), (0, 4, 10)];

const EQUAL_FIRED: [Fired; 3] = [
    Fired { kind: 1, id: 2 },
    Fired { kind: 0, id: 1 },
    Fired { kind: 1, id: 3 },
];

// Several of each kind are due.
#[test]
fn kinds_are_merged(rt: HostRuntime) {
    fires(&rt, &MERGED, &MERGED_FIRED);
}

const MERGED: [(u32, u64, u64); 8] = [
    (0, 1, 0),
    (1, 2, 2),
    (2, 3, 4),
    (0, 4, 6),
    (1, 5, 8),
    (2, 6, 10),
    (0, 7, 12),
    (2, 8, 20),
];

const MERGED_FIRED: [Fired; 7] = [
    Fired { kind: 2, id: 3 },
    Fired { kind: 2, id: 6 },
    Fired { kind: 1, id: 2 },
    Fired { kind: 1, id: 5 },
    Fired { kind: 0, id: 1 },
    Fired { kind: 2, id: 8 },
    Fired { kind: 0, id: 4 },
];

/// 10,000 timers of one kind, of which each third from the first is disarmed once all are armed.
fn thirds<L: Ledger>(alloc: Global, blank: Blank) -> Option<Vec<Fired>>
    requires { (blank.name ≡ L.name) × (blank.parts ≡ L.parts) × (0 < L.parts) }
{
    let mut steps = Steps::<L>::open(blank);
    let mut timers = Timers::new(alloc, &[pair(1000, 1000)]).ok()?;
    let mut held = none_held(alloc, &timers);
    let mut armed = true;
    for id in 0..10_000 {
        armed &= arm(&mut timers, &mut held, 0, id, id, &mut steps);
    }
    for id in 0..10_000 {
        if id % 3 == 0 {
            disarm_first(&mut timers, &mut held, &mut steps);
        } else {
            pass_over(&mut timers, &mut held, &mut steps);
        }
    }
    let fired = turn(alloc, &mut timers, &held, 20_000);
    give_back(&mut timers, held, &mut steps);
    if armed { fired } else { None }
}

#[test]
fn the_others_fire_in_order(rt: HostRuntime) {
    let got = thirds::<Brand>(rt.alloc(), Blank::new(1));
    holds(&rt, got.is_some());
    if let Some(fired) = got {
        same(&rt, &fired.len(), &6666);
        let mut id: u64 = 0;
        for one in fired.as_slice() {
            id = id.wrapping_add(if id % 3 == 2 { 2 } else { 1 });
            same(&rt, &one.id, &id);
        }
    }
}

#[test]
fn delays_shrink_in_proportion(rt: HostRuntime) {
    let kind = pair(1000, 5000);
    for (ppm, delay) in [
        (0, 5000),
        (250_000, 4000),
        (500_000, 3000),
        (999_999, 1000),
        (1_000_000, 1000),
    ] {
        same_in(&rt, &ppm, &kind.delay(ppm), &delay);
    }
}
