// How long a timer takes to be armed, to be moved (disarmed and armed again), and to fire.
ghost use Rattle.std.specs.Prelude.{◌≡◌, ◌+◌, ◌^◌, ◌<◌, ◌≤◌, length};
ghost use Rattle.std.specs.VecDeque.{deque_len};
ghost use Rattle.scaled_timer.specs.Timing.{AreHeld};

use crate::report::tell;
use anyhow::ensure;
use bench_parts::CpuStopwatch;
use link_lists::Steps;
use scaled_timer::{Timer, TimerKind, Timers};
use std::alloc::Global;
use std::collections::VecDeque;
use std::io;
use std::marker::Brand;
use std::sync::ledger::{Blank, Ledger};
use std::time::CpuClock;

/// How many calls of each kind are measured.
const CALLS: u64 = 1_000_000;

fn none_held(alloc: Global, timers: &Timers) -> VecDeque<Timer>
    ensures { AreHeld result.items timers.now }
{
    let _ = timers;
    VecDeque::new(alloc)
}

/// Arms a timer and keeps it behind the others. False after running out of memory.
fn arm_one<L: Ledger>(
    timers: &mut Timers,
    held: &mut VecDeque<Timer>,
    now: u64,
    steps: &mut Steps<L>,
) -> bool
    requires held { AreHeld held.old.items timers.old }
    requires kind { 0 < length timers.old.kinds }
    requires later { timers.old.latest ≤ now }
    requires now { now < 2 ^ 60 }
    ensures held { AreHeld held.new.items timers.new }
    ensures kinds { timers.new.kinds ≡ timers.old.kinds }
    ensures latest { timers.new.latest ≤ now }
{
    let Ok(timer) = timers.arm(0, now, now) else {
        return false;
    };
    match held.push_back(timer) {
        Ok(()) => true,
        Err(failed) => {
            timers.disarm(failed.value, steps);
            false
        }
    }
}

/// Takes back the timer that was armed first.
fn disarm_first<L: Ledger>(timers: &mut Timers, held: &mut VecDeque<Timer>, steps: &mut Steps<L>)
    requires { AreHeld held.old.items timers.old }
    ensures held { AreHeld held.new.items timers.new }
    ensures kinds { timers.new.kinds ≡ timers.old.kinds }
    ensures latest { timers.new.latest ≡ timers.old.latest }
    ensures fewer { 0 < deque_len held.old → deque_len held.new < deque_len held.old }
{
    if let Some(timer) = held.pop_front() {
        timers.disarm(timer, steps);
    }
}

/// How many timers fire.
fn turn_once(timers: &mut Timers, held: &VecDeque<Timer>, now: u64) -> usize
    requires held { AreHeld held.now.items timers.old }
    requires later { timers.old.latest ≤ now }
    requires now { now < 2 ^ 60 }
    ensures held { AreHeld held.now.items timers.new }
    ensures kinds { timers.new.kinds ≡ timers.old.kinds }
    ensures latest { timers.new.latest ≤ now }
{
    match timers.turn(now) {
        Ok(fired) => fired.len(),
        Err(_) => 0,
    }
}

fn give_back<L: Ledger>(timers: &mut Timers, mut held: VecDeque<Timer>, steps: &mut Steps<L>)
    requires { AreHeld held.items timers.old }
{
    while !held.is_empty() {
        disarm_first(timers, &mut held, steps);
    }
    held.destroy_empty();
}

/// Arms so many timers, one each millisecond from 0 on.
fn fill<L: Ledger>(
    timers: &mut Timers,
    held: &mut VecDeque<Timer>,
    count: u64,
    steps: &mut Steps<L>,
) -> bool
    requires held { AreHeld held.old.items timers.old }
    requires kind { 0 < length timers.old.kinds }
    requires first { timers.old.latest ≡ 0 }
    requires few { count ≤ 1000000 }
    ensures held { AreHeld held.new.items timers.new }
    ensures kinds { timers.new.kinds ≡ timers.old.kinds }
    ensures latest { timers.new.latest ≤ count }
{
    for now in 0..count {
        if !arm_one(timers, held, now, steps) {
            return false;
        }
    }
    true
}

/// Takes back the timer that was armed first and arms it again, a millisecond later each time.
fn move_all<L: Ledger>(
    timers: &mut Timers,
    held: &mut VecDeque<Timer>,
    from: u64,
    steps: &mut Steps<L>,
) -> bool
    requires held { AreHeld held.old.items timers.old }
    requires kind { 0 < length timers.old.kinds }
    requires later { timers.old.latest ≤ from }
    requires from { from ≤ 10000000 }
    ensures held { AreHeld held.new.items timers.new }
    ensures kinds { timers.new.kinds ≡ timers.old.kinds }
    ensures latest { timers.new.latest ≤ from + 1000000 }
{
    for i in 0..CALLS {
        disarm_first(timers, held, steps);
        if !arm_one(timers, held, from + i, steps) {
            return false;
        }
    }
    true
}

/// Turns a millisecond later each time; the timer that fires is taken back and armed again. How many fired.
fn turn_all<L: Ledger>(
    timers: &mut Timers,
    held: &mut VecDeque<Timer>,
    from: u64,
    steps: &mut Steps<L>,
) -> u64
    requires held { AreHeld held.old.items timers.old }
    requires kind { 0 < length timers.old.kinds }
    requires later { timers.old.latest ≤ from }
    requires from { from ≤ 10000000 }
    ensures held { AreHeld held.new.items timers.new }
{
    let mut all: u64 = 0;
    for i in 0..CALLS {
        let fired = turn_once(timers, held, from + i);
        all = all.wrapping_add(fired as u64);
        if fired > 0 {
            disarm_first(timers, held, steps);
            if !arm_one(timers, held, from + i, steps) {
                return all;
            }
        }
    }
    all
}

// The nanoseconds since a start.
fn since(rt: &impl CpuClock, watch: io::Result<CpuStopwatch>) -> io::Result<u64> {
    watch?.nanos(rt)
}

/// Arms so many timers from none, and takes them back. The nanoseconds that the arming took.
fn arm_round<L: Ledger>(
    rt: &(impl AllocGlobal + CpuClock),
    count: u64,
    steps: &mut Steps<L>,
) -> anyhow::Result<u64>
    requires { count ≤ 1000000 }
{
    let mut timers = Timers::new(rt.alloc(), &[kind_of(count)])?;
    let mut held = none_held(rt.alloc(), &timers);
    let watch = CpuStopwatch::start(rt);
    let filled = fill(&mut timers, &mut held, count, steps);
    let spent = since(rt, watch);
    give_back(&mut timers, held, steps);
    drop(timers);
    ensure!(filled, "out of memory");
    Ok(spent?)
}

/// The nanoseconds that it takes to arm a timer, over rounds of so many.
fn arming<L: Ledger>(
    rt: &(impl AllocGlobal + CpuClock),
    count: u64,
    steps: &mut Steps<L>,
) -> anyhow::Result<u64>
    requires { (0 < count) × (count ≤ 1000000) }
{
    let mut spent = 0u64;
    for _round in 0..CALLS / count {
        spent = spent.saturating_add(arm_round(rt, count, steps)?);
    }
    Ok(spent / CALLS)
}

/// A kind whose timers run so many milliseconds under every state.
fn kind_of(delay: u64) -> TimerKind
    requires { delay ≤ 1000000 }
{
    TimerKind {
        min: delay,
        max: delay,
    }
}

/// Arms so many timers, one each millisecond: the nanoseconds that it takes to move one, and those of a turn that fires one, which
/// is armed again.
fn time_both<L: Ledger>(
    rt: &impl CpuClock,
    count: u64,
    timers: &mut Timers,
    held: &mut VecDeque<Timer>,
    steps: &mut Steps<L>,
) -> anyhow::Result<(u64, u64)>
    requires held { AreHeld held.old.items timers.old }
    requires kind { 0 < length timers.old.kinds }
    requires first { timers.old.latest ≡ 0 }
    requires few { count ≤ 1000000 }
    ensures { AreHeld held.new.items timers.new }
{
    let filled = fill(timers, held, count, steps);
    let watch = CpuStopwatch::start(rt);
    let moved = move_all(timers, held, count, steps);
    let moving = since(rt, watch);
    let watch = CpuStopwatch::start(rt);
    let fired = turn_all(timers, held, count + CALLS, steps);
    let turning = since(rt, watch);
    ensure!(filled && moved, "out of memory");
    ensure!(fired == CALLS, "{fired} timers fired");
    Ok((moving? / CALLS, turning? / CALLS))
}

/// The same from none, which are taken back. The timers are dropped by a call, since the check follows a drop without one field by
/// field.
fn moving_and_turning<L: Ledger>(
    rt: &(impl AllocGlobal + CpuClock),
    count: u64,
    steps: &mut Steps<L>,
) -> anyhow::Result<(u64, u64)>
    requires { count ≤ 1000000 }
{
    let mut timers = Timers::new(rt.alloc(), &[kind_of(count)])?;
    let mut held = none_held(rt.alloc(), &timers);
    let times = time_both(rt, count, &mut timers, &mut held, steps);
    give_back(&mut timers, held, steps);
    drop(timers);
    times
}

fn report<L: Ledger>(
    rt: &(impl AllocGlobal + CpuClock + Print),
    count: u64,
    blank: Blank,
) -> anyhow::Result<()>
    requires ledger { (blank.name ≡ L.name) × (blank.parts ≡ L.parts) × (0 < L.parts) }
    requires few { (0 < count) × (count ≤ 1000000) }
{
    let mut steps = Steps::<L>::open(blank);
    let arm = arming(rt, count, &mut steps)?;
    let (shift, turn) = moving_and_turning(rt, count, &mut steps)?;
    let numbers = [
        ("", count),
        (" armed: ", arm),
        (" ns to arm, ", shift),
        (" ns to move, ", turn),
    ];
    tell(rt, &numbers, " ns to turn")
}

/// Measures with 100, 10,000 and 1,000,000 armed timers, and prints nanoseconds of processor time for each call.
pub fn run(rt: &(impl AllocGlobal + CpuClock + Print)) -> anyhow::Result<()> {
    for count in [100, 10_000, 1_000_000] {
        report::<Brand>(rt, count, Blank::new(1))?;
    }
    Ok(())
}
