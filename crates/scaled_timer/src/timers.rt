//! The armed timers, and the turns that fire them.
ghost use Rattle.std.specs.Prelude.{◌≡◌, ◌⊎◌, vec_len, ◌+◌, ◌^◌, ◌<◌, ◌≤◌, [], ◌∷◌, ◌++◌, length, map, false, true, IfOk, OnErr, ◌-◌, ◌*◌, ◌/◌};
ghost use Rattle.std.specs.Vec.{vec_capacity};
ghost use Rattle.link_lists.specs.Lists.{contains_id, without_id};

use crate::fired::{Fired, FiredList};
use crate::merge::{due_fronts, fire_all};
use crate::queue::FrontQueue;
use io_ports::NoMemory;
use link_lists::{Lists, Node, Steps};
use std::alloc::Global;
use std::marker::{Brand, Model};
use std::sync::ledger::{Blank, Ledger};

/// How long a timer of one kind runs, in milliseconds: `max` where nothing is loaded, `min` where the load is full.
#[derive(Clone, Copy, Debug)]
pub struct TimerKind {
    pub min: u64,
    pub max: u64,
    ghost ordered: { min ≤ max },
    ghost small: { max < 2 ^ 40 },
}

impl TimerKind {
    ghost use Rattle.scaled_timer.specs.Due.{delay_of};

    /// How long a timer runs under a state, in milliseconds. A state is in parts per million, from 0 to 1,000,000.
    ///
    /// With `min` 1,000 and `max` 5,000 it is 5,000 at 0, 3,000 at 500,000 and 1,000 at 1,000,000.
    pub fn delay(&self, ppm: u32) -> u64
        requires { ppm ≤ 1000000 }
        ensures delay { result ≡ delay_of self.now ppm }
        ensures small { result < 2 ^ 40 }
    {
        let left = u64::from(1_000_000 - ppm);
        self.min + (self.max - self.min) * left / 1_000_000
    }
}

/// The number that the timer was armed with, the moment when it was armed, and how many timers were armed before it.
#[derive(Clone, Copy)]
pub(crate) struct Entry {
    pub id: u64,
    pub at: u64,
    pub age: u64,
}

/// How many timers can be armed.
const MOST: u64 = (1 << 63) - 1;

/// Names one timer. It can't be dropped: `Timers::disarm` takes it back, also once the timer has fired.
pub struct Timer {
    node: Node,
}

impl Model for Timer {
    ghost use Rattle.link_lists.specs.Lists.{NodeId};

    ghost Value = { NodeId };

    ghost view = { λ t. t.node };
}

/// Timers of several kinds under a state from 0 to 1,000,000 parts per million.
///
/// Seen as the kinds, the state, the latest moment that was told, the armed timers in the order of arming, and the names of
/// the timers that have fired and aren't given back yet. A timer of a kind with `min` and `max` that was armed at t is due
/// from t + min + floor((max − min)(1,000,000 − state) / 1,000,000) on.
///
/// Moments are in milliseconds. Each is at least those told before, and below 2^60.
#[derive(Drop)]
pub struct Timers {
    kinds: Vec<TimerKind>,
    lists: Lists<Entry>,
    count: usize,
    state: u32,
    latest: u64,
    ages: u64,
    alloc: Global,
}

impl Model for Timers {
    ghost use Rattle.std.specs.Prelude.{vec_len};
    ghost use Rattle.scaled_timer.specs.Timing.{Timing};
    ghost use Rattle.scaled_timer.specs.Entries.{armed_of, Kept};

    ghost Value = { Timing };

    ghost view = { λ t. record { kinds = t.kinds.items; state = t.state; latest = t.latest; armed = armed_of t.lists.lists; fired = t.lists.retired } };

    ghost invariant = { λ t. Kept (vec_len t.kinds) t.state t.latest t.ages t.count t.lists.lists };
}

impl Timers {
    ghost use Rattle.scaled_timer.specs.Due.{due_timers, waiting_timers};
    ghost use Rattle.scaled_timer.specs.Timing.{Timing, has_timer, without_timer, IsHeld, firing, names_of};

    /// No armed timer, under the state 0. Refused only for lack of memory.
    pub fn new(alloc: Global, kinds: &[TimerKind]) -> Result<Timers, NoMemory>
        requires { length kinds.now < 2 ^ 32 }
        ensures { IfOk result (λ made. made ≡ record { kinds = kinds.now; state = 0; latest = 0; armed = []; fired = [] }) }
    {
        let kinds = Vec::from_slice(alloc, kinds)?;
        let lists = Lists::new(alloc, kinds.len() as u32)?;
        Ok(Timers {
            kinds,
            lists,
            count: 0,
            state: 0,
            latest: 0,
            ages: 0,
            alloc,
        })
    }

    fn arm_as<L: Ledger>(
        &mut self,
        kind: u32,
        id: u64,
        now: u64,
        blank: Blank,
    ) -> Result<Timer, NoMemory>
        requires ledger { (blank.name ≡ L.name) × (blank.parts ≡ L.parts) × (0 < L.parts) }
        requires kind { kind < length self.old.kinds }
        requires later { self.old.latest ≤ now }
        requires now { now < 2 ^ 60 }
        ensures ok { IfOk result (λ t. self.new ≡ record self.old { latest = now; armed = self.old.armed ++ record { timer = t; kind = kind; id = id; at = now } ∷ [] }) }
        ensures fresh { IfOk result (λ t. (has_timer t self.old.armed ≡ false) × (contains_id t self.old.fired ≡ false)) }
        ensures err { OnErr result (self.new ≡ self.old) }
    {
        if self.ages == MOST {
            return Err(NoMemory);
        }
        let entry = Entry {
            id,
            at: now,
            age: self.ages,
        };
        let mut steps = Steps::<L>::open(blank);
        match self.lists.insert_back(kind, entry, &mut steps) {
            Ok(node) => {
                self.latest = now;
                self.ages += 1;
                self.count += 1;
                Ok(Timer { node })
            }
            Err((want, _)) => Err(want),
        }
    }

    /// Arms a timer of the kind, which has the number `id`. Out of memory is also answered once 2^63 − 1 timers were armed.
    /// After running out of memory nothing has changed.
    pub fn arm(&mut self, kind: u32, id: u64, now: u64) -> Result<Timer, NoMemory>
        requires kind { kind < length self.old.kinds }
        requires later { self.old.latest ≤ now }
        requires now { now < 2 ^ 60 }
        ensures ok { IfOk result (λ t. self.new ≡ record self.old { latest = now; armed = self.old.armed ++ record { timer = t; kind = kind; id = id; at = now } ∷ [] }) }
        // No timer that is armed, or has fired and isn't given back yet, has its name.
        ensures fresh { IfOk result (λ t. (has_timer t self.old.armed ≡ false) × (contains_id t self.old.fired ≡ false)) }
        ensures err { OnErr result (self.new ≡ self.old) }
    {
        self.arm_as::<Brand>(kind, id, now, Blank::new(1))
    }

    /// Takes a timer back: an armed one fires no more, and for one that has fired nothing else changes.
    pub fn disarm<L: Ledger>(&mut self, timer: Timer, steps: &mut Steps<L>)
        requires { IsHeld timer self.old }
        ensures armed { has_timer timer self.old.armed ≡ true → self.new ≡ record self.old { armed = without_timer timer self.old.armed } }
        ensures fired { contains_id timer self.old.fired ≡ true → self.new ≡ record self.old { fired = without_id timer self.old.fired } }
        ensures cost { steps.new ≤ steps.old + 16 }
    {
        let Timer { node } = timer;
        if self.lists.is_in(&node) {
            let _ = self.lists.remove(node, steps);
            self.count -= 1;
        } else {
            self.lists.retire(node);
        }
    }

    /// From now on the timers are due under this state.
    pub fn set_state(&mut self, ppm: u32)
        requires { ppm ≤ 1000000 }
        ensures { self.new ≡ record self.old { state = ppm } }
    {
        self.state = ppm;
    }

    /// Room for as many as may fire: none where no front is due.
    fn room(&self, queue: &FrontQueue) -> Result<Vec<Fired>, NoMemory>
        ensures empty { IfOk result (λ fired. (fired.items ≡ []) × (vec_len fired ≡ 0)) }
        ensures room { IfOk result (λ fired. (queue.now.fronts ≡ []) ⊎ (length self.now.armed ≤ vec_capacity fired)) }
    {
        if queue.is_empty() {
            Ok(Vec::new(self.alloc))
        } else {
            Ok(Vec::with_capacity(self.alloc, self.count)?)
        }
    }

    /// Takes out the timers that are due, by due moment and then by arming, and leaves the others armed.
    ///
    /// It looks at the first timer of each kind, and at the one behind each timer that it takes out; at no other timer that
    /// stays armed. What it looks at goes through a heap, which has one timer of each kind at most.
    pub fn turn(&mut self, now: u64) -> Result<FiredList, NoMemory>
        requires later { self.old.latest ≤ now }
        requires now { now < 2 ^ 60 }
        ensures fired { IfOk result (λ fired. fired ≡ map firing (due_timers self.old.kinds self.old.state now self.old.armed)) }
        ensures left { IfOk result (λ _. self.new ≡ record self.old { latest = now; armed = waiting_timers self.old.kinds self.old.state now self.old.armed; fired = self.old.fired ++ names_of (due_timers self.old.kinds self.old.state now self.old.armed) }) }
        ensures err { OnErr result (self.new ≡ self.old) }
    {
        let queue = due_fronts(self.alloc, &self.kinds, &self.lists, self.state, now)?;
        let room = self.room(&queue)?;
        let fired = fire_all(queue, &self.kinds, &mut self.lists, self.state, now, room);
        self.count -= fired.len();
        self.latest = now;
        Ok(FiredList::from_vec(fired))
    }
}
