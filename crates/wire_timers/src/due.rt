//! The timers that a moment has made due.
ghost use Rattle.std.specs.Prelude.{◌≡◌, ◌==◌, [], ◌∷◌, ⊤, length, map, MatchOption};
ghost use Rattle.wire_timers.specs.Kinds.{kind_of};
ghost use Rattle.wire_timers.specs.Told.{told_of};

use flow_rules::FireKind;
use scaled_timer::{Fired, FiredList};
use std::alloc::Global;
use std::marker::Model;

/// A timer that is due: its kind, and the exchange or the connection that it was armed for.
#[derive(Clone, Copy, PartialEq, Eq)]
pub struct Due {
    pub kind: FireKind,
    pub id: u64,
}

/// Timers that are due and haven't fired yet, in the order in which they fire.
#[derive(Drop)]
pub struct DueList {
    fired: FiredList,
    /// How many of them have been taken out.
    taken: usize,
}

impl Model for DueList {
    ghost use Rattle.std.specs.Prelude.{◌≤◌, List, drop, length, map};
    ghost use Rattle.wire_timers.specs.declared.due.Due.{Due};
    ghost use Rattle.wire_timers.specs.Told.{told_of};

    ghost Value = { List Due };

    ghost view = { λ a. map told_of (drop a.taken a.fired) };

    ghost invariant = { λ a. a.taken ≤ length a.fired };
}

impl DueList {
    /// No timers. Takes no memory.
    pub fn none(alloc: Global) -> DueList
        ensures { result ≡ [] }
    {
        DueList::of(FiredList::from_vec(Vec::new(alloc)))
    }

    pub(crate) fn of(fired: FiredList) -> DueList
        ensures { result ≡ map told_of fired }
    {
        DueList { fired, taken: 0 }
    }

    /// How many are left.
    pub fn len(&self) -> usize
        ensures { result ≡ length self.now }
    {
        self.fired.len() - self.taken
    }

    /// Whether none is left.
    pub fn is_empty(&self) -> bool
        ensures { result ≡ (length self.now == 0) }
    {
        self.len() == 0
    }

    /// Takes out the timer that fires next. None where none is left.
    pub fn take_first(&mut self) -> Option<Due>
        ensures none { MatchOption result ((self.old ≡ []) × (self.new ≡ [])) (λ _. ⊤) }
        ensures some { MatchOption result ⊤ (λ due. self.old ≡ due ∷ self.new) }
    {
        if self.taken == self.fired.len() {
            return None;
        }
        let fired = self.fired.as_slice()[self.taken];
        self.taken += 1;
        Some(told(fired))
    }
}

fn told(fired: Fired) -> Due
    ensures { result ≡ told_of fired }
{
    Due {
        kind: kind(fired.kind),
        id: fired.id,
    }
}

/// The kind with this number.
fn kind(number: u32) -> FireKind
    ensures { result ≡ kind_of number }
{
    match number {
        0 => FireKind::Route,
        1 => FireKind::StreamIdle,
        _ => FireKind::ConnectionIdle,
    }
}
