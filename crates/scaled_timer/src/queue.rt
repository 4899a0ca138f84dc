//! A queue of fronts, by the order in which they fire.
ghost use Rattle.std.specs.Prelude.{◌≡◌, ◌<◌, ◌↔◌, ⊤, true, [], ◌∷◌, MatchOption, OnOk, OnErr, IsOk};
ghost use Rattle.std.specs.List.Sorted.{IsPermutation};
ghost use Rattle.scaled_timer.specs.Queue.{TakesFirst};

use crate::fronts::Front;
use io_ports::NoMemory;
use std::alloc::Global;
use std::cmp::Reverse;
use std::collections::BinaryHeap;
use std::marker::Model;

/// Fronts, of which the one that fires first comes out first.
///
/// Seen as the fronts, in any order, and for how many more there is room.
#[derive(Drop)]
pub(crate) struct FrontQueue {
    heap: BinaryHeap<Reverse<Front>>,
}

impl Model for FrontQueue {
    ghost use Rattle.std.specs.Prelude.{◌-◌, map};
    ghost use Rattle.std.specs.BinaryHeap.{IsHeap, heap_items, heap_len, heap_capacity};
    ghost use Rattle.scaled_timer.specs.Queue.{Queued, latest_first};

    ghost Value = { Queued };

    ghost view = { λ q. record { fronts = map (λ f. f.0) (heap_items q.heap); spare = heap_capacity q.heap - heap_len q.heap } };

    ghost invariant = { λ q. IsHeap latest_first (heap_items q.heap) };
}

impl FrontQueue {
    /// No fronts. Takes no memory.
    pub fn new(alloc: Global) -> Self
        ensures { result.fronts ≡ [] }
    {
        FrontQueue {
            heap: BinaryHeap::new(alloc),
        }
    }

    /// Whether there is no front.
    pub fn is_empty(&self) -> bool
        ensures { (result ≡ true) ↔ (self.now.fronts ≡ []) }
    {
        self.heap.is_empty()
    }

    /// Adds a front. Memory runs out only where there is no room.
    pub fn insert(&mut self, front: Front) -> Result<(), NoMemory>
        ensures ok { OnOk result (IsPermutation (front ∷ self.old.fronts) self.new.fronts) }
        ensures err { OnErr result (self.new.fronts ≡ self.old.fronts) }
        ensures room { 0 < self.old.spare → IsOk result }
    {
        self.heap.push(Reverse(front))?;
        Ok(())
    }

    /// Takes out the front that fires first.
    pub fn pop(&mut self) -> Option<Front>
        ensures none { MatchOption result (self.old.fronts ≡ []) (λ _. ⊤) }
        ensures some { MatchOption result ⊤ (λ f. TakesFirst f self.old self.new) }
    {
        let Reverse(front) = self.heap.pop()?;
        Some(front)
    }
}
