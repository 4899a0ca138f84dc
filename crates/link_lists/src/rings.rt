//! Rings of nodes, each closed by an end that holds no value.
ghost use Rattle.std.specs.Prelude.{◌≡◌, ◌+◌, ◌<◌, ◌≤◌, List, [], ◌∷◌, ◌++◌, length, MatchBool, MatchResult, MatchOption, IsTrue, IfOk, IfSome, Some, None, false};
ghost use Rattle.link_lists.specs.Lists.{push_at, pull_from, has_node, node_value, front_of};
ghost use Rattle.link_lists.specs.Seen.{emptied, IsLone};

use crate::heap::{Heap, Place};
use crate::member::{Member, link_before, unlink};
use crate::note::Note;
use crate::spares::Spares;
use crate::steps::Steps;
use io_ports::NoMemory;
use std::alloc::Global;
use std::marker::{Brand, Model};
use std::mem;
use std::sync::ledger::{Blank, Ledger};

/// Seen as the lists of the rings' nodes: where each lies, and its value.
pub(crate) struct Rings<T> {
    heap: Heap<Member<T>, Global>,
    ends: Vec<Place>,
    alloc: Global,
    spares: Spares<T>,
    note: Note<T>,
}

impl<T> Model for Rings<T> {
    ghost use Rattle.std.specs.Prelude.{List};
    ghost use denote.RawPtr.{Ptr};

    ghost Value = { List (List (Ptr × T)) };

    ghost use Rattle.link_lists.specs.Notes.{seen};
    ghost use Rattle.link_lists.specs.Kept.{Sound};

    ghost view = { λ a. seen a.note.rings };

    ghost invariant = { λ a. Sound a.heap.cells a.ends.items a.note.rings };
}

impl<T: Drop> Rings<T> {
    /// No rings. Takes no memory.
    pub fn empty(alloc: Global) -> Rings<T>
        ensures { result ≡ [] }
    {
        Rings {
            heap: Heap::new(),
            ends: Vec::new(alloc),
            alloc,
            spares: Spares::new(alloc),
            note: Note::new(),
        }
    }

    /// One more ring, with no node.
    pub fn open(&mut self) -> Result<(), NoMemory>
        ensures { MatchResult result (λ _. self.new ≡ self.old ++ [] ∷ []) (λ _. self.new ≡ self.old) }
    {
        let end = Box::new(
            self.alloc,
            Member {
                prev: Place::nowhere(),
                next: Place::nowhere(),
                value: None,
            },
        )?;
        let (at, _) = self.heap.put(end);
        if self.ends.push(at).is_err() {
            let _ = self.heap.take(at, self.alloc);
            return Err(NoMemory);
        }
        let end = self.heap.get_mut(at);
        end.prev = at;
        end.next = at;
        self.note.open(at);
        Ok(())
    }

    /// A new node becomes the last of the ring. After running out of memory the value is handed back.
    pub fn push_back<L: Ledger>(
        &mut self,
        ring: usize,
        value: T,
        steps: &mut Steps<L>,
    ) -> Result<Place, (NoMemory, T)>
        requires { ring < length self.old }
        ensures pushed { MatchResult result (λ p. self.new ≡ push_at ring (p.ptr, value) self.old) (λ e. (self.new ≡ self.old) × (e.1 ≡ value)) }
        ensures fresh { IfOk result (λ p. has_node p.ptr self.old ≡ false) }
        ensures cost { steps.new ≤ steps.old + 4 }
    {
        let end = self.ends[ring];
        let node = Member {
            prev: end,
            next: end,
            value: None,
        };
        let Ok(whole) = self.spares.boxed(self.alloc, node) else {
            return Err((NoMemory, value));
        };
        let (at, _) = self.heap.put(whole);
        self.note.push(ring, at, &value);
        let node = self.heap.get_mut(at);
        node.value = Some(value);
        link_before(&mut self.heap, end, at, steps);
        Ok(at)
    }

    /// The node at `at` becomes the last of the ring.
    pub fn move_back<L: Ledger>(&mut self, at: Place, ring: usize, steps: &mut Steps<L>)
        requires ring { ring < length self.old }
        requires node { IsTrue (has_node at.ptr self.old) }
        ensures moved { MatchOption (node_value at.ptr self.old) ⊥ (λ v. self.new ≡ push_at ring (at.ptr, v) (pull_from at.ptr self.old)) }
        ensures lone { IsLone at.ptr self.old }
        ensures cost { steps.new ≡ steps.old + 7 }
    {
        unlink(&mut self.heap, at, steps);
        let end = self.ends[ring];
        link_before(&mut self.heap, end, at, steps);
        self.note.shift(ring, at);
    }

    /// Takes the node at `at` out, and frees it, or keeps its memory for a later one.
    pub fn remove<L: Ledger>(&mut self, at: Place, steps: &mut Steps<L>) -> T
        requires { IsTrue (has_node at.ptr self.old) }
        ensures value { node_value at.ptr self.old ≡ Some result }
        ensures left { self.new ≡ pull_from at.ptr self.old }
        ensures lone { IsLone at.ptr self.old }
        ensures cost { steps.new ≡ steps.old + 3 }
    {
        unlink(&mut self.heap, at, steps);
        let mut whole = self.heap.take(at, self.alloc);
        self.note.pull(at);
        let value = whole.value.take();
        self.spares.keep(whole);
        value.unwrap()
    }

    /// The first node of the ring.
    pub fn first(&self, ring: usize) -> Option<Place>
        requires { ring < length self.now }
        ensures first { MatchOption result (front_of ring self.now ≡ None) (λ p. MatchOption (front_of ring self.now) ⊥ (λ n. n.0 ≡ p.ptr)) }
        ensures lone { IfSome result (λ p. IsLone p.ptr self.now) }
    {
        let end = self.ends[ring];
        let at = self.heap.get(end).next;
        if self.heap.get(at).value.is_some() {
            Some(at)
        } else {
            None
        }
    }

    /// The value of the node at `at`.
    pub fn get(&self, at: Place) -> &T
        requires { IsTrue (has_node at.ptr self.now) }
        ensures value { node_value at.ptr self.now ≡ Some result.now }
        ensures lone { IsLone at.ptr self.now }
    {
        self.heap.get(at).value.as_ref().unwrap()
    }

    fn remove_as<L: Ledger>(&mut self, at: Place, blank: Blank) -> T
        requires ledger { (blank.name ≡ L.name) × (blank.parts ≡ L.parts) × (0 < L.parts) }
        requires node { IsTrue (has_node at.ptr self.old) }
        ensures value { node_value at.ptr self.old ≡ Some result }
        ensures left { self.new ≡ pull_from at.ptr self.old }
        ensures lone { IsLone at.ptr self.old }
    {
        let mut steps = Steps::<L>::open(blank);
        self.remove(at, &mut steps)
    }

    /// `remove`, where nobody counts.
    pub fn free(&mut self, at: Place) -> T
        requires { IsTrue (has_node at.ptr self.old) }
        ensures value { node_value at.ptr self.old ≡ Some result }
        ensures left { self.new ≡ pull_from at.ptr self.old }
        ensures lone { IsLone at.ptr self.old }
    {
        self.remove_as::<Brand>(at, Blank::new(1))
    }

    fn swap_as<L: Ledger>(&mut self, at: Place, ring: usize, value: T, blank: Blank) -> T
        requires ledger { (blank.name ≡ L.name) × (blank.parts ≡ L.parts) × (0 < L.parts) }
        requires ring { ring < length self.old }
        requires node { IsTrue (has_node at.ptr self.old) }
        ensures value { node_value at.ptr self.old ≡ Some result }
        ensures moved { self.new ≡ push_at ring (at.ptr, value) (pull_from at.ptr self.old) }
    {
        let mut steps = Steps::<L>::open(blank);
        unlink(&mut self.heap, at, &mut steps);
        self.note.pull(at);
        self.note.push(ring, at, &value);
        let node = self.heap.get_mut(at);
        let old = mem::replace(&mut node.value, Some(value));
        let end = self.ends[ring];
        link_before(&mut self.heap, end, at, &mut steps);
        old.unwrap()
    }

    /// The node at `at` becomes the last of the ring, with another value.
    pub fn swap_back(&mut self, at: Place, ring: usize, value: T) -> T
        requires ring { ring < length self.old }
        requires node { IsTrue (has_node at.ptr self.old) }
        ensures value { node_value at.ptr self.old ≡ Some result }
        ensures moved { self.new ≡ push_at ring (at.ptr, value) (pull_from at.ptr self.old) }
    {
        self.swap_as::<Brand>(at, ring, value, Blank::new(1))
    }

    /// Drops each node of the ring, with its value.
    fn clear(&mut self, ring: usize)
        requires { ring < length self.old }
        ensures { self.new ≡ emptied ring self.old }
    {
        while let Some(at) = self.first(ring) {
            let _ = self.free(at);
        }
    }

    /// Drops the last ring, if there is one.
    fn shut(&mut self) -> bool
        ensures { MatchBool result (length self.new + 1 ≡ length self.old) (self.new ≡ []) }
    {
        let Some(last) = self.ends.len().checked_sub(1) else {
            return false;
        };
        self.clear(last);
        let end = self.ends.pop().unwrap();
        let _ = self.heap.take(end, self.alloc);
        self.note.shut();
        true
    }
}

impl<T: Drop> Drop for Rings<T> {
    fn drop(mut self) {
        while self.shut() {}
        let Rings {
            heap,
            ends: _,
            alloc: _,
            spares: _,
            note: _,
        } = self;
        heap.close();
    }
}
