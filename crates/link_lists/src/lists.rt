//! Linked lists whose nodes are named by handles.
ghost use Rattle.std.specs.Prelude.{◌≡◌, ◌+◌, ◌<◌, ◌≤◌, [], ◌∷◌, ◌++◌, length, replicate, not, false, ⊤, IfOk, IsTrue, MatchResult, MatchOption, Some, None};
ghost use Rattle.std.specs.Option.{option_copied};
ghost use Rattle.link_lists.specs.Lists.{NodeLists, push_at, pull_from, has_node, node_value, front_of, contains_id, without_id, IsKnown};

use crate::heap::Place;
use crate::rings::Rings;
use crate::steps::Steps;
use io_ports::NoMemory;
use std::alloc::Global;
use std::marker::Model;
use std::sync::ledger::Ledger;

/// Names one node. It can't be dropped: `Lists::remove` or `Lists::retire` takes it back.
pub struct Node {
    place: Place,
}

impl Model for Node {
    ghost use Rattle.link_lists.specs.Lists.{NodeId};

    ghost Value = { NodeId };

    ghost view = { λ n. n.place.ptr };
}

/// Linked lists of nodes with values. Moving or taking out a node takes a few steps, however long the lists are.
///
/// Seen as the lists, each of the names of its nodes with their values, and the names of the retired nodes: those that
/// `take_front` took out, and `retire` hasn't had back yet.
///
/// A call that takes a list's number asks that there is such a list. A call that takes a node asks that the node is in
/// these lists, if it doesn't say otherwise. Dropping the lists frees each node and drops its value.
#[derive(Drop)]
pub struct Lists<T> {
    rings: Rings<Option<T>>,
}

impl<T> Model for Lists<T> {
    ghost use Rattle.std.specs.Prelude.{◌≡◌};
    ghost use Rattle.link_lists.specs.Lists.{NodeLists};
    ghost use Rattle.link_lists.specs.Seen.{shown, stored};

    ghost Value = { NodeLists T };

    ghost view = { λ a. shown a.rings };

    ghost invariant = { λ a. a.rings ≡ stored (shown a.rings) };
}

impl<T: Drop> Lists<T> {
    /// `k` empty lists. Refused only for lack of memory.
    pub fn new(alloc: Global, k: u32) -> Result<Lists<T>, NoMemory>
        ensures { IfOk result (λ made. made ≡ record { lists = replicate k []; retired = [] }) }
    {
        let mut rings = Rings::empty(alloc);
        rings.open()?;
        for _ in 0..k {
            rings.open()?;
        }
        Ok(Lists { rings })
    }

    /// A new node with this value becomes the last of the list. After running out of memory the value is handed back.
    pub fn insert_back<L: Ledger>(
        &mut self,
        list: u32,
        value: T,
        steps: &mut Steps<L>,
    ) -> Result<Node, (NoMemory, T)>
        requires { list < length self.old.lists }
        ensures ok { IfOk result (λ node. self.new ≡ record self.old { lists = push_at list (node, value) self.old.lists }) }
        // No node that is in the lists or retired has its name.
        ensures fresh { IfOk result (λ node. (has_node node self.old.lists ≡ false) × (contains_id node self.old.retired ≡ false)) }
        ensures err { MatchResult result (λ _. ⊤) (λ e. (self.new ≡ self.old) × (e.1 ≡ value)) }
        ensures cost { steps.new ≤ steps.old + 8 }
    {
        let place = self.rings.push_back(list as usize + 1, Some(value), steps);
        match place {
            Ok(place) => Ok(Node { place }),
            Err((want, value)) => Err((want, value.unwrap())),
        }
    }

    /// Takes the node out and frees it.
    pub fn remove<L: Ledger>(&mut self, node: Node, steps: &mut Steps<L>) -> T
        requires { IsTrue (has_node node self.old.lists) }
        ensures value { node_value node self.old.lists ≡ Some result }
        ensures left { self.new ≡ record self.old { lists = pull_from node self.old.lists } }
        ensures cost { steps.new ≤ steps.old + 8 }
    {
        let Node { place } = node;
        self.rings.remove(place, steps).unwrap()
    }

    /// The node becomes the last of the list, which may be the one where it is.
    pub fn move_back<L: Ledger>(&mut self, node: &Node, list: u32, steps: &mut Steps<L>)
        requires list { list < length self.old.lists }
        requires node { IsTrue (has_node node.now self.old.lists) }
        ensures moved { MatchOption (node_value node.now self.old.lists) ⊥ (λ v. self.new ≡ record self.old { lists = push_at list (node.now, v) (pull_from node.now self.old.lists) }) }
        ensures cost { steps.new ≤ steps.old + 8 }
    {
        self.rings.move_back(node.place, list as usize + 1, steps);
    }

    /// The value of the list's first node.
    pub fn front(&self, list: u32) -> Option<&T>
        requires { list < length self.now.lists }
        ensures { MatchOption (front_of list self.now.lists) (result ≡ None) (λ n. option_copied result ≡ Some n.1) }
    {
        let place = self.rings.first(list as usize + 1)?;
        self.rings.get(place).as_ref()
    }

    /// Takes the list's first node out and retires it: its holder gives it back by `retire`.
    pub fn take_front(&mut self, list: u32) -> Option<T>
        requires { list < length self.old.lists }
        ensures none { front_of list self.old.lists ≡ None → (result ≡ None) × (self.new ≡ self.old) }
        ensures some { MatchOption (front_of list self.old.lists) ⊤ (λ n. (result ≡ Some n.1) × (self.new ≡ record { lists = pull_from n.0 self.old.lists; retired = self.old.retired ++ n.0 ∷ [] })) }
    {
        let place = self.rings.first(list as usize + 1)?;
        self.rings.swap_back(place, 0, None)
    }

    /// The value of the node.
    pub fn value(&self, node: &Node) -> &T
        requires { IsTrue (has_node node.now self.now.lists) }
        ensures { node_value node.now self.now.lists ≡ Some result.now }
    {
        self.rings.get(node.place).as_ref().unwrap()
    }

    /// Whether the node is in the lists, and `take_front` hasn't retired it. Asks that it is one of the two.
    pub fn is_in(&self, node: &Node) -> bool
        requires { IsKnown node.now self.now }
        ensures listed { result ≡ has_node node.now self.now.lists }
        ensures retired { result ≡ not (contains_id node.now self.now.retired) }
    {
        self.rings.get(node.place).is_some()
    }

    /// Frees a node that `take_front` has retired.
    pub fn retire(&mut self, node: Node)
        requires { IsTrue (contains_id node self.old.retired) }
        ensures { self.new ≡ record self.old { retired = without_id node self.old.retired } }
    {
        let Node { place } = node;
        let _ = self.rings.free(place);
    }
}
