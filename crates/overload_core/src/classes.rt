//! The exchanges by memory class.
ghost use Rattle.std.specs.Prelude.{◌≡◌, ℕ, ◌+◌, ◌<◌, ◌≤◌, [], replicate, IfOk, OnErr, OnOk, ◌==◌, Bool, false, cond, List, ◌∷◌};
ghost use Rattle.std.specs.BTreeMap.{get};
ghost use Rattle.std.specs.Ordering.{nat_cmp};
ghost use Rattle.overload_core.specs.Accounts.{class_in, without, entered, in_class, cleared, next_reset};
ghost use Rattle.overload_core.specs.Class.{IsClassOf};
ghost use Rattle.overload_core.specs.Tied.{Tied};
ghost use Rattle.overload_core.specs.Course.{Holding, newest, class_number, Follow, Ends, all_set, IsResetNext};

use io_ports::NoMemory;
use link_lists::{Lists, Node, Steps};
use std::alloc::Global;
use std::collections::BTreeMap;
use std::collections::btree_map::Entry;
use std::marker::{Brand, Model};
use std::sync::ledger::{Blank, Ledger};

/// Where an exchange stands: its node, and its class from 1 to 8.
pub(crate) struct Standing {
    node: Node,
    class: u32,
}

/// The exchanges of the memory classes 1 to 8. What a call costs doesn't grow with what the other exchanges hold.
///
/// Seen as the power of two at which class 1 starts, and the eight classes, each the numbers of its exchanges in the order
/// in which they came into it. An exchange of class 0 isn't kept.
pub struct Classes {
    lists: Lists<u64>,
    standings: BTreeMap<u64, Standing>,
    start: u32,
}

impl Model for Classes {
    ghost use Rattle.std.specs.BTreeMap.{get};
    ghost use Rattle.std.specs.Ordering.{nat_cmp};
    ghost use Rattle.overload_core.specs.Accounts.{Accounts};
    ghost use Rattle.overload_core.specs.Tied.{classes_of, Kept};

    ghost Value = { Accounts };

    ghost view = { λ c. record { start = c.start; classes = classes_of c.lists.lists } };

    ghost invariant = { λ c. Kept c.start (get nat_cmp c.standings) c.lists.lists };
}

impl Classes {
    /// No exchanges. Class 1 starts at 2^start octets. Refused only for lack of memory.
    pub fn new(alloc: Global, start: u32) -> Result<Classes, NoMemory>
        requires { start ≤ 40 }
        ensures { IfOk result (λ made. made ≡ record { start = start; classes = replicate 8 [] }) }
    {
        Ok(Classes {
            lists: Lists::new(alloc, 8)?,
            standings: BTreeMap::new(alloc),
            start,
        })
    }

    /// The exchange's class, 0 where it isn't kept.
    fn class(&self, exchange: u64) -> u32
        ensures { result ≡ class_in exchange self.now.classes }
    {
        match self.standings.get(&exchange) {
            Some(standing) => standing.class,
            None => 0,
        }
    }

    /// The exchange comes last in the class.
    fn enter<L: Ledger>(
        &mut self,
        exchange: u64,
        class: u32,
        steps: &mut Steps<L>,
    ) -> Result<(), NoMemory>
        requires class { (0 < class) × (class ≤ 8) }
        requires absent { class_in exchange self.old.classes ≡ 0 }
        ensures ok { OnOk result (self.new ≡ record self.old { classes = entered class exchange self.old.classes }) }
        ensures err { OnErr result (self.new ≡ self.old) }
        ensures cost { steps.new ≤ steps.old + 8 }
    {
        let Entry::Vacant(entry) = self.standings.entry(exchange)? else {
            unreachable!();
        };
        let Ok(node) = self.lists.insert_back(class - 1, exchange, steps) else {
            return Err(NoMemory);
        };
        let _ = entry.insert(Standing { node, class });
        Ok(())
    }

    /// The exchange leaves its class, and comes last in this one.
    fn shift<L: Ledger>(&mut self, exchange: u64, class: u32, steps: &mut Steps<L>)
        requires class { (0 < class) × (class ≤ 8) }
        requires there { 0 < class_in exchange self.old.classes }
        ensures moved { self.new ≡ record self.old { classes = entered class exchange (without exchange self.old.classes) } }
        ensures cost { steps.new ≤ steps.old + 8 }
    {
        let Some(standing) = self.standings.get_mut(&exchange) else {
            unreachable!();
        };
        self.lists.move_back(&standing.node, class - 1, steps);
        standing.class = class;
    }

    /// The exchange leaves its class, if it has one.
    fn leave<L: Ledger>(&mut self, exchange: u64, steps: &mut Steps<L>)
        ensures left { self.new ≡ record self.old { classes = without exchange self.old.classes } }
        ensures cost { steps.new ≤ steps.old + 8 }
    {
        if let Some(standing) = self.standings.remove(&exchange) {
            let Standing { node, class: _ } = standing;
            let _ = self.lists.remove(node, steps);
        }
    }

    /// The exchange holds so many octets. Where its class changes it comes last in the new one, and else it keeps its place.
    /// After running out of memory nothing has changed.
    pub fn set<L: Ledger>(
        &mut self,
        exchange: u64,
        bytes: u64,
        steps: &mut Steps<L>,
    ) -> Result<(), NoMemory>
        ensures ok { OnOk result ((k : ℕ) → IsClassOf self.old.start bytes k → self.new ≡ record self.old { classes = in_class k exchange self.old.classes }) }
        ensures err { OnErr result (self.new ≡ self.old) }
        ensures cost { steps.new ≤ steps.old + 16 }
    {
        let class = class_of(bytes, self.start);
        let before = self.class(exchange);
        if class == before {
            return Ok(());
        }
        if class == 0 {
            self.leave(exchange, steps);
            return Ok(());
        }
        if before == 0 {
            return self.enter(exchange, class, steps);
        }
        self.shift(exchange, class, steps);
        Ok(())
    }

    fn drop_as<L: Ledger>(&mut self, exchange: u64, blank: Blank)
        requires { (blank.name ≡ L.name) × (blank.parts ≡ L.parts) × (0 < L.parts) }
        ensures { self.new ≡ record self.old { classes = without exchange self.old.classes } }
    {
        let mut steps = Steps::<L>::open(blank);
        self.leave(exchange, &mut steps);
    }

    /// The exchange is gone. Where it isn't kept, nothing changes.
    pub fn drop_one(&mut self, exchange: u64)
        ensures { self.new ≡ record self.old { classes = without exchange self.old.classes } }
    {
        self.drop_as::<Brand>(exchange, Blank::new(1));
    }

    /// The exchange that is reset next under a state, in parts per million: of the min(floor(8 × state / 1,000,000) + 1, 8)
    /// greatest classes, the first exchange of the greatest that isn't empty. None where the state is 0, or these are empty.
    ///
    /// State 1 clears class 8 alone, 500,000 the classes 4 to 8, 874,999 the classes 2 to 8, and 1,000,000 all.
    pub fn to_reset(&self, state: u32) -> Option<u64>
        ensures { result ≡ next_reset state self.now.classes }
    {
        for i in 0..cleared(state) {
            let first = self.lists.front(7 - i).copied();
            if let Some(exchange) = first {
                return Some(exchange);
            }
        }
        None
    }
}

/// How many of the greatest classes a state clears.
fn cleared(state: u32) -> u32
    ensures cleared { result ≡ cleared state }
    ensures few { result ≤ 8 }
{
    if state == 0 {
        return 0;
    }
    (8 * u64::from(state) / 1_000_000 + 1).min(8) as u32
}

/// Gives every node back.
fn release<L: Ledger>(lists: Lists<u64>, standings: BTreeMap<u64, Standing>, blank: Blank)
    requires ledger { (blank.name ≡ L.name) × (blank.parts ≡ L.parts) × (0 < L.parts) }
    requires tied { Tied (get nat_cmp standings) lists.lists }
{
    let mut lists = lists;
    let mut standings = standings;
    let mut steps = Steps::<L>::open(blank);
    while let Some((_, standing)) = standings.pop_first() {
        let Standing { node, class: _ } = standing;
        let _ = lists.remove(node, &mut steps);
    }
    standings.destroy_empty();
}

impl Drop for Classes {
    fn drop(self) {
        let Classes {
            lists,
            standings,
            start: _,
        } = self;
        release::<Brand>(lists, standings, Blank::new(1));
    }
}

/// The memory class of an exchange that holds so many octets: 0 below 2^start, i from 1 to 7 from 2^(start+i−1) up to below
/// 2^(start+i), and 8 from 2^(start+7) on.
///
/// With start 20, 1,048,575 octets are class 0, 1,048,576 class 1, and 134,217,728 class 8.
pub fn class_of(bytes: u64, start: u32) -> u32
    requires { start ≤ 40 }
    ensures { IsClassOf start bytes result }
{
    for class in 0..8 {
        if bytes < 1 << (start + class) {
            return class;
        }
    }
    8
}

/// A number of octets has one class.
pub fn one_class()
    ensures { (start bytes j k : ℕ) → IsClassOf start bytes j → IsClassOf start bytes k → j ≡ k }
{}

/// The class that is defined as a number is the class of so many octets.
pub fn class_has_number()
    ensures { (start bytes : ℕ) → IsClassOf start bytes (class_number start bytes) }
{}

/// Classes that are empty at first, that are set at the end of each dispatch for the exchanges that it touched, by their
/// numbers, and from which each exchange is dropped when it is gone, follow the course of the dispatches. An exchange that
/// starts changes nothing until it holds something at an end.
pub fn classes_follow()
    ensures begins { (start : ℕ) (live : ℕ → Bool) → Follow start [] live (replicate 8 []) }
    ensures starts { (start : ℕ) (ends : List Holding) (live alive : ℕ → Bool) (classes : List (List ℕ)) → Follow start ends live classes → ((e : ℕ) → 0 < newest ends e → alive e ≡ live e) → Follow start ends alive classes }
    ensures drops { (start : ℕ) (ends : List Holding) (live alive : ℕ → Bool) (classes : List (List ℕ)) (e : ℕ) → Follow start ends live classes → ((x : ℕ) → alive x ≡ cond (x == e) false (live x)) → Follow start ends alive (without e classes) }
    ensures ends { (start : ℕ) (ends : List Holding) (live : ℕ → Bool) (touched : List ℕ) (held : Holding) (alive : ℕ → Bool) (classes : List (List ℕ)) → Follow start ends live classes → Ends ends live touched held alive → Follow start (held ∷ ends) alive (all_set start held touched classes) }
{}

/// The exchange that `Classes::to_reset` answers of classes that follow the course is the one of the greatest class among those
/// that the state clears, of these the one that came into it at the earliest end, and of these the one with the least number.
pub fn next_is_due()
    ensures { (start : ℕ) (ends : List Holding) (live : ℕ → Bool) (classes : List (List ℕ)) (state : ℕ) → Follow start ends live classes → IsResetNext start ends live state (next_reset state classes) }
{}
