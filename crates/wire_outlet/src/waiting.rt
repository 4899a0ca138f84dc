// Units that wait to be framed.
ghost use Rattle.std.specs.Prelude.{◌≡◌, ◌<◌, ◌+◌, ◌^◌, ◌++◌, ◌∷◌, [], drop, length, IfSome, MatchOption, OnErr, OnOk};
ghost use Rattle.wire_outlet.specs.Waiting.{IsFrameable};

use crate::control::Control;
use io_ports::{NoMemory, Octets};
use std::alloc::Global;
use std::collections::VecDeque;
use std::marker::Model;

/// A unit that waits to be framed whole.
#[derive(Drop)]
pub enum Waiting {
    /// Octets that go out as they are.
    Answer(Control),
    /// A head of `:status` alone with END_STREAM. Its block is encoded when it is framed, since a
    /// decoder reads blocks in the order in which they come (RFC 9113 section 4.3).
    Reply { stream: u32, status: u16 },
}

/// Units in the order in which they came, fewer than 2^32.
#[derive(Drop)]
pub(crate) struct WaitingList {
    units: VecDeque<Waiting>,
}

impl Model for WaitingList {
    ghost use Rattle.std.specs.Prelude.{All, List, length, ◌<◌, ◌^◌};
    ghost use Rattle.wire_outlet.specs.declared.waiting.Waiting.{Waiting};

    ghost Value = { List Waiting };

    ghost use Rattle.wire_outlet.specs.Waiting.{IsFrameable};

    ghost view = { λ a. a.units.items };

    ghost invariant = { λ a. (length a.units.items < 2 ^ 32) × All IsFrameable a.units.items };
}

impl WaitingList {
    pub fn new(alloc: Global) -> Self
        ensures { result ≡ [] }
    {
        WaitingList {
            units: VecDeque::new(alloc),
        }
    }

    pub fn len(&self) -> u32
        ensures { result ≡ length self.now }
    {
        self.units.len() as u32
    }

    /// Appends a unit. After running out of memory the list is as it was.
    pub fn push(&mut self, unit: Waiting) -> Result<(), NoMemory>
        requires unit { IsFrameable unit }
        requires room { length self.old + 1 < 2 ^ 32 }
        ensures ok { OnOk result (self.new ≡ self.old ++ unit ∷ []) }
        ensures err { OnErr result (self.new ≡ self.old) }
    {
        self.units.push_back(unit)?;
        Ok(())
    }

    /// The first unit.
    pub fn first(&self) -> Option<&Waiting>
        ensures first { MatchOption result (self.now ≡ []) (λ unit. self.now ≡ unit.now ∷ drop 1 self.now) }
        ensures frameable { IfSome result (λ unit. IsFrameable unit.now) }
    {
        self.units.front()
    }

    /// Drops the first unit, if any.
    pub fn pop(&mut self) -> Option<Waiting>
        ensures rest { self.new ≡ drop 1 self.old }
        ensures first { MatchOption result (self.old ≡ []) (λ unit. self.old ≡ unit ∷ drop 1 self.old) }
    {
        self.units.pop_front()
    }

    pub fn clear(&mut self)
        ensures { self.new ≡ [] }
    {
        self.units.clear();
    }
}
