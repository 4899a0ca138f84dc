// Octets that came and aren't read yet.
ghost use Rattle.std.specs.Prelude.{◌≡◌, ◌==◌, ◌≤◌, ◌+◌, ◌++◌, [], drop, length, take, IfOk, OnErr, OnOk};
ghost use Rattle.wire_inlet.specs.Unreads.{octets_in};

use crate::joined::Joined;
use io_ports::{NoMemory, Octets};
use std::alloc::Global;
use std::marker::Model;

/// Where octets are.
#[derive(Drop)]
pub(crate) enum Block {
    /// In the block in which they came, which others may share.
    Came(Octets),
    /// In a block of their own, behind octets that came before.
    Joined(Joined),
}

impl Block {
    fn as_slice(&self) -> &[u8]
        ensures { result.now ≡ octets_in self.now }
    {
        match self {
            Block::Came(octets) => octets.as_slice(),
            Block::Joined(joined) => joined.as_slice(),
        }
    }
}

/// The octets from a place on. Those before it were read. Octets that come where all are read stay in the block that they came
/// in, and so do those that stand right behind the ones that aren't read in the same block. Others go to a block that has room for
/// more, in which what isn't read is moved to the front where that room is used up and at least as many octets were read: so an octet
/// is moved at the cost of one that was read. Once none of them is left but some that came last, these are where they came; once
/// none is left at all no block is kept.
#[derive(Drop)]
pub struct Unread {
    alloc: Global,
    block: Block,
    at: usize,
}

impl Model for Unread {
    ghost use Rattle.std.specs.Prelude.{◌≤◌, drop, length, List, ℕ};
    ghost use Rattle.wire_inlet.specs.Unreads.{octets_in};

    ghost Value = { List ℕ };

    ghost view = { λ u. drop u.at (octets_in u.block) };

    ghost invariant = { λ u. u.at ≤ length (octets_in u.block) };
}

impl Unread {
    /// No octets. Takes no memory.
    pub fn new(alloc: Global) -> Self
        ensures { result ≡ [] }
    {
        Unread {
            alloc,
            block: Block::Came(Octets::new(alloc)),
            at: 0,
        }
    }

    pub fn as_slice(&self) -> &[u8]
        ensures { result.now ≡ self.now }
    {
        let (_, unread) = self.block.as_slice().split_at(self.at);
        unread
    }

    pub fn is_empty(&self) -> bool
        ensures { result ≡ (length self.now == 0) }
    {
        self.block.as_slice().len() == self.at
    }

    /// So many octets from a place on. Of octets in the block in which they came they share it, where they are many.
    #[tactic(auto, using(crate::proofs::Joining::part_behind))]
    #[inline(always)]
    pub fn part(&self, from: usize, n: usize) -> Result<Octets, NoMemory>
        requires { from + n ≤ length self.now }
        ensures { IfOk result (λ part. part ≡ take n (drop from self.now)) }
    {
        let len = self.block.as_slice().len();
        let first = len - (len - self.at - from);
        match &self.block {
            Block::Came(octets) => octets.part(first, n),
            Block::Joined(joined) => {
                let (_, behind) = joined.as_slice().split_at(first);
                let (part, _) = behind.split_at(n);
                Octets::from_slice(self.alloc, part)?.shared()
            }
        }
    }

    /// Appends octets. After running out of memory the octets are as they were.
    #[tactic(auto, using(crate::proofs::Joining::none_before))]
    pub fn push_all(&mut self, more: &Octets) -> Result<(), NoMemory>
        ensures ok { OnOk result (self.new ≡ self.old ++ more.now) }
        ensures err { OnErr result (self.new ≡ self.old) }
    {
        let mut came = more.copied()?;
        if self.is_empty() {
            self.put(came);
            return Ok(());
        }
        if came.take_in_front(self.as_slice()) {
            self.put(came);
            return Ok(());
        }
        self.join(came)
    }

    /// The first n octets were read.
    #[inline(always)]
    pub fn take(&mut self, n: usize)
        requires { n ≤ length self.old }
        ensures { self.new ≡ drop n self.old }
    {
        let len = self.block.as_slice().len();
        let left = len - self.at;
        self.at = len - (left - n);
        self.settle();
    }

    // The octets are these, where they came.
    #[inline(always)]
    fn put(&mut self, came: Octets)
        ensures { self.new ≡ came }
    {
        self.block = Block::Came(came);
        self.at = 0;
    }

    // Once no octets are left but some of those that came last, they are where these came, and once none is left no block is kept.
    #[tactic(auto, using(crate::proofs::Joining::left_of_last))]
    #[inline(always)]
    fn settle(&mut self)
        ensures { self.new ≡ self.old }
    {
        let left = self.as_slice().len();
        if left == 0 {
            self.put(Octets::new(self.alloc));
            return;
        }
        if let Block::Joined(joined) = &mut self.block
            && let Some(last) = joined.last(left)
        {
            self.at = last.len() - left;
            self.block = Block::Came(last);
        }
    }

    // Appends octets behind some that aren't read.
    fn join(&mut self, more: Octets) -> Result<(), NoMemory>
        ensures ok { OnOk result (self.new ≡ self.old ++ more) }
        ensures err { OnErr result (self.new ≡ self.old) }
    {
        if let Block::Joined(joined) = &mut self.block {
            if joined.room() < more.len() && joined.cut(self.at) {
                self.at = 0;
            }
            joined.push_all(more)?;
            return Ok(());
        }
        self.block = Block::Joined(Joined::new(self.alloc, self.as_slice(), more)?);
        self.at = 0;
        Ok(())
    }
}
