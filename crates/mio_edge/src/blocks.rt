// Blocks of octets that are read to.
ghost use Rattle.std.specs.Prelude.{◌≡◌, ◌+◌, ◌≤◌, drop, length, take, IfOk};

use crate::link::ReadOutcome;
use crate::links::Links;
use io_ports::{NoMemory, Octets};
use std::alloc::Global;
use std::marker::Model;
use std::mem;
use std::sync::Arc;

/// How many blocks there are at most, beside the one that is read to, of which parts are lent.
const MOST_BLOCKS: usize = 32;

/// The block that was read to last, and others. Parts of it share it, and it is read to again once nobody holds any of them. While
/// all blocks are held one is read to of which parts are copies: so whatever is held of parts keeps no more than these blocks. None
/// is ever cleared.
#[derive(Drop)]
pub struct Blocks {
    alloc: Global,
    /// How many octets a block has of which parts are lent.
    most: usize,
    block: Arc<Vec<u8>>,
    others: Vec<Arc<Vec<u8>>>,
    /// The block of which parts are copies.
    own: Vec<u8>,
    /// Whether that was read to last.
    copies: bool,
}

impl Model for Blocks {
    ghost use Rattle.std.specs.Arc.{arc_value};
    ghost use Rattle.std.specs.Prelude.{List, if◌then◌else◌, ℕ};

    ghost Value = { List ℕ };

    ghost view = { λ b. if b.copies then b.own.items else (arc_value b.block).items };
}

impl Blocks {
    /// Blocks of so many octets each, and one of fewer of which parts are copies.
    pub(crate) fn new(alloc: Global, most: usize, own: usize) -> Result<Self, NoMemory> {
        let block = vec![in alloc; 0; most]?;
        Ok(Blocks {
            alloc,
            most,
            block: Arc::new(alloc, block)?,
            others: Vec::new(alloc),
            own: vec![in alloc; 0; own]?,
            copies: false,
        })
    }

    /// Reads a connection once, to a block of which nobody holds a part.
    pub(crate) fn read(&mut self, links: &mut Links, conn: u32) -> ReadOutcome {
        self.find();
        if let Some(octets) = Arc::get_mut(&mut self.block) {
            self.copies = false;
            return links.read(conn, octets.as_mut_slice());
        }
        self.copies = true;
        links.read(conn, &mut self.own)
    }

    /// The octets of the block that was read to last.
    pub(crate) fn as_slice(&self) -> &[u8]
        ensures { result.now ≡ self.now }
    {
        if self.copies {
            self.own.as_slice()
        } else {
            self.block.as_slice()
        }
    }

    /// So many of these octets from a place on, which share a block where they are many, or may be shared.
    pub(crate) fn part(&self, from: usize, n: usize) -> Result<Octets, NoMemory>
        requires { from + n ≤ length self.now }
        ensures { IfOk result (λ part. part ≡ take n (drop from self.now)) }
    {
        if self.copies {
            let (_, behind) = self.own.as_slice().split_at(from);
            let (part, _) = behind.split_at(n);
            return Octets::from_slice(self.alloc, part)?.shared();
        }
        Octets::within(self.alloc, &self.block, from, n)?.shared()
    }

    // Nobody holds a part of the block any more, if there is such a block or can be.
    fn find(&mut self) {
        if Arc::get_mut(&mut self.block).is_some() {
            return;
        }
        for place in 0..self.others.len() {
            if let Some(other) = self.others.get_mut(place)
                && Arc::get_mut(other).is_some()
            {
                mem::swap(&mut self.block, other);
                return;
            }
        }
        let _ = self.add();
    }

    // One more block, if there aren't too many.
    fn add(&mut self) -> Result<(), NoMemory> {
        if self.others.len() >= MOST_BLOCKS {
            return Ok(());
        }
        let octets = vec![in self.alloc; 0; self.most]?;
        let block = Arc::new(self.alloc, octets)?;
        self.others.push(block)?;
        if let Some(other) = self.others.last_mut() {
            mem::swap(&mut self.block, other);
        }
        Ok(())
    }
}
