// Octets that were read and are given in pieces.
ghost use Rattle.std.specs.Prelude.{◌≡◌, ◌==◌, ◌<◌, ◌≤◌, ◌*◌, ◌++◌, [], drop, length, take, IfOk, OnErr};

use crate::blocks::Blocks;
use crate::link::ReadOutcome;
use crate::links::Links;
use io_ports::{NoMemory, Octets};
use std::alloc::Global;
use std::marker::Model;

/// How many octets a piece has at most.
pub(crate) const PIECE: usize = 16_384;

// How many octets the next piece has where so many are left. Where one doesn't do, each has half of the most at least: a piece of few
// octets would be copied, and what it ends with it.
fn piece_len(left: usize) -> usize
    ensures few { result ≤ 16384 }
    ensures within { result ≤ left }
    ensures halved { 16384 < left → 16384 ≤ 2 * result }
    ensures some { 0 < left → 0 < result }
{
    if left <= PIECE {
        left
    } else if left < 2 * PIECE {
        left / 2
    } else {
        PIECE
    }
}

/// Octets that were read and aren't given yet: those of a block from a place on, up to another.
#[derive(Drop)]
pub struct Pieces {
    blocks: Blocks,
    from: usize,
    to: usize,
}

impl Model for Pieces {
    ghost use Rattle.std.specs.Prelude.{◌-◌, ◌≤◌, drop, length, List, take, ℕ};

    ghost Value = { List ℕ };

    ghost view = { λ p. take (p.to - p.from) (drop p.from p.blocks) };

    ghost invariant = { λ p. (p.from ≤ p.to) × (p.to ≤ length p.blocks) };
}

impl Pieces {
    /// No octets. So many are read at once.
    pub(crate) fn new(alloc: Global, most: usize) -> Result<Self, NoMemory>
        ensures { IfOk result (λ made. made ≡ []) }
    {
        Ok(Pieces {
            blocks: Blocks::new(alloc, most, PIECE)?,
            from: 0,
            to: 0,
        })
    }

    /// How many octets aren't given yet.
    pub(crate) fn len(&self) -> usize
        ensures { result ≡ length self.now }
    {
        self.to - self.from
    }

    /// Whether all are given.
    pub(crate) fn is_empty(&self) -> bool
        ensures { result ≡ (length self.now == 0) }
    {
        self.len() == 0
    }

    /// Reads a connection once. What wasn't given is dropped.
    pub(crate) fn read(&mut self, links: &mut Links, conn: u32) -> ReadOutcome {
        let found = self.blocks.read(links, conn);
        self.from = 0;
        self.to = match found {
            ReadOutcome::Octets(n) => n.min(self.blocks.as_slice().len()),
            ReadOutcome::Nothing | ReadOutcome::End => 0,
        };
        found
    }

    /// Drops what wasn't given.
    pub(crate) fn clear(&mut self)
        ensures { self.new ≡ [] }
    {
        self.from = self.to;
    }

    /// Gives the next piece. Out of memory nothing is given.
    pub(crate) fn give(&mut self) -> Result<Octets, NoMemory>
        ensures gives { IfOk result (λ piece. self.old ≡ piece ++ self.new) }
        ensures most { IfOk result (λ piece. length piece ≤ 16384) }
        ensures some { IfOk result (λ piece. 0 < length self.old → 0 < length piece) }
        ensures err { OnErr result (self.new ≡ self.old) }
    {
        let n = piece_len(self.len());
        let piece = self.front(n)?;
        self.drop_front(n);
        Ok(piece)
    }

    // The first n octets.
    #[tactic(auto, using(crate::proofs::Following::front_of))]
    fn front(&self, n: usize) -> Result<Octets, NoMemory>
        requires { n ≤ length self.now }
        ensures { IfOk result (λ front. front ≡ take n self.now) }
    {
        self.blocks.part(self.from, n)
    }

    // The first n octets are given.
    #[tactic(auto, using(crate::proofs::Following::rest_of))]
    fn drop_front(&mut self, n: usize)
        requires { n ≤ length self.old }
        ensures { self.new ≡ drop n self.old }
    {
        self.from += n;
    }
}
