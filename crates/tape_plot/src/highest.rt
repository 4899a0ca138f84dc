// The highest of buffers.
ghost use Rattle.std.specs.List.{insert};
ghost use Rattle.std.specs.Prelude.{◌≡◌, ◌≤◌, length};
ghost use Rattle.tape_plot.specs.Ranking.{puts};

use crate::height::Height;
use flow_gate::FlowId;
use io_ports::NoMemory;
use std::alloc::Global;

/// A buffer that has a lane: a place of a flow, counted from its receive buffer, which is 0; or the write buffer of a connection.
#[derive(Clone, Copy, PartialEq, Eq)]
pub enum Buffer {
    Place(FlowId, u32),
    Write(u32),
}

/// How many lanes are drawn where none are named.
pub const HIGHEST: usize = 40;

/// A buffer that held an octet, and how high it was.
#[derive(Clone, Copy)]
pub struct Ranked {
    pub buffer: Buffer,
    pub height: Height,
}

/// The highest of the buffers so far, in order: at most 40.
#[derive(Drop)]
pub struct Highest {
    items: Vec<Ranked>,
    /// How many were put.
    pub seen: u64,
}

impl Highest {
    ghost use Rattle.std.specs.List.{Contains};
    ghost use Rattle.std.specs.Prelude.{◌≡◌, [], OnOk, map, take, true};
    ghost use Rattle.tape_plot.specs.Ranking.{puts, ranked_in};

    /// None so far. Takes no memory.
    pub fn new(alloc: Global) -> Self
        ensures { ranked_in result ≡ [] }
    {
        Highest {
            items: Vec::new(alloc),
            seen: 0,
        }
    }

    /// One more buffer, behind all that it isn't above. The first are kept.
    pub fn put(&mut self, next: Ranked) -> Result<(), NoMemory>
        ensures { OnOk result (ranked_in self.new ≡ take 40 (puts next (ranked_in self.old))) }
    {
        self.seen = self.seen.saturating_add(1);
        let place = place_of(self.items.as_slice(), next);
        self.items.insert(place, next)?;
        self.items.truncate(HIGHEST);
        Ok(())
    }

    /// Whether a buffer is one of them.
    pub fn has(&self, buffer: Buffer) -> bool
        ensures { Contains (map (λ r. r.buffer) (ranked_in self.now)) buffer → result ≡ true }
    {
        let mut rest = self.items.as_slice();
        while let Some((ranked, after)) = rest.split_first() {
            if ranked.buffer == buffer {
                return true;
            }
            rest = after;
        }
        false
    }
}

// How many stand before the first that the next is above.
fn place_of(ranked: &[Ranked], next: Ranked) -> usize
    ensures fits { result ≤ length ranked.now }
    ensures place { puts next ranked.now ≡ insert ranked.now result next }
{
    let mut place = 0;
    while place < ranked.len() {
        if next.height.is_above(ranked[place].height) {
            return place;
        }
        place += 1;
    }
    place
}
