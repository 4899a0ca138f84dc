// The places of one flow.
ghost use Rattle.std.specs.Prelude.{◌≡◌, ◌+◌, length};

use io_ports::NoMemory;
use std::alloc::Global;
use tape_summary::Level;

/// What happens to the octets of a flow.
#[derive(Clone, Copy)]
pub enum Change {
    /// Octets come into the receive buffer.
    Arrive { n: u64 },
    /// Octets go on from a place to the next one, at most those that are there.
    Shift { place: u32, n: u64 },
    /// Octets leave the send buffer, at most those that are there.
    Frame { n: u64 },
}

/// The levels of a flow's places, and the limits of its stages in octets. Place 0 is the receive buffer, the stages stand
/// behind it, and the last place is the send buffer.
#[derive(Drop)]
pub struct FlowPlaces {
    limits: Vec<u32>,
    levels: Vec<Level>,
    ghost places: { length levels.items ≡ length limits.items + 2 },
}

impl FlowPlaces {
    ghost use Rattle.std.specs.Prelude.{◌≡◌, ◌+◌, ◌<◌, IfOk, IfSome, OnOk, length, map, replicate, slice_get};
    ghost use Rattle.tape_summary.specs.Levels.{emptied, no_level};
    ghost use Rattle.wire_summary.specs.Places.{changed, fallen_at, framed, most_at, risen_at, taken};

    /// The places of a flow that passes stages with these limits: none of them ever held an octet. Refused only for lack of
    /// memory.
    pub fn new(alloc: Global, limits: Vec<u32>) -> Result<Self, NoMemory>
        ensures limits { IfOk result (λ made. made.limits.items ≡ limits.items) }
        ensures levels { IfOk result (λ made. made.levels.items ≡ replicate (length limits.items + 2) no_level) }
    {
        let places = limits.len().checked_add(2);
        let Some(places) = places else {
            return Err(NoMemory);
        };
        Ok(FlowPlaces {
            levels: vec![in alloc; Level::none(); places]?,
            limits,
        })
    }

    /// The limits of the stages.
    pub fn limits(&self) -> &[u32]
        ensures { result.now ≡ self.now.limits.items }
    {
        self.limits.as_slice()
    }

    /// The most that a place ever held, in octets; 0 where there is no such place.
    #[tactic(auto, using(crate::proofs::Siding::most_is, crate::proofs::Siding::most_none))]
    pub fn most(&self, place: usize) -> u64
        ensures { result ≡ most_at place self.now.levels.items }
    {
        match self.level(place) {
            Some(level) => level.most,
            None => 0,
        }
    }

    /// Changes the levels. Answers how many octets left the send buffer. A length past 2^64 - 1 counts as out of memory, after
    /// which the levels are to be let go.
    pub fn change(&mut self, change: Change) -> Result<u64, NoMemory>
        ensures levels { IfOk result (λ n. self.new.levels.items ≡ changed change self.old.levels.items) }
        ensures framed { IfOk result (λ n. n ≡ framed change self.old.levels.items) }
        ensures limits { self.new.limits ≡ self.old.limits }
    {
        match change {
            Change::Arrive { n } => {
                self.put(0, n)?;
                Ok(0)
            }
            Change::Shift { place, n } => {
                let moved = self.take(place as usize, n);
                self.put(place as usize + 1, moved)?;
                Ok(0)
            }
            Change::Frame { n } => {
                let last = self.levels.len() - 1;
                Ok(self.take(last, n))
            }
        }
    }

    /// All octets are dropped.
    #[tactic(auto, using(crate::proofs::Siding::emptied_set, crate::proofs::Siding::emptied_all, crate::proofs::Siding::emptied_long))]
    pub fn empty(&mut self)
        ensures levels { self.new.levels.items ≡ map emptied self.old.levels.items }
        ensures limits { self.new.limits ≡ self.old.limits }
    {
        let mut place = 0;
        while let Some(level) = self.level(place) {
            self.levels[place] = level.empty();
            place += 1;
        }
    }

    // Takes octets from a place, at most those that are there. Answers how many.
    #[tactic(auto, using(crate::proofs::Siding::fallen_set, crate::proofs::Siding::held_is, crate::proofs::Siding::taken_none, crate::proofs::Siding::fallen_none))]
    fn take(&mut self, place: usize, n: u64) -> u64
        ensures levels { self.new.levels.items ≡ fallen_at place (taken place n self.old.levels.items) self.old.levels.items }
        ensures taken { result ≡ taken place n self.old.levels.items }
        ensures limits { self.new.limits ≡ self.old.limits }
    {
        let Some(level) = self.level(place) else {
            return 0;
        };
        let taken = n.min(level.held);
        self.levels[place] = level.fall(taken);
        taken
    }

    // Octets come into a place, if the flow has it.
    #[tactic(auto, using(crate::proofs::Siding::risen_set, crate::proofs::Siding::risen_none))]
    fn put(&mut self, place: usize, n: u64) -> Result<(), NoMemory>
        ensures levels { OnOk result (self.new.levels.items ≡ risen_at place n self.old.levels.items) }
        ensures limits { self.new.limits ≡ self.old.limits }
    {
        if let Some(level) = self.level(place) {
            self.levels[place] = level.rise(n)?;
        }
        Ok(())
    }

    fn level(&self, place: usize) -> Option<Level>
        ensures is { result ≡ slice_get self.now.levels.items place }
        ensures within { IfSome result (λ level. place < length self.now.levels.items) }
    {
        self.levels.as_slice().get(place).copied()
    }
}
