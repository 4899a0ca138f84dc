// The record of what was done at connections in memory.
ghost use Rattle.std.specs.Prelude.{◌≡◌, ◌+◌, ◌-◌, ◌<◌, ◌≤◌, ◌++◌, ◌∷◌, ◌&&◌, [], OnErr, OnOk, length, nat_le, nat_lt};
ghost use Rattle.mem_ports.specs.Steps.{steps_in};
ghost use Rattle.worker_ports.specs.declared.wires.WireStep.TheVariants as step;

use io_ports::NoMemory;
use std::alloc::Global;
use std::marker::Model;
use worker_ports::Wired;

/// What a record keeps of a step.
#[derive(Drop)]
pub enum Kept {
    /// This was given.
    Gave(Wired),
    /// A piece of so many octets was offered to a connection, which took so many octets from its front.
    Offered { conn: u32, len: usize, taken: usize },
    /// This live connection was closed.
    Closed(u32),
}

/// For how much a record has room.
#[derive(Clone, Copy, PartialEq, Eq)]
pub struct Room {
    /// How many offers.
    pub offers: usize,
    /// How many octets their pieces have together.
    pub octets: usize,
}

/// What was done, in order. It has room for some offers, and for some steps that aren't offers.
#[derive(Drop)]
pub struct Steps {
    kept: Vec<Kept>,
    /// The pieces that were offered, one behind the other.
    pieces: Vec<u8>,
    room: Room,
    others: usize,
}

impl Model for Steps {
    ghost use Rattle.mem_ports.specs.Steps.{IsRoomy, StepsMemory, memory_of};

    ghost Value = { StepsMemory };

    ghost view = { memory_of };

    ghost invariant = { IsRoomy };
}

impl Steps {
    /// Nothing was done. There is no room yet.
    pub fn new(alloc: Global) -> Self
        ensures { result ≡ record { steps = []; offers = 0; octets = 0; others = 0 } }
    {
        Steps {
            kept: Vec::new(alloc),
            pieces: Vec::new(alloc),
            room: Room {
                offers: 0,
                octets: 0,
            },
            others: 0,
        }
    }

    /// Makes room for these offers, and for so many steps that aren't offers. After running out of memory nothing has changed.
    pub fn prepare(&mut self, room: Room, others: usize) -> Result<(), NoMemory>
        ensures ok { OnOk result (self.new ≡ record { steps = self.old.steps; offers = room.offers; octets = room.octets; others = others }) }
        ensures err { OnErr result (self.new ≡ self.old) }
    {
        let Some(steps) = room.offers.checked_add(others) else {
            return Err(NoMemory);
        };
        self.kept.reserve(steps)?;
        self.pieces.reserve(room.octets)?;
        self.room = room;
        self.others = others;
        Ok(())
    }

    /// Whether there is room for an offer of so many octets.
    pub fn has_room(&self, octets: usize) -> bool
        ensures { result ≡ (nat_lt 0 self.now.offers && nat_le octets self.now.octets) }
    {
        0 < self.room.offers && octets <= self.room.octets
    }

    /// This was given.
    #[tactic(auto, using(crate::proofs::Recording::gave_behind, crate::proofs::Recording::octets_behind))]
    pub fn gave(&mut self, wired: Wired)
        requires { 0 < self.old.others }
        ensures { self.new ≡ record self.old { steps = self.old.steps ++ step.Gave wired ∷ []; others = self.old.others - 1 } }
    {
        self.others -= 1;
        self.kept.push_reserved(Kept::Gave(wired));
    }

    /// This connection was closed.
    #[tactic(auto, using(crate::proofs::Recording::closed_behind, crate::proofs::Recording::octets_behind))]
    pub fn closed(&mut self, conn: u32)
        requires { 0 < self.old.others }
        ensures { self.new ≡ record self.old { steps = self.old.steps ++ step.Closed conn ∷ []; others = self.old.others - 1 } }
    {
        self.others -= 1;
        self.kept.push_reserved(Kept::Closed(conn));
    }

    /// This piece was offered, and so many octets of it were taken.
    #[tactic(auto, using(crate::proofs::Recording::offered_behind, crate::proofs::Recording::octets_behind))]
    pub fn offered(&mut self, conn: u32, piece: &[u8], taken: usize)
        requires { (0 < self.old.offers) × (length piece.now ≤ self.old.octets) }
        ensures steps { self.new.steps ≡ self.old.steps ++ step.Offered conn piece.now taken ∷ [] }
        ensures room { (self.new.offers ≡ self.old.offers - 1) × (self.new.octets ≡ self.old.octets - length piece.now) × (self.new.others ≡ self.old.others) }
    {
        self.room.offers -= 1;
        self.room.octets -= piece.len();
        let Ok(()) = self.pieces.extend_from_slice(piece) else {
            unreachable!()
        };
        self.kept.push_reserved(Kept::Offered {
            conn,
            len: piece.len(),
            taken,
        });
    }

    /// What was done, and the pieces that were offered, one behind the other.
    pub fn record(&self) -> (&[Kept], &[u8])
        ensures { steps_in result.0.now result.1.now ≡ self.now.steps }
    {
        (self.kept.as_slice(), self.pieces.as_slice())
    }
}
