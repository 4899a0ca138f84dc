// The text of the rows.
ghost use Rattle.std.specs.List.{Contains, concat};
ghost use Rattle.std.specs.Prelude.{◌≡◌, ◌++◌, [], OnOk};
ghost use Rattle.tape_plot.specs.Sheets.{Grows};

use super::frame::Frame;
use io_ports::{NoMemory, Octets};
use std::alloc::Global;

/// What is drawn so far, in pieces of text, and how its columns stand.
#[derive(Drop)]
pub struct Sheet {
    alloc: Global,
    pub frame: Frame,
    pieces: Vec<Octets>,
}

impl Sheet {
    ghost use Rattle.std.specs.List.{Contains, concat};
    ghost use Rattle.std.specs.Prelude.{◌≡◌, ◌++◌, [], OnOk};
    ghost use Rattle.tape_plot.specs.Sheets.{Grows};

    /// Nothing is drawn. Takes no memory.
    pub fn new(alloc: Global, frame: Frame) -> Self
        ensures { result.frame ≡ frame }
    {
        Sheet {
            alloc,
            frame,
            pieces: Vec::new(alloc),
        }
    }

    /// The next piece, which has no octets yet.
    pub fn piece(&self) -> Octets
        ensures { result ≡ [] }
    {
        Octets::new(self.alloc)
    }

    /// One more piece, below the others.
    pub fn push(&mut self, piece: Octets) -> Result<(), NoMemory>
        ensures grows { OnOk result (Grows self.old self.new) }
        ensures put { OnOk result (Contains self.new.pieces.items piece) }
    {
        self.pieces.push(piece)?;
        Ok(())
    }

    /// Appends its text.
    pub fn put_onto(&self, into: &mut Octets) -> Result<(), NoMemory>
        ensures { OnOk result (into.new ≡ into.old ++ concat self.now.pieces.items) }
    {
        let mut rest = self.pieces.as_slice();
        while let Some((piece, after)) = rest.split_first() {
            into.push_all(piece.as_slice())?;
            rest = after;
        }
        Ok(())
    }
}
