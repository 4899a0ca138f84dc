// A journal that keeps nothing.
ghost use Rattle.std.specs.Prelude.{None};

use flow_notes::Notes;
use io_ports::{Failed, NoMemory, Sink};
use worker_loop::Journal;

/// A journal that keeps nothing, and counts what it was given.
#[derive(Drop)]
pub struct Quiet {
    pub octets: usize,
}

impl Sink for Quiet {
    ghost contents = { λ _. None };

    ghost faults = { λ _. 0 };

    fn write(&mut self, piece: &[u8]) -> Result<usize, Failed> {
        self.octets = self.octets.saturating_add(piece.len());
        Ok(piece.len())
    }
}

impl Journal for Quiet {
    ghost told = { λ _. None };

    // Each line is spelled, as for a journal that keeps it.
    fn is_kept(&self) -> bool {
        true
    }

    fn line(&mut self, line: &[u8]) -> Result<(), Failed> {
        self.octets = self.octets.saturating_add(line.len());
        Ok(())
    }

    fn noted(&mut self, notes: &mut Notes) -> Result<(), NoMemory> {
        notes.clear();
        Ok(())
    }
}
