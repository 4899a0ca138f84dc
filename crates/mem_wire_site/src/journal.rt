// The journal of a worker in memory.
ghost use Rattle.std.specs.Prelude.{◌≡◌, ◌≤◌, []};
ghost use Rattle.io_ports.specs.Faults.{Rose};

use flow_notes::Notes;
use io_ports::{Failed, MemSink, NoMemory, Sink};
use std::alloc::Global;
use std::marker::Model;
use worker_parts::{Journal, MemJournal};

/// A journal in memory, which keeps the notes too, and counts the writes that failed.
#[derive(Drop)]
pub struct PlayJournal {
    kept: MemJournal,
    faults: u64,
}

impl Model for PlayJournal {
    ghost use Rattle.mem_wire_site.specs.Journals.{JournalMemory};
    ghost use Rattle.worker_parts.specs.Memory.{notes_in, sink_of};

    ghost Value = { JournalMemory };

    ghost view = { λ j. record { sink = sink_of j.kept; notes = notes_in j.kept; faults = j.faults } };
}

impl PlayJournal {
    /// Writes into this sink. It was handed no notes yet, and nothing has failed. Takes no memory.
    pub fn new(alloc: Global, sink: MemSink) -> Self
        ensures { result ≡ record { sink = sink; notes = []; faults = 0 } }
    {
        PlayJournal {
            kept: MemJournal::new(alloc, sink),
            faults: 0,
        }
    }

    /// What was written.
    pub fn octets(&self) -> &[u8]
        ensures { result.now ≡ self.now.sink.octets }
    {
        self.kept.octets()
    }

    /// The notes of each dispatch.
    pub fn notes(&self) -> &[Notes]
        ensures { result.now ≡ self.now.notes }
    {
        self.kept.notes()
    }

    /// How many writes failed, or took nothing of a nonempty piece.
    pub fn faults(&self) -> u64
        ensures { result ≡ self.now.faults }
    {
        self.faults
    }

    // A write fails.
    fn fault(&mut self)
        ensures rose { Rose self.old.faults self.new.faults }
        ensures no_fall { self.old.faults ≤ self.new.faults }
        ensures same { self.new ≡ record self.old { faults = self.new.faults } }
    {
        self.faults = self.faults.saturating_add(1);
    }
}

impl Sink for PlayJournal {
    ghost use Rattle.mem_wire_site.specs.Journals.{journal_text};

    ghost contents = { journal_text };

    ghost faults = { λ j. j.faults };

    fn write(&mut self, piece: &[u8]) -> Result<usize, Failed> {
        match self.kept.write(piece) {
            Ok(n) => {
                if n == 0 && !piece.is_empty() {
                    self.fault();
                }
                Ok(n)
            }
            Err(Failed) => {
                self.fault();
                Err(Failed)
            }
        }
    }
}

impl Journal for PlayJournal {
    ghost use Rattle.mem_wire_site.specs.Journals.{journal_told};

    ghost told = { journal_told };

    fn is_kept(&self) -> bool {
        true
    }

    fn line(&mut self, line: &[u8]) -> Result<(), Failed> {
        match self.kept.line(line) {
            Ok(()) => Ok(()),
            Err(Failed) => {
                self.fault();
                Err(Failed)
            }
        }
    }

    fn noted(&mut self, notes: &mut Notes) -> Result<(), NoMemory> {
        self.kept.noted(notes)
    }
}
