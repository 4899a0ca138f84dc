// The journal of a relay or a worker.
ghost use Rattle.std.specs.Prelude.{◌≡◌};
ghost use Rattle.proxy_sockets.specs.Journals.{journal_faults};

use flow_notes::Notes;
use io_ports::{Failed, NoMemory, Sink};
use program_ports::Output;
use session_run::write_all;
use std::io::{ErrorKind, Write};

/// A journal that is written to a file at once, or none.
#[derive(Drop)]
pub enum FileJournal<F: Write> {
    File(Output<F>),
    None,
}

impl<F: Write> FileJournal<F> {
    /// How many writes failed, or took nothing.
    pub fn faults(&self) -> u64
        ensures { result ≡ journal_faults self.now }
    {
        match self {
            FileJournal::File(file) => file.faults(),
            FileJournal::None => 0,
        }
    }

    /// Why the last write failed that did.
    pub fn kind(&self) -> Option<ErrorKind> {
        match self {
            FileJournal::File(file) => file.kind(),
            FileJournal::None => None,
        }
    }
}

impl<F: Write> Sink for FileJournal<F> {
    ghost use Rattle.std.specs.Prelude.{None};
    ghost use Rattle.proxy_sockets.specs.Journals.{journal_faults};

    ghost contents = { λ _. None };

    ghost faults = { journal_faults };

    fn write(&mut self, piece: &[u8]) -> Result<usize, Failed> {
        match self {
            FileJournal::File(file) => file.write(piece),
            FileJournal::None => Ok(piece.len()),
        }
    }
}

impl<F: Write> relay_ports::Journal for FileJournal<F> {
    fn is_kept(&self) -> bool {
        matches!(self, FileJournal::File(_))
    }
}

impl<F: Write> worker_parts::Journal for FileJournal<F> {
    ghost use Rattle.std.specs.Prelude.{None};

    ghost told = { λ _. None };

    fn is_kept(&self) -> bool {
        matches!(self, FileJournal::File(_))
    }

    fn line(&mut self, line: &[u8]) -> Result<(), Failed> {
        match self {
            FileJournal::File(file) => write_all(file, line),
            FileJournal::None => Ok(()),
        }
    }

    fn noted(&mut self, notes: &mut Notes) -> Result<(), NoMemory> {
        notes.clear();
        Ok(())
    }
}
