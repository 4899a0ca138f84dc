// A worker's journal that is kept in memory beside its file.
ghost use Rattle.std.specs.Prelude.{◌≡◌};

use flow_gate::{BufferId, FlowId};
use flow_notes::{Note, Notes, Passage};
use io_ports::{Failed, NoMemory, Octets, Sink};
use proxy_sockets::FileJournal;
use std::alloc::Global;
use std::io::Write;
use worker_parts::Journal;

/// What a worker wrote, and what it did.
#[derive(Drop)]
pub struct Kept {
    /// The journal's text.
    pub lines: Octets,
    /// The notes of all dispatches, each in a line.
    pub notes: Octets,
    /// Whether nothing is left out of the text because memory ran out.
    pub is_whole: bool,
}

/// A journal in a file, or in none, which is kept in memory too, with the notes that it is handed.
#[derive(Drop)]
pub struct NotedJournal<F: Write> {
    alloc: Global,
    file: FileJournal<F>,
    kept: Kept,
}

impl<F: Write> NotedJournal<F> {
    /// Nothing is written yet, but what the file has.
    pub fn new(alloc: Global, file: FileJournal<F>) -> Self
        ensures { result.file ≡ file }
    {
        NotedJournal {
            alloc,
            file,
            kept: Kept {
                lines: Octets::new(alloc),
                notes: Octets::new(alloc),
                is_whole: true,
            },
        }
    }

    /// The file, and what was kept.
    pub fn into_parts(self) -> (FileJournal<F>, Kept)
        ensures { result.0 ≡ self.file }
    {
        let NotedJournal {
            alloc: _,
            file,
            kept,
        } = self;
        (file, kept)
    }

    // Keeps what was written.
    fn keep(&mut self, written: &[u8])
        ensures { self.new.file ≡ self.old.file }
    {
        if self.kept.lines.push_all(written).is_err() {
            self.kept.is_whole = false;
        }
    }
}

impl<F: Write> Sink for NotedJournal<F> {
    ghost use Rattle.std.specs.Prelude.{None};
    ghost use Rattle.proxy_sockets.specs.Journals.{journal_faults};

    ghost contents = { λ _. None };

    ghost faults = { λ j. journal_faults j.file };

    fn write(&mut self, piece: &[u8]) -> Result<usize, Failed> {
        let n = self.file.write(piece)?;
        self.keep(piece.get(..n).unwrap_or(&[]));
        Ok(n)
    }
}

impl<F: Write> Journal for NotedJournal<F> {
    ghost use Rattle.std.specs.Prelude.{None};

    ghost told = { λ _. None };

    fn is_kept(&self) -> bool {
        true
    }

    fn line(&mut self, line: &[u8]) -> Result<(), Failed> {
        self.file.line(line)?;
        self.keep(line);
        Ok(())
    }

    fn noted(&mut self, notes: &mut Notes) -> Result<(), NoMemory> {
        put_notes(self.alloc, notes, &mut self.kept.notes)?;
        notes.clear();
        Ok(())
    }
}

// Appends a line for each note, or nothing.
fn put_notes(alloc: Global, notes: &Notes, into: &mut Octets) -> Result<(), NoMemory> {
    let whole = into.len();
    for passage in notes.passages() {
        if let Err(error) = put_passage(alloc, passage, into) {
            into.truncate(whole);
            return Err(error);
        }
    }
    Ok(())
}

fn put_passage(alloc: Global, passage: Passage<'_>, into: &mut Octets) -> Result<(), NoMemory> {
    match passage {
        Passage::One(note) => put_note(alloc, note, into),
        Passage::Pauses { flows, buffer } => put_pauses(alloc, flows, buffer, into),
        Passage::Resumes { flows, buffer } => put_resumes(alloc, flows, buffer, into),
    }
}

fn put_pauses(
    alloc: Global,
    flows: &[FlowId],
    buffer: BufferId,
    into: &mut Octets,
) -> Result<(), NoMemory> {
    for flow in flows {
        let note = Note::Pause {
            flow: *flow,
            buffer,
        };
        put_note(alloc, &note, into)?;
    }
    Ok(())
}

fn put_resumes(
    alloc: Global,
    flows: &[FlowId],
    buffer: BufferId,
    into: &mut Octets,
) -> Result<(), NoMemory> {
    for flow in flows {
        let note = Note::Resume {
            flow: *flow,
            buffer,
        };
        put_note(alloc, &note, into)?;
    }
    Ok(())
}

/// Appends all that a note has in a line.
pub fn put_note(alloc: Global, note: &Note, into: &mut Octets) -> Result<(), NoMemory> {
    match format!(in alloc; "{note:?}\n") {
        Ok(line) => into.push_all(line.as_bytes()),
        Err(_) => Err(NoMemory),
    }
}
