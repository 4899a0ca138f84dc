// Journals: a session's text, which a replay reads.
ghost use Rattle.std.specs.Io.KnownBytes.{Appends};
ghost use Rattle.std.specs.Prelude.{◌≡◌, ◌≤◌, List, None, OnErr, OnOk, Option, [], false};
ghost use Rattle.flow_notes.specs.declared.notes.Note.{Note};
ghost use Rattle.io_ports.specs.Faults.{Rose};
ghost use Rattle.io_ports.specs.Standard.{write_faults, writer_of};
ghost use Rattle.session_run.specs.Ends.{AppendsFront};
ghost use Rattle.worker_parts.specs.Journals.{header, with_notes};

use flow_notes::Notes;
use io_ports::{Failed, NoMemory, Sink, StdSink};
use session_run::write_all;
use std::io::Write;

/// The first line of a journal.
const HEADER: &[u8] = b"h2replay-session 1 wire\n";

/// Where a worker writes the line of each event, and hands over the notes of each dispatch.
pub trait Journal: Sink {
    /// The notes that it was handed, where this is told.
    ghost told: { Self → Option (List Note) };

    /// Whether lines are kept. One that keeps none tells nothing, and no line need be written to it.
    fn is_kept(&self) -> bool
        ensures { result ≡ false → Self.contents self.now ≡ None };

    /// Writes a line, or a front of it where it fails.
    fn line(&mut self, line: &[u8]) -> Result<(), Failed>
        ensures ok { OnOk result (Appends (Self.contents self.old) (Self.contents self.new) line.now) }
        ensures front { AppendsFront (Self.contents self.old) (Self.contents self.new) line.now }
        ensures told { told self.new ≡ told self.old }
        ensures cause { OnErr result (Rose (Self.faults self.old) (Self.faults self.new)) }
        ensures no_fall { Self.faults self.old ≤ Self.faults self.new };

    /// Takes the notes of a dispatch out of the list, and changes nothing else. After running out of memory nothing has changed.
    fn noted(&mut self, notes: &mut Notes) -> Result<(), NoMemory>
        ensures ok { OnOk result (told self.new ≡ with_notes notes.old (told self.old)) }
        ensures empty { OnOk result (notes.new ≡ []) }
        ensures err { OnErr result ((told self.new ≡ told self.old) × (notes.new ≡ notes.old)) }
        ensures contents { Self.contents self.new ≡ Self.contents self.old }
        ensures faults { Self.faults self.new ≡ Self.faults self.old };
}

/// Writes the first line of a journal, or a front of it where it fails.
pub fn begin_journal<J: Journal>(journal: &mut J) -> Result<(), Failed>
    ensures ok { OnOk result (Appends (J.contents journal.old) (J.contents journal.new) header) }
    ensures front { AppendsFront (J.contents journal.old) (J.contents journal.new) header }
    ensures told { J.told journal.new ≡ J.told journal.old }
    ensures cause { OnErr result (Rose (J.faults journal.old) (J.faults journal.new)) }
    ensures no_fall { J.faults journal.old ≤ J.faults journal.new }
{
    journal.line(HEADER)
}

impl<W: Write> Journal for StdSink<W> {
    ghost told = { λ _. None };

    fn is_kept(&self) -> bool {
        true
    }

    fn line(&mut self, line: &[u8]) -> Result<(), Failed> {
        write_all(self, line)
    }

    fn noted(&mut self, notes: &mut Notes) -> Result<(), NoMemory> {
        notes.clear();
        Ok(())
    }
}
