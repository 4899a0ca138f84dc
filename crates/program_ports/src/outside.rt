// Readers and writers that keep why they failed last.
ghost use Rattle.std.specs.Prelude.{◌≡◌};
ghost use Rattle.program_ports.specs.Outside.{read_faults, reader_of, write_faults, writer_of};

use io_ports::{Failed, Sink, Source};
use std::io::{ErrorKind, Read, Write};

/// A reader. Its errors are counted, and the kind of the last is kept.
#[derive(Drop)]
pub struct Input<R: Read> {
    reader: R,
    errors: u64,
    kind: Option<ErrorKind>,
}

impl<R: Read> Input<R> {
    /// Reads from this reader, of which nothing failed yet.
    pub fn new(reader: R) -> Self
        ensures reader { reader_of result ≡ reader }
        ensures faults { read_faults result ≡ 0 }
    {
        Input {
            reader,
            errors: 0,
            kind: None,
        }
    }

    /// Why the last read failed that did.
    pub fn kind(&self) -> Option<ErrorKind> {
        self.kind
    }

    /// The reader itself.
    pub fn reader(&self) -> &R {
        &self.reader
    }
}

impl<R: Read> Source for Input<R> {
    ghost use Rattle.program_ports.specs.Outside.{read_faults, reader_of};

    ghost left = { λ s. R.remaining (reader_of s) };

    ghost faults = { read_faults };

    fn read(&mut self, into: &mut [u8]) -> Result<usize, Failed> {
        match self.reader.read(into) {
            Ok(n) => Ok(n),
            Err(error) => {
                self.errors = self.errors.saturating_add(1);
                self.kind = Some(error.kind());
                Err(Failed)
            }
        }
    }
}

/// A writer. Its errors, and the writes that took nothing, are counted, and the kind of the last error is kept.
#[derive(Drop)]
pub struct Output<W: Write> {
    writer: W,
    errors: u64,
    kind: Option<ErrorKind>,
}

impl<W: Write> Output<W> {
    /// Writes to this writer, of which nothing failed yet.
    pub fn new(writer: W) -> Self
        ensures writer { writer_of result ≡ writer }
        ensures faults { write_faults result ≡ 0 }
    {
        Output {
            writer,
            errors: 0,
            kind: None,
        }
    }

    /// Why the last write failed that did.
    pub fn kind(&self) -> Option<ErrorKind> {
        self.kind
    }

    /// How many writes failed, or took nothing of a nonempty piece.
    pub fn faults(&self) -> u64
        ensures { result ≡ write_faults self.now }
    {
        self.errors
    }
}

impl<W: Write> Sink for Output<W> {
    ghost use Rattle.program_ports.specs.Outside.{write_faults, writer_of};

    ghost contents = { λ s. W.contents (writer_of s) };

    ghost faults = { write_faults };

    fn write(&mut self, piece: &[u8]) -> Result<usize, Failed> {
        match self.writer.write(piece) {
            Ok(n) => {
                if n == 0 && !piece.is_empty() {
                    self.errors = self.errors.saturating_add(1);
                }
                Ok(n)
            }
            Err(error) => {
                self.errors = self.errors.saturating_add(1);
                self.kind = Some(error.kind());
                Err(Failed)
            }
        }
    }
}
