// A reader that keeps what it read.
ghost use Rattle.std.specs.Prelude.{◌≡◌, []};
ghost use Rattle.config_text.specs.Kept.{reader_of, text_of};

use std::alloc::Global;
use std::io::{self, Read};

/// How many octets are kept at most: as many as a configuration has.
const MOST: usize = 1_048_576;

/// A reader with what was read of it: the first 1,048,576 octets, as far as there was memory for them.
#[derive(Drop)]
pub struct Kept<R: Read> {
    reader: R,
    text: Vec<u8>,
}

impl<R: Read> Kept<R> {
    /// A reader of which nothing was read. Takes no memory.
    pub fn new(alloc: Global, reader: R) -> Self
        ensures reader { reader_of result ≡ reader }
        ensures text { text_of result ≡ [] }
    {
        Kept {
            reader,
            text: Vec::new(alloc),
        }
    }

    /// What was kept of it.
    pub fn text(&self) -> &[u8]
        ensures { result.now ≡ text_of self.now }
    {
        self.text.as_slice()
    }

    // Keeps a piece that was read, if it fits. Where it doesn't nobody is told: what is kept serves a message alone.
    fn keep(&mut self, piece: &[u8])
        ensures { reader_of self.new ≡ reader_of self.old }
    {
        if piece.len() <= MOST - self.text.len().min(MOST) {
            let _ = self.text.extend_from_slice(piece);
        }
    }
}

impl<R: Read> Read for Kept<R> {
    ghost use Rattle.config_text.specs.Kept.{reader_of};

    ghost remaining = { λ kept. R.remaining (reader_of kept) };

    fn read(&mut self, into: &mut [u8]) -> io::Result<usize> {
        let n = self.reader.read(into)?;
        if n <= into.len() {
            self.keep(&into[..n]);
        }
        Ok(n)
    }
}
