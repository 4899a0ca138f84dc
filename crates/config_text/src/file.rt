// The file of a configuration.
ghost use Rattle.std.specs.Prelude.{◌≡◌, []};
ghost use Rattle.config_text.specs.File.{file_text};

use crate::kept::Kept;
use std::alloc::Global;
use std::io::{self, ErrorKind, Read};

/// A file whose text is kept as it is read, or one that couldn't be opened for this reason, whose reads fail.
#[derive(Drop)]
pub enum ConfigFile<F: Read> {
    Open(Kept<F>),
    Shut(ErrorKind),
}

impl<F: Read> ConfigFile<F> {
    /// The file that was opened, of which nothing was read, or why it wasn't. Takes no memory.
    pub fn of(alloc: Global, opened: io::Result<F>) -> Self
        ensures { file_text result ≡ [] }
    {
        match opened {
            Ok(file) => ConfigFile::Open(Kept::new(alloc, file)),
            Err(error) => ConfigFile::Shut(error.kind()),
        }
    }

    /// What was read and kept of it.
    pub fn text(&self) -> &[u8]
        ensures { result.now ≡ file_text self.now }
    {
        match self {
            ConfigFile::Open(file) => file.text(),
            ConfigFile::Shut(_) => &[],
        }
    }
}

impl<F: Read> Read for ConfigFile<F> {
    fn read(&mut self, into: &mut [u8]) -> io::Result<usize> {
        match self {
            ConfigFile::Open(file) => file.read(into),
            ConfigFile::Shut(kind) => Err(io::Error::from(*kind)),
        }
    }
}
