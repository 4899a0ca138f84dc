// A journal in memory.
ghost use Rattle.std.specs.Prelude.{◌≡◌, Some};
ghost use Rattle.proxy_site.specs.Memory.{journal_faults, journal_text};

use io_ports::{Failed, MemSink, Sink};
use relay_ports::Journal;

/// A journal in memory, which counts the writes that failed.
#[derive(Drop)]
pub struct MemJournal {
    sink: MemSink,
    faults: u64,
}

impl MemJournal {
    /// Writes into this sink, and has failed at no write. Takes no memory.
    pub fn new(sink: MemSink) -> Self
        ensures sink { result.sink ≡ sink }
        ensures faults { result.faults ≡ 0 }
    {
        MemJournal { sink, faults: 0 }
    }

    /// What was written.
    pub fn octets(&self) -> &[u8]
        ensures { Some result.now ≡ journal_text self.now }
    {
        self.sink.octets()
    }

    /// How many writes failed, or took nothing of a nonempty piece.
    pub fn faults(&self) -> u64
        ensures { result ≡ journal_faults self.now }
    {
        self.faults
    }
}

impl Sink for MemJournal {
    ghost use Rattle.proxy_site.specs.Memory.{journal_faults, journal_text};

    ghost contents = { journal_text };

    ghost faults = { journal_faults };

    fn write(&mut self, piece: &[u8]) -> Result<usize, Failed> {
        match self.sink.write(piece) {
            Ok(n) => {
                if n == 0 && !piece.is_empty() {
                    self.faults = self.faults.saturating_add(1);
                }
                Ok(n)
            }
            Err(Failed) => {
                self.faults = self.faults.saturating_add(1);
                Err(Failed)
            }
        }
    }
}

impl Journal for MemJournal {
    fn is_kept(&self) -> bool {
        true
    }
}
