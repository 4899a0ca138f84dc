//! The outside of a relay: connections of which each can be held back, with a form that keeps them in memory, and a journal.
#![tactic(auto)]

ghost use Rattle.std.specs.Prelude.{◌≡◌, ◌≤◌, None, false};
ghost use Rattle.relay_ports.specs.Holding.{Holds};

mod live;
mod mem_taps;

use io_ports::{MemSink, Sink};
pub use mem_taps::MemTaps;
use worker_ports::Wires;

/// Connections of which each can be held: none of the octets of one that is held are given.
pub trait Taps: Wires {
    /// From now on a live connection is held, or isn't any more. Nothing happens to one that isn't live.
    fn hold(&mut self, conn: u32, held: bool)
        ensures holds { Holds conn held (Self.seen self.old) (Self.seen self.new) }
        ensures no_fall { Self.faults self.old ≤ Self.faults self.new };
}

/// Where the lines of events go.
pub trait Journal: Sink {
    /// Whether lines are kept. One that keeps none tells nothing, and no line need be written to it.
    fn is_kept(&self) -> bool
        ensures { result ≡ false → Self.contents self.now ≡ None };
}

impl Journal for MemSink {
    fn is_kept(&self) -> bool {
        true
    }
}
