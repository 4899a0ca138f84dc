//! Parts of a live worker: its journal, the permits of its connections, and the reading of gauges.
#![tactic(auto)]

mod held_permits;
mod journal;
mod mem_journal;
mod sampling;

pub use held_permits::HeldPermits;
pub use journal::{Journal, begin_journal};
pub use mem_journal::MemJournal;
pub use sampling::sample;
