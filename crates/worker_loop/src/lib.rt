//! The live worker: it asks the clock, its posts, the published state and its connections, dispatches what came, offers what waits,
//! and keeps a journal.
#![tactic(auto)]

mod events;
mod offers;
mod settling;
mod taking;
mod turns;

pub use turns::{Ended, work};
pub use worker_parts::{HeldPermits, Journal, MemJournal, begin_journal, sample};
