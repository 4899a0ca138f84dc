//! The outside of the proxy in memory: a site that gives each worker what it was told to give, fails at the calls that it was told,
//! and tells what it gave and what came back.
#![tactic(auto)]

mod journal;
mod play;
mod signs;
mod site;
mod wires;

pub use journal::PlayJournal;
pub use play::{Given, WorkerPlay};
pub use site::MemWireSite;
pub use wires::PlayWires;
