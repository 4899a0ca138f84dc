//! The live relay: it takes what connections tell, relays it, offers what waits, and keeps a journal.
#![tactic(auto)]

mod events;
mod settle;
mod turns;

pub use turns::{RelayEnded, relay_work};
