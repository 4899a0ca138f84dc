//! What comes in to wire sessions: the frames of the octets that were read.
//! The clauses are those of `wire_state`.
#![tactic(auto, unfolding(wire_state::specs::Progress::to_go))]

mod acts;
mod bodies;
mod faults;
mod heads;
mod reads;
mod requests;
mod settings;

pub use crate::faults::waste;
pub use crate::reads::read;
