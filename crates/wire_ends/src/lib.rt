//! How exchanges and connections of wire sessions end: dooms with what they leave to be told, closes, and waiting lists.
//! The clauses are those of `wire_state`.
#![tactic(auto, unfolding(wire_state::specs::Progress::to_go))]

mod closes;
mod dooms;
mod lists;

pub use crate::closes::{begin_draining, close, close_task, lose, losses};
pub use crate::dooms::{Origin, doom, doom_task, end, end_framed};
pub use crate::lists::{put, put_reset};
