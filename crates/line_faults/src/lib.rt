//! What is wrong with a line of a session that was refused, and where it stands, in words.
#![tactic(auto)]

mod courses;
mod fault;
mod fields;
mod header;
mod put;
mod wire;
mod words;

pub use courses::explain_plain;
pub use fault::{Fault, LineFault, Mistake};
pub use fields::{Field, Kind};
pub use wire::{explain_shed, explain_wire};
