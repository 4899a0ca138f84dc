//! The core of plain sessions: one dispatch an event, each carried to its end by small steps.
#![tactic(auto)]

mod agenda;
mod conn;
mod dooms;
mod drains;
mod events;
mod flows;
mod gaps;
mod noting;
mod plain;
mod runs;
mod telling;

pub use crate::plain::{CoreFault, PlainCore};
