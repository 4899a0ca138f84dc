//! How the octets of wire sessions go out: runs, units in rotation, and what is told when buffers drain.
//! The clauses are those of `wire_state`.
#![tactic(auto)]

mod controls;
mod drains;
mod lists;
mod moves;
mod passes;
mod runs;
mod telling;
mod units;

pub use crate::drains::{ask_drain, begin_drain, drain};
pub use crate::runs::{ask_run, run};
pub use crate::telling::tell;
