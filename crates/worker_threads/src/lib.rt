//! The workers of a process, each in a thread of its own.
#![tactic(auto)]

mod starting;
mod worker;

pub use starting::start_workers;
pub use worker::{Shared, Worker};
