//! The timers of a worker: the time that a response may take, an exchange may stand still, and a connection may be without
//! exchanges.
//!
//! `scaled_timer` keeps the order in which timers are due, and gives a token for each; here the tokens are kept by kind and
//! number, so that none is lost or given back twice.
#![tactic(auto)]

mod due;
mod spans;
mod timers;
mod tokens;

pub use due::{Due, DueList};
pub use timers::WireTimers;
