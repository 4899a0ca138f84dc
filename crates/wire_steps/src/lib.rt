//! How an event is carried out on the core of wire sessions: its effect, small steps to the end, and the sweep.
#![tactic(auto)]

mod carried;
mod rounds;
mod steps;

pub use crate::carried::WireSteps;
