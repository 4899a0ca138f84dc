//! Timers whose length shrinks as the load grows.
//!
//! Each kind of timer has a list of its own. Moments of arming never fall, so each list stands in the order in which its
//! timers are due, under every state, and a turn merges the lists by their fronts.
#![tactic(auto)]

mod fired;
mod fronts;
mod merge;
mod queue;
mod timers;

pub use fired::{Fired, FiredList};
pub use timers::{Timer, TimerKind, Timers};
