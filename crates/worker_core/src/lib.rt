//! The core of a worker's sessions: one dispatch an event, each carried to its end by small steps.
#![tactic(auto)]

mod wire;
mod worker;

pub use crate::wire::WireSession;
pub use plain_core::CoreFault;
pub use worker::Core;
