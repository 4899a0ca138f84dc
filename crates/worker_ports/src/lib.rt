//! The outside of a worker: its connections, a clock, gauges and a gate.
#![tactic(auto)]

mod ports;
mod wires;

pub use ports::{Clock, Gate, Gauge, OpenGate, Reading};
pub use wires::{WireRefusal, WireStep, Wired, Wires};
