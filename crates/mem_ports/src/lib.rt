//! The outside of a worker in memory: connections, a clock and a gauge, which give what they are told and fail at the calls that
//! they are told.
#![tactic(auto)]

mod clock;
mod gauge;
mod live;
mod steps;
mod wires;

pub use clock::MemClock;
pub use gauge::MemGauge;
pub use steps::{Kept, Room, Steps};
pub use wires::MemWires;
