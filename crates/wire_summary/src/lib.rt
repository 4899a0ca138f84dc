//! What a summary tells of the tape of a wire session.
#![tactic(auto)]

mod levels;
mod log;
mod places;
mod summary;

pub use levels::{BufferLimits, ExchangePlaces, Levels, WriteChange, WriteLevel};
pub use log::WireLog;
pub use places::{Change, FlowPlaces};
pub use summary::write_wire_summary;
