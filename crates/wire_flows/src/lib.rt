//! The exchanges of a worker and who holds whom back, as one value: a move, a frame and a telling change the octets and
//! the counts in the same call.
#![tactic(auto)]

mod flows;
mod framing;
mod moving;
mod reading;
mod starting;

pub use flows::WireFlows;
pub use framing::Framed;
pub use moving::{Moved, Outcome};
pub use starting::Started;
