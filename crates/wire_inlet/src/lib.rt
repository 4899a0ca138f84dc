//! What comes in on one HTTP/2 connection: octets, and frame by frame what they mean.
#![tactic(auto)]

mod inlet;
mod intake;
mod joined;
mod payload;
mod reader;
mod unread;

pub use inlet::Inlet;
pub use intake::{Front, Intake, Peer, Reading, Taken};
