//! Sockets over mio as the connections of a relay or a worker, with a clock, addresses and the limit of open files.
#![tactic(auto)]

mod blocks;
mod clock;
mod dialer;
mod dialing;
mod dials;
mod door;
mod fault;
mod inlet;
mod link;
mod links;
mod parting;
mod pieces;
mod plan;
mod roll;
mod sockets;
mod taps;
mod upstream;

pub use clock::MonotonicClock;
pub use door::Door;
pub use fault::{EdgeFault, tell_wait};
pub use inlet::Inlet;
pub use plan::{Plan, Sharing, Target, open_files, read_address};
pub use sockets::DOOR;
pub use taps::SocketTaps;
