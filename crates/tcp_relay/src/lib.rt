//! A relay of octets between paired connections, which backs off by not reading.
#![tactic(auto)]

mod conns;
mod effect;
mod fault;
mod interests;
mod laws;
mod noting;
mod relay;
mod table;

pub use fault::RelayFault;
pub use interests::Interests;
pub use laws::{tapes_are_as_given, tapes_are_lawful, tapes_are_sound, tapes_keep_their_promise};
pub use relay::Relay;
