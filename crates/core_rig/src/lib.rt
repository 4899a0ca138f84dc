//! A core of wire sessions that is given what its peers do, for benches: what they do is put together in a list before, so that giving it to
//! the core is all that is measured.
#![tactic(auto)]

mod frames;
mod peers;
mod rig;

pub use peers::{Peers, client_and_cluster, stream_after};
pub use rig::{Cost, Rig, cost_behind, no_memory, piece};
