//! Connections of a worker that come at the rate at which tokens are put into a bucket.
#![tactic(auto)]

mod metering;

pub use metering::MeteredWires;
