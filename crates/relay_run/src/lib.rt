//! Runs the session of a relay: reads its lines, relays the octets of its events, and writes the tape with its summary.
#![tactic(auto)]

mod play;
mod relay_log;
mod run;
mod summary;
mod write_log;

pub use play::RelayPlay;
pub use relay_log::RelayLog;
pub use run::{RelayEnd, run_relay};
pub use summary::write_relay_summary;
pub use write_log::{Ends, WriteLog};
