//! Runs a wire session: reads its lines, dispatches their events to the wire core, and writes the tape with its summary.
#![tactic(auto)]

mod play;
mod run;
mod stages;

pub use play::WirePlay;
pub use run::{WireEnd, one_wire_session, run_wire};
pub use stages::{RouteStages, StageTable};
