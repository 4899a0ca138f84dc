//! Runs a wire session whose arrivals pass the load shed points: reads its lines, dispatches what their events come to, and writes the
//! tape with a line for each event that was shed.
#![tactic(auto)]

mod line;
mod play;
mod run;

pub use play::ShedPlay;
pub use run::{ShedEnd, run_shed};
