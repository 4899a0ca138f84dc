//! Runs a session: reads its lines, has each played, and writes what comes of them.
#![tactic(auto)]

mod last;
mod lines;
mod output;
mod player;
mod refused;
mod run;
mod status;

pub use lines::Lines;
pub use output::write_all;
pub use player::{Player, Went};
pub use refused::RefusedLine;
pub use run::Run;
pub use status::Status;
