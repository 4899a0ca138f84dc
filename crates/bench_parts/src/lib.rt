//! What benches measure and print with: the time that a run took, and lines of figures.
#![tactic(auto)]

mod line;
mod stopwatch;

pub use line::{Line, print_line};
pub use stopwatch::{CpuStopwatch, Stopwatch, per_second, tenths};
