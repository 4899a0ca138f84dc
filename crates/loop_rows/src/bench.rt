// Benches of a live worker over memory, and of its journal.
mod lines;
mod quiet;
mod stage;
mod turns;

use std::sync::Wait;
use std::time::CpuClock;

/// Which benches there are.
pub const USAGE: &str = "usage: loop_rows bench BENCH
  turns            turns of a live worker beside their dispatches alone, without connections and with 10,000 idle ones
  lines            lines of a worker's journal, beside a plain copy of their octets
";

/// Runs the bench of this name, and prints what it took. Without one it prints the usage.
pub fn run(rt: &(impl AllocGlobal + Print + Wait + CpuClock), bench: &str) -> anyhow::Result<()> {
    match bench {
        "turns" => turns::run(rt),
        "lines" => lines::run(rt),
        _ => Ok(rt.print(USAGE)?),
    }
}
