// The sampling of a gauge.
ghost use Rattle.std.specs.Prelude.{◌≤◌, All};

use crate::case::Case;
use crate::said::Said;
use io_ports::PressureList;
use mem_ports::MemGauge;
use std::alloc::Global;
use std::mem;
use worker_loop::sample;

/// The greatest pressure.
const MOST_PRESSURE: u32 = 1_000_000;

/// How many pressures are sampled at most.
const MOST_SAMPLED: usize = 1 << 20;

/// Samples the case's gauge, and says the pressures and how many readings failed.
pub fn say_sample(alloc: Global, case: &mut Case, said: &mut Said) {
    let mut gauge = gauge_of(alloc, case);
    let sampled = mem::replace(&mut case.sample, Vec::new(alloc));
    if sampled.len() > MOST_SAMPLED {
        said.line("too many pressures");
        return;
    }
    let mut pressures = PressureList::from_vec(sampled);
    let failed = sample(alloc, &mut gauge, &mut pressures);
    said.say("sampled");
    for pressure in pressures.as_slice() {
        said.say_with(" ", u64::from(*pressure));
    }
    said.say_with(", ", u64::from(failed));
    said.line(" failed");
}

// A gauge with the case's pressures, or with none where one is too great.
fn gauge_of(alloc: Global, case: &mut Case) -> MemGauge {
    let failing = mem::replace(&mut case.readings, Vec::new(alloc));
    let pressures = mem::replace(&mut case.gauge, Vec::new(alloc));
    if pressures.iter().all(|pressure| *pressure <= MOST_PRESSURE) {
        MemGauge::new(alloc, pressures, failing)
    } else {
        MemGauge::new(alloc, Vec::new(alloc), failing)
    }
}
