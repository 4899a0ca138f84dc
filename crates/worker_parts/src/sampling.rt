// Reading gauges.
ghost use Rattle.std.specs.Prelude.{◌<◌, ◌^◌, length};
ghost use Rattle.worker_parts.specs.Samples.{AreSampled, FailedByFaults};

use io_ports::{Failed, PressureList};
use std::alloc::Global;
use std::mem;
use worker_ports::Gauge;

/// Reads the pressure of each resource of the list once, from 0 on. One whose reading fails keeps the pressure that it had. The
/// answer is how many readings failed. Takes no memory.
pub fn sample<G: Gauge>(alloc: Global, gauge: &mut G, pressures: &mut PressureList) -> u32
    requires { length pressures.old < 2 ^ 32 }
    ensures sampled { AreSampled (G.told gauge.old) (G.told gauge.new) pressures.old pressures.new result }
    ensures cause { FailedByFaults (G.faults gauge.old) (G.faults gauge.new) result }
{
    let mut list = mem::replace(pressures, PressureList::new(alloc)).into_vec();
    let failed = read_into(gauge, list.as_mut_slice());
    *pressures = PressureList::from_vec(list);
    failed
}

fn read_into<G: Gauge>(gauge: &mut G, pressures: &mut [u32]) -> u32
    requires { length pressures.old < 2 ^ 32 }
    ensures sampled { AreSampled (G.told gauge.old) (G.told gauge.new) pressures.old pressures.new result }
    ensures cause { FailedByFaults (G.faults gauge.old) (G.faults gauge.new) result }
{
    let mut failed = 0;
    for resource in 0..pressures.len() {
        let pressure = match gauge.read(resource as u32) {
            Ok(pressure) => pressure,
            Err(Failed) => {
                failed += 1;
                continue;
            }
        };
        pressures[resource] = pressure;
    }
    failed
}
