// A gauge in memory.
ghost use Rattle.std.specs.Prelude.{◌≡◌, ◌≤◌, All, IfOk, OnErr, OnOk, Some, [], is_err, slice_index};
ghost use Rattle.io_ports.specs.Faults.{FailsByFault};
ghost use Rattle.io_ports.specs.Memory.{counted, is_to_fail};
ghost use Rattle.worker_ports.specs.Told.{TellsLast};

use io_ports::Failed;
use std::alloc::Global;
use std::marker::Model;
use worker_ports::{Gauge, Reading};

/// A gauge in memory. A reading whose number is in `failing` fails. It tells its readings, until there is no memory for one more.
#[derive(Drop)]
pub struct MemGauge {
    pressures: Vec<u32>,
    calls: u64,
    failing: Vec<u64>,
    faults: u64,
    /// The readings so far; none any more once there was no memory for one.
    told: Option<Vec<Reading>>,
}

impl Model for MemGauge {
    ghost use Rattle.mem_ports.specs.Pressures.{GaugeMemory};
    ghost use Rattle.std.specs.Option.{option_map};
    ghost use Rattle.std.specs.Prelude.{All, ◌≤◌};

    ghost Value = { GaugeMemory };

    ghost view = { λ g. record { pressures = g.pressures.items; calls = g.calls; failing = g.failing.items; faults = g.faults; told = option_map (λ readings. readings.items) g.told } };

    ghost invariant = { λ g. All (λ p. p ≤ 1000000) g.pressures.items };
}

impl MemGauge {
    /// Each resource has the pressure at its place in the list, at most 1,000,000, and 0 where there is none. The readings whose
    /// numbers, counted from 0, are in `failing` fail. Takes no memory.
    pub fn new(alloc: Global, pressures: Vec<u32>, failing: Vec<u64>) -> Self
        requires { All (λ p. p ≤ 1000000) pressures.items }
        ensures { result ≡ record { pressures = pressures.items; calls = 0; failing = failing.items; faults = 0; told = Some [] } }
    {
        MemGauge {
            pressures,
            calls: 0,
            failing,
            faults: 0,
            told: Some(Vec::new(alloc)),
        }
    }

    // The next answer.
    fn answer(&mut self, resource: u32) -> Result<u32, Failed>
        ensures most { IfOk result (λ pressure. pressure ≤ 1000000) }
        ensures cause { FailsByFault self.old.faults self.new.faults result }
        ensures fails { is_err result ≡ is_to_fail self.old.failing self.old.calls }
        ensures gives { IfOk result (λ pressure. pressure ≡ slice_index self.old.pressures resource) }
        ensures gave { OnOk result (self.new ≡ record self.old { calls = counted self.old.calls }) }
        ensures failed { OnErr result (self.new ≡ record self.old { calls = counted self.old.calls; faults = counted self.old.faults }) }
    {
        let call = self.calls;
        self.calls = self.calls.saturating_add(1);
        if self.failing.contains(&call) {
            self.faults = self.faults.saturating_add(1);
            return Err(Failed);
        }
        Ok(self.pressures.get(resource as usize).copied().unwrap_or(0))
    }

    // It tells this reading too, or none any more.
    fn tell(&mut self, reading: Reading)
        ensures tells { TellsLast self.old.told reading self.new.told }
        ensures rest { self.new ≡ record self.old { told = self.new.told } }
    {
        if let Some(readings) = &mut self.told {
            if readings.push(reading).is_ok() {
                return;
            }
        }
        self.told = None;
    }
}

impl Gauge for MemGauge {
    ghost told = { λ g. g.told };

    ghost faults = { λ g. g.faults };

    fn read(&mut self, resource: u32) -> Result<u32, Failed>
        ensures most { IfOk result (λ pressure. pressure ≤ 1000000) }
        ensures tells { TellsLast self.old.told (record { resource = resource; answer = result }) self.new.told }
        ensures cause { FailsByFault self.old.faults self.new.faults result }

        // It fails exactly where it is to.
        ensures fails { is_err result ≡ is_to_fail self.old.failing self.old.calls }
        ensures gives { IfOk result (λ pressure. pressure ≡ slice_index self.old.pressures resource) }
        ensures gave { OnOk result (self.new ≡ record self.old { calls = counted self.old.calls; told = self.new.told }) }
        ensures failed { OnErr result (self.new ≡ record self.old { calls = counted self.old.calls; faults = counted self.old.faults; told = self.new.told }) }
    {
        let answer = self.answer(resource);
        self.tell(Reading { resource, answer });
        answer
    }
}
