// A clock, gauges and a gate.
ghost use Rattle.std.specs.Prelude.{◌<◌, ◌≤◌, ◌^◌, IfOk, List, Option, ℕ};
ghost use Rattle.io_ports.specs.Faults.{FailsByFault};
ghost use Rattle.worker_ports.specs.Told.{TellsLast};
ghost use Rattle.worker_ports.specs.declared.ports.Reading.{Reading};

use io_ports::Failed;

/// A clock. It never fails.
pub trait Clock {
    /// The moments that it gave so far, where this is told.
    ghost moments: { Self → Option (List ℕ) };

    /// The moment now, in milliseconds, below 2^60.
    fn now(&mut self) -> u64
        ensures below { result < 2 ^ 60 }
        ensures tells { TellsLast (moments self.old) result (moments self.new) };
}

/// One reading of a gauge, as a record of it keeps this: which resource was asked for, and the answer.
#[derive(Clone, Copy, Debug, PartialEq, Eq)]
pub struct Reading {
    pub resource: u32,
    pub answer: Result<u32, Failed>,
}

/// Where pressures are read.
pub trait Gauge {
    /// The readings so far, in their order, where this is told.
    ghost told: { Self → Option (List Reading) };

    /// How often a reading failed. The count ends at 2^64 - 1.
    ghost faults: { Self → ℕ };

    /// The pressure of a resource, in parts per million. At most 1,000,000. A reading that fails counts as a fault.
    fn read(&mut self, resource: u32) -> Result<u32, Failed>
        ensures most { IfOk result (λ pressure. pressure ≤ 1000000) }
        ensures tells { TellsLast (told self.old) (record { resource = resource; answer = result }) (told self.new) }
        ensures cause { FailsByFault (faults self.old) (faults self.new) result };
}

/// A gate that a worker passes at the beginning of each turn. A test's gate may hold it there.
pub trait Gate {
    /// Passes the gate at a point, a turn's number from 1 on. It may wait.
    fn pass(&mut self, point: u32);
}

/// A gate that is open.
#[derive(Clone, Copy, Drop)]
pub struct OpenGate;

impl Gate for OpenGate {
    fn pass(&mut self, _: u32) {}
}
