// The system's clock.

use std::time::Clock as SystemClock;
use worker_ports::Clock;

/// The last moment that is told, in milliseconds.
const LAST: u64 = (1 << 60) - 1;

/// The milliseconds of the system's monotonic clock. It never goes back: where the system's can't be read, it stands still.
#[derive(Drop)]
pub struct MonotonicClock<R: SystemClock + Drop> {
    rt: R,
    last: u64,
}

impl<R: SystemClock + Drop> MonotonicClock<R> {
    pub fn new(rt: R) -> Self {
        MonotonicClock { rt, last: 0 }
    }
}

impl<R: SystemClock + Drop> Clock for MonotonicClock<R> {
    ghost use Rattle.std.specs.Prelude.{None};

    ghost moments = { λ _. None };

    fn now(&mut self) -> u64 {
        if let Ok(since_start) = self.rt.monotonic() {
            let read = u64::try_from(since_start.as_millis()).unwrap_or(LAST);
            self.last = self.last.max(read);
        }
        self.last.min(LAST)
    }
}
