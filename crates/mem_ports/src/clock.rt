// A clock in memory.
ghost use Rattle.std.specs.Prelude.{◌≡◌, ◌<◌, ◌^◌, All, Some, [], length, nat_lt, if◌then◌else◌};
ghost use Rattle.mem_ports.specs.Moments.{moment_at, next_count};
ghost use Rattle.worker_ports.specs.Told.{TellsLast};

use std::marker::Model;
use worker_ports::Clock;

/// A clock in memory. It gives its moments in order, and the last one again and again once none is left; 0 where it has none.
#[derive(Drop)]
pub struct MemClock {
    moments: Vec<u64>,
    /// How often it was asked.
    calls: u64,
}

impl Model for MemClock {
    ghost use Rattle.mem_ports.specs.Moments.{ClockMemory};
    ghost use Rattle.std.specs.Prelude.{All, ◌<◌, ◌^◌};

    ghost Value = { ClockMemory };

    ghost view = { λ c. record { moments = c.moments.items; calls = c.calls } };

    ghost invariant = { λ c. All (λ m. m < 2 ^ 60) c.moments.items };
}

impl MemClock {
    /// Gives these moments, in milliseconds, each below 2^60.
    pub fn new(moments: Vec<u64>) -> Self
        requires { All (λ m. m < 2 ^ 60) moments.items }
        ensures moments { result.moments ≡ moments.items }
        ensures calls { result.calls ≡ 0 }
    {
        MemClock { moments, calls: 0 }
    }

    // What the next call gives.
    fn moment(&self) -> u64
        ensures below { result < 2 ^ 60 }
        ensures gives { result ≡ moment_at self.now.moments self.now.calls }
    {
        let last = self.moments.len().saturating_sub(1);
        let call = usize::try_from(self.calls).unwrap_or(last).min(last);
        self.moments.get(call).copied().unwrap_or(0)
    }

    // It was asked once more.
    fn count(&mut self)
        ensures { self.new ≡ record self.old { calls = next_count self.old.calls } }
    {
        self.calls = self.calls.saturating_add(1);
    }
}

impl Clock for MemClock {
    ghost use Rattle.mem_ports.specs.Moments.{moments_given};

    ghost moments = { moments_given };

    fn now(&mut self) -> u64
        ensures below { result < 2 ^ 60 }
        ensures tells { TellsLast (moments_given self.old) result (moments_given self.new) }
        ensures gives { result ≡ moment_at self.old.moments self.old.calls }
        ensures counts { self.new ≡ record self.old { calls = next_count self.old.calls } }
    {
        let moment = self.moment();
        self.count();
        moment
    }
}
