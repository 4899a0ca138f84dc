// How long a run took.
ghost use Rattle.std.specs.Prelude.{◌<◌, IfOk};

use std::io;
use std::rt::Clock;
use std::time::{CpuClock, Duration, Instant};

/// A moment from which time is counted.
#[derive(Drop)]
pub struct Stopwatch {
    start: Instant,
}

impl Stopwatch {
    /// Counts from now on.
    pub fn start(clock: &impl Clock) -> io::Result<Self> {
        Ok(Stopwatch {
            start: Instant::now(clock)?,
        })
    }

    /// Nanoseconds since the start, at least 1.
    pub fn nanos(&self, clock: &impl Clock) -> io::Result<u64>
        ensures { IfOk result (λ n. 0 < n) }
    {
        let spent = self.start.elapsed(clock)?;
        Ok(u64::try_from(spent.as_nanos()).unwrap_or(u64::MAX).max(1))
    }
}

/// A moment from which the processor time of this thread is counted. What else runs on the machine
/// takes none of it.
#[derive(Drop)]
pub struct CpuStopwatch {
    start: Duration,
}

impl CpuStopwatch {
    /// Counts from now on.
    pub fn start(clock: &impl CpuClock) -> io::Result<Self> {
        Ok(CpuStopwatch {
            start: clock.thread_cpu_time()?,
        })
    }

    /// Nanoseconds since the start, at least 1.
    pub fn nanos(&self, clock: &impl CpuClock) -> io::Result<u64>
        ensures { IfOk result (λ n. 0 < n) }
    {
        let spent = clock.thread_cpu_time()?.saturating_sub(self.start);
        Ok(u64::try_from(spent.as_nanos()).unwrap_or(u64::MAX).max(1))
    }
}

/// How many of these a second, where `n` of them took so many nanoseconds.
pub fn per_second(n: u64, nanos: u64) -> u64
    requires { 0 < nanos }
{
    let whole = u128::from(n) * 1_000_000_000 / u128::from(nanos);
    u64::try_from(whole).unwrap_or(u64::MAX)
}

/// How many times `b` goes into `a`, in tenths.
pub fn tenths(a: u64, b: u64) -> u64 {
    a.saturating_mul(10) / b.max(1)
}
