// A worker, as what hands clients on sees it.
ghost use Rattle.std.specs.Prelude.{◌≡◌, ◌+◌, if◌then◌else◌, nat_eq, nat_lt};

use crate::queue::AcceptQueue;
use std::alloc::Global;
use std::sync::Arc;

/// For how long a worker may begin no round and is still handed clients, in milliseconds. One that has nothing to do begins ten in
/// that time.
const PATIENCE: u64 = 1_000;

/// A worker, as what hands clients on sees it.
#[derive(Drop)]
pub(crate) struct Lane {
    pub queue: Arc<AcceptQueue, Global>,
    /// How many rounds it had begun when it was looked at last.
    rounds: u32,
    /// When it was seen first that it had begun so many, in milliseconds.
    since: u64,
}

impl Lane {
    /// A worker that takes its clients from this queue, and has begun no round.
    pub fn new(queue: Arc<AcceptQueue, Global>, now: u64) -> Self
        ensures rounds { result.rounds ≡ 0 }
        ensures since { result.since ≡ now }
    {
        Lane {
            queue,
            rounds: 0,
            since: now,
        }
    }

    /// Looks whether the worker goes on: at this moment, in milliseconds, it has begun so many rounds.
    pub fn look(&mut self, rounds: u32, now: u64)
        ensures { self.new ≡ (if nat_eq rounds self.old.rounds then self.old else record self.old { rounds = rounds; since = now }) }
    {
        if rounds == self.rounds {
            return;
        }
        self.rounds = rounds;
        self.since = now;
    }

    /// Whether the worker takes clients, as far as is known.
    pub fn is_taking(&self, now: u64) -> bool
        ensures { result ≡ nat_lt now (self.now.since + 1000) }
    {
        now.saturating_sub(self.since) < PATIENCE
    }
}
