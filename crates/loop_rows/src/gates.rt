// A gate at which a worker waits for another.
use io_ports::NoMemory;
use std::alloc::Global;
use std::sync::Arc;
use std::sync::atomic::{AtomicU64, Ordering};
use std::thread;
use worker_ports::Gate;

/// How often a worker looks at most whether the other has come as far as it should.
const TRIES: u32 = 10_000_000;

/// The turn that a worker has begun last, 0 before its first.
pub type Begun = Arc<AtomicU64, Global>;

/// Holds its worker at one of its turns until the other has begun a turn behind another one.
#[derive(Drop)]
pub struct Meets {
    mine: Begun,
    theirs: Begun,
    at: u32,
    until: u64,
    met: bool,
}

impl Meets {
    /// At the turn `at` the worker waits until the other has begun one behind `until`.
    pub fn new(mine: &Begun, theirs: &Begun, at: u32, until: u64) -> Result<Self, NoMemory> {
        let mine = Arc::try_clone(mine)?;
        let theirs = Arc::try_clone(theirs)?;
        Ok(Meets {
            mine,
            theirs,
            at,
            until,
            met: false,
        })
    }

    /// Whether the other had come as far when the wait ended.
    pub fn has_met(&self) -> bool {
        self.met
    }

    fn waits(&self) -> bool {
        for _ in 0..TRIES {
            if self.theirs.load(Ordering::SeqCst) > self.until {
                return true;
            }
            thread::yield_now();
        }
        false
    }
}

impl Gate for Meets {
    fn pass(&mut self, point: u32) {
        self.mine.store(u64::from(point), Ordering::SeqCst);
        if point == self.at {
            self.met = self.waits();
        }
    }
}
