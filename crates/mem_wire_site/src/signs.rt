// What a site in memory tells the connections that it gave.

use std::sync::atomic::{AtomicBool, Ordering};
use std::thread;

/// How often connections look at most whether the site has told them something.
const LOOKS: u32 = 10_000_000;

/// What a site tells the connections that it gave, which other threads have.
#[derive(Drop)]
pub(crate) struct Signs {
    /// Whether a round was made.
    begun: AtomicBool,
    /// Whether the workers are to stop.
    over: AtomicBool,
}

impl Signs {
    pub fn new() -> Self {
        Signs {
            begun: AtomicBool::new(false),
            over: AtomicBool::new(false),
        }
    }

    /// A round was made.
    pub fn begin(&self) {
        self.begun.store(true, Ordering::SeqCst);
    }

    /// The workers are to stop, also where no round was made.
    pub fn stop(&self) {
        self.over.store(true, Ordering::SeqCst);
        self.begin();
    }

    /// Whether the workers are to stop.
    pub fn is_over(&self) -> bool {
        self.over.load(Ordering::SeqCst)
    }

    /// Waits until a round was made or the workers are to stop, but not for ever.
    pub fn wait_for_round(&self) {
        wait_for(&self.begun);
    }

    /// Waits until the workers are to stop, but not for ever.
    pub fn wait_for_stop(&self) {
        wait_for(&self.over);
    }
}

fn wait_for(sign: &AtomicBool) {
    for _ in 0..LOOKS {
        if sign.load(Ordering::SeqCst) {
            return;
        }
        thread::yield_now();
    }
}
