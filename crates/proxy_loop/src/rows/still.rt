// A runtime whose clock stands.
use std::io;
use std::sync::Wait;
use std::thread::Threads;
use std::time::{Clock, Duration};

/// A runtime that can start threads and wait for them, and whose clock stands.
#[derive(Drop)]
pub struct Still<R: Drop> {
    rt: R,
}

impl<R: Drop> Still<R> {
    pub fn new(rt: R) -> Self {
        Still { rt }
    }
}

impl<R: Wait + Drop> Wait for Still<R> {}

impl<R: Threads + Drop> Threads for Still<R> {}

impl<R: Drop> Clock for Still<R> {
    fn monotonic(&self) -> io::Result<Duration> {
        Ok(Duration::ZERO)
    }

    fn since_1970(&self) -> io::Result<Duration> {
        Ok(Duration::ZERO)
    }
}
