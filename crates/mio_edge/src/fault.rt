// Why there are no sockets, and what an operator should know of them, on standard error. Where that is closed there is nobody to tell.

use io_ports::NoMemory;
use std::alloc::AllocError;
use std::error::Error;
use std::io::Eprint;
use std::{fmt, io};

/// Why there are no sockets.
#[derive(Debug, Drop)]
pub enum EdgeFault {
    /// The system refused.
    Failed(io::Error),
    /// Out of memory.
    NoMemory,
}

impl From<io::Error> for EdgeFault {
    fn from(error: io::Error) -> Self {
        EdgeFault::Failed(error)
    }
}

impl From<AllocError> for EdgeFault {
    fn from(_: AllocError) -> Self {
        EdgeFault::NoMemory
    }
}

impl From<NoMemory> for EdgeFault {
    fn from(_: NoMemory) -> Self {
        EdgeFault::NoMemory
    }
}

impl fmt::Display for EdgeFault {
    fn fmt<W: fmt::Write>(&self, f: &mut fmt::Formatter<W>) -> fmt::Result {
        match self {
            EdgeFault::Failed(error) => write!(f, "no sockets: {}", error.kind()),
            EdgeFault::NoMemory => f.write_str("out of memory"),
        }
    }
}

impl Error for EdgeFault {}

/// No connection to a cluster can be made.
pub(crate) fn tell_unreachable<R: Eprint>(rt: &R, cluster: &str, error: &io::Error) {
    let _ = eprintln!(rt; "h2proxy: {cluster} can't be reached: {error}");
}

/// A connection to a cluster was made after that.
pub(crate) fn tell_reached<R: Eprint>(rt: &R, cluster: &str) {
    let _ = eprintln!(rt; "h2proxy: {cluster} is reached again");
}

/// The system can't give a client that waits.
pub(crate) fn tell_refused<R: Eprint>(rt: &R, error: &io::Error) {
    let _ = eprintln!(rt; "h2proxy: clients can't be accepted, and wait: {error}");
}

/// The system can't wait for sockets.
pub fn tell_wait<R: Eprint>(rt: &R, error: &io::Error) {
    let _ = eprintln!(rt; "h2proxy: can't wait for sockets: {error}");
}
