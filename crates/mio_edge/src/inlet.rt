// Where clients come from.

use mio::net::{TcpListener, TcpStream};
use std::io;

/// Where clients come from.
pub trait Inlet {
    /// A client that has come. `WouldBlock` where none has: an event tells when the next one may have.
    fn accept(&mut self) -> io::Result<TcpStream>;

    /// How many clients have come and weren't accepted yet, at most; 2^64 - 1 where that isn't known. Where none has an event tells
    /// when one may have.
    fn waiting(&self) -> u64;

    /// So many connections of clients are live.
    fn count(&mut self, clients: u32);

    /// Whether nobody comes any more, and the connections are to tell that it is over.
    fn is_over(&self) -> bool;
}

impl Inlet for TcpListener {
    fn accept(&mut self) -> io::Result<TcpStream> {
        let (stream, _) = TcpListener::accept(self)?;
        Ok(stream)
    }

    fn waiting(&self) -> u64 {
        u64::MAX
    }

    fn count(&mut self, _: u32) {}

    fn is_over(&self) -> bool {
        false
    }
}
