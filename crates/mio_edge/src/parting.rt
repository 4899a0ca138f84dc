// Sockets of closed connections whose peers still have to get octets.

use crate::link::ReadOutcome;
use mio::event::Event;
use mio::net::TcpStream;
use std::alloc::{AllocError, Global};
use std::collections::VecDeque;
use std::io::{ErrorKind, Read};
use std::net::Shutdown;

/// How many closed connections are parted from gently at once; further ones are closed at once.
pub(crate) const MOST_PARTINGS: usize = 256;

/// How long a parting takes at most, in milliseconds.
const LONGEST: u64 = 5_000;

/// How often a parting socket is read at one event, and how many octets at once. A peer that sends more than that is cut off.
const MOST_READS: u32 = 64;

const MOST_READ: usize = 16_384;

/// The socket of a closed connection. Were it closed while octets wait there that nobody reads, the system would reset the
/// connection, and the peer might lose the last octets that were sent to it.
#[derive(Drop)]
struct Parting {
    conn: u32,
    stream: TcpStream,
    until: u64,
}

/// Sockets of closed connections, in the order in which they were closed.
#[derive(Drop)]
pub(crate) struct Partings {
    all: VecDeque<Parting>,
    /// Where octets are read to that nobody gets.
    block: Vec<u8>,
}

impl Partings {
    pub fn new(alloc: Global) -> Result<Self, AllocError> {
        Ok(Partings {
            all: VecDeque::new(alloc),
            block: vec![in alloc; 0; MOST_READ]?,
        })
    }

    /// Sends no more to a peer, and drops what it sends, until it ends or the time is up.
    pub fn begin(&mut self, conn: u32, mut stream: TcpStream, now: u64) {
        if self.all.len() >= MOST_PARTINGS
            || stream.shutdown(Shutdown::Write).is_err()
            || is_over(&mut stream, &mut self.block)
        {
            return;
        }
        // Out of memory the socket is closed at once.
        let _ = self.all.push_back(Parting {
            conn,
            stream,
            until: now.saturating_add(LONGEST),
        });
    }

    /// The system tells something of a closed connection.
    pub fn on_event(&mut self, conn: u32, event: &Event) {
        let Some(place) = self.all.iter().position(|parting| parting.conn == conn) else {
            return;
        };
        let Some(parting) = self.all.get_mut(place) else {
            return;
        };
        if event.is_error() || is_over(&mut parting.stream, &mut self.block) {
            let _ = self.all.remove(place);
        }
    }

    /// Closes the sockets whose time is up.
    pub fn end(&mut self, now: u64) {
        for _ in 0..self.all.len() {
            match self.all.front() {
                Some(parting) if parting.until <= now => {}
                _ => return,
            }
            let _ = self.all.pop_front();
        }
    }
}

// Drops what came, and answers whether the peer has ended, failed, or sends too much.
fn is_over(stream: &mut TcpStream, block: &mut [u8]) -> bool {
    for _ in 0..MOST_READS {
        match drop_once(stream, block) {
            ReadOutcome::Octets(_) => {}
            ReadOutcome::Nothing => return false,
            ReadOutcome::End => return true,
        }
    }
    true
}

fn drop_once(stream: &mut TcpStream, block: &mut [u8]) -> ReadOutcome {
    match stream.read(block) {
        Ok(0) => ReadOutcome::End,
        Ok(n) => ReadOutcome::Octets(n),
        Err(error) if error.kind() == ErrorKind::WouldBlock => ReadOutcome::Nothing,
        Err(_) => ReadOutcome::End,
    }
}
