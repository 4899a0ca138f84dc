// A client.

use mio::net::TcpStream;
use std::alloc::Global;
use std::io::{self, Read, Write};
use std::net::{Net, SocketAddr};

/// How many octets a client sends.
pub const LENGTH: usize = 1_000_000;

/// How many octets are sent or read at once at most.
const PIECE: usize = 10_000;

/// After so many octets the same ones come again.
const PERIOD: usize = 251;

/// A client that sends octets, and looks whether the same ones come back.
#[derive(Drop)]
pub struct Client {
    stream: TcpStream,
    /// Its first octets: from each place of a period on, a whole piece.
    pattern: Vec<u8>,
    block: Vec<u8>,
    sent: usize,
    back: usize,
    differs: bool,
}

impl Client {
    /// A client of the one that listens at an address.
    pub fn new<R: Net>(rt: &R, alloc: Global, to: SocketAddr) -> io::Result<Self> {
        let mut pattern = Vec::new(alloc);
        for place in 0..PERIOD + PIECE {
            pattern.push((place % PERIOD) as u8)?;
        }
        Ok(Client {
            stream: TcpStream::connect(rt, to)?,
            pattern,
            block: vec![in alloc; 0; PIECE]?,
            sent: 0,
            back: 0,
            differs: false,
        })
    }

    /// Sends once and reads once.
    pub fn step(&mut self) {
        let most = LENGTH.saturating_sub(self.sent).min(PIECE);
        if let Ok(n) = self.stream.write(piece_of(&self.pattern, self.sent, most)) {
            self.sent = self.sent.saturating_add(n);
        }
        if let Ok(n) = self.stream.read(&mut self.block) {
            if self.block.get(..n) != Some(piece_of(&self.pattern, self.back, n)) {
                self.differs = true;
            }
            self.back = self.back.saturating_add(n);
        }
    }

    /// How many octets were sent and how many came back, if those are the first of the same.
    pub fn counts(&self) -> Option<(usize, usize)> {
        if self.differs {
            None
        } else {
            Some((self.sent, self.back))
        }
    }

    /// Whether as many octets came back as were to be sent.
    pub fn is_done(&self) -> bool {
        self.back >= LENGTH
    }
}

// So many of the octets from a place on.
fn piece_of(pattern: &[u8], place: usize, len: usize) -> &[u8] {
    let start = place % PERIOD;
    pattern.get(start..start.saturating_add(len)).unwrap_or(&[])
}
