// A server.

use mio::net::{TcpListener, TcpStream};
use std::alloc::Global;
use std::io::{self, Read, Write};
use std::net::{Ipv4Addr, Net, SocketAddr};

/// How many octets are read at once at most.
const PIECE: usize = 10_000;

/// A server that sends back what its first client sends, until that one ends.
#[derive(Drop)]
pub struct Server {
    listener: TcpListener,
    stream: Option<TcpStream>,
    block: Vec<u8>,
    /// Where in the block the octets begin that are to be sent back, and where they end.
    begin: usize,
    end: usize,
    is_over: bool,
}

impl Server {
    /// A server that listens at some port of this machine alone.
    pub fn new<R: Net>(rt: &R, alloc: Global) -> io::Result<Self> {
        let at = SocketAddr::from((Ipv4Addr::LOCALHOST, 0));
        Ok(Server {
            listener: TcpListener::bind(rt, at)?,
            stream: None,
            block: vec![in alloc; 0; PIECE]?,
            begin: 0,
            end: 0,
            is_over: false,
        })
    }

    /// Where it listens.
    pub fn address(&self) -> io::Result<SocketAddr> {
        self.listener.local_addr()
    }

    /// Accepts, reads or sends once.
    pub fn step(&mut self) {
        let Some(stream) = &mut self.stream else {
            if let Ok((stream, _)) = self.listener.accept() {
                self.stream = Some(stream);
            }
            return;
        };
        if self.begin < self.end {
            let piece = self.block.get(self.begin..self.end).unwrap_or(&[]);
            if let Ok(n) = stream.write(piece) {
                self.begin = self.begin.saturating_add(n);
            }
        } else if let Ok(n) = stream.read(&mut self.block) {
            self.begin = 0;
            self.end = n;
            self.is_over = n == 0;
        }
    }

    /// Whether its client has ended.
    pub fn is_over(&self) -> bool {
        self.is_over
    }
}
