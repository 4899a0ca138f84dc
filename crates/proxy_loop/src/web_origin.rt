// A server of HTTP/2.

use crate::web_peer::{Peer, Told};
use io_ports::NoMemory;
use mio::net::TcpListener;
use std::alloc::Global;
use std::io;
use std::net::{Ipv4Addr, Net, SocketAddr};

/// How many octets a preface has (RFC 9113 section 3.4).
const PREFACE: usize = 24;

/// How often the server reads what each client sends, at each step.
const READS: u32 = 16;

/// The field block of the status 200 (RFC 7541 appendix A).
const OKAY: &[u8] = b"\x88";

/// What a request without content is answered.
const HELLO: &[u8] = b"hello";

/// A server that answers its clients: a request with content by that content, and others by a greeting.
#[derive(Drop)]
pub struct Origin {
    alloc: Global,
    listener: TcpListener,
    callers: Vec<Caller>,
}

/// A client of a server.
#[derive(Drop)]
struct Caller {
    peer: Peer,
    /// Whether a frame of it has come.
    is_met: bool,
}

impl Origin {
    /// A server that listens at some port of this machine alone.
    pub fn new<R: Net>(rt: &R, alloc: Global) -> io::Result<Self> {
        let at = SocketAddr::from((Ipv4Addr::LOCALHOST, 0));
        Ok(Origin {
            alloc,
            listener: TcpListener::bind(rt, at)?,
            callers: Vec::new(alloc),
        })
    }

    /// Where it listens.
    pub fn address(&self) -> io::Result<SocketAddr> {
        self.listener.local_addr()
    }

    /// Of how many clients a frame has come.
    pub fn met(&self) -> usize {
        let mut met = 0usize;
        for caller in self.callers.as_slice() {
            if caller.is_met {
                met = met.saturating_add(1);
            }
        }
        met
    }

    /// Accepts a client, and sends to and reads from each some times.
    pub fn step(&mut self) -> Result<(), NoMemory> {
        self.accept()?;
        for caller in self.callers.iter_mut() {
            caller.step()?;
        }
        Ok(())
    }

    fn accept(&mut self) -> Result<(), NoMemory> {
        if let Ok((stream, _)) = self.listener.accept() {
            let peer = Peer::new(self.alloc, stream, &[], PREFACE)?;
            self.callers.push(Caller {
                peer,
                is_met: false,
            })?;
        }
        Ok(())
    }
}

impl Caller {
    fn step(&mut self) -> Result<(), NoMemory> {
        for _ in 0..READS {
            if let Some(told) = self.peer.step()? {
                self.is_met = true;
                answer(&mut self.peer, &told)?;
            }
        }
        Ok(())
    }
}

fn answer(peer: &mut Peer, told: &Told) -> Result<(), NoMemory> {
    match told {
        Told::Head(stream, _, true) => {
            peer.say_head(*stream, false, OKAY)?;
            peer.say_content(*stream, true, HELLO)
        }
        Told::Head(stream, _, false) => peer.say_head(*stream, false, OKAY),
        Told::Content(stream, octets, last) => {
            peer.say_content(*stream, *last, octets.as_slice())
        }
        Told::Other => Ok(()),
    }
}
