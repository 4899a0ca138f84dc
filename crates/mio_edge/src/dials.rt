// Connections to clusters that are being made.

use mio::event::Event;
use mio::net::TcpStream;
use mio::{Interest, Registry, Token};
use std::alloc::Global;
use std::collections::{BTreeMap, VecDeque};
use std::io::{self, Error, ErrorKind};
use std::net::{Net, SocketAddr};

/// How long a connection may take to be made, in milliseconds.
const LONGEST: u64 = 5_000;

/// The tokens of connections that are being made begin here, above each number of a connection.
const FIRST_TOKEN: usize = 1 << 32;

/// A connection that is being made.
#[derive(Drop)]
pub(crate) struct Dial {
    pub stream: TcpStream,
    pub cluster: u32,
    until: u64,
}

/// Connections to clusters that are being made, in the order in which they were begun.
#[derive(Drop)]
pub(crate) struct Dials {
    begun: BTreeMap<usize, Dial>,
    /// Those that are connected.
    made: VecDeque<Dial>,
    next_token: usize,
}

impl Dials {
    pub fn new(alloc: Global) -> Self {
        Dials {
            begun: BTreeMap::new(alloc),
            made: VecDeque::new(alloc),
            next_token: FIRST_TOKEN,
        }
    }

    /// How many connections are being made.
    pub fn len(&self) -> usize {
        self.begun.len()
    }

    /// Whether a connection has been made.
    pub fn is_due(&self) -> bool {
        !self.made.is_empty()
    }

    /// The connection that was made first.
    pub fn next_made(&mut self) -> Option<Dial> {
        self.made.pop_front()
    }

    /// Begins a connection.
    pub fn begin<R: Net>(
        &mut self,
        rt: &R,
        registry: &Registry,
        cluster: u32,
        address: SocketAddr,
        now: u64,
    ) -> io::Result<()> {
        self.made.reserve(self.begun.len().saturating_add(1))?;
        let mut stream = TcpStream::connect(rt, address)?;
        let token = self.next_token;
        let both = Interest::READABLE | Interest::WRITABLE;
        registry.register(&mut stream, Token(token), both)?;
        self.next_token = token.saturating_add(1);
        let dial = Dial {
            stream,
            cluster,
            until: now.saturating_add(LONGEST),
        };
        self.begun.insert(token, dial)?;
        Ok(())
    }

    /// The system tells something of a connection that is being made: it is made, or it failed, and then its cluster is
    /// answered, and why.
    pub fn on_event(&mut self, token: usize, event: &Event) -> Option<(u32, Error)> {
        if !event.is_writable() && !event.is_error() {
            return None;
        }
        let dial = self.begun.remove(&token)?;
        let cluster = dial.cluster;
        match self.end(dial) {
            Ok(()) => None,
            Err(error) => Some((cluster, error)),
        }
    }

    // A connection is made, as far as no error shows.
    fn end(&mut self, dial: Dial) -> io::Result<()> {
        check(&dial.stream)?;
        if self.made.push_back(dial).is_err() {
            return Err(Error::from(ErrorKind::OutOfMemory));
        }
        Ok(())
    }

    /// A connection that wasn't made in time is given up. Answers its cluster.
    pub fn give_up(&mut self, now: u64) -> Option<u32> {
        let (&token, dial) = self.begun.first_key_value()?;
        if now < dial.until {
            return None;
        }
        let dial = self.begun.remove(&token)?;
        Some(dial.cluster)
    }
}

// Whether a socket is connected, as far as no error shows. Octets that are sent at once go without delay.
fn check(stream: &TcpStream) -> io::Result<()> {
    match stream.take_error()? {
        None => stream.set_nodelay(true),
        Some(error) => Err(error),
    }
}
