// The socket of a live connection.
ghost use Rattle.std.specs.Prelude.{◌≡◌, ◌≤◌, ◌||◌, length};
ghost use Rattle.mio_edge.specs.Stalls.{stalled_since, is_stuck};

use mio::event::Event;
use mio::net::TcpStream;
use std::io::{ErrorKind, Read, Write};

/// What a read found.
#[derive(Clone, Copy, PartialEq, Eq)]
pub(crate) enum ReadOutcome {
    /// So many octets, at least 1.
    Octets(usize),
    /// Nothing yet.
    Nothing,
    /// The end of what the peer sends, or an error.
    End,
}

/// Where a connection comes from.
#[derive(Clone, Copy, PartialEq, Eq)]
pub(crate) enum Origin {
    /// A client made it.
    Client,
    /// It was made to a cluster at a moment, in milliseconds, and no client has it yet.
    Ready { cluster: u32, since: u64 },
    /// It was made to a cluster, and a client has it, or had it.
    Taken,
    /// It was made to a cluster at a moment, in milliseconds, and all clients share it.
    Shared { cluster: u32, since: u64 },
}

impl Origin {
    /// The cluster for which the connection counts as ready, and since when, if it does.
    pub fn ready(self) -> Option<(u32, u64)> {
        match self {
            Origin::Ready { cluster, since } | Origin::Shared { cluster, since } => Some((
                cluster, since,
            )),
            Origin::Client | Origin::Taken => None,
        }
    }
}

/// The socket of a live connection, and what was seen of it.
#[derive(Drop)]
pub(crate) struct Link {
    stream: TcpStream,
    pub origin: Origin,
    /// Whether its octets aren't to be read.
    pub held: bool,
    /// Whether it stands among those that are to be looked at.
    pub queued: bool,
    /// Whether a read may find something.
    readable: bool,
    /// Whether the system may take something.
    writable: bool,
    /// Whether the peer sends no more. Reads go on until they find the end, since no event tells of it again.
    ending: bool,
    /// Whether a write failed.
    broken: bool,
    /// Whether octets were written.
    sent: bool,
    /// Since when it has taken nothing of what was offered, in milliseconds.
    stalled: Option<u64>,
    /// Whether it took nothing for too long.
    stuck: bool,
}

impl Link {
    /// A socket that is connected.
    pub fn new(stream: TcpStream, origin: Origin) -> Self {
        Link {
            stream,
            origin,
            held: false,
            queued: false,
            readable: false,
            writable: true,
            ending: false,
            broken: false,
            sent: false,
            stalled: None,
            stuck: false,
        }
    }

    /// Takes in what the system tells of the socket. An error shows in the reads and writes that follow.
    pub fn on_event(&mut self, event: &Event) {
        if event.is_readable() {
            self.readable = true;
        }
        if event.is_read_closed() || event.is_error() {
            self.readable = true;
            self.ending = true;
        }
        if event.is_writable() {
            self.writable = true;
        }
    }

    /// Whether the connection is lost without a read: it took nothing for too long, a write failed and it isn't to be read, or
    /// no client has it and the peer ends it.
    pub fn is_lost(&self) -> bool {
        let is_over = match self.origin {
            Origin::Ready { .. } => self.ending || self.broken,
            Origin::Client | Origin::Taken | Origin::Shared { .. } => self.held && self.broken,
        };
        self.stuck || is_over
    }

    /// Whether it is to be looked at.
    pub fn is_due(&self) -> bool {
        self.is_lost() || (self.readable && !self.held)
    }

    /// Reads once. After a read that didn't fill the block nothing is there until an event tells it, but for the end.
    pub fn read(&mut self, block: &mut [u8]) -> ReadOutcome {
        match self.stream.read(block) {
            Ok(0) => ReadOutcome::End,
            Ok(n) => {
                self.readable = n == block.len() || self.ending;
                ReadOutcome::Octets(n)
            }
            Err(error) => self.missed(error.kind()),
        }
    }

    // A read found no octets.
    fn missed(&mut self, kind: ErrorKind) -> ReadOutcome {
        match kind {
            ErrorKind::Interrupted => ReadOutcome::Nothing,
            ErrorKind::WouldBlock => {
                self.readable = false;
                ReadOutcome::Nothing
            }
            _ => ReadOutcome::End,
        }
    }

    /// Writes once, and answers how many octets of the piece went. While the peer doesn't read this costs no call.
    pub fn write(&mut self, piece: &[u8]) -> usize
        ensures { result ≤ length piece.now }
    {
        if !self.writable || self.broken {
            return 0;
        }
        match self.stream.write(piece) {
            Ok(n) => {
                self.writable = n == piece.len();
                self.sent = true;
                n
            }
            Err(error) => {
                self.refused(error.kind());
                0
            }
        }
    }

    /// Takes in that of some octets that were offered at this moment so many went. Where it is borne for so many milliseconds that
    /// none go, the connection is lost then.
    pub fn track_stall(&mut self, took: usize, now: u64, patience: Option<u64>)
        ensures since { self.new.stalled ≡ stalled_since took now self.old.stalled }
        ensures stuck { self.new.stuck ≡ (self.old.stuck || is_stuck now patience self.new.stalled) }
    {
        if took > 0 {
            self.stalled = None;
            return;
        }
        let since = self.stalled.unwrap_or(now);
        self.stalled = Some(since);
        if let Some(most) = patience {
            if now.saturating_sub(since) >= most {
                self.stuck = true;
            }
        }
    }

    // A write took nothing. After an error what the peer has sent is still read to its end.
    fn refused(&mut self, kind: ErrorKind) {
        match kind {
            ErrorKind::Interrupted => {}
            ErrorKind::WouldBlock => self.writable = false,
            _ => {
                self.broken = true;
                self.ending = true;
                self.readable = true;
            }
        }
    }

    /// The socket, where its peer may still have to get octets: it is to be parted from gently.
    pub fn into_parting(self) -> Option<TcpStream> {
        if self.sent && !self.broken {
            Some(self.stream)
        } else {
            None
        }
    }
}
