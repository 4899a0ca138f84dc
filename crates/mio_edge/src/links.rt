// The sockets of the live connections by number, and which of them are to be looked at.
ghost use Rattle.std.specs.Prelude.{◌≤◌, length};

use crate::link::{Link, Origin, ReadOutcome};
use io_ports::NoMemory;
use mio::event::Event;
use paged_map::PagedMap;
use std::alloc::Global;
use std::collections::VecDeque;

/// The sockets of the live connections.
#[derive(Drop)]
pub(crate) struct Links {
    live: PagedMap<u32, Link>,
    /// The numbers of those that are to be looked at, each once, and of some that are live no more.
    due: VecDeque<u32>,
    /// Those to clusters of which the system told just now.
    told: VecDeque<u32>,
    /// How many were made by clients.
    clients: u32,
    /// For how long it is borne that one takes nothing of what waits for it, in milliseconds.
    patience: Option<u64>,
}

impl Links {
    /// No connections, of which each is lost once it takes nothing of what waits for it for so many milliseconds.
    pub fn new(alloc: Global, patience: Option<u64>) -> Self {
        Links {
            live: PagedMap::new(alloc),
            due: VecDeque::new(alloc),
            told: VecDeque::new(alloc),
            clients: 0,
            patience,
        }
    }

    /// How many live connections were made by clients.
    pub fn clients(&self) -> u32 {
        self.clients
    }

    /// Whether a connection is to be looked at.
    pub fn is_due(&self) -> bool {
        !self.due.is_empty()
    }

    /// Takes in the socket of a connection. Room is taken for its place among those that are to be looked at. After running out of
    /// memory nothing has changed, and the socket is closed.
    pub fn come(&mut self, conn: u32, link: Link) -> Result<(), NoMemory> {
        let is_client = link.origin == Origin::Client;
        let most = self.live.len().saturating_add(1);
        self.due.reserve(most)?;
        self.told.reserve(most)?;
        self.live.insert(conn, link)?;
        if is_client {
            self.clients = self.clients.saturating_add(1);
        }
        Ok(())
    }

    /// A connection is live no more.
    pub fn leave(&mut self, conn: u32) -> Option<Link> {
        let link = self.live.remove(&conn)?;
        if link.origin == Origin::Client {
            self.clients = self.clients.saturating_sub(1);
        }
        Some(link)
    }

    /// Takes in what the system tells of a connection, if it is live. Answers whether it is.
    pub fn on_event(&mut self, conn: u32, event: &Event) -> bool {
        let Some(link) = self.live.get_mut(&conn) else {
            return false;
        };
        link.on_event(event);
        if link.origin == Origin::Client {
            queue(&mut self.due, conn, link);
        } else {
            queue(&mut self.told, conn, link);
        }
        true
    }

    /// The system has told all. Connections to clusters are looked at behind those of clients: what comes from clusters makes octets
    /// wait for many clients, each of which is offered them in each turn until the round is over.
    pub fn end_events(&mut self) {
        for _ in 0..self.told.len() {
            if let Some(conn) = self.told.pop_front() {
                // Its room was taken when it came.
                let _ = self.due.push_back(conn);
            }
        }
    }

    /// From now on a connection is held, or isn't. Answers the cluster of one that a client has now for the first time.
    pub fn hold(&mut self, conn: u32, held: bool) -> Option<u32> {
        let link = self.live.get_mut(&conn)?;
        link.held = held;
        let cluster = if held { None } else { taken(link) };
        queue(&mut self.due, conn, link);
        cluster
    }

    /// A connection takes a front of a piece, at a moment in milliseconds, and sends it in one call. Answers how many octets. Only
    /// connections for which octets wait are offered some, so only those are looked at for a stall.
    pub fn take(&mut self, conn: u32, piece: &[u8], now: u64) -> usize
        ensures { result ≤ length piece.now }
    {
        let Some(link) = self.live.get_mut(&conn) else {
            return 0;
        };
        let n = link.write(piece);
        link.track_stall(n, now, self.patience);
        queue(&mut self.due, conn, link);
        n
    }

    /// The connection that is to be looked at next.
    pub fn next_due(&mut self) -> Option<u32> {
        let conn = self.due.pop_front()?;
        if let Some(link) = self.live.get_mut(&conn) {
            link.queued = false;
        }
        Some(conn)
    }

    /// Reads a connection once, if it may be read, or finds that it is lost.
    pub fn read(&mut self, conn: u32, block: &mut [u8]) -> ReadOutcome {
        let Some(link) = self.live.get_mut(&conn) else {
            return ReadOutcome::Nothing;
        };
        if link.is_lost() {
            return ReadOutcome::End;
        }
        if !link.is_due() {
            return ReadOutcome::Nothing;
        }
        let found = link.read(block);
        queue(&mut self.due, conn, link);
        found
    }
}

// A connection stands among those that are to be looked at, if it is to be. Its room was taken when it came.
fn queue(due: &mut VecDeque<u32>, conn: u32, link: &mut Link) {
    if link.is_due() && !link.queued {
        link.queued = due.push_back(conn).is_ok();
    }
}

// A client has the connection, if it is one to a cluster. Answers that, where none had it before.
fn taken(link: &mut Link) -> Option<u32> {
    match link.origin {
        Origin::Ready { cluster, .. } => {
            link.origin = Origin::Taken;
            Some(cluster)
        }
        Origin::Client | Origin::Taken | Origin::Shared { .. } => None,
    }
}
