// The connections of a worker.
ghost use Rattle.std.specs.Prelude.{◌≡◌, ◌&&◌, IfSome, IsSomeAnd, OnErr, OnOk, Some, false, length, not, true};
ghost use Rattle.wire_links.specs.Kept.{IsNext};
ghost use Rattle.wire_links.specs.Links.{IsSound, accepted, chosen, closed, cluster_of, conn_at, drained, exchanges_of, forgotten, goaway_last, is_client, is_draining, is_known, is_open, joined, next_client, no_links, takers, with_concurrent, with_conn};
ghost use Rattle.number_set.specs.NumberSet.{has};

mod exchanges;
mod tables;

use crate::conn::Conn;
use crate::seat::Seat;
pub use exchanges::Ends;
use io_ports::NoMemory;
use number_set::NumberSet;
use paged_map::PagedMap;
use std::alloc::Global;
use std::collections::BTreeSet;
use std::marker::Model;
use std::ops::Bound;

/// Who is linked to whom: the connections of a worker, clients' and to clusters, and its live exchanges.
///
/// Seen as two lists in the order of the numbers: each connection with its state, and each exchange with its ends. All else,
/// as who is on a stream, is said of these two. No call goes through all connections or exchanges: those of a connection
/// stand with it, and those of a cluster that can take one more stand together.
#[derive(Drop)]
pub struct Links {
    alloc: Global,
    seats: PagedMap<u32, Seat>,
    exchanges: PagedMap<u64, Ends>,
    // By cluster, the connections that can take one more exchange, and room for all of its connections.
    offers: PagedMap<u32, NumberSet>,
    // The client connections that are open.
    clients: BTreeSet<u32>,
}

impl Model for Links {
    ghost use Rattle.wire_links.specs.Links.{Links};

    ghost Value = { Links };

    ghost use Rattle.wire_links.specs.Kept.{IsKept, links_of};

    ghost view = { links_of };

    ghost invariant = { IsKept };
}

impl Links {
    /// No connections and no exchanges. Takes no memory.
    pub fn new(alloc: Global) -> Self
        ensures { result ≡ no_links }
    {
        Links {
            alloc,
            seats: PagedMap::new(alloc),
            exchanges: PagedMap::new(alloc),
            offers: PagedMap::new(alloc),
            clients: BTreeSet::new(alloc),
        }
    }

    /// What is true at all times: the numbers stand in order, an exchange stands between known connections, a client's and a
    /// cluster's, and a stream has one exchange. Does nothing.
    pub fn are_sound(&self)
        ensures { IsSound self.now }
    {
        let _ = &self.seats;
    }

    /// Whether the connection is known: it was accepted or joined, and hasn't been forgotten.
    pub fn is_known(&self, conn: u32) -> bool
        ensures { result ≡ is_known conn self.now }
    {
        self.seats.contains_key(&conn)
    }

    /// Whether the connection is known and hasn't been closed.
    pub fn is_open(&self, conn: u32) -> bool
        ensures { result ≡ is_open conn self.now }
    {
        match self.state(conn) {
            Some(state) => state.live,
            None => false,
        }
    }

    /// Whether the connection is known and a client's.
    pub fn is_client(&self, conn: u32) -> bool
        ensures { result ≡ is_client conn self.now }
    {
        match self.state(conn) {
            Some(state) => state.cluster.is_none(),
            None => false,
        }
    }

    /// Whether the connection is known and draining.
    pub fn is_draining(&self, conn: u32) -> bool
        ensures { result ≡ is_draining conn self.now }
    {
        match self.state(conn) {
            Some(state) => state.draining.is_some(),
            None => false,
        }
    }

    /// The number of the connection's cluster; none of a client's connection, and where it isn't known.
    pub fn cluster_of(&self, conn: u32) -> Option<u32>
        ensures { result ≡ cluster_of conn self.now }
    {
        self.state(conn)?.cluster
    }

    /// The number that the connection's first GOAWAY named; none where it isn't draining.
    pub fn goaway_last(&self, conn: u32) -> Option<u32>
        ensures { result ≡ goaway_last conn self.now }
    {
        self.state(conn)?.draining
    }

    /// The open client connection with the least number above `after`, draining or not.
    pub fn next_client(&self, after: u32) -> Option<u32>
        ensures { result ≡ next_client after self.now }
    {
        self.clients
            .range((Bound::Excluded(after), Bound::Unbounded))
            .next()
            .copied()
    }

    /// A client's connection comes. It is open, and its peer has named no number of concurrent streams. After running out of
    /// memory nothing has changed.
    pub fn accept(&mut self, conn: u32) -> Result<(), NoMemory>
        requires { is_known conn self.old ≡ false }
        ensures ok { OnOk result (self.new ≡ accepted conn self.old) }
        ensures err { OnErr result (self.new ≡ self.old) }
    {
        let seat = Seat::new(self.alloc, Conn::new(None));
        drop(self.seats.insert(conn, seat)?);
        let Ok(_) = self.clients.insert(conn) else {
            drop(self.seats.remove(&conn));
            return Err(NoMemory);
        };
        Ok(())
    }

    /// A connection to a cluster comes. It is open, its peer has named no number of concurrent streams, and it can be chosen.
    /// After running out of memory nothing has changed.
    pub fn join(&mut self, conn: u32, cluster: u32) -> Result<(), NoMemory>
        requires { is_known conn self.old ≡ false }
        ensures ok { OnOk result (self.new ≡ joined conn cluster self.old) }
        ensures err { OnErr result (self.new ≡ self.old) }
    {
        tables::make_room(&mut self.offers, self.alloc, cluster, self.seats.len() + 1)?;
        let seat = Seat::new(self.alloc, Conn::new(Some(cluster)));
        drop(self.seats.insert(conn, seat)?);
        tables::tell(&self.seats, &mut self.offers, conn);
        Ok(())
    }

    /// The connection's peer names so many concurrent streams. Where the connection isn't known, nothing changes.
    pub fn set_concurrent(&mut self, conn: u32, n: u32)
        ensures { self.new ≡ with_conn conn (with_concurrent n) self.old }
    {
        if let Some(state) = self.state(conn) {
            let concurrent = Some(n);
            self.put(
                conn,
                Conn {
                    concurrent,
                    ..state
                },
            );
        }
    }

    /// From now on the connection is draining, by a GOAWAY that names `last`, and is chosen no more. Where it was draining
    /// already, the number stays that of the first GOAWAY. Answers whether it begins to drain; where it isn't known, nothing
    /// changes.
    pub fn drain(&mut self, conn: u32, last: u32) -> bool
        ensures begins { result ≡ (is_known conn self.old && not (is_draining conn self.old)) }
        ensures drained { self.new ≡ with_conn conn (drained last) self.old }
    {
        let Some(state) = self.state(conn) else {
            return false;
        };
        if state.draining.is_some() {
            return false;
        }
        let draining = Some(last);
        self.put(conn, Conn { draining, ..state });
        true
    }

    /// The connection is closed, and chosen no more. It is known, with its exchanges, until it is forgotten. Where it isn't
    /// known, nothing changes.
    pub fn close(&mut self, conn: u32)
        ensures { self.new ≡ with_conn conn closed self.old }
    {
        if let Some(state) = self.state(conn) {
            let live = false;
            self.put(conn, Conn { live, ..state });
        }
    }

    /// The connection, which has no exchange, is known no more. Where it wasn't, nothing changes.
    pub fn forget(&mut self, conn: u32)
        requires { length (exchanges_of conn self.old.exchanges) ≡ 0 }
        ensures { self.new ≡ forgotten conn self.old }
    {
        if let Some(seat) = self.seats.remove(&conn) {
            let _ = self.clients.remove(&conn);
            tables::withdraw(&mut self.offers, seat.conn().cluster, conn);
        }
    }

    /// The earliest joined open connection of the cluster that isn't draining and has fewer exchanges than its peer allows,
    /// and than 100: the one with the least number. None only where there is none. Costs a look-up.
    pub fn choose(&self, cluster: u32) -> Option<u32>
        ensures chosen { result ≡ chosen cluster self.now }
        ensures takes { IfSome result (λ c. has (takers cluster self.now.conns self.now.exchanges) c ≡ true) }
        ensures member { IfSome result (λ c. cluster_of c self.now ≡ Some cluster) }
    {
        let earliest = self.offers.get(&cluster)?.first()?;
        Some(earliest as u32)
    }

    // The state of a connection.
    fn state(&self, conn: u32) -> Option<Conn>
        ensures { result ≡ conn_at conn self.now }
    {
        match self.seats.get(&conn) {
            Some(seat) => Some(seat.conn()),
            None => None,
        }
    }

    // The state of a known connection is another one, of the same kind, and not open again where it was closed.
    fn put(&mut self, conn: u32, state: Conn)
        requires { IsSomeAnd (conn_at conn self.old) (IsNext state) }
        ensures { self.new ≡ with_conn conn (λ _. state) self.old }
    {
        tables::set_conn(&mut self.seats, conn, state);
        tables::tell(&self.seats, &mut self.offers, conn);
        if !state.live {
            let _ = self.clients.remove(&conn);
        }
    }
}
