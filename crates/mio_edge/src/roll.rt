// Which connections are live, and which of them are held.
ghost use Rattle.std.specs.Prelude.{◌≡◌, ◌<◌, ◌&&◌, OnErr, OnOk, false, nat_lt, not, true};
ghost use Rattle.mio_edge.specs.Rolls.{new_roll, roll_seen};
ghost use Rattle.relay_ports.specs.Holding.{Holds};
ghost use Rattle.worker_ports.specs.Wires.{closed, given, is_held, is_live};
ghost use Rattle.worker_ports.specs.declared.wires.Wired.TheVariants as wired;

use io_ports::NoMemory;
use paged_map::PagedMap;
use std::alloc::Global;
use std::marker::Model;

/// The numbers of the live connections, each with whether it is held, and the greatest number so far.
#[derive(Drop)]
pub struct Roll {
    clusters: u32,
    live: PagedMap<u32, bool>,
    greatest: u32,
}

impl Model for Roll {
    ghost use Rattle.mio_edge.specs.Rolls.{IsInOrder, RollValue, value_of};

    ghost Value = { RollValue };

    ghost view = { value_of };

    ghost invariant = { IsInOrder };
}

impl Roll {
    /// No connection to so many clusters.
    pub(crate) fn new(alloc: Global, clusters: u32) -> Self
        ensures { result ≡ new_roll clusters }
    {
        Roll {
            clusters,
            live: PagedMap::new(alloc),
            greatest: 0,
        }
    }

    /// Whether there is such a cluster.
    pub(crate) fn has_cluster(&self, cluster: u32) -> bool
        ensures { result ≡ nat_lt cluster self.now.clusters }
    {
        cluster < self.clusters
    }

    pub(crate) fn is_live(&self, conn: u32) -> bool
        ensures { result ≡ is_live conn (roll_seen self.now) }
    {
        self.live.contains_key(&conn)
    }

    /// Whether a connection is live, and may be read.
    pub(crate) fn is_read(&self, conn: u32) -> bool
        ensures { result ≡ (is_live conn (roll_seen self.now) && not (is_held conn (roll_seen self.now))) }
    {
        match self.live.get(&conn) {
            Some(held) => !*held,
            None => false,
        }
    }

    /// The number of the next connection. None where all are used.
    pub(crate) fn next_number(&self) -> Option<u32> {
        self.greatest.checked_add(1)
    }

    /// Whether a number is above all before.
    pub(crate) fn is_next(&self, conn: u32) -> bool
        ensures { result ≡ nat_lt self.now.greatest conn }
    {
        self.greatest < conn
    }

    /// A connection comes under a number above all before. After running out of memory nothing has changed.
    pub(crate) fn come(&mut self, conn: u32) -> Result<(), NoMemory>
        requires { self.old.greatest < conn }
        ensures clusters { self.new.clusters ≡ self.old.clusters }
        ensures ok { OnOk result (roll_seen self.new ≡ given (wired.Accept conn) (roll_seen self.old)) }
        ensures err { OnErr result (self.new ≡ self.old) }
    {
        self.live.insert(conn, false)?;
        self.greatest = conn;
        Ok(())
    }

    /// A connection is live no more. Answers whether it was.
    pub(crate) fn leave(&mut self, conn: u32) -> bool
        ensures was { result ≡ is_live conn (roll_seen self.old) }
        ensures leaves { roll_seen self.new ≡ closed conn (roll_seen self.old) }
        ensures loses { result ≡ true → roll_seen self.new ≡ given (wired.Lost conn) (roll_seen self.old) }
        ensures none { result ≡ false → self.new ≡ self.old }
    {
        self.live.remove(&conn).is_some()
    }

    /// A live connection is held from now on, or isn't any more.
    pub(crate) fn hold(&mut self, conn: u32, held: bool)
        ensures { Holds conn held (roll_seen self.old) (roll_seen self.new) }
    {
        let Some(at) = self.live.get_mut(&conn) else {
            return;
        };
        *at = held;
    }
}
