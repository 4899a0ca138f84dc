// A connection as it is kept.
ghost use Rattle.std.specs.Prelude.{◌≡◌, [], OnErr, OnOk, length};
ghost use Rattle.wire_links.specs.Links.{takes_one};
ghost use Rattle.number_set.specs.NumberSet.{first, first_above};
ghost use Rattle.wire_links.specs.Numbers.{under};
ghost use Rattle.wire_links.specs.Seats.{left, linked, opened, placed, with_state};

use crate::conn::Conn;
use io_ports::NoMemory;
use number_set::{NumberMap, NumberSet};
use std::alloc::Global;
use std::marker::Model;

/// A connection: its state, its exchanges, and which of them is on which stream.
#[derive(Drop)]
pub(crate) struct Seat {
    conn: Conn,
    numbers: NumberSet,
    streams: NumberMap<u64>,
}

impl Model for Seat {
    ghost use Rattle.wire_links.specs.Seats.{Seat};

    ghost Value = { Seat };

    ghost use Rattle.wire_links.specs.Seats.{seat_of};

    ghost view = { seat_of };
}

impl Seat {
    /// Without exchanges. Takes no memory.
    pub(crate) fn new(alloc: Global, conn: Conn) -> Self
        ensures { result ≡ record { conn = conn; numbers = []; streams = [] } }
    {
        Seat {
            conn,
            numbers: NumberSet::new(alloc),
            streams: NumberMap::new(alloc),
        }
    }

    pub(crate) fn conn(&self) -> Conn
        ensures { result ≡ self.now.conn }
    {
        self.conn
    }

    pub(crate) fn set_conn(&mut self, conn: Conn)
        ensures { self.new ≡ with_state conn self.old }
    {
        self.conn = conn;
    }

    /// How many exchanges it has.
    pub(crate) fn count(&self) -> usize
        ensures { result ≡ length self.now.numbers }
    {
        self.numbers.len()
    }

    /// Its least exchange.
    pub(crate) fn least(&self) -> Option<u64>
        ensures { result ≡ first self.now.numbers }
    {
        self.numbers.first()
    }

    /// Its least exchange above a number.
    pub(crate) fn next(&self, after: u64) -> Option<u64>
        ensures { result ≡ first_above after self.now.numbers }
    {
        self.numbers.next_above(after)
    }

    /// The exchange on a stream.
    pub(crate) fn exchange_at(&self, stream: u32) -> Option<u64>
        ensures { result ≡ under stream self.now.streams }
    {
        self.streams.get(u64::from(stream))
    }

    /// Whether it can take one more exchange for the cluster.
    pub(crate) fn takes_one(&self, cluster: u32) -> bool
        ensures { result ≡ takes_one cluster (length self.now.numbers) self.now.conn }
    {
        self.conn.is_ready(cluster) && self.numbers.len() < self.conn.most() as usize
    }

    /// An exchange comes, without a stream.
    pub(crate) fn link(&mut self, exchange: u64) -> Result<(), NoMemory>
        ensures ok { OnOk result (self.new ≡ linked exchange self.old) }
        ensures err { OnErr result (self.new ≡ self.old) }
    {
        self.numbers.reserve_one()?;
        self.numbers.insert(exchange);
        Ok(())
    }

    /// An exchange is on a stream from now on.
    pub(crate) fn place(&mut self, stream: u32, exchange: u64) -> Result<(), NoMemory>
        ensures ok { OnOk result (self.new ≡ placed stream exchange self.old) }
        ensures err { OnErr result (self.new ≡ self.old) }
    {
        self.streams.insert(u64::from(stream), exchange)
    }

    /// An exchange comes on a stream.
    pub(crate) fn open(&mut self, stream: u32, exchange: u64) -> Result<(), NoMemory>
        ensures ok { OnOk result (self.new ≡ opened stream exchange self.old) }
        ensures err { OnErr result (self.new ≡ self.old) }
    {
        self.numbers.reserve_one()?;
        self.streams.insert(u64::from(stream), exchange)?;
        self.numbers.insert(exchange);
        Ok(())
    }

    /// An exchange goes, and its stream with it, if it has one. Takes no memory.
    pub(crate) fn leave(&mut self, exchange: u64, stream: Option<u32>)
        ensures { self.new ≡ left exchange stream self.old }
    {
        self.numbers.remove(exchange);
        if let Some(stream) = stream {
            self.streams.remove(u64::from(stream));
        }
    }
}
