// A connection: its write buffer, and what exchanges have for it.
ghost use Rattle.std.specs.Prelude.{◌≡◌, ◌==◌, if◌then◌else◌, None, OnOk, Some};
ghost use Rattle.std.specs.BTreeMap.{get};
ghost use Rattle.std.specs.Ordering.{nat_cmp};
ghost use Rattle.std.specs.Prelude.{ℕ};
ghost use Rattle.plain_core.specs.Ready.{IsFirstAbove, IsFirst, IsIdle, IsNewConnection, IsNext};

use crate::flows::NextFrame;
use exchange_core::Piece;
use io_ports::NoMemory;
use std::alloc::Global;
use std::collections::BTreeMap;
use std::ops::Bound;
use wm_buffer::WatermarkBuffer;

/// The connection that flows go to.
#[derive(Drop)]
pub struct Connection {
    pub(crate) write: WatermarkBuffer,
    /// The exchange of which a unit was framed last, 0 at first.
    pub(crate) framed_last: u64,
    /// The exchanges with a flow that has a unit for this connection, each with it.
    pub(crate) ready: BTreeMap<u64, Piece>,
}

impl Connection {
    /// An open connection with an empty write buffer of this limit in octets, 0 for none. Takes no
    /// memory.
    pub(crate) fn new(alloc: Global, limit: u32) -> Self
        ensures { IsNewConnection limit result }
    {
        Connection {
            write: WatermarkBuffer::new(alloc, limit),
            framed_last: 0,
            ready: BTreeMap::new(alloc),
        }
    }

    /// Whether no exchange has a unit for this connection.
    pub(crate) fn is_idle(&self) -> bool
        ensures { IsIdle self.now result }
    {
        self.first().is_none()
    }

    /// The unit of the exchange whose turn is next: by number in rotation, after the one framed last.
    pub(crate) fn next(&self) -> Option<NextFrame>
        ensures { IsNext self.now result }
    {
        match self.first_above(self.framed_last) {
            Some(next) => Some(next),
            None => self.first(),
        }
    }

    fn first_above(&self, last: u64) -> Option<NextFrame>
        ensures { IsFirstAbove self.now last result }
    {
        let (&exchange, &Piece { n, last }) = self
            .ready
            .range((Bound::Excluded(last), Bound::Unbounded))
            .next()?;
        Some(NextFrame { exchange, n, last })
    }

    fn first(&self) -> Option<NextFrame>
        ensures { IsFirst self.now result }
    {
        let (&exchange, &Piece { n, last }) = self.ready.first_key_value()?;
        Some(NextFrame { exchange, n, last })
    }

    /// From now on the exchange has this unit for the connection.
    pub(crate) fn make_ready(&mut self, exchange: u64, piece: Piece) -> Result<(), NoMemory>
        ensures ready { OnOk result ((x : ℕ) → get nat_cmp self.new.ready x ≡ (if exchange == x then Some piece else get nat_cmp self.old.ready x)) }
        ensures write { self.new.write ≡ self.old.write }
        ensures framed_last { self.new.framed_last ≡ self.old.framed_last }
    {
        self.ready.insert(exchange, piece)?;
        Ok(())
    }

    /// From now on it has none.
    pub(crate) fn unready(&mut self, exchange: u64)
        ensures ready { (x : ℕ) → get nat_cmp self.new.ready x ≡ (if exchange == x then None else get nat_cmp self.old.ready x) }
        ensures write { self.new.write ≡ self.old.write }
        ensures framed_last { self.new.framed_last ≡ self.old.framed_last }
    {
        self.ready.remove(&exchange);
    }
}
