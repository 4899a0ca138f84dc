// What one flow watches.
ghost use Rattle.std.specs.Prelude.{◌≡◌, ◌∷◌, ◌++◌, ◌<◌, ◌^◌, [], OnOk, length};

use flow_rules::{BufferId, FlowId};
use io_ports::NoMemory;
use std::alloc::Global;
use std::marker::Model;

/// A buffer that a flow watches, and the flow's place in that buffer's line.
#[derive(Clone, Copy)]
pub(crate) struct Watch {
    pub(crate) buffer: BufferId,
    pub(crate) place: u64,
}

/// The most buffers that a flow watches, so that its count stays below 2^64.
const MOST_WATCHES: usize = 1 << 62;

/// How many watches stand in the books themselves.
const FEW: usize = 2;

/// The books of a flow. As most flows watch two buffers, the first two watches stand in the books, where they are found
/// with the flow; once there are more, all stand in a block of their own.
#[derive(Drop)]
pub(crate) struct Watcher {
    len: usize,
    few: [Watch; 2],
    many: Vec<Watch>,
}

impl Model for Watcher {
    ghost use Rattle.flow_gate.specs.Books.{AreBooks, Books, books_of};
    ghost use Rattle.std.specs.Prelude.{vec_capacity};

    ghost Value = { Books };

    ghost view = { λ a. books_of a.len a.few a.many.items (vec_capacity a.many) };

    ghost invariant = { λ a. AreBooks a.len a.few a.many.items };
}

impl Watcher {
    /// Watches nothing. Takes no memory.
    pub(crate) fn new(alloc: Global) -> Self
        ensures { result.watches ≡ [] }
    {
        let nothing = Watch {
            buffer: BufferId::Write(0),
            place: 0,
        };
        Watcher {
            len: 0,
            few: [nothing; 2],
            many: Vec::new(alloc),
        }
    }

    /// Watches the send buffer of its flow and then the write buffer of a connection, at these places of their lines. Takes no
    /// memory.
    #[inline(always)]
    pub(crate) fn of_sender(alloc: Global, flow: FlowId, own: u64, conn: u32, place: u64) -> Self
        ensures { result.watches ≡ (record { buffer = BufferId.Send flow; place = own }) ∷ (record { buffer = BufferId.Write conn; place = place }) ∷ [] }
    {
        let send = Watch {
            buffer: BufferId::Send(flow),
            place: own,
        };
        let write = Watch {
            buffer: BufferId::Write(conn),
            place,
        };
        Watcher {
            len: FEW,
            few: [send, write],
            many: Vec::new(alloc),
        }
    }

    pub(crate) fn watches(&self) -> &[Watch]
        ensures { result.now ≡ self.now.watches }
    {
        if self.len <= FEW {
            &self.few[..self.len]
        } else {
            self.many.as_slice()
        }
    }

    /// Makes room for one more watch.
    pub(crate) fn make_room(&mut self) -> Result<(), NoMemory>
        ensures room { OnOk result (length self.new.watches < self.new.room) }
        ensures most { OnOk result (length self.new.watches < 2 ^ 62) }
        ensures watches { self.new.watches ≡ self.old.watches }
    {
        if self.len >= MOST_WATCHES {
            return Err(NoMemory);
        }
        if self.len == FEW {
            self.many.reserve(FEW + 1)?;
        } else if self.len > FEW {
            self.many.reserve(1)?;
        }
        Ok(())
    }

    /// Adds the last watch, for which there is room.
    pub(crate) fn add(&mut self, watch: Watch)
        requires { length self.old.watches < self.old.room }
        ensures { self.new.watches ≡ self.old.watches ++ watch ∷ [] }
    {
        if self.len < FEW {
            self.few[self.len] = watch;
        } else {
            if self.len == FEW {
                let _ = self.many.push(self.few[0]);
                let _ = self.many.push(self.few[1]);
            }
            let _ = self.many.push(watch);
        }
        self.len += 1;
    }
}
