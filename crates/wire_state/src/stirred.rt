// The connections at which a dispatch changed anything.
ghost use Rattle.number_set.specs.NumberSet.{has};
ghost use Rattle.std.specs.Prelude.{◌≡◌, ◌≤◌, ◌<◌, ◌+◌, IfSome, length};
ghost use Rattle.wire_state.specs.Agenda.{stirred_at};

use crate::recent::Recent;
use io_ports::NoMemory;
use number_set::NumberSet;
use std::alloc::Global;

/// The connections at which this dispatch changed anything, in the order of their numbers. They are few, and looked at often.
#[derive(Drop)]
pub struct Stirred {
    pub conns: NumberSet,
    /// Those of them that a tick hasn't looked at, and perhaps others.
    pub fresh: Vec<u32>,
    /// Some that were looked at: nothing could be framed there, they weren't draining, and nothing has changed there since.
    calm: Recent,
    /// Some of the set that aren't calm.
    busy: Recent,
}

impl Stirred {
    /// None. Takes no memory.
    pub fn new(alloc: Global) -> Self {
        Stirred {
            conns: NumberSet::new(alloc),
            fresh: Vec::new(alloc),
            calm: Recent::none(),
            busy: Recent::none(),
        }
    }

    /// Something changed at a connection.
    #[inline(always)]
    pub fn add(&mut self, conn: u32) -> Result<(), NoMemory>
        ensures { length self.new.conns.items ≤ length self.old.conns.items + 1 }
    {
        if self.busy.has(u64::from(conn)) {
            return Ok(());
        }
        self.put(conn)?;
        self.calm.remove(conn);
        self.busy.add(conn);
        Ok(())
    }

    /// Something changed at a connection that isn't draining, by which nothing more can be framed there, and at which nothing
    /// could be before.
    #[inline(always)]
    pub fn add_calm(&mut self, conn: u32) -> Result<(), NoMemory>
        ensures { length self.new.conns.items ≤ length self.old.conns.items + 1 }
    {
        self.put(conn)?;
        self.calm.add(conn);
        Ok(())
    }

    // The connection is in the set from now on.
    #[inline(never)]
    fn put(&mut self, conn: u32) -> Result<(), NoMemory>
        ensures { length self.new.conns.items ≤ length self.old.conns.items + 1 }
    {
        if self.has(conn) {
            return Ok(());
        }
        self.conns.reserve_one()?;
        self.conns.insert(u64::from(conn));
        self.fresh.push(conn)?;
        Ok(())
    }

    /// Whether nothing is to be done at a connection: it was looked at, and nothing has changed there since.
    #[inline(always)]
    pub fn is_calm(&self, conn: u32) -> bool {
        self.calm.has(u64::from(conn))
    }

    /// Whether nothing is to be done at any of them: they are at most two, and calm. Where it is false there may be nothing
    /// either.
    #[inline(always)]
    pub fn are_calm(&self) -> bool {
        match (self.conns.first(), self.conns.last()) {
            (Some(first), Some(last)) => {
                self.conns.len() <= 2 && self.calm.has(first) && self.calm.has(last)
            }
            _ => true,
        }
    }

    /// A connection was looked at that isn't draining, and at which nothing can be framed.
    #[inline(always)]
    pub fn calm_down(&mut self, conn: u32)
        ensures { length self.new.conns.items ≡ length self.old.conns.items }
    {
        self.calm.add(conn);
        self.busy.remove(conn);
    }

    /// A connection may have something to frame from now on.
    #[inline(always)]
    pub fn rouse(&mut self, conn: u32)
        ensures { length self.new.conns.items ≡ length self.old.conns.items }
    {
        self.calm.remove(conn);
    }

    /// Whether the dispatch changed anything at a connection.
    #[inline(always)]
    pub fn has(&self, conn: u32) -> bool
        ensures { result ≡ has self.now.conns.items conn }
    {
        self.conns.contains(u64::from(conn))
    }

    /// The first from a number on.
    pub fn first_from(&self, from: u32) -> Option<u32>
        ensures { IfSome result (λ c. from ≤ c) }
    {
        let first = match from.checked_sub(1) {
            Some(before) => self.conns.next_above(u64::from(before)),
            None => self.conns.first(),
        };
        match u32::try_from(first?) {
            Ok(conn) if conn >= from => Some(conn),
            _ => None,
        }
    }

    /// A connection is left out from now on.
    pub fn remove(&mut self, conn: u32)
        ensures { length self.new.conns.items + stirred_at conn self.old.conns.items ≡ length self.old.conns.items }
    {
        self.conns.remove(u64::from(conn));
        self.busy.remove(conn);
    }

    /// Takes out the last.
    pub fn take_last(&mut self) -> Option<u32>
        ensures { IfSome result (λ c. length self.new.conns.items < length self.old.conns.items) }
    {
        self.fresh.clear();
        self.calm = Recent::none();
        self.busy = Recent::none();
        let last = self.conns.pop_last()?;
        u32::try_from(last).ok()
    }
}
