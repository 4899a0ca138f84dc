// Which exchanges may have a unit for a connection.
use crate::units::NextUnit;
use exchange_core::Unit;
use io_ports::NoMemory;
use number_set::NumberSet;
use std::alloc::Global;

/// The exchanges that may have a unit for a connection: `free` those whose unit needs no window (a head, trailers, or an
/// empty frame for the end), `body` those with octets that fit into their stream's window. What the unit is, the exchange is
/// asked when it is framed. `held` are those without a unit whose stream's window is used up: once it has room they may have one.
#[derive(Drop)]
pub struct Ready {
    free: NumberSet,
    body: NumberSet,
    held: NumberSet,
}

impl Ready {
    /// None. Takes no memory.
    pub fn new(alloc: Global) -> Self {
        Ready {
            free: NumberSet::new(alloc),
            body: NumberSet::new(alloc),
            held: NumberSet::new(alloc),
        }
    }

    /// From now on this is what goes next of the exchange, whose stream's window has this room.
    #[inline(always)]
    pub fn set(&mut self, exchange: u64, unit: Unit, room: i64) -> Result<(), NoMemory> {
        match unit {
            Unit::Nothing if room > 0 => self.remove(exchange),
            Unit::Nothing => self.hold(exchange)?,
            Unit::Body { n, .. } if n > 0 => {
                self.free.remove(exchange);
                self.held.remove(exchange);
                insert(&mut self.body, exchange)?;
            }
            _ => {
                self.body.remove(exchange);
                self.held.remove(exchange);
                insert(&mut self.free, exchange)?;
            }
        }
        Ok(())
    }

    // The exchange has no unit until its stream's window has room.
    fn hold(&mut self, exchange: u64) -> Result<(), NoMemory> {
        self.free.remove(exchange);
        self.body.remove(exchange);
        insert(&mut self.held, exchange)
    }

    /// The exchange has no unit any more.
    #[inline(always)]
    pub fn remove(&mut self, exchange: u64) {
        self.free.remove(exchange);
        self.body.remove(exchange);
        self.held.remove(exchange);
    }

    /// The exchanges whose units may be others once the windows of all streams have changed: those that are held where the
    /// windows grew, and those with octets where they shrank.
    pub(crate) fn windowed(&self, grew: bool) -> &NumberSet {
        if grew { &self.held } else { &self.body }
    }

    /// The unit that goes next after that of an exchange, in rotation, where the connection's window has this room.
    #[inline(always)]
    pub fn next(&self, after: u64, room: i64) -> Option<NextUnit> {
        // Most connections that are looked at have none.
        if self.free.len() == 0 && self.body.len() == 0 {
            return None;
        }
        match self.least(after, room) {
            Some(unit) => Some(unit),
            None => self.least(0, room),
        }
    }

    // The unit of the least exchange above a number that has one for which there is room.
    #[inline(always)]
    fn least(&self, after: u64, room: i64) -> Option<NextUnit> {
        let free = self.free.next_above(after);
        if room > 0
            && let Some(body) = self.body.next_above(after)
        {
            return Some(lesser(free, body));
        }
        match free {
            Some(exchange) => Some(NextUnit::Flow(exchange)),
            None => None,
        }
    }
}

// Of an exchange whose unit needs no window, if there is one, and one with octets, the unit of the lesser.
#[inline(always)]
fn lesser(free: Option<u64>, body: u64) -> NextUnit {
    match free {
        Some(free) if free < body => NextUnit::Flow(free),
        _ => NextUnit::Body(body),
    }
}

fn insert(exchanges: &mut NumberSet, exchange: u64) -> Result<(), NoMemory> {
    exchanges.reserve_one()?;
    exchanges.insert(exchange);
    Ok(())
}
