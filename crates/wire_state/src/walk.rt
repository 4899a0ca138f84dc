// The exchanges that a tick goes through.
ghost use Rattle.std.specs.Prelude.{◌<◌, IfOk, IfSome};

use io_ports::NoMemory;
use std::alloc::Global;
use std::collections::BTreeSet;
use wire_links::Links;

/// The exchanges of the connections that were changed, in the order of their numbers: each connection stands with the least of
/// its exchanges that the tick hasn't come to.
#[derive(Drop)]
pub struct Walk {
    fronts: BTreeSet<(u64, u32)>,
}

impl Walk {
    /// No connections. Takes no memory.
    pub fn new(alloc: Global) -> Self {
        Walk {
            fronts: BTreeSet::new(alloc),
        }
    }

    /// The exchanges of a connection above `after` are gone through too.
    pub fn add(&mut self, links: &Links, conn: u32, after: u64) -> Result<(), NoMemory> {
        if let Some(exchange) = links.next_of(conn, after) {
            self.fronts.insert((exchange, conn))?;
        }
        Ok(())
    }

    /// The least exchange above `after`, once those up to it are passed over.
    pub fn next(&mut self, links: &Links, after: u64) -> Result<Option<u64>, NoMemory>
        ensures { IfOk result (λ next. IfSome next (λ x. after < x)) }
    {
        for _front in 0..self.fronts.len() {
            match self.fronts.first().copied() {
                Some((exchange, conn)) if exchange <= after => self.pass(links, conn, after)?,
                _ => break,
            }
        }
        match self.fronts.first().copied() {
            Some((exchange, _)) if exchange > after => Ok(Some(exchange)),
            _ => Ok(None),
        }
    }

    // The exchange that stands first, which is the connection's, is passed over.
    fn pass(&mut self, links: &Links, conn: u32, after: u64) -> Result<(), NoMemory> {
        let _ = self.fronts.pop_first();
        self.add(links, conn, after)
    }

    /// Nothing more is gone through.
    pub fn clear(&mut self) {
        self.fronts.clear();
    }
}
