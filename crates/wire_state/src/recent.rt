// Two connections that are remembered.

/// What stands where none is remembered: the number of no connection.
const NONE: u64 = u64::MAX;

/// The last two connections of which something was found, by their numbers, so that it need not be found again.
#[derive(Clone, Copy)]
pub(crate) struct Recent {
    last: u64,
    before: u64,
}

impl Recent {
    /// None.
    pub(crate) fn none() -> Self {
        Recent {
            last: NONE,
            before: NONE,
        }
    }

    /// Whether the connection is one of them.
    #[inline(always)]
    pub(crate) fn has(&self, conn: u64) -> bool {
        self.last == conn || self.before == conn
    }

    /// It was found of this connection too.
    #[inline(always)]
    pub(crate) fn add(&mut self, conn: u32) {
        self.before = self.last;
        self.last = u64::from(conn);
    }

    /// It isn't so of the connection any more.
    #[inline(always)]
    pub(crate) fn remove(&mut self, conn: u32) {
        if self.last == u64::from(conn) {
            self.last = NONE;
        }
        if self.before == u64::from(conn) {
            self.before = NONE;
        }
    }
}
