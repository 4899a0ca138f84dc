// When connections to a cluster are made.
ghost use Rattle.std.specs.Prelude.{◌≡◌, ◌+◌, ◌-◌, ◌^◌, ◌&&◌, ◌<◌, ◌≤◌, IfSome, Some, is_some, max, min, nat_lt, not};
ghost use Rattle.mio_edge.specs.Dialers.{MayDial, failed, joined, later, new_dialer, postponed, rested};

use std::net::SocketAddr;

/// The first and the longest pause after a connection couldn't be made, in milliseconds.
const FIRST_PAUSE: u64 = 100;

const LONGEST_PAUSE: u64 = 5_000;

/// When connections to a cluster are made.
#[derive(Drop)]
pub(crate) struct Dialer {
    /// Where the cluster is. Without it no connection is made.
    pub address: Option<SocketAddr>,
    /// How many connections are to be ready.
    wanted: u32,
    /// How many are ready: live, and no client has them for itself.
    ready: u32,
    /// How many are being made.
    begun: u32,
    /// Whether the last connection couldn't be made.
    failing: bool,
    /// How long the last pause was, in milliseconds; 0 after a connection that a client got, that lived long, or that was ended here.
    pause: u64,
    /// Until when none is made.
    until: u64,
}

impl Dialer {
    pub fn new(address: Option<SocketAddr>, wanted: u32) -> Self
        ensures { result ≡ new_dialer address wanted }
    {
        Dialer {
            address,
            wanted,
            ready: 0,
            begun: 0,
            failing: false,
            pause: 0,
            until: 0,
        }
    }

    /// Where a connection is to be made now, if one is. Where it is urgent, and the cluster can be reached as far as is known,
    /// no pause is kept.
    pub fn to_dial(&self, now: u64, is_urgent: bool) -> Option<SocketAddr>
        ensures to { IfSome result (λ address. self.now.address ≡ Some address) }
        ensures may { IfSome result (λ _. MayDial now is_urgent self.now) }
    {
        if self.ready.saturating_add(self.begun) >= self.wanted {
            return None;
        }
        if now < self.until && (self.failing || !is_urgent) {
            return None;
        }
        self.address
    }

    /// Whether a connection is ready.
    pub fn is_ready(&self) -> bool
        ensures { result ≡ nat_lt 0 self.now.ready }
    {
        self.ready > 0
    }

    /// Whether a connection may be ready soon: the cluster can be reached as far as is known.
    pub fn is_hopeful(&self) -> bool
        ensures { result ≡ (is_some self.now.address && not self.now.failing) }
    {
        self.address.is_some() && !self.failing
    }

    pub fn begin(&mut self)
        ensures { self.new ≡ record self.old { begun = min (self.old.begun + 1) (2 ^ 32 - 1) } }
    {
        self.begun = self.begun.saturating_add(1);
    }

    /// A connection couldn't be made.
    pub fn fail(&mut self, now: u64)
        ensures { self.new ≡ failed now self.old }
    {
        self.begun = self.begun.saturating_sub(1);
        self.failing = true;
        self.rest(now);
    }

    /// A connection couldn't be begun or taken in, for want of something that isn't the cluster's.
    pub fn postpone(&mut self, now: u64)
        ensures { self.new ≡ postponed now self.old }
    {
        self.begun = self.begun.saturating_sub(1);
        self.until = now.saturating_add(FIRST_PAUSE);
    }

    /// A connection that was made is live.
    pub fn join(&mut self)
        ensures { self.new ≡ joined self.old }
    {
        self.begun = self.begun.saturating_sub(1);
        self.ready = self.ready.saturating_add(1);
        self.failing = false;
    }

    /// A client has a connection for itself.
    pub fn take(&mut self)
        ensures { self.new ≡ record self.old { ready = self.old.ready - 1; pause = 0 } }
    {
        self.ready = self.ready.saturating_sub(1);
        self.pause = 0;
    }

    /// A connection that was ready is lost. After one that didn't live long there is a pause.
    pub fn lose(&mut self, now: u64, since: u64)
        ensures soon { now < since + 5000 → self.new ≡ rested now (record self.old { ready = self.old.ready - 1 }) }
        ensures late { since + 5000 ≤ now → self.new ≡ record self.old { ready = self.old.ready - 1; pause = 0 } }
    {
        self.ready = self.ready.saturating_sub(1);
        if now.saturating_sub(since) < LONGEST_PAUSE {
            self.rest(now);
        } else {
            self.pause = 0;
        }
    }

    /// A connection that was ready was ended here: its cluster asked for that, or broke a rule. So it can be reached, and the next one
    /// is made at once, or 100 ms later where this one lived no longer than that.
    pub fn part(&mut self, now: u64, since: u64)
        ensures soon { now < since + 100 → self.new ≡ record self.old { ready = self.old.ready - 1; pause = 0; until = max self.old.until (later now 100) } }
        ensures late { since + 100 ≤ now → self.new ≡ record self.old { ready = self.old.ready - 1; pause = 0 } }
    {
        self.ready = self.ready.saturating_sub(1);
        self.pause = 0;
        if now.saturating_sub(since) < FIRST_PAUSE {
            self.until = self.until.max(now.saturating_add(FIRST_PAUSE));
        }
    }

    // Pauses, each time twice as long. Connections that fail together, or within a pause, make one pause.
    fn rest(&mut self, now: u64)
        ensures { self.new ≡ rested now self.old }
    {
        if now < self.until {
            return;
        }
        self.pause = self
            .pause
            .saturating_mul(2)
            .max(FIRST_PAUSE)
            .min(LONGEST_PAUSE);
        self.until = now.saturating_add(self.pause);
    }
}
