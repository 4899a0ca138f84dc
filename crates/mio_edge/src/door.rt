// The way in for clients.
ghost use Rattle.std.specs.Prelude.{◌≡◌, ◌&&◌, IfNone, IfSome, nat_le, nat_lt, true};
ghost use Rattle.mio_edge.specs.Doors.{Misses, SameDoor, may_wait, shut_until};

use crate::fault::tell_refused;
use crate::inlet::Inlet;
use mio::net::TcpStream;
use std::io::{Eprint, Error, ErrorKind};

/// How long no client is accepted after the system couldn't give one, in milliseconds.
const PAUSE: u64 = 100;

/// The way in for clients.
#[derive(Drop)]
pub struct Door<I: Inlet + Drop> {
    inlet: I,
    /// Whether a client may wait there.
    waits: bool,
    /// Until when none is accepted, in milliseconds.
    until: u64,
    /// Whether the system couldn't give one, and none was accepted since.
    is_refused: bool,
}

impl<I: Inlet + Drop> Door<I> {
    /// An inlet of which the poll tells.
    pub fn new(inlet: I) -> Self
        ensures waits { may_wait result ≡ true }
        ensures until { shut_until result ≡ 0 }
    {
        Door {
            inlet,
            waits: true,
            until: 0,
            is_refused: false,
        }
    }

    /// A client may wait.
    pub fn on_event(&mut self)
        ensures waits { may_wait self.new ≡ true }
        ensures until { shut_until self.new ≡ shut_until self.old }
    {
        self.waits = true;
    }

    /// Whether a client may wait that can be accepted now.
    pub fn is_due(&self, now: u64) -> bool
        ensures { result ≡ (may_wait self.now && nat_le (shut_until self.now) now) }
    {
        self.waits && self.until <= now
    }

    /// How many clients wait now, at most.
    pub fn look(&mut self) -> u64
        ensures waits { may_wait self.new ≡ (may_wait self.old && nat_lt 0 result) }
        ensures until { shut_until self.new ≡ shut_until self.old }
    {
        let clients = self.inlet.waiting();
        self.waits = self.waits && clients > 0;
        clients
    }

    /// A client that waits. Where the system has no file or no memory for it, none is accepted for a while, and no event is
    /// needed to go on then. That is told on standard error, once until one is accepted again.
    pub fn accept<R: Eprint>(&mut self, rt: &R, now: u64) -> Option<TcpStream>
        ensures some { IfSome result (λ _. SameDoor self.old self.new) }
        ensures none { IfNone result (Misses now self.old self.new) }
    {
        match self.inlet.accept() {
            Ok(stream) => {
                self.is_refused = false;
                Some(stream)
            }
            Err(error) => {
                self.missed(rt, &error, now);
                None
            }
        }
    }

    /// So many connections of clients are live.
    pub fn count(&mut self, clients: u32)
        ensures { SameDoor self.old self.new }
    {
        self.inlet.count(clients);
    }

    /// Whether nobody comes any more.
    pub fn is_over(&self) -> bool {
        self.inlet.is_over()
    }

    fn missed<R: Eprint>(&mut self, rt: &R, error: &Error, now: u64)
        ensures { Misses now self.old self.new }
    {
        match error.kind() {
            ErrorKind::WouldBlock => self.waits = false,
            ErrorKind::ConnectionAborted | ErrorKind::Interrupted => {}
            _ => {
                self.refused(rt, error);
                self.until = now.saturating_add(PAUSE);
            }
        }
    }

    // The system couldn't give a client. Of several such the first is told.
    fn refused<R: Eprint>(&mut self, rt: &R, error: &Error)
        ensures { SameDoor self.old self.new }
    {
        if !self.is_refused {
            self.is_refused = true;
            tell_refused(rt, error);
        }
    }
}
