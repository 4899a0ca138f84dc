// A cluster, and the connections that are made to it.
ghost use Rattle.std.specs.Prelude.{◌≡◌, ◌⊎◌, ◌&&◌, IfOk, false, is_some, nat_lt, not, true};
ghost use Rattle.mio_edge.specs.Dialers.{failed, joined, new_dialer, postponed};

use crate::dialer::Dialer;
use crate::fault::{tell_reached, tell_unreachable};
use crate::plan::Target;
use std::alloc::{AllocError, Global};
use std::io::{Eprint, Error, ErrorKind};

/// A cluster, and when connections to it are made.
#[derive(Drop)]
pub(crate) struct Upstream {
    name: String,
    pub dialer: Dialer,
    /// Whether a connection couldn't be made, and none was since.
    is_away: bool,
}

impl Upstream {
    /// A cluster to which so many connections are to be ready.
    pub fn new(alloc: Global, target: &Target, wanted: u32) -> Result<Self, AllocError>
        ensures dialer { IfOk result (λ made. made.dialer ≡ new_dialer target.now.address wanted) }
        ensures away { IfOk result (λ made. made.is_away ≡ false) }
    {
        Ok(Upstream {
            name: String::from_str(alloc, target.name.as_str())?,
            dialer: Dialer::new(target.address, wanted),
            is_away: false,
        })
    }

    /// Whether a connection is ready.
    pub fn is_ready(&self) -> bool
        ensures { result ≡ nat_lt 0 self.now.dialer.ready }
    {
        self.dialer.is_ready()
    }

    /// Whether one may be ready soon.
    pub fn is_hopeful(&self) -> bool
        ensures { result ≡ (is_some self.now.dialer.address && not self.now.dialer.failing) }
    {
        self.dialer.is_hopeful()
    }

    /// A connection couldn't be made, which the cluster or the network tells.
    pub fn fail<R: Eprint>(&mut self, rt: &R, error: &Error, now: u64)
        ensures dialer { self.new.dialer ≡ failed now self.old.dialer }
        ensures away { self.new.is_away ≡ true }
    {
        self.tell(rt, error);
        self.dialer.fail(now);
    }

    /// A connection couldn't be begun, for want of something here or since the cluster can't be reached.
    pub fn refuse<R: Eprint>(&mut self, rt: &R, error: &Error, now: u64)
        ensures dialer { (self.new.dialer ≡ failed now self.old.dialer) ⊎ (self.new.dialer ≡ postponed now self.old.dialer) }
        ensures away { self.new.is_away ≡ true }
    {
        self.tell(rt, error);
        if is_ours(error.kind()) {
            self.dialer.postpone(now);
        } else {
            self.dialer.fail(now);
        }
    }

    // Why a connection couldn't be made is told once until one is.
    fn tell<R: Eprint>(&mut self, rt: &R, error: &Error)
        ensures dialer { self.new.dialer ≡ self.old.dialer }
        ensures away { self.new.is_away ≡ true }
    {
        if !self.is_away {
            self.is_away = true;
            tell_unreachable(rt, self.name.as_str(), error);
        }
    }

    /// A connection that was made is live.
    pub fn join<R: Eprint>(&mut self, rt: &R)
        ensures dialer { self.new.dialer ≡ joined self.old.dialer }
        ensures away { self.new.is_away ≡ false }
    {
        if self.is_away {
            self.is_away = false;
            tell_reached(rt, self.name.as_str());
        }
        self.dialer.join();
    }
}

// Whether an error tells that files, memory or ports are wanting here.
fn is_ours(kind: ErrorKind) -> bool {
    matches!(
        kind,
        ErrorKind::Uncategorized | ErrorKind::OutOfMemory | ErrorKind::AddrNotAvailable
    )
}
