// What the sockets are to be.
ghost use Rattle.std.specs.Net.Grammar.{IsSocketText};
ghost use Rattle.std.specs.Prelude.{◌≡◌, ◌-◌, ◌^◌, IfNone, IfSome, min};
ghost use Rattle.mio_edge.specs.Plans.{SpellsNone, files_of, patience_of};

use crate::parting::MOST_PARTINGS;
use libc::RLIMIT_NOFILE;
use libc::types::rlimit;
use std::net::SocketAddr;

/// How many files are open beside the connections: standard streams, a journal, the listener and the poll.
const OTHER_FILES: u64 = 16;

/// For how long it is borne that a connection takes nothing of what waits for it, in milliseconds.
const LONGEST_STALL: u64 = 60_000;

/// What clients have of the connections to clusters.
#[derive(Clone, Copy, PartialEq, Eq)]
pub enum Sharing {
    /// Each client has one for itself.
    OneEach,
    /// All clients share all.
    All,
}

/// A cluster to which connections are made.
#[derive(Drop)]
pub struct Target {
    /// What it is called where it is told of, as `cluster web`.
    pub name: String,
    /// Without an address none is made.
    pub address: Option<SocketAddr>,
}

/// What the sockets are to be.
#[derive(Drop)]
pub struct Plan {
    /// The clusters, in their order.
    pub clusters: Vec<Target>,
    pub sharing: Sharing,
    /// How many connections to each cluster are kept ready.
    pub ready: u32,
    /// How many clients there are at most at once.
    pub clients: u32,
}

impl Plan {
    /// For how long it is borne that a connection takes nothing of what waits for it, in milliseconds. Where each client has a
    /// connection for itself it is borne for ever.
    pub(crate) fn patience(&self) -> Option<u64>
        ensures { result ≡ patience_of self.now.sharing }
    {
        match self.sharing {
            Sharing::OneEach => None,
            Sharing::All => Some(LONGEST_STALL),
        }
    }

    /// How many files may be open at once. The number ends at 2^64 - 1.
    pub fn most_files(&self) -> u64
        ensures { result ≡ min (files_of self.now) (2 ^ 64 - 1) }
    {
        let ready = u64::from(self.ready).saturating_mul(self.clusters.len() as u64);
        let each = match self.sharing {
            Sharing::OneEach => 2,
            Sharing::All => 1,
        };
        u64::from(self.clients)
            .saturating_mul(each)
            .saturating_add(ready)
            .saturating_add(MOST_PARTINGS as u64)
            .saturating_add(OTHER_FILES)
    }
}

/// The address and port that a text spells, as `127.0.0.1:8080` or `[::1]:8080`, if it spells one. Names aren't looked up.
pub fn read_address(text: &[u8]) -> Option<SocketAddr>
    ensures some { IfSome result (IsSocketText text.now) }
    ensures none { IfNone result (SpellsNone text.now) }
{
    SocketAddr::parse_ascii(text).ok()
}

/// How many files the process may have open at once, sockets among them, where the system tells it.
pub fn open_files() -> Option<u64> {
    let mut limit = rlimit {
        rlim_cur: 0,
        rlim_max: 0,
    };
    if libc::getrlimit(RLIMIT_NOFILE, &mut limit) == 0 {
        Some(limit.rlim_cur)
    } else {
        None
    }
}
