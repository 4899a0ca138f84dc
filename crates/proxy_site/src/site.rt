// Where the connections of the proxy come from.

ghost use Rattle.std.specs.Prelude.{◌≡◌, ◌<◌, ◌≤◌, ◌⊎◌, Err, IfOk, OnErr, Option, length, ℕ};
ghost use Rattle.io_ports.specs.Faults.{Rose};
ghost use Rattle.proxy_site.specs.Sites.{IsUnused, TellsBack, TellsGiven, TellsListening, Told};
ghost use Rattle.proxy_site.specs.declared.site.SiteRefusal.TheVariants as refusal;

use io_ports::Octets;
use proxy_config::Config;
use relay_ports::{Journal, Taps};
use std::error::Error;
use std::fmt;

/// Why a site gives nothing.
#[derive(Clone, Copy, Debug, PartialEq, Eq)]
pub enum SiteRefusal {
    /// The outside failed.
    Failed,
    /// Out of memory.
    NoMemory,
}

impl fmt::Display for SiteRefusal {
    fn fmt<W: fmt::Write>(&self, f: &mut fmt::Formatter<W>) -> fmt::Result {
        f.write_str(match self {
            SiteRefusal::Failed => "the outside failed",
            SiteRefusal::NoMemory => "out of memory",
        })
    }
}

impl Error for SiteRefusal {}

/// The outside of the proxy: it listens, and gives what a relay runs over.
pub trait Site {
    /// The connections of a relay.
    type T: Taps;

    /// Where the lines of a relay's events go.
    type J: Journal;

    /// How often a call failed. The count ends at 2^64 - 1.
    ghost faults: { Self → ℕ };

    /// Where it listens, what it gave to relays and what came back, where this is told.
    ghost told: { Self → Option (Told Self.T Self.J) };

    /// Listens at an address with a port, and answers the one that is in use. After a refusal the site tells no more than
    /// before.
    fn listen(&mut self, at: &Octets) -> Result<Octets, SiteRefusal>
        ensures told { IfOk result (λ used. TellsListening (told self.old) (at.now, used) (told self.new)) }
        ensures err { OnErr result (told self.new ≡ told self.old) }
        ensures no_fall { faults self.old ≤ faults self.new }
        ensures cause { result ≡ Err refusal.Failed → Rose (faults self.old) (faults self.new) };

    /// What a relay runs over: connections to the configuration's clusters that nobody has used, and its journal. None of the
    /// two has failed.
    fn fit_taps(&mut self, config: &Config) -> Result<(Self::T, Self::J), SiteRefusal>
        ensures unused { IfOk result (λ given. IsUnused (length config.now.clusters) (Self.T.seen given.0)) }
        ensures well { IfOk result (λ given. (Self.T.faults given.0 ≡ 0) × (Self.J.faults given.1 ≡ 0)) }
        ensures told { IfOk result (λ given. TellsGiven (told self.old) given (told self.new)) }
        ensures err { OnErr result (told self.new ≡ told self.old) }
        ensures no_fall { faults self.old ≤ faults self.new }
        ensures cause { result ≡ Err refusal.Failed → Rose (faults self.old) (faults self.new) };

    /// Takes back what a relay ran over. Where the one or the other has failed, that counts as a failure of the site.
    fn give_back_taps(&mut self, taps: Self::T, journal: Self::J)
        ensures told { TellsBack (told self.old) (taps, journal) (told self.new) }
        ensures count { (0 < Self.T.faults taps) ⊎ (0 < Self.J.faults journal) → Rose (faults self.old) (faults self.new) }
        ensures no_fall { faults self.old ≤ faults self.new };
}
