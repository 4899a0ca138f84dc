// Where the workers' connections come from.
ghost use Rattle.std.specs.Prelude.{[], ◌∷◌, ◌≡◌, ◌<◌, ◌≤◌, ◌⊎◌, Err, IfOk, OnErr, Option, length};
ghost use Rattle.io_ports.specs.Faults.{FailsByFault, Rose};
ghost use Rattle.proxy_site.specs.Sites.{IsUnused, TellsListening};
ghost use Rattle.proxy_site.specs.declared.site.SiteRefusal.TheVariants as refusal;
ghost use Rattle.proxy_site.specs.WireSites.{TellsFitted, TellsReturned, WireTold};

use crate::site::{Site, SiteRefusal};
use io_ports::{Failed, Octets};
use proxy_config::Config;
use worker_parts::Journal;
use worker_ports::{Clock, Wires};

/// The outside of the proxy of HTTP/2: it listens, gives each worker what it works over, and hands clients to the workers.
pub trait WireSite: Site {
    /// The connections of a worker.
    type W: Wires + Drop;

    type C: Clock + Drop;

    /// Where the lines of a worker's events go.
    type L: Journal + Drop;

    /// What it gave to workers and what came back, where this is told.
    ghost wired: { Self → Option (WireTold Self.W Self.C Self.L) };

    /// Listens at an address with a port, as `listen` does, and answers the one that is in use. Nothing is given to a worker by
    /// it. After a refusal the site tells no more than before.
    fn listen_for_workers(&mut self, at: &Octets) -> Result<Octets, SiteRefusal>
        ensures told { IfOk result (λ used. TellsListening (Self.told self.old) (at.now, used) (Self.told self.new)) }
        ensures err { OnErr result (Self.told self.new ≡ Self.told self.old) }
        ensures wired { wired self.new ≡ wired self.old }
        ensures no_fall { Self.faults self.old ≤ Self.faults self.new }
        ensures cause { result ≡ Err refusal.Failed → Rose (Self.faults self.old) (Self.faults self.new) };

    /// What a worker, counted from 1, works over: connections to the configuration's clusters that nobody has used, a clock, and its
    /// journal. Neither the connections nor the journal have failed.
    fn fit(
        &mut self,
        worker: u32,
        config: &Config,
    ) -> Result<(Self::W, Self::C, Self::L), SiteRefusal>
        ensures unused { IfOk result (λ given. IsUnused (length config.now.clusters) (Self.W.seen given.0)) }
        ensures well { IfOk result (λ given. (Self.W.faults given.0 ≡ 0) × (Self.L.faults given.2 ≡ 0)) }
        ensures wired { IfOk result (λ given. TellsFitted (wired self.old) ((worker, (given.0, (given.1, given.2))) ∷ []) (wired self.new)) }
        ensures err { OnErr result (wired self.new ≡ wired self.old) }
        ensures told { Self.told self.new ≡ Self.told self.old }
        ensures no_fall { Self.faults self.old ≤ Self.faults self.new }
        ensures cause { result ≡ Err refusal.Failed → Rose (Self.faults self.old) (Self.faults self.new) };

    /// Waits at most a tenth of a second, and hands the clients that came to the workers in turn, if any are to be accepted.
    fn round(&mut self, accept: bool) -> Result<(), Failed>
        ensures wired { wired self.new ≡ wired self.old }
        ensures told { Self.told self.new ≡ Self.told self.old }
        ensures cause { FailsByFault (Self.faults self.old) (Self.faults self.new) result };

    /// From now on the connections of the workers tell them to stop. No round is made behind it.
    fn stop(&mut self)
        ensures wired { wired self.new ≡ wired self.old }
        ensures told { Self.told self.new ≡ Self.told self.old }
        ensures no_fall { Self.faults self.old ≤ Self.faults self.new };

    /// Takes back what a worker worked over. Where the one or the other has failed, that counts as a failure of the site.
    fn give_back(&mut self, worker: u32, wires: Self::W, journal: Self::L)
        ensures wired { TellsReturned (wired self.old) ((worker, (wires, journal)) ∷ []) (wired self.new) }
        ensures told { Self.told self.new ≡ Self.told self.old }
        ensures count { (0 < Self.W.faults wires) ⊎ (0 < Self.L.faults journal) → Rose (Self.faults self.old) (Self.faults self.new) }
        ensures no_fall { Self.faults self.old ≤ Self.faults self.new };
}
