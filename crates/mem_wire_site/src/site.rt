// A site in memory for workers, and for relays too.
ghost use Rattle.std.specs.Prelude.{[], ◌∷◌, ◌-◌, ◌≡◌, ◌≤◌, IfOk, IfSome, OnErr, Some, length, slice_get};
ghost use Rattle.io_ports.specs.Faults.{Rose};
ghost use Rattle.io_ports.specs.Memory.{counted, is_to_fail};
ghost use Rattle.mem_wire_site.specs.Memory.{IsNewWireSite, fit_of, given_at, wired_of};
ghost use Rattle.proxy_site.specs.Memory.{told_of};
ghost use Rattle.proxy_site.specs.Sites.{IsUnused, TellsListening};
ghost use Rattle.proxy_site.specs.declared.site.SiteRefusal.TheVariants as refusals;
ghost use Rattle.proxy_site.specs.WireSites.{with_fitted};
ghost use Rattle.relay_ports.specs.Memory.{seen_of};

use crate::journal::PlayJournal;
use crate::play::{Given, WorkerPlay};
use crate::signs::Signs;
use crate::wires::PlayWires;
use io_ports::{Failed, NoMemory, Octets};
use mem_ports::MemClock;
use proxy_config::Config;
use proxy_site::{MemJournal, MemSite, Site, SiteRefusal, WireSite};
use relay_ports::MemTaps;
use std::alloc::Global;
use std::sync::Arc;
use std::thread;

/// A site in memory. It gives each worker what its play says, as often as it is asked, and keeps what it gave and what came back.
/// It listens, and gives to relays, as the site in memory of relays does.
#[derive(Drop)]
pub struct MemWireSite {
    alloc: Global,
    relay: MemSite,
    /// What it gives to workers, in the order of their numbers.
    plays: Vec<WorkerPlay>,
    /// The numbers of the workers that it refuses.
    unfit: Vec<u32>,
    signs: Arc<Signs, Global>,
    /// What it gave, behind the number of the worker.
    fitted: Vec<(u32, Given)>,
    /// What came back, behind the number of the worker.
    returned: Vec<(u32, (PlayWires, PlayJournal))>,
    /// Whether something came back that couldn't be kept.
    lost: bool,
    rounds: u64,
    /// The numbers of the rounds that fail.
    failing: Vec<u64>,
    /// Whether no client was to be accepted in a round.
    shut: bool,
    faults: u64,
}

impl MemWireSite {
    /// A site that listens and gives to relays as this one does, and gives workers what these plays say, the first to worker 1.
    /// It refuses the workers whose numbers are in `unfit`, and one for which there is no play. The rounds whose numbers, counted
    /// from 0, are in `failing` fail.
    pub fn new(
        alloc: Global,
        relay: MemSite,
        plays: Vec<WorkerPlay>,
        unfit: Vec<u32>,
        failing: Vec<u64>,
    ) -> Result<Self, NoMemory>
        ensures { IfOk result (λ site. IsNewWireSite site relay plays.items unfit.items failing.items) }
    {
        let signs = Arc::new(alloc, Signs::new())?;
        Ok(MemWireSite {
            alloc,
            relay,
            plays,
            unfit,
            signs,
            fitted: Vec::new(alloc),
            returned: Vec::new(alloc),
            lost: false,
            rounds: 0,
            failing,
            shut: false,
            faults: 0,
        })
    }

    /// Where it was to listen, and what came back of relays.
    pub fn relay(&self) -> &MemSite
        ensures { result.now ≡ self.now.relay }
    {
        &self.relay
    }

    /// What came back of workers, behind their numbers, in order.
    pub fn returned(&self) -> &[(u32, (PlayWires, PlayJournal))]
        ensures { result.now ≡ self.now.returned.items }
    {
        self.returned.as_slice()
    }

    /// Whether no client was to be accepted in some round.
    pub fn was_shut(&self) -> bool
        ensures { result ≡ self.now.shut }
    {
        self.shut
    }

    /// How many calls failed, and how often what came back had failed.
    pub fn faults(&self) -> u64
        ensures { result ≡ self.now.faults }
    {
        self.faults
    }

    // A call fails, or what comes back has failed.
    fn fault(&mut self)
        ensures rose { Rose self.old.faults self.new.faults }
        ensures no_fall { self.old.faults ≤ self.new.faults }
        ensures same { self.new ≡ record self.old { faults = self.new.faults } }
    {
        self.faults = self.faults.saturating_add(1);
    }

    // A call is refused. Running out of memory is no failure.
    fn refuse(&mut self, refusal: SiteRefusal) -> SiteRefusal
        ensures is { result ≡ refusal }
        ensures rose { refusal ≡ refusals.Failed → Rose self.old.faults self.new.faults }
        ensures no_fall { self.old.faults ≤ self.new.faults }
        ensures same { self.new ≡ record self.old { faults = self.new.faults } }
    {
        match refusal {
            SiteRefusal::Failed => self.fault(),
            SiteRefusal::NoMemory => {}
        }
        refusal
    }

    // Listens at an address, as the site of relays does.
    fn listen_for(&mut self, at: &Octets) -> Result<Octets, SiteRefusal>
        ensures told { IfOk result (λ used. TellsListening (told_of self.old.relay) (at.now, used) (told_of self.new.relay)) }
        ensures err { OnErr result (told_of self.new.relay ≡ told_of self.old.relay) }
        ensures same { self.new ≡ record self.old { relay = self.new.relay } }
    {
        self.relay.listen(at)
    }
}

impl MemWireSite {
    // The play of a worker, unless it is refused.
    #[tactic(auto, using(crate::proofs::Playing::lent_there))]
    fn play_of(&self, worker: u32) -> Option<&WorkerPlay>
        ensures { IfSome result (λ play. slice_get self.now.plays.items (worker - 1) ≡ Some play.now) }
    {
        if worker == 0 || self.unfit.contains(&worker) {
            return None;
        }
        self.plays.get(worker as usize - 1)
    }

    // What a worker is given. The same is kept, since what it is given changes.
    fn fit_worker(&mut self, worker: u32, config: &Config) -> Result<Given, SiteRefusal>
        ensures is { IfOk result (λ given. given_at self.old.plays.items worker (length config.now.clusters) ≡ Some given) }
        ensures unused { IfOk result (λ given. IsUnused (length config.now.clusters) (seen_of given.0)) }
        ensures well { IfOk result (λ given. (given.0.faults ≡ 0) × (given.1.1.faults ≡ 0)) }
        ensures wired { IfOk result (λ given. wired_of self.new ≡ with_fitted ((worker, given) ∷ []) (wired_of self.old)) }
        ensures err { OnErr result (wired_of self.new ≡ wired_of self.old) }
        ensures same { self.new ≡ record self.old { fitted = self.new.fitted } }
    {
        let Ok(clusters) = u32::try_from(config.clusters.as_slice().len()) else {
            return Err(SiteRefusal::NoMemory);
        };
        if self.fitted.reserve(1).is_err() {
            return Err(SiteRefusal::NoMemory);
        }
        let Some(play) = self.play_of(worker) else {
            return Err(SiteRefusal::Failed);
        };
        let Ok((given, kept)) = give_twice(self.alloc, clusters, play, &self.signs) else {
            return Err(SiteRefusal::NoMemory);
        };
        self.fitted.push_reserved((worker, kept));
        Ok(given)
    }

    // Counts a round, and answers whether it is to fail.
    fn is_to_fail(&mut self) -> bool
        ensures fails { result ≡ is_to_fail self.old.failing.items self.old.rounds }
        ensures counts { self.new ≡ record self.old { rounds = counted self.old.rounds } }
    {
        let round = self.rounds;
        self.rounds = self.rounds.saturating_add(1);
        self.failing.contains(&round)
    }
}

// What a play gives, with connections to so many clusters, and the same once more.
fn give_twice(
    alloc: Global,
    clusters: u32,
    play: &WorkerPlay,
    signs: &Arc<Signs, Global>,
) -> Result<(Given, Given), NoMemory>
    ensures { IfOk result (λ made. (made.0 ≡ fit_of clusters play.now) × (made.1 ≡ fit_of clusters play.now)) }
{
    let given = play.give(alloc, clusters, signs)?;
    let kept = play.give(alloc, clusters, signs)?;
    Ok((given, kept))
}

impl Site for MemWireSite {
    ghost use Rattle.proxy_site.specs.Memory.{told_of};

    type T = MemTaps;

    type J = MemJournal;

    ghost faults = { λ site. site.faults };

    ghost told = { λ site. told_of site.relay };

    fn listen(&mut self, at: &Octets) -> Result<Octets, SiteRefusal> {
        match self.listen_for(at) {
            Ok(used) => Ok(used),
            Err(refusal) => Err(self.refuse(refusal)),
        }
    }

    fn fit_taps(&mut self, config: &Config) -> Result<(MemTaps, MemJournal), SiteRefusal> {
        match self.relay.fit_taps(config) {
            Ok(given) => Ok(given),
            Err(refusal) => Err(self.refuse(refusal)),
        }
    }

    fn give_back_taps(&mut self, taps: MemTaps, journal: MemJournal) {
        let has_failed = taps.faults() > 0 || journal.faults() > 0;
        self.relay.give_back_taps(taps, journal);
        if has_failed {
            self.fault();
        }
    }
}

impl WireSite for MemWireSite {
    ghost use Rattle.mem_wire_site.specs.Memory.{wired_of};

    type W = PlayWires;

    type C = MemClock;

    type L = PlayJournal;

    ghost wired = { wired_of };

    fn listen_for_workers(&mut self, at: &Octets) -> Result<Octets, SiteRefusal> {
        match self.listen_for(at) {
            Ok(used) => Ok(used),
            Err(refusal) => Err(self.refuse(refusal)),
        }
    }

    fn fit(
        &mut self,
        worker: u32,
        config: &Config,
    ) -> Result<(PlayWires, MemClock, PlayJournal), SiteRefusal> {
        match self.fit_worker(worker, config) {
            Ok((wires, (clock, journal))) => Ok((wires, clock, journal)),
            Err(refusal) => Err(self.refuse(refusal)),
        }
    }

    // Nobody comes in memory but by the plays. Where it isn't to fail, another thread may run meanwhile.
    fn round(&mut self, accept: bool) -> Result<(), Failed> {
        self.shut |= !accept;
        if self.is_to_fail() {
            self.signs.stop();
            self.fault();
            return Err(Failed);
        }
        self.signs.begin();
        thread::yield_now();
        Ok(())
    }

    fn stop(&mut self) {
        self.signs.stop();
    }

    fn give_back(&mut self, worker: u32, wires: PlayWires, journal: PlayJournal) {
        if wires.faults() > 0 || journal.faults() > 0 {
            self.fault();
        }
        if self.returned.push((worker, (wires, journal))).is_err() {
            self.lost = true;
        }
    }
}
