// A site in memory.
ghost use Rattle.std.specs.Prelude.{◌≡◌, ◌≤◌, IfOk, OnErr};
ghost use Rattle.io_ports.specs.Faults.{Rose};
ghost use Rattle.io_ports.specs.Memory.{counted, is_to_fail};
ghost use Rattle.proxy_site.specs.Memory.{IsNewSite, fit_of, told_of};
ghost use Rattle.proxy_site.specs.Sites.{TellsListening};

use crate::mem_journal::MemJournal;
use crate::site::{Site, SiteRefusal};
use io_ports::{MemSink, NoMemory, Octets};
use mem_ports::Room;
use proxy_config::Config;
use relay_ports::MemTaps;
use std::alloc::Global;
use std::collections::VecDeque;
use worker_ports::Wired;

/// What a site in memory gives to a relay.
#[derive(Drop)]
pub struct RelayPlay {
    /// What the connections give.
    pub answers: Vec<Wired>,
    /// For how many offers between two answers their record has room.
    pub room: Room,
    /// The numbers of their calls that fail.
    pub failing: Vec<u64>,
    /// For how many octets the journal has room.
    pub journal_room: usize,
    /// The numbers of the journal's writes that fail.
    pub journal_failing: Vec<u64>,
}

/// A site in memory. It listens at an address that it was given, gives connections and a journal once, and keeps what came
/// back. The calls of `listen` and `fit_taps` whose numbers are in `failing` fail.
#[derive(Drop)]
pub struct MemSite {
    alloc: Global,
    address: Octets,
    /// Where it was to listen.
    asked: Vec<Octets>,
    /// What the first `fit_taps` gives.
    play: RelayPlay,
    /// To how many clusters the connections are that were given, once they were.
    fitted: Option<u32>,
    /// What came back.
    back: Vec<(MemTaps, MemJournal)>,
    /// Whether something came back that couldn't be kept.
    lost: bool,
    calls: u64,
    failing: Vec<u64>,
    faults: u64,
}

impl MemSite {
    /// A site at an address, with what it gives to a relay. The calls of `listen` and `fit_taps` whose numbers, counted
    /// together from 0, are in `failing` fail.
    pub fn new(alloc: Global, address: Octets, play: RelayPlay, failing: Vec<u64>) -> Self
        ensures { IsNewSite result address play failing.items }
    {
        MemSite {
            alloc,
            address,
            asked: Vec::new(alloc),
            play,
            fitted: None,
            back: Vec::new(alloc),
            lost: false,
            calls: 0,
            failing,
            faults: 0,
        }
    }

    /// Where it was to listen, in order.
    pub fn asked(&self) -> &[Octets]
        ensures { result.now ≡ self.now.asked.items }
    {
        self.asked.as_slice()
    }

    /// What came back, in order.
    pub fn back(&self) -> &[(MemTaps, MemJournal)]
        ensures { result.now ≡ self.now.back.items }
    {
        self.back.as_slice()
    }

    /// How many calls failed, and how often what came back had failed.
    pub fn faults(&self) -> u64
        ensures { result ≡ self.now.faults }
    {
        self.faults
    }

    // Keeps where it was to listen, and answers where it does. After running out of memory nothing has changed.
    fn listen_for(&mut self, at: &[u8]) -> Result<Octets, NoMemory>
        ensures told { IfOk result (λ used. TellsListening (told_of self.old) (at.now, used) (told_of self.new)) }
        ensures address { IfOk result (λ used. used ≡ self.old.address) }
        ensures err { OnErr result (told_of self.new ≡ told_of self.old) }
        ensures faults { self.new.faults ≡ self.old.faults }
    {
        let asked = Octets::from_slice(self.alloc, at)?;
        let address = Octets::from_slice(self.alloc, self.address.as_slice())?;
        self.asked.push(asked)?;
        Ok(address)
    }

    // Counts a call, and answers whether it is to fail.
    fn is_to_fail(&mut self) -> bool
        ensures fails { result ≡ is_to_fail self.old.failing.items self.old.calls }
        ensures counts { self.new ≡ record self.old { calls = counted self.old.calls } }
        ensures faults { self.new.faults ≡ self.old.faults }
    {
        let call = self.calls;
        self.calls = self.calls.saturating_add(1);
        self.failing.contains(&call)
    }

    // A call fails.
    fn fault(&mut self)
        ensures is { self.new ≡ record self.old { faults = counted self.old.faults } }
        ensures rose { Rose self.old.faults self.new.faults }
        ensures no_fall { self.old.faults ≤ self.new.faults }
    {
        self.faults = self.faults.saturating_add(1);
    }
}

// The connections, to so many clusters, and the journal of a play.
fn set_up(alloc: Global, clusters: u32, play: &RelayPlay) -> Result<(MemTaps, MemJournal), NoMemory>
    ensures { IfOk result (λ given. given ≡ fit_of clusters play.now) }
{
    let writes = Vec::from_slice(alloc, play.journal_failing.as_slice())?;
    let sink = MemSink::new(alloc, play.journal_room, writes)?;
    let answers = copies(alloc, play.answers.as_slice())?;
    let failing = Vec::from_slice(alloc, play.failing.as_slice())?;
    let taps = MemTaps::new(alloc, clusters, answers, play.room, failing);
    Ok((taps, MemJournal::new(sink)))
}

fn copies(alloc: Global, answers: &[Wired]) -> Result<VecDeque<Wired>, NoMemory>
    ensures { IfOk result (λ made. made.items ≡ answers.now) }
{
    let mut made = VecDeque::new(alloc);
    let mut rest = answers;
    while let Some((answer, after)) = rest.split_first() {
        made.push_back(answer.copied(alloc)?)?;
        rest = after;
    }
    Ok(made)
}

impl Site for MemSite {
    ghost use Rattle.proxy_site.specs.Memory.{told_of};

    type T = MemTaps;

    type J = MemJournal;

    ghost faults = { λ site. site.faults };

    ghost told = { told_of };

    fn listen(&mut self, at: &Octets) -> Result<Octets, SiteRefusal> {
        if self.is_to_fail() {
            self.fault();
            return Err(SiteRefusal::Failed);
        }
        match self.listen_for(at.as_slice()) {
            Ok(address) => Ok(address),
            Err(NoMemory) => Err(SiteRefusal::NoMemory),
        }
    }

    fn fit_taps(&mut self, config: &Config) -> Result<(MemTaps, MemJournal), SiteRefusal> {
        if self.is_to_fail() || self.fitted.is_some() {
            self.fault();
            return Err(SiteRefusal::Failed);
        }
        let Ok(clusters) = u32::try_from(config.clusters.as_slice().len()) else {
            return Err(SiteRefusal::NoMemory);
        };
        match set_up(self.alloc, clusters, &self.play) {
            Ok(given) => {
                self.fitted = Some(clusters);
                Ok(given)
            }
            Err(NoMemory) => Err(SiteRefusal::NoMemory),
        }
    }

    fn give_back_taps(&mut self, taps: MemTaps, journal: MemJournal) {
        if taps.faults() > 0 || journal.faults() > 0 {
            self.fault();
        }
        if self.back.push((taps, journal)).is_err() {
            self.lost = true;
        }
    }
}
