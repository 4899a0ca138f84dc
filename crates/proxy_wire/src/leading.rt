// The loop beside the workers.
ghost use Rattle.std.specs.Prelude.{[], ◌++◌, ◌∷◌, ◌≡◌, ◌≤◌, IfOk, OnErr, OnOk, true};
ghost use Rattle.io_ports.specs.Faults.{Rose};
ghost use Rattle.post_queue.specs.Clauses.{IsPosterOf, IsRunnerOf};
ghost use Rattle.proxy_wire.specs.Leading.{Accepts, ArePosters, Leads, Looks};
ghost use Rattle.proxy_wire.specs.LoopEnds.{EndsByFault};

use crate::end::LoopEnd;
use crate::meter::Tokens;
use crate::pool::Task;
use flow_notes::Job;
use io_ports::{Failed, NoMemory, PressureList};
use overload_core::{action_states, is_saturated};
use post_queue::{PostBox, PosterPass, RunnerPass};
use proxy_config::Config;
use proxy_site::WireSite;
use shared_state::Publisher;
use std::alloc::Global;
use std::sync::Wait;
use std::sync::atomic::Ordering;
use std::time::Clock;
use worker_parts::sample;
use worker_ports::Gauge;
use worker_threads::Shared;

/// How long it is from one reading of the gauges to the next, in milliseconds.
const PERIOD: u64 = 100;

/// How long workers may take to begin, in milliseconds.
const PATIENCE: u64 = 5_000;

/// What the loop beside the workers keeps. It can't be dropped: `end` ends it.
pub(crate) struct Leader {
    pub publisher: Publisher,
    pub posters: Vec<PosterPass>,
    pub pressures: PressureList,
    /// Whether the pressures that were published last don't saturate `stop_accepting`.
    pub accepts: bool,
}

impl Leader {
    /// Before it looks for the first time clients are accepted. There is a pressure for each resource.
    pub fn new(alloc: Global, publisher: Publisher, pressures: PressureList) -> Self
        ensures publisher { result.publisher ≡ publisher }
        ensures pressures { result.pressures ≡ pressures }
        ensures posters { result.posters.items ≡ [] }
    {
        Leader {
            publisher,
            posters: Vec::new(alloc),
            pressures,
            accepts: true,
        }
    }

    /// Ends the publishing.
    pub fn end<R: Wait>(self, rt: &R) {
        let Leader {
            publisher,
            posters: _posters,
            pressures: _pressures,
            accepts: _,
        } = self;
        publisher.end(rt);
    }

    /// One box more, to which it posts, stands behind the others. The answer is the right to run what is posted there.
    pub fn add_box(
        &mut self,
        alloc: Global,
        boxes: &mut Vec<PostBox>,
    ) -> Result<RunnerPass, NoMemory>
        requires leads { Leads boxes.old.items self.old }
        ensures leads { OnOk result (Leads boxes.new.items self.new) }
        ensures same { OnErr result (boxes.new.items ≡ boxes.old.items) }
        ensures adds { IfOk result (λ pass. (b : PostBox) × (boxes.new.items ≡ boxes.old.items ++ b ∷ []) × IsRunnerOf b pass) }
    {
        let (posts, poster, pass) = make_box(alloc)?;
        self.posters.push(poster)?;
        boxes.push(posts)?;
        Ok(pass)
    }

    /// Reads the gauges, publishes, and posts a look to each worker. What is refused is made again the next time; until then clients
    /// are accepted as before.
    #[tactic(auto, using(crate::proofs::Posting::looked, crate::proofs::Posting::looked_on, crate::proofs::Posting::looks_on, crate::proofs::Posting::looks_kept))]
    pub fn look<R: Wait, G: Gauge>(
        &mut self,
        rt: &R,
        alloc: Global,
        config: &Config,
        gauge: &mut G,
        boxes: &[PostBox],
    )
        requires { Leads boxes.now self.old }
        ensures leads { Leads boxes.now self.new }
        ensures looks { Looks config.now self.old self.new }
    {
        sample(alloc, gauge, &mut self.pressures);
        match self.publisher.publish(rt, self.pressures.as_slice()) {
            Ok(_) => {}
            Err(NoMemory) => return,
        }
        self.act(rt, config, boxes);
    }

    // Clients are accepted by the pressures that were published, and a look is posted to each worker.
    fn act<R: Wait>(&mut self, rt: &R, config: &Config, boxes: &[PostBox])
        requires { ArePosters boxes.now self.old.posters.items }
        ensures posters { ArePosters boxes.now self.new.posters.items }
        ensures accepts { Accepts config.now self.new }
        ensures same { (self.new.publisher ≡ self.old.publisher) × (self.new.pressures ≡ self.old.pressures) }
    {
        let states = action_states(config, self.pressures.as_slice());
        self.accepts = !is_saturated(states.stop_accepting);
        post_all(rt, boxes, self.posters.as_mut_slice());
    }
}

/// Makes rounds at the site, and looks and puts tokens each tenth of a second, until the workers have ended, or one of them otherwise
/// than by its turns, or a round fails, or a worker hasn't begun within five seconds. Then the connections of the workers tell
/// them to stop.
pub(crate) fn lead<R: Wait + Clock, T: WireSite, P: Tokens, G: Gauge>(
    rt: &R,
    alloc: Global,
    task: &Task<'_>,
    shared: &Shared,
    leader: &mut Leader,
    tokens: &mut P,
    site: &mut T,
    gauge: &mut G,
) -> LoopEnd
    requires { Leads shared.now.posts.items leader.old }
    ensures leads { Leads shared.now.posts.items leader.new }
    ensures wired { T.wired site.new ≡ T.wired site.old }
    ensures told { T.told site.new ≡ T.told site.old }
    ensures failed { EndsByFault result (T.faults site.old) (T.faults site.new) }
    ensures no_fall { T.faults site.old ≤ T.faults site.new }
{
    let end = make_rounds(rt, alloc, task, shared, leader, tokens, site, gauge);
    site.stop();
    end
}

// Makes rounds until there is a reason to stop.
fn make_rounds<R: Wait + Clock, T: WireSite, P: Tokens, G: Gauge>(
    rt: &R,
    alloc: Global,
    task: &Task<'_>,
    shared: &Shared,
    leader: &mut Leader,
    tokens: &mut P,
    site: &mut T,
    gauge: &mut G,
) -> LoopEnd
    requires { Leads shared.now.posts.items leader.old }
    ensures leads { Leads shared.now.posts.items leader.new }
    ensures wired { T.wired site.new ≡ T.wired site.old }
    ensures told { T.told site.new ≡ T.told site.old }
    ensures failed { result ≡ LoopEnd.Round → Rose (T.faults site.old) (T.faults site.new) }
    ensures no_fall { T.faults site.old ≤ T.faults site.new }
{
    let start = now(rt, 0);
    let mut due = start.saturating_add(PERIOD);
    for _ in rt.forever() {
        if shared.over.load(Ordering::SeqCst) {
            return LoopEnd::Workers;
        }
        if fails(site, leader.accepts) {
            return LoopEnd::Round;
        }
        let moment = now(rt, due);
        if is_late(shared, start, moment) {
            return LoopEnd::Threads;
        }
        if moment >= due {
            leader.look(rt, alloc, task.config, gauge, shared.posts.as_slice());
            tokens.put(task.config.proxy.accept_rate);
            due = due.saturating_add(PERIOD).max(moment);
        }
    }
    unreachable!()
}

// Makes a round, and answers whether it failed.
fn fails<T: WireSite>(site: &mut T, accept: bool) -> bool
    ensures wired { T.wired site.new ≡ T.wired site.old }
    ensures told { T.told site.new ≡ T.told site.old }
    ensures failed { result ≡ true → Rose (T.faults site.old) (T.faults site.new) }
    ensures no_fall { T.faults site.old ≤ T.faults site.new }
{
    match site.round(accept) {
        Ok(()) => false,
        Err(Failed) => true,
    }
}

// Whether a worker hasn't begun, though it had the time for it.
fn is_late(shared: &Shared, start: u64, moment: u64) -> bool {
    let begun = shared.begun.load(Ordering::SeqCst) as usize;
    begun < shared.posts.len() && moment.saturating_sub(start) >= PATIENCE
}

// A box to which one poster posts.
fn make_box(alloc: Global) -> Result<(PostBox, PosterPass, RunnerPass), NoMemory>
    ensures poster { IfOk result (λ made. IsPosterOf made.0 made.1) }
    ensures runner { IfOk result (λ made. IsRunnerOf made.0 made.2) }
{
    let (posts, mut passes, pass) = PostBox::new(alloc, 1)?;
    match passes.take_one() {
        Some(poster) => Ok((posts, poster, pass)),
        None => Err(NoMemory),
    }
}

// Posts a look to each box.
fn post_all<R: Wait>(rt: &R, boxes: &[PostBox], posters: &mut [PosterPass])
    requires { ArePosters boxes.now posters.old }
    ensures { ArePosters boxes.now posters.new }
{
    for place in 0..boxes.len() {
        let _ = boxes[place].post(rt, &mut posters[place], Job::Look);
    }
}

// The moment now, in milliseconds; where the clock can't be read, this one.
fn now<R: Clock>(rt: &R, fallback: u64) -> u64 {
    match rt.monotonic() {
        Ok(since_start) => u64::try_from(since_start.as_millis()).unwrap_or(fallback),
        Err(_) => fallback,
    }
}
