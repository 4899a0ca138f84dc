// What a case begins with.
ghost use Rattle.loop_rows.specs.Workers.{IsFresh, IsReady};
ghost use Rattle.mem_ports.specs.Memory.{seen_of};
ghost use Rattle.post_queue.specs.Clauses.{IsPosterOf, IsRunnerOf};
ghost use Rattle.post_queue.specs.Posts.{IsAllowedJob};
ghost use Rattle.proxy_config.specs.Ranges.{IsInRange};
ghost use Rattle.shared_state.specs.Following.{IsNewFollower, followers_in};
ghost use Rattle.shared_state.specs.PermitSeats.{IsSeatOf};
ghost use Rattle.shared_state.specs.States.{IsSame, resources_of};
ghost use Rattle.std.specs.Arc.{arc_value};
ghost use Rattle.std.specs.Prelude.{◌≡◌, ◌≤◌, All, IfOk, IfSome, length, true};

use crate::case::Case;
use crate::script::Script;
use flow_notes::{Job, Names};
use io_ports::{MemSink, NoMemory, PressureList};
use mem_ports::{MemClock, MemWires, Room};
use post_queue::{PostBox, PosterPass, RunnerPass};
use proxy_config::Config;
use shared_state::{Follower, Followers, PermitSeat, Permits, Publisher, Told, make_shared};
use std::alloc::Global;
use std::collections::VecDeque;
use std::mem;
use std::sync::Wait;
use worker_loop::MemJournal;

/// For how much the record has room between one answer of the connections and the next.
const ROOM: Room = Room {
    offers: 100,
    octets: 100_000,
};

/// How many octets the first line of a journal has.
const HEADER: usize = 24;

/// The greatest number of permits.
const MOST_PERMITS: u64 = 1 << 20;

/// Each moment is less.
const MOMENTS: u64 = 1 << 60;

/// Each number of an exchange is less.
const EXCHANGES: u64 = 1 << 63;

/// What a worker shares with others.
#[derive(Drop)]
pub struct Desk {
    pub posts: PostBox,
    pub pass: RunnerPass,
    pub follower: Follower,
    pub permits: Permits,
    pub seat: PermitSeat,
}

/// What a worker begins with, beside its core and its connections.
#[derive(Drop)]
pub struct Stage {
    pub desk: Desk,
    pub clock: MemClock,
    pub journal: MemJournal,
}

/// The stage and the connections of a case.
pub fn stage_of<R: AllocGlobal + Wait>(
    rt: &R,
    config: &Config,
    names: &Names,
    case: &mut Case,
) -> Result<(Stage, MemWires), NoMemory>
    requires { IsInRange config.now }
    ensures ready { IfOk result (λ made. IsReady made.0.desk) }
    ensures fresh { IfOk result (λ made. IsFresh names.now (seen_of made.1)) }
{
    let mut script = Script::new(rt.alloc());
    if script.read(names, case.lines.as_slice()).is_err() {
        drop(script);
        return Err(NoMemory);
    }
    let made = staged(rt, config, names, &mut script, case);
    drop(script);
    made
}

// The same, where the script was read.
fn staged<R: AllocGlobal + Wait>(
    rt: &R,
    config: &Config,
    names: &Names,
    script: &mut Script,
    case: &mut Case,
) -> Result<(Stage, MemWires), NoMemory>
    requires { IsInRange config.now }
    ensures ready { IfOk result (λ made. IsReady made.0.desk) }
    ensures fresh { IfOk result (λ made. IsFresh names.now (seen_of made.1)) }
{
    let journal = journaled(rt.alloc(), case)?;
    let desk = Desk::new(rt, config, script, case.permits)?;
    let moments = mem::replace(&mut script.moments, Vec::new(rt.alloc()));
    let clock = clock_of(rt.alloc(), moments);
    let stage = Stage {
        desk,
        clock,
        journal,
    };
    match connected(rt.alloc(), names, script, case) {
        Ok(wires) => Ok((stage, wires)),
        Err(NoMemory) => {
            drop(stage);
            Err(NoMemory)
        }
    }
}

impl Desk {
    /// A desk with what the script posts and publishes, and so many permits.
    pub fn new<R: AllocGlobal + Wait>(
        rt: &R,
        config: &Config,
        script: &Script,
        permits: u64,
    ) -> Result<Self, NoMemory>
        requires { IsInRange config.now }
        ensures { IfOk result IsReady }
    {
        let (posts, pass) = posted(rt, script.jobs.as_slice())?;
        let (permits, seat) = permitted(rt.alloc(), permits)?;
        let follower = published(rt, config, script.published.as_slice())?;
        Ok(Desk {
            posts,
            pass,
            follower,
            permits,
            seat,
        })
    }
}

// A box with these jobs.
fn posted<R: AllocGlobal + Wait>(rt: &R, jobs: &[Job]) -> Result<(PostBox, RunnerPass), NoMemory>
    ensures { IfOk result (λ made. IsRunnerOf made.0 made.1) }
{
    let (posts, mut passes, pass) = PostBox::new(rt.alloc(), 1)?;
    let Some(mut poster) = passes.take_one() else {
        return Err(NoMemory);
    };
    if post_all(rt, &posts, &mut poster, jobs) {
        Ok((posts, pass))
    } else {
        Err(NoMemory)
    }
}

// Posts the jobs, but for one that isn't allowed. The answer is whether memory was there for all.
fn post_all<R: Wait>(rt: &R, posts: &PostBox, poster: &mut PosterPass, jobs: &[Job]) -> bool
    requires { IsPosterOf posts.now poster.old }
{
    let mut all = true;
    for job in jobs {
        if is_allowed(*job) {
            all &= posts.post(rt, poster, *job).is_ok();
        }
    }
    all
}

fn is_allowed(job: Job) -> bool
    ensures { result ≡ true → IsAllowedJob job }
{
    match job {
        Job::Cancel { exchange } => exchange < EXCHANGES,
        Job::Drain | Job::Look => true,
    }
}

// A follower that has learnt what was published last, since the publisher ends here.
fn published<R: AllocGlobal + Wait>(
    rt: &R,
    config: &Config,
    states: &[PressureList],
) -> Result<Follower, NoMemory>
    requires { length config.now.overload.resources ≤ 16 }
{
    let (mut publisher, mut followers) = make_shared(rt, rt.alloc(), config, 1)?;
    let follower = follower_of(&publisher, &mut followers);
    let resources = config.overload.resources.as_slice().len();
    let all = publish_all(rt, &mut publisher, resources, states);
    let told = publisher.tell();
    publisher.end(rt);
    match follower {
        Some(mut follower) => {
            follower.learn(told);
            if all { Ok(follower) } else { Err(NoMemory) }
        }
        None => Err(NoMemory),
    }
}

fn follower_of(publisher: &Publisher, followers: &mut Followers) -> Option<Follower>
    requires { All (IsNewFollower (arc_value publisher.now.board)) (followers_in followers.old) }
    ensures { IfSome result (λ f. f.seat.table_id ≡ publisher.now.seat.table_id) }
{
    let _ = publisher;
    followers.take_one()
}

// Publishes these states, but for one that doesn't have a pressure for each resource. The answer is whether memory was there for
// all.
fn publish_all<R: Wait>(
    rt: &R,
    publisher: &mut Publisher,
    resources: usize,
    states: &[PressureList],
) -> bool
    requires { resources ≡ resources_of publisher.old }
    ensures { IsSame publisher.old publisher.new }
{
    let mut all = true;
    for pressures in states {
        if pressures.as_slice().len() == resources {
            all &= publisher.publish(rt, pressures.as_slice()).is_ok();
        }
    }
    all
}

fn permitted(alloc: Global, permits: u64) -> Result<(Permits, PermitSeat), NoMemory>
    ensures { IfOk result (λ made. IsSeatOf made.0 made.1) }
{
    let (permits, mut seats) = Permits::new(alloc, permits.min(MOST_PERMITS), 1)?;
    match seats.take_one() {
        Some(seat) => Ok((permits, seat)),
        None => Err(NoMemory),
    }
}

// The connections, which give the script's answers.
fn connected(
    alloc: Global,
    names: &Names,
    script: &mut Script,
    case: &mut Case,
) -> Result<MemWires, NoMemory>
    ensures { IfOk result (λ wires. IsFresh names.now (seen_of wires)) }
{
    let Ok(clusters) = u32::try_from(names.len()) else {
        return Err(NoMemory);
    };
    let answers = mem::replace(&mut script.answers, VecDeque::new(alloc));
    let failing = mem::replace(&mut case.wires, Vec::new(alloc));
    let mut wires = MemWires::new(alloc, clusters, answers, ROOM, failing);
    wires.take_at_most(case.most);
    Ok(wires)
}

fn journaled(alloc: Global, case: &mut Case) -> Result<MemJournal, NoMemory> {
    let failing = mem::replace(&mut case.journal, Vec::new(alloc));
    let mut sink = MemSink::new(alloc, HEADER.saturating_add(case.room), failing)?;
    sink.take_at_most(case.piece);
    Ok(MemJournal::new(alloc, sink))
}

// A clock with these moments, or with none where one is too great.
fn clock_of(alloc: Global, moments: Vec<u64>) -> MemClock {
    if moments.iter().all(|moment| *moment < MOMENTS) {
        MemClock::new(moments)
    } else {
        MemClock::new(Vec::new(alloc))
    }
}
