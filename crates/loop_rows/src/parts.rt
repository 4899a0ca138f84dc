// What workers over memory are made of.
ghost use Rattle.loop_rows.specs.Meetings.{AreParts, ArePlaces, in_memory};
ghost use Rattle.mem_ports.specs.Memory.{seen_of};
ghost use Rattle.post_queue.specs.Clauses.{IsRunnerOf};
ghost use Rattle.shared_state.specs.PermitSeats.{IsNewSeat, IsSeatOf, seats_in};
ghost use Rattle.std.specs.Prelude.{◌≡◌, ◌≤◌, All, IfOk, IfSome, length, vec_capacity};
ghost use Rattle.worker_core.specs.Sessions.{RestsWire};
ghost use Rattle.worker_loop.specs.Keeping.{Holds};
ghost use Rattle.worker_threads.specs.Starting.{IsNew};

use crate::gates::Meets;
use flow_notes::Names;
use io_ports::{MemSink, NoMemory};
use mem_ports::{MemClock, MemWires, Room};
use post_queue::{PostBox, RunnerPass};
use proxy_config::Config;
use shared_state::{Follower, Followers, PermitSeat, PermitSeats, Permits, make_shared};
use std::alloc::Global;
use std::collections::VecDeque;
use std::sync::Wait;
use worker_core::Core;
use worker_loop::{Ended, HeldPermits, MemJournal};
use worker_threads::Worker;

/// For how many octets a journal has room.
const JOURNAL: usize = 1_000;

/// A worker of the test.
pub type Meeting = Worker<MemWires, MemClock, Meets, MemJournal>;

/// What a worker is made of, whose connections give nothing.
#[derive(Drop)]
pub struct Parts {
    core: Core,
    posts: PostBox,
    pass: RunnerPass,
    wires: MemWires,
    journal: MemJournal,
}

impl Parts {
    pub fn new(alloc: Global, names: &Names) -> Result<Self, NoMemory>
        ensures { IfOk result (λ made. AreParts names.now made.core.kind made.posts made.pass made.wires) }
    {
        let (posts, pass) = box_of(alloc)?;
        let wires = wires_of(alloc, names)?;
        let journal = journal_of(alloc)?;
        let core = core_of(alloc)?;
        Ok(Parts {
            core,
            posts,
            pass,
            wires,
            journal,
        })
    }
}

fn box_of(alloc: Global) -> Result<(PostBox, RunnerPass), NoMemory>
    ensures { IfOk result (λ made. IsRunnerOf made.0 made.1) }
{
    let (posts, _posters, pass) = PostBox::new(alloc, 1)?;
    Ok((posts, pass))
}

fn wires_of(alloc: Global, names: &Names) -> Result<MemWires, NoMemory>
    ensures { IfOk result (λ wires. (seen_of wires).clusters ≡ length names.now) }
{
    let Ok(clusters) = u32::try_from(names.len()) else {
        return Err(NoMemory);
    };
    let room = Room {
        offers: 1,
        octets: 1,
    };
    Ok(MemWires::new(alloc, clusters, VecDeque::new(alloc), room, Vec::new(alloc)))
}

fn journal_of(alloc: Global) -> Result<MemJournal, NoMemory> {
    let sink = MemSink::new(alloc, JOURNAL, Vec::new(alloc))?;
    Ok(MemJournal::new(alloc, sink))
}

fn core_of(alloc: Global) -> Result<Core, NoMemory>
    ensures { IfOk result (λ core. RestsWire core.kind) }
{
    let config = Config::of_defaults(alloc)?;
    Core::new(alloc, config)
}

/// A worker of these parts, and its box of posts.
pub fn worker_of(
    alloc: Global,
    names: &Names,
    permits: &Permits,
    parts: Parts,
    follower: Follower,
    seat: PermitSeat,
    gate: Meets,
) -> (PostBox, Meeting)
    requires parts { AreParts names.now parts.core.kind parts.posts parts.pass parts.wires }
    requires seat { IsSeatOf permits.now seat }
    ensures { IsNew in_memory permits.now names.now result.0 result.1 }
{
    let _ = names;
    let _ = permits;
    let worker = Worker {
        core: parts.core,
        pass: parts.pass,
        follower,
        seat,
        held: HeldPermits::new(alloc),
        wires: parts.wires,
        clock: MemClock::new(Vec::new(alloc)),
        gate,
        journal: parts.journal,
        ended: None,
    };
    (parts.posts, worker)
}

/// Ends a worker, and tells whether it met the other and ran all its turns.
pub fn end_worker(permits: &Permits, worker: Meeting) -> bool
    requires { Holds permits.now worker.seat worker.held }
{
    let Worker {
        core,
        pass: _pass,
        follower,
        mut seat,
        held,
        wires,
        clock: _clock,
        gate,
        journal,
        ended,
    } = worker;
    held.give_back(permits, &mut seat);
    drop(core);
    drop(follower);
    drop(wires);
    drop(journal);
    gate.has_met() && ended == Some(Ended::Turns)
}

/// What two workers share, and what each has of it.
#[derive(Drop)]
pub struct Places {
    pub permits: Permits,
    pub seat: PermitSeat,
    pub other_seat: PermitSeat,
    pub follower: Follower,
    pub other_follower: Follower,
    /// Room for a box of each.
    pub posts: Vec<PostBox>,
}

impl Places {
    pub fn new<R: Wait>(rt: &R, alloc: Global) -> Result<Self, NoMemory>
        ensures { IfOk result (λ made. ArePlaces made.permits made.seat made.other_seat made.posts.items (vec_capacity made.posts)) }
    {
        let (permits, seat, other_seat) = permits_of(alloc)?;
        let (follower, other_follower) = followers_of(rt, alloc)?;
        let posts = Vec::with_capacity(alloc, 2)?;
        Ok(Places {
            permits,
            seat,
            other_seat,
            follower,
            other_follower,
            posts,
        })
    }
}

// Permits with two seats.
fn permits_of(alloc: Global) -> Result<(Permits, PermitSeat, PermitSeat), NoMemory>
    ensures { IfOk result (λ made. IsSeatOf made.0 made.1 × IsSeatOf made.0 made.2) }
{
    let (permits, mut seats) = Permits::new(alloc, 1, 2)?;
    let one = seat_of(&permits, &mut seats);
    let two = seat_of(&permits, &mut seats);
    match (one, two) {
        (Some(one), Some(two)) => Ok((permits, one, two)),
        _ => Err(NoMemory),
    }
}

// A seat that wasn't given out yet.
fn seat_of(permits: &Permits, seats: &mut PermitSeats) -> Option<PermitSeat>
    requires { All (IsNewSeat permits.now) (seats_in seats.old) }
    ensures seat { IfSome result (IsSeatOf permits.now) }
    ensures others { All (IsNewSeat permits.now) (seats_in seats.new) }
{
    let _ = permits;
    seats.take_one()
}

// Two followers. Nothing was published, so each has seen all.
fn followers_of<R: Wait>(rt: &R, alloc: Global) -> Result<(Follower, Follower), NoMemory> {
    let config = Config::of_defaults(alloc)?;
    let mut followers = two_followers(rt, alloc, config)?;
    let Some(one) = followers.take_one() else {
        return Err(NoMemory);
    };
    match followers.take_one() {
        Some(two) => Ok((one, two)),
        None => Err(NoMemory),
    }
}

// The followers of a publisher that has ended.
fn two_followers<R: Wait>(rt: &R, alloc: Global, config: Config) -> Result<Followers, NoMemory>
    requires { length config.overload.resources ≤ 16 }
{
    let made = make_shared(rt, alloc, &config, 2);
    drop(config);
    let (publisher, followers) = made?;
    publisher.end(rt);
    Ok(followers)
}
