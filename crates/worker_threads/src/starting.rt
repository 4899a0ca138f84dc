// Starting the workers.
ghost use Rattle.std.specs.Prelude.{◌≡◌, ◌<◌, ◌≤◌, IfOk, OnErr, [], length, map, slice_index_or, vec_capacity, ℕ};
ghost use Rattle.worker_threads.specs.Starting.{HasWorked, IsReady, WorkedEach, end_of, outside_of};

use crate::worker::{Shared, Worker};
use io_ports::NoMemory;
use std::alloc::Global;
use std::mem;
use std::sync::Wait;
use std::sync::atomic::Ordering;
use std::thread::{Threads, for_each_mut};
use wire_state::CarryOut;
use worker_loop::{Ended, HeldPermits, Journal, work};
use worker_ports::{Clock, Gate, Wires};

/// Runs so many turns of each worker, each in a thread of its own, and gives their permits back. Once all have ended, it answers how, in
/// their order. Its memory is taken first: after `NoMemory` no turn was run. Where a thread can't be made, workers run one after
/// another. Each counts itself in `begun` as it begins, and the first that ends otherwise than by its turns raises `over`; the others
/// go on until their connections tell them to stop.
#[tactic(auto, using(crate::proofs::Readying::all_worked, crate::proofs::Readying::none_worked))]
pub fn start_workers<R, W, C, G, J, D>(
    rt: &R,
    alloc: Global,
    carry: &D,
    shared: &Shared,
    workers: &mut [Worker<W, C, G, J>],
    turns: u64,
) -> Result<Vec<Ended>, NoMemory>
where
    R: Threads + Wait + Sync,
    W: Wires + Send,
    C: Clock + Send,
    G: Gate + Send,
    J: Journal + Send,
    D: CarryOut + Sync,
    requires ready { (i : ℕ) (w : _) → i < length workers.old → IsReady (outside_of W.Wires C.moments J.contents J.told J.faults) shared.now i (slice_index_or workers.old i w) }
    ensures ok { IfOk result (λ ends. WorkedEach (outside_of W.Wires C.moments J.contents J.told J.faults) shared.now turns workers.old ends.items workers.new) }
    ensures err { OnErr result (workers.new ≡ workers.old) }
{
    let ends = Vec::with_capacity(alloc, workers.len())?;
    if workers.is_empty() {
        return Ok(ends);
    }
    run_each(rt, alloc, carry, shared, workers, turns);
    Ok(ends_of(workers, ends))
}

// How each ended.
fn ends_of<W, C, G, J>(workers: &[Worker<W, C, G, J>], mut ends: Vec<Ended>) -> Vec<Ended>
    requires none { ends.items ≡ [] }
    requires room { length workers.now ≤ vec_capacity ends }
    ensures { result.items ≡ map end_of workers.now }
{
    let mut rest = workers;
    while let Some((worker, after)) = rest.split_first() {
        ends.push_reserved(worker.ended.unwrap_or(Ended::Memory));
        rest = after;
    }
    ends
}

// Runs each in a thread of its own.
fn run_each<R, W, C, G, J, D>(
    rt: &R,
    alloc: Global,
    carry: &D,
    shared: &Shared,
    workers: &mut [Worker<W, C, G, J>],
    turns: u64,
)
where
    R: Threads + Wait + Sync,
    W: Wires + Send,
    C: Clock + Send,
    G: Gate + Send,
    J: Journal + Send,
    D: CarryOut + Sync,
    requires some { 0 < length workers.old }
    requires ready { (i : ℕ) (w : _) → i < length workers.old → IsReady (outside_of W.Wires C.moments J.contents J.told J.faults) shared.now i (slice_index_or workers.old i w) }
    ensures len { length workers.new ≡ length workers.old }
    ensures each { (i : ℕ) (w : _) → i < length workers.old → HasWorked (outside_of W.Wires C.moments J.contents J.told J.faults) shared.now i turns (slice_index_or workers.old i w) (slice_index_or workers.new i w) }
{
    let count = workers.len();
    for_each_mut(
        rt,
        workers,
        count,
        &|index, worker| { run_worker(rt, alloc, carry, shared, index, worker, turns) },
    );
}

// Runs the turns of the worker at this place, tells the others of them, and gives its permits back.
fn run_worker<R: Wait, W: Wires, C: Clock, G: Gate, J: Journal, D: CarryOut>(
    rt: &R,
    alloc: Global,
    carry: &D,
    shared: &Shared,
    place: usize,
    worker: &mut Worker<W, C, G, J>,
    turns: u64,
)
    requires { IsReady (outside_of W.Wires C.moments J.contents J.told J.faults) shared.now place worker.old }
    ensures { HasWorked (outside_of W.Wires C.moments J.contents J.told J.faults) shared.now place turns worker.old worker.new }
{
    shared.begun.fetch_add(1, Ordering::SeqCst);
    let ended = work(
        rt,
        alloc,
        carry,
        &mut worker.core,
        &shared.posts[place],
        &mut worker.pass,
        &mut worker.follower,
        &shared.permits,
        &mut worker.seat,
        &mut worker.held,
        &mut worker.wires,
        &mut worker.clock,
        &mut worker.gate,
        &mut worker.journal,
        &shared.names,
        turns,
    );
    tell_end(shared, ended);
    worker.ended = Some(ended);
    let kept = mem::replace(&mut worker.held, HeldPermits::new(alloc));
    kept.give_back(&shared.permits, &mut worker.seat);
}

// Raises `over` where one has ended otherwise than by its turns.
fn tell_end(shared: &Shared, ended: Ended) {
    if ended != Ended::Turns {
        shared.over.store(true, Ordering::SeqCst);
    }
}
