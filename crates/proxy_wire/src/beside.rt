// The workers, and beside them the loop that leads them.
ghost use Rattle.std.specs.Prelude.{IfOk, OnErr, length, slice_index_or, ℕ, ◌<◌, ◌≡◌, ◌≤◌};
ghost use Rattle.proxy_wire.specs.Lent.{AcceptsLent, LeavesLent};
ghost use Rattle.proxy_wire.specs.Leading.{Leads};
ghost use Rattle.proxy_wire.specs.LoopEnds.{EndsByFault};
ghost use Rattle.worker_threads.specs.Starting.{IsReady, WorkedEach, outside_of};

use crate::end::LoopEnd;
use crate::leading::{Leader, lead};
use crate::meter::Tokens;
use crate::pool::Task;
use io_ports::NoMemory;
use proxy_site::WireSite;
use std::alloc::Global;
use std::sync::Wait;
use std::sync::atomic::Ordering;
use std::thread::{Threads, join_mut};
use std::time::Clock as SystemClock;
use wire_state::CarryOut;
use worker_loop::Ended;
use worker_parts::Journal;
use worker_ports::{Clock, Gauge, OpenGate, Wires};
use worker_threads::{Shared, Worker, start_workers};

/// Runs so many turns of each worker, and beside them the loop that leads them. It answers how each ended, and why the loop did.
pub(crate) fn run_beside<R, W, C, L, T, P, G, D>(
    rt: &R,
    alloc: Global,
    carry: &D,
    task: &Task<'_>,
    shared: &Shared,
    leader: &mut Leader,
    tokens: &mut P,
    site: &mut T,
    gauge: &mut G,
    workers: &mut [Worker<W, C, OpenGate, L>],
) -> (Result<Vec<Ended>, NoMemory>, LoopEnd)
where
    R: Threads + Wait + SystemClock + Sync,
    D: CarryOut + Sync,
    W: Wires + Send,
    C: Clock + Send,
    L: Journal + Send,
    T: WireSite,
    P: Tokens,
    G: Gauge,
    requires ready { (i : ℕ) (w : _) → i < length workers.old → IsReady (outside_of W.Wires C.moments L.contents L.told L.faults) shared.now i (slice_index_or workers.old i w) }
    requires leads { Leads shared.now.posts.items leader.old }
    ensures ok { IfOk result.0 (λ ends. WorkedEach (outside_of W.Wires C.moments L.contents L.told L.faults) shared.now task.now.turns workers.old ends.items workers.new) }
    ensures err { OnErr result.0 (workers.new ≡ workers.old) }
    ensures failed { EndsByFault result.1 (T.faults site.old) (T.faults site.new) }
    ensures wired { T.wired site.new ≡ T.wired site.old }
    ensures told { T.told site.new ≡ T.told site.old }
    ensures no_fall { T.faults site.old ≤ T.faults site.new }
{
    let turns = task.turns;
    lend(
        rt,
        alloc,
        task,
        shared,
        &|lent: &mut [Worker<W, C, OpenGate, L>]|
            requires { (i : ℕ) (w : _) → i < length lent.now → IsReady (outside_of W.Wires C.moments L.contents L.told L.faults) shared.now i (slice_index_or lent.now i w) }
        { run_out(rt, alloc, carry, shared, turns, lent) },
        leader,
        tokens,
        site,
        gauge,
        workers,
    )
}

// Lends the workers to a run in a thread of its own, and leads them in this one. Of the workers it knows nothing more than that they
// may be sent, since the borrow checker doesn't cover more. Where no thread can be made the run comes after the loop, which then
// ended since no worker has begun.
fn lend<R, V, T, P, G, F>(
    rt: &R,
    alloc: Global,
    task: &Task<'_>,
    shared: &Shared,
    run: &F,
    leader: &mut Leader,
    tokens: &mut P,
    site: &mut T,
    gauge: &mut G,
    workers: &mut [V],
) -> (Result<Vec<Ended>, NoMemory>, LoopEnd)
where
    R: Threads + Wait + SystemClock + Sync,
    V: Send,
    T: WireSite,
    P: Tokens,
    G: Gauge,
    F: Fn(&mut [V]) -> Result<Vec<Ended>, NoMemory> + Sync,
    requires run { AcceptsLent F.Fn run.now workers.old }
    requires leads { Leads shared.now.posts.items leader.old }
    ensures run { LeavesLent F.Fn run.now workers.old result.0 workers.new }
    ensures failed { EndsByFault result.1 (T.faults site.old) (T.faults site.new) }
    ensures wired { T.wired site.new ≡ T.wired site.old }
    ensures told { T.told site.new ≡ T.told site.old }
    ensures no_fall { T.faults site.old ≤ T.faults site.new }
{
    let mut work = || -> Result<Vec<Ended>, NoMemory>
        requires { AcceptsLent F.Fn run.now workers.now }
        ensures { LeavesLent F.Fn run.entry.now workers.entry.now result workers.exit.now }
    { call(run, workers) };
    let mut guide = || lead(rt, alloc, task, shared, leader, tokens, site, gauge);
    join_mut(rt, &mut work, &mut guide)
}

fn call<V, F: Fn(&mut [V]) -> Result<Vec<Ended>, NoMemory>>(
    run: &F,
    workers: &mut [V],
) -> Result<Vec<Ended>, NoMemory>
    requires { AcceptsLent F.Fn run.now workers.old }
    ensures { LeavesLent F.Fn run.now workers.old result workers.new }
{
    let ends = run(workers);
    ends
}

// Runs the workers, and then tells the loop that they have ended, however they did.
fn run_out<R, W, C, L, D>(
    rt: &R,
    alloc: Global,
    carry: &D,
    shared: &Shared,
    turns: u64,
    workers: &mut [Worker<W, C, OpenGate, L>],
) -> Result<Vec<Ended>, NoMemory>
where
    R: Threads + Wait + Sync,
    D: CarryOut + Sync,
    W: Wires + Send,
    C: Clock + Send,
    L: Journal + Send,
    requires ready { (i : ℕ) (w : _) → i < length workers.old → IsReady (outside_of W.Wires C.moments L.contents L.told L.faults) shared.now i (slice_index_or workers.old i w) }
    ensures ok { IfOk result (λ ends. WorkedEach (outside_of W.Wires C.moments L.contents L.told L.faults) shared.now turns workers.old ends.items workers.new) }
    ensures err { OnErr result (workers.new ≡ workers.old) }
{
    let ends = start_workers(rt, alloc, carry, shared, workers, turns);
    shared.over.store(true, Ordering::SeqCst);
    ends
}
