// The workers are fitted, run, and what they worked over is given back.
ghost use Rattle.std.specs.Prelude.{All, IfErr, OnOk, length, slice_index_or, vec_capacity, vec_len, ℕ, ◌<◌, ◌≡◌, ◌≤◌, ◌⊎◌};
ghost use Rattle.std.specs.Io.KnownBytes.{Appends};
ghost use Rattle.io_ports.specs.Faults.{Rose};
ghost use Rattle.proxy_site.specs.Relaying.{IsCutShort, SiteOrOut, listening_line};
ghost use Rattle.proxy_wire.specs.Pools.{IsPaid, IsStaff, OneFailed, SharesOf};
ghost use Rattle.proxy_wire.specs.Leading.{Leads};
ghost use Rattle.proxy_wire.specs.Runs.{PoolWorks, WorksAll};
ghost use Rattle.proxy_wire.specs.Serving.{AllRan, NoneRan, wire_status};
ghost use Rattle.proxy_wire.specs.Tasks.{IsTask};
ghost use Rattle.session_run.specs.Ends.{AppendsFront};
ghost use Rattle.session_run.specs.declared.status.Status.TheVariants as status;
ghost use Rattle.shared_state.specs.PermitSeats.{IsSeatOf, seats_in};
ghost use Rattle.worker_threads.specs.Starting.{IsReady, outside_of};

use crate::beside::run_beside;
use crate::end::{WireEnd, end_of};
use crate::giving_back::give_back_all;
use crate::hiring::hire_all;
use crate::leading::Leader;
use crate::meter::Meter;
use crate::pool::{Pool, Staff, Supply, Task};
use io_ports::{Failed, Octets, Sink};
use proxy_site::{WireSite, put_listening};
use session_run::write_all;
use std::alloc::Global;
use std::sync::Wait;
use std::thread::Threads;
use std::time::Clock;
use wire_state::CarryOut;
use worker_ports::{Gauge, OpenGate};
use worker_threads::{Shared, Worker};

/// Fits the configuration's workers, runs so many turns of each, and gives back what they worked over.
#[tactic(auto, using(crate::proofs::Running::pool_back, crate::proofs::Running::none_begun, crate::proofs::Running::fault_of_one))]
pub(crate) fn run<R, T, M, G, K, D>(
    rt: &R,
    alloc: Global,
    carry: &D,
    task: &Task<'_>,
    address: &Octets,
    staff: Staff<M>,
    leader: &mut Leader,
    site: &mut T,
    gauge: &mut G,
    out: &mut K,
) -> WireEnd
where
    R: Threads + Wait + Clock + Sync,
    D: CarryOut + Sync,
    T: WireSite,
    M: Meter<T::W> + Drop,
    M::Metered: Send,
    T::C: Send,
    T::L: Send,
    G: Gauge,
    K: Sink,
    requires task { IsTask task.now }
    requires staff { IsStaff task.now.config.now staff }
    requires leads { Leads staff.shared.posts.items leader.old }
    ensures ran { NoneRan T.W.seen T.L.contents task.now.config.now address.now (T.wired site.old) (T.wired site.new) (K.contents out.old) (K.contents out.new) (wire_status result)
        ⊎ AllRan M.bare (outside_of M.Metered.Wires T.C.moments T.L.contents T.L.told T.L.faults) task.now.config.now task.now.turns address.now (T.wired site.old) (T.wired site.new) (K.contents out.old) (K.contents out.new) (wire_status result) }
    ensures told { T.told site.new ≡ T.told site.old }
    ensures write_fault { SiteOrOut (wire_status result) (T.faults site.old) (T.faults site.new) (K.faults out.old) (K.faults out.new) }
    ensures no_fall { (T.faults site.old ≤ T.faults site.new) × (K.faults out.old ≤ K.faults out.new) }
{
    let Ok(workers) = Vec::with_capacity(alloc, task.config.proxy.workers as usize) else {
        drop(staff);
        return WireEnd::Memory;
    };
    let Staff { shared, mut supply } = staff;
    let mut pool = Pool { workers, shared };
    let end = work_pool(
        rt,
        alloc,
        carry,
        task,
        address,
        &mut supply,
        leader,
        site,
        gauge,
        out,
        &mut pool,
    );
    drop(supply);
    let Pool { workers, shared } = pool;
    give_back_all::<T, M>(site, &shared.permits, workers);
    drop(shared);
    end
}

// Fits the workers, and runs them.
#[tactic(auto, using(crate::proofs::Running::idle_paid_of, crate::proofs::Running::cause_hired))]
fn work_pool<R, T, M, G, K, D>(
    rt: &R,
    alloc: Global,
    carry: &D,
    task: &Task<'_>,
    address: &Octets,
    supply: &mut Supply<M>,
    leader: &mut Leader,
    site: &mut T,
    gauge: &mut G,
    out: &mut K,
    pool: &mut Pool<M::Metered, T::C, T::L>,
) -> WireEnd
where
    R: Threads + Wait + Clock + Sync,
    D: CarryOut + Sync,
    T: WireSite,
    M: Meter<T::W>,
    M::Metered: Send,
    T::C: Send,
    T::L: Send,
    G: Gauge,
    K: Sink,
    requires task { IsTask task.now }
    requires shares { SharesOf task.now.config.now pool.old.shared }
    requires none { (vec_len pool.old.workers ≡ 0) × (vec_len pool.old.shared.posts ≡ 0) }
    requires room { task.now.config.now.proxy.workers ≤ vec_capacity pool.old.workers }
    requires seats { All (IsSeatOf pool.old.shared.permits) (seats_in supply.old.seats) }
    requires leads { Leads pool.old.shared.posts.items leader.old }
    ensures works { PoolWorks M.bare (outside_of M.Metered.Wires T.C.moments T.L.contents T.L.told T.L.faults) task.now.config.now task.now.turns address.now pool.new.shared (T.wired site.old) (T.wired site.new) pool.new.workers.items (K.contents out.old) (K.contents out.new) result }
    ensures paid { All (IsPaid pool.new.shared.permits) pool.new.workers.items }
    ensures few { vec_len pool.new.workers ≤ task.now.config.now.proxy.workers }
    ensures cause { wire_status result ≡ status.WriteFault → (Rose (T.faults site.old) (T.faults site.new) ⊎ Rose (K.faults out.old) (K.faults out.new)) ⊎ OneFailed (outside_of M.Metered.Wires T.C.moments T.L.contents T.L.told T.L.faults) pool.new.workers.items }
    ensures told { T.told site.new ≡ T.told site.old }
    ensures no_fall { (T.faults site.old ≤ T.faults site.new) × (K.faults out.old ≤ K.faults out.new) }
{
    match hire_all(alloc, task, supply, leader, site, pool) {
        Ok(()) => work_all(
            rt,
            alloc,
            carry,
            task,
            address,
            &pool.shared,
            &mut supply.meter,
            leader,
            site,
            gauge,
            out,
            pool.workers.as_mut_slice(),
        ),
        Err(end) => end,
    }
}

// Runs workers that are fitted, once it is told where the proxy listens.
#[tactic(auto, using(crate::proofs::Running::works_none))]
fn work_all<R, T, M, G, K, D>(
    rt: &R,
    alloc: Global,
    carry: &D,
    task: &Task<'_>,
    address: &Octets,
    shared: &Shared,
    meter: &mut M,
    leader: &mut Leader,
    site: &mut T,
    gauge: &mut G,
    out: &mut K,
    workers: &mut [Worker<M::Metered, T::C, OpenGate, T::L>],
) -> WireEnd
where
    R: Threads + Wait + Clock + Sync,
    D: CarryOut + Sync,
    T: WireSite,
    M: Meter<T::W>,
    M::Metered: Send,
    T::C: Send,
    T::L: Send,
    G: Gauge,
    K: Sink,
    requires ready { (i : ℕ) (w : _) → i < length workers.old → IsReady (outside_of M.Metered.Wires T.C.moments T.L.contents T.L.told T.L.faults) shared.now i (slice_index_or workers.old i w) }
    requires leads { Leads shared.now.posts.items leader.old }
    ensures works { WorksAll (outside_of M.Metered.Wires T.C.moments T.L.contents T.L.told T.L.faults) shared.now task.now.turns address.now workers.old workers.new (K.contents out.old) (K.contents out.new) result }
    ensures cause { wire_status result ≡ status.WriteFault → (Rose (T.faults site.old) (T.faults site.new) ⊎ Rose (K.faults out.old) (K.faults out.new)) ⊎ OneFailed (outside_of M.Metered.Wires T.C.moments T.L.contents T.L.told T.L.faults) workers.new }
    ensures wired { T.wired site.new ≡ T.wired site.old }
    ensures told { T.told site.new ≡ T.told site.old }
    ensures no_fall { (T.faults site.old ≤ T.faults site.new) × (K.faults out.old ≤ K.faults out.new) }
{
    if let Err(end) = tell_listening(alloc, address, out) {
        return end;
    }
    leader.look(rt, alloc, task.config, gauge, shared.posts.as_slice());
    meter.put(task.config.proxy.accept_rate);
    let (ends, led) = run_beside(
        rt, alloc, carry, task, shared, leader, meter, site, gauge, workers,
    );
    end_of(ends, led)
}

fn tell_listening<K: Sink>(alloc: Global, address: &Octets, out: &mut K) -> Result<(), WireEnd>
    ensures ok { OnOk result (Appends (K.contents out.old) (K.contents out.new) (listening_line address.now)) }
    ensures line { AppendsFront (K.contents out.old) (K.contents out.new) (listening_line address.now) }
    ensures cut { IfErr result (λ end. IsCutShort (wire_status end)) }
    ensures cause { IfErr result (λ end. wire_status end ≡ status.WriteFault → Rose (K.faults out.old) (K.faults out.new)) }
    ensures no_fall { K.faults out.old ≤ K.faults out.new }
{
    let mut line = Octets::new(alloc);
    put_listening(address.as_slice(), &mut line)?;
    match write_all(out, line.as_slice()) {
        Ok(()) => Ok(()),
        Err(Failed) => Err(WireEnd::Write),
    }
}
