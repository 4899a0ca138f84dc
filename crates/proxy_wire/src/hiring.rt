// Workers get what they work over.
ghost use Rattle.std.specs.Prelude.{All, IfErr, OnErr, OnOk, Some, length, vec_capacity, vec_len, ◌+◌, ◌<◌, ◌^◌, ◌≡◌, ◌≤◌, ◌⊎◌};
ghost use Rattle.std.specs.Io.KnownBytes.{Appends};
ghost use Rattle.io_ports.specs.Faults.{Rose};
ghost use Rattle.proxy_site.specs.Relaying.{IsCutShort};
ghost use Rattle.proxy_wire.specs.Pools.{OneFailed, SharesOf};
ghost use Rattle.proxy_wire.specs.Hires.{Fits, HasParts, HiresAll, HiresNone, HiresOne, HiresSome, Joins, SharesMore, Stays};
ghost use Rattle.proxy_wire.specs.Leading.{Leads};
ghost use Rattle.proxy_wire.specs.Serving.{wire_status};
ghost use Rattle.proxy_wire.specs.Tasks.{IsTask};
ghost use Rattle.session_run.specs.Ends.{AppendsFront};
ghost use Rattle.session_run.specs.declared.status.Status.TheVariants as status;
ghost use Rattle.shared_state.specs.PermitSeats.{IsSeatOf, seats_in};
ghost use Rattle.worker_threads.specs.Starting.{outside_of};

use crate::end::{WireEnd, unfitted};
use crate::leading::Leader;
use crate::meter::Meter;
use crate::pool::{Parts, Pool, Supply, Task, take_next};
use io_ports::Failed;
use proxy_config::Config;
use proxy_site::WireSite;
use std::alloc::Global;
use worker_loop::HeldPermits;
use worker_parts::{Journal, begin_journal};
use worker_ports::{Clock, OpenGate, Wires};
use worker_threads::Worker;

/// Fits the configuration's workers in their order, each behind the head of its journal, into a pool that has room for them. Those
/// that were fitted before a refusal stay in the pool.
pub(crate) fn hire_all<T: WireSite, M: Meter<T::W>>(
    alloc: Global,
    task: &Task<'_>,
    supply: &mut Supply<M>,
    leader: &mut Leader,
    site: &mut T,
    pool: &mut Pool<M::Metered, T::C, T::L>,
) -> Result<(), WireEnd>
    requires task { IsTask task.now }
    requires shares { SharesOf task.now.config.now pool.old.shared }
    requires none { (vec_len pool.old.workers ≡ 0) × (vec_len pool.old.shared.posts ≡ 0) }
    requires room { task.now.config.now.proxy.workers ≤ vec_capacity pool.old.workers }
    requires seats { All (IsSeatOf pool.old.shared.permits) (seats_in supply.old.seats) }
    requires leads { Leads pool.old.shared.posts.items leader.old }
    ensures all { OnOk result (HiresAll M.bare (outside_of M.Metered.Wires T.C.moments T.L.contents T.L.told T.L.faults) task.now.config.now (T.wired site.old) (T.wired site.new) pool.new) }
    ensures leads { OnOk result (Leads pool.new.shared.posts.items leader.new) }
    ensures some { HiresSome M.bare (outside_of M.Metered.Wires T.C.moments T.L.contents T.L.told T.L.faults) task.now.config.now pool.new.shared.permits (T.wired site.old) (T.wired site.new) pool.new.workers.items }
    ensures cut { IfErr result (λ end. IsCutShort (wire_status end)) }
    ensures cause { IfErr result (λ end. wire_status end ≡ status.WriteFault → Rose (T.faults site.old) (T.faults site.new) ⊎ OneFailed (outside_of M.Metered.Wires T.C.moments T.L.contents T.L.told T.L.faults) pool.new.workers.items) }
    ensures told { T.told site.new ≡ T.told site.old }
    ensures no_fall { T.faults site.old ≤ T.faults site.new }
{
    for place in 0..task.config.proxy.workers {
        hire_next(alloc, place, task, supply, leader, site, pool)?;
    }
    Ok(())
}

// Fits the worker at this place, which is the next one.
fn hire_next<T: WireSite, M: Meter<T::W>>(
    alloc: Global,
    place: u32,
    task: &Task<'_>,
    supply: &mut Supply<M>,
    leader: &mut Leader,
    site: &mut T,
    pool: &mut Pool<M::Metered, T::C, T::L>,
) -> Result<(), WireEnd>
    requires task { IsTask task.now }
    requires place { (place ≡ vec_len pool.old.workers) × (place ≡ vec_len pool.old.shared.posts) }
    requires room { (place + 1 < 2 ^ 32) × (place < vec_capacity pool.old.workers) }
    requires shares { SharesOf task.now.config.now pool.old.shared }
    requires seats { All (IsSeatOf pool.old.shared.permits) (seats_in supply.old.seats) }
    requires leads { Leads pool.old.shared.posts.items leader.old }
    ensures one { OnOk result (HiresOne M.bare (outside_of M.Metered.Wires T.C.moments T.L.contents T.L.told T.L.faults) task.now.config.now (T.wired site.old) (T.wired site.new) pool.old pool.new) }
    ensures leads { OnOk result (Leads pool.new.shared.posts.items leader.new) }
    ensures none { OnErr result (HiresNone M.bare (outside_of M.Metered.Wires T.C.moments T.L.contents T.L.told T.L.faults) pool.old.shared.permits (T.wired site.old) (T.wired site.new) pool.old.workers.items pool.new.workers.items) }
    ensures shares { OnOk result (SharesMore pool.old.shared pool.new.shared) }
    ensures permits { pool.new.shared.permits ≡ pool.old.shared.permits }
    ensures room { vec_capacity pool.new.workers ≡ vec_capacity pool.old.workers }
    ensures seats { All (IsSeatOf pool.old.shared.permits) (seats_in supply.new.seats) }
    ensures cut { IfErr result (λ end. IsCutShort (wire_status end)) }
    ensures cause { IfErr result (λ end. wire_status end ≡ status.WriteFault → Rose (T.faults site.old) (T.faults site.new) ⊎ OneFailed (outside_of M.Metered.Wires T.C.moments T.L.contents T.L.told T.L.faults) pool.new.workers.items) }
    ensures told { T.told site.new ≡ T.told site.old }
    ensures no_fall { T.faults site.old ≤ T.faults site.new }
{
    let Some(ticket) = supply.meter.take() else {
        return Err(WireEnd::Memory);
    };
    let pass = leader.add_box(alloc, &mut pool.shared.posts)?;
    supply.prepare(alloc, task, &pool.shared.permits, pass)?;
    hire::<T, M>(alloc, place, task.config, supply, ticket, site, pool)
}

// Fits the worker at this place, which is made of the next parts.
fn hire<T: WireSite, M: Meter<T::W>>(
    alloc: Global,
    place: u32,
    config: &Config,
    supply: &mut Supply<M>,
    ticket: M::Ticket,
    site: &mut T,
    pool: &mut Pool<M::Metered, T::C, T::L>,
) -> Result<(), WireEnd>
    requires place { place ≡ vec_len pool.old.workers }
    requires room { (place + 1 < 2 ^ 32) × (place < vec_capacity pool.old.workers) }
    requires next { HasParts supply.old.next }
    ensures fits { (parts : Parts) → supply.old.next ≡ Some parts → OnOk result (Fits M.bare (outside_of M.Metered.Wires T.C.moments T.L.contents T.L.told T.L.faults) Appends (length config.now.clusters) parts parts.pass (T.wired site.old) (T.wired site.new) pool.old.workers.items pool.new.workers.items) }
    ensures some { (parts : Parts) → supply.old.next ≡ Some parts → OnErr result (Stays M.bare (outside_of M.Metered.Wires T.C.moments T.L.contents T.L.told T.L.faults) (T.wired site.old) (T.wired site.new) pool.old.workers.items pool.new.workers.items ⊎ Fits M.bare (outside_of M.Metered.Wires T.C.moments T.L.contents T.L.told T.L.faults) AppendsFront (length config.now.clusters) parts parts.pass (T.wired site.old) (T.wired site.new) pool.old.workers.items pool.new.workers.items) }
    ensures seats { supply.new.seats ≡ supply.old.seats }
    ensures shared { pool.new.shared ≡ pool.old.shared }
    ensures room { vec_capacity pool.new.workers ≡ vec_capacity pool.old.workers }
    ensures cut { IfErr result (λ end. IsCutShort (wire_status end)) }
    ensures cause { IfErr result (λ end. wire_status end ≡ status.WriteFault → Rose (T.faults site.old) (T.faults site.new) ⊎ OneFailed (outside_of M.Metered.Wires T.C.moments T.L.contents T.L.told T.L.faults) pool.new.workers.items) }
    ensures told { T.told site.new ≡ T.told site.old }
    ensures no_fall { T.faults site.old ≤ T.faults site.new }
{
    match site.fit(place + 1, config) {
        Ok((wires, clock, journal)) => {
            enlist(
                alloc,
                &mut supply.next,
                M::wrap(ticket, wires),
                clock,
                journal,
                pool,
            )
        }
        Err(refusal) => Err(unfitted(refusal)),
    }
}

// A worker of the next parts joins the pool, behind the head of its journal, or a front of it.
fn enlist<W: Wires, C: Clock, L: Journal>(
    alloc: Global,
    next: &mut Option<Parts>,
    wires: W,
    clock: C,
    mut journal: L,
    pool: &mut Pool<W, C, L>,
) -> Result<(), WireEnd>
    requires room { vec_len pool.old.workers < vec_capacity pool.old.workers }
    requires next { HasParts next.old }
    ensures joins { (parts : Parts) → next.old ≡ Some parts → OnOk result (Joins (λ w. w) (outside_of W.Wires C.moments L.contents L.told L.faults) Appends parts parts.pass (wires, (clock, journal)) pool.old.workers.items pool.new.workers.items) }
    ensures front { (parts : Parts) → next.old ≡ Some parts → Joins (λ w. w) (outside_of W.Wires C.moments L.contents L.told L.faults) AppendsFront parts parts.pass (wires, (clock, journal)) pool.old.workers.items pool.new.workers.items }
    ensures failed { IfErr result (λ end. (end ≡ WireEnd.JournalHead) × OneFailed (outside_of W.Wires C.moments L.contents L.told L.faults) pool.new.workers.items) }
    ensures shared { pool.new.shared ≡ pool.old.shared }
    ensures room { vec_capacity pool.new.workers ≡ vec_capacity pool.old.workers }
{
    let head = begin_journal(&mut journal);
    let parts = take_next(next);
    let Parts {
        core,
        follower,
        seat,
        pass,
    } = parts;
    pool.workers.push_reserved(Worker {
        core,
        pass,
        follower,
        seat,
        held: HeldPermits::new(alloc),
        wires,
        clock,
        gate: OpenGate,
        journal,
        ended: None,
    });
    match head {
        Ok(()) => Ok(()),
        Err(Failed) => Err(WireEnd::JournalHead),
    }
}
