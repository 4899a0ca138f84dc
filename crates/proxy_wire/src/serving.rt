// The proxy of HTTP/2 under a configuration.
ghost use Rattle.std.specs.Prelude.{IfOk, length, replicate, ◌≡◌, ◌≤◌, ◌⊎◌};
ghost use Rattle.proxy_site.specs.Relaying.{SiteOrOut};
ghost use Rattle.proxy_wire.specs.Pools.{IsStaff};
ghost use Rattle.proxy_wire.specs.Leading.{Leads};
ghost use Rattle.proxy_wire.specs.Serving.{AllRan, NoneRan, ServesWire, metered_outside, wire_status};
ghost use Rattle.proxy_wire.specs.Tasks.{IsTask};
ghost use Rattle.metered_wires.specs.declared.metering.MeteredWires.{MeteredWires};
ghost use Rattle.worker_threads.specs.Starting.{outside_of};

use crate::end::WireEnd;
use crate::leading::Leader;
use crate::meter::Unmetered;
use crate::metering::Metering;
use crate::pool::{Staff, Supply, Task, metered, share};
use crate::working::run;
use io_ports::{NoMemory, Octets, PressureList, Sink};
use proxy_config::Config;
use proxy_site::{SiteRefusal, WireSite};
use shared_state::make_shared;
use shared_tokens::Bucket;
use std::alloc::Global;
use std::sync::Wait;
use std::thread::Threads;
use std::time::Clock;
use wire_state::CarryOut;
use worker_ports::Gauge;

/// Listens, and runs so many turns of each worker, while clients are accepted and gauges read beside them. What a worker was given
/// to work over goes back to the site in any case.
#[tactic(auto, using(crate::proofs::Served::not_listened, crate::proofs::Posting::leads_none))]
pub(crate) fn serve_wire<R, T, G, K, D>(
    rt: &R,
    alloc: Global,
    carry: &D,
    task: &Task<'_>,
    site: &mut T,
    gauge: &mut G,
    out: &mut K,
) -> WireEnd
where
    R: Threads + Wait + Clock + Sync,
    D: CarryOut + Sync,
    T: WireSite,
    T::W: Send,
    T::C: Send,
    T::L: Send,
    G: Gauge,
    K: Sink,
    requires task { IsTask task.now }
    ensures serves { ServesWire T.W.Wires (outside_of T.W.Wires T.C.moments T.L.contents T.L.told T.L.faults) task.now.config.now task.now.turns (T.told site.old) (T.told site.new) (T.wired site.old) (T.wired site.new) (K.contents out.old) (K.contents out.new) (wire_status result) }
    ensures write_fault { SiteOrOut (wire_status result) (T.faults site.old) (T.faults site.new) (K.faults out.old) (K.faults out.new) }
    ensures no_fall { (T.faults site.old ≤ T.faults site.new) × (K.faults out.old ≤ K.faults out.new) }
{
    let config = task.config;
    let Ok(pressures) = no_pressures(alloc, config) else {
        return WireEnd::Memory;
    };
    let Ok((shared, seats)) = share(alloc, config) else {
        return WireEnd::Memory;
    };
    let Ok((publisher, followers)) = make_shared(rt, alloc, config, config.proxy.workers) else {
        drop(shared);
        drop(seats);
        return WireEnd::Memory;
    };
    let mut leader = Leader::new(alloc, publisher, pressures);
    let supply = Supply {
        followers,
        seats,
        meter: Unmetered,
        next: None,
    };
    let staff = Staff { shared, supply };
    let end = listen_and_run(rt, alloc, carry, task, staff, &mut leader, site, gauge, out);
    leader.end(rt);
    end
}

// Listens, and runs the workers.
#[tactic(auto, using(crate::proofs::Served::not_listened, crate::proofs::Served::fault_later))]
fn listen_and_run<R, T, G, K, D>(
    rt: &R,
    alloc: Global,
    carry: &D,
    task: &Task<'_>,
    staff: Staff<Unmetered>,
    leader: &mut Leader,
    site: &mut T,
    gauge: &mut G,
    out: &mut K,
) -> WireEnd
where
    R: Threads + Wait + Clock + Sync,
    D: CarryOut + Sync,
    T: WireSite,
    T::W: Send,
    T::C: Send,
    T::L: Send,
    G: Gauge,
    K: Sink,
    requires task { IsTask task.now }
    requires staff { IsStaff task.now.config.now staff }
    requires leads { Leads staff.shared.posts.items leader.old }
    ensures serves { ServesWire T.W.Wires (outside_of T.W.Wires T.C.moments T.L.contents T.L.told T.L.faults) task.now.config.now task.now.turns (T.told site.old) (T.told site.new) (T.wired site.old) (T.wired site.new) (K.contents out.old) (K.contents out.new) (wire_status result) }
    ensures write_fault { SiteOrOut (wire_status result) (T.faults site.old) (T.faults site.new) (K.faults out.old) (K.faults out.new) }
    ensures no_fall { (T.faults site.old ≤ T.faults site.new) × (K.faults out.old ≤ K.faults out.new) }
{
    let config = task.config;
    let address = match site.listen_for_workers(&config.proxy.listen) {
        Ok(address) => address,
        Err(SiteRefusal::Failed) => {
            drop(staff);
            return WireEnd::Listen;
        }
        Err(SiteRefusal::NoMemory) => {
            drop(staff);
            return WireEnd::Memory;
        }
    };
    if config.proxy.accept_rate == 0 {
        run(
            rt, alloc, carry, task, &address, staff, leader, site, gauge, out,
        )
    } else {
        limit_and_run(
            rt, alloc, carry, task, &address, staff, leader, site, gauge, out,
        )
    }
}

// Runs the workers, whose connections of clients take tokens of a bucket.
#[tactic(auto, using(crate::proofs::Sharing::new_takers, crate::proofs::Sharing::staff_kept, crate::proofs::Sharing::leads_kept, crate::proofs::Running::none_begun))]
fn limit_and_run<R, T, G, K, D>(
    rt: &R,
    alloc: Global,
    carry: &D,
    task: &Task<'_>,
    address: &Octets,
    staff: Staff<Unmetered>,
    leader: &mut Leader,
    site: &mut T,
    gauge: &mut G,
    out: &mut K,
) -> WireEnd
where
    R: Threads + Wait + Clock + Sync,
    D: CarryOut + Sync,
    T: WireSite,
    T::W: Send,
    T::C: Send,
    T::L: Send,
    G: Gauge,
    K: Sink,
    requires task { IsTask task.now }
    requires staff { IsStaff task.now.config.now staff }
    requires leads { Leads staff.shared.posts.items leader.old }
    ensures ran { NoneRan T.W.seen T.L.contents task.now.config.now address.now (T.wired site.old) (T.wired site.new) (K.contents out.old) (K.contents out.new) (wire_status result)
        ⊎ AllRan (λ (m : MeteredWires T.W T.W.Wires). m.inner) (metered_outside T.W.Wires (outside_of T.W.Wires T.C.moments T.L.contents T.L.told T.L.faults)) task.now.config.now task.now.turns address.now (T.wired site.old) (T.wired site.new) (K.contents out.old) (K.contents out.new) (wire_status result) }
    ensures told { T.told site.new ≡ T.told site.old }
    ensures write_fault { SiteOrOut (wire_status result) (T.faults site.old) (T.faults site.new) (K.faults out.old) (K.faults out.new) }
    ensures no_fall { (T.faults site.old ≤ T.faults site.new) × (K.faults out.old ≤ K.faults out.new) }
{
    let burst = u64::from(task.config.proxy.accept_burst);
    let Ok((bucket, seats, put)) = Bucket::new(alloc, burst, task.config.proxy.workers) else {
        drop(staff);
        return WireEnd::Memory;
    };
    let meter = Metering {
        bucket: &bucket,
        seats,
        put,
    };
    let staff = metered(staff, meter);
    run(
        rt, alloc, carry, task, address, staff, leader, site, gauge, out,
    )
}

// One pressure of 0 for each resource.
fn no_pressures(alloc: Global, config: &Config) -> Result<PressureList, NoMemory>
    ensures { IfOk result (λ pressures. pressures ≡ replicate (length config.now.overload.resources) 0) }
{
    let count = config.overload.resources.as_slice().len();
    Ok(PressureList::from_vec(vec![in alloc; 0u32; count]?))
}
