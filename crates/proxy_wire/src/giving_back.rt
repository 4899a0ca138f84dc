// What workers worked over goes back to the site.
ghost use Rattle.std.specs.Prelude.{All, [], map, reverse, vec_len, ◌<◌, ◌∷◌, ◌^◌, ◌≡◌, ◌≤◌, ◌⊎◌};
ghost use Rattle.io_ports.specs.Faults.{Rose};
ghost use Rattle.proxy_wire.specs.Pools.{IsBackOf, IsPaid, OneFailed, back_of};
ghost use Rattle.proxy_site.specs.WireSites.{TellsReturned, numbered};
ghost use Rattle.shared_state.specs.PermitSeats.{IsSeatOf};
ghost use Rattle.worker_threads.specs.Starting.{outside_of};

use crate::meter::Meter;
use proxy_site::WireSite;
use shared_state::{PermitSeat, Permits};
use worker_loop::HeldPermits;
use worker_ports::OpenGate;
use worker_threads::Worker;

/// What goes back of a worker.
pub(crate) struct Back<M, L> {
    pub held: HeldPermits,
    pub seat: PermitSeat,
    pub wires: M,
    pub journal: L,
}

/// What the workers worked over goes back to the site, the last worker's first.
pub(crate) fn give_back_all<T: WireSite, M: Meter<T::W>>(
    site: &mut T,
    permits: &Permits,
    mut workers: Vec<Worker<M::Metered, T::C, OpenGate, T::L>>,
)
    requires few { vec_len workers < 2 ^ 32 }
    requires paid { All (IsPaid permits.now) workers.items }
    ensures wired { TellsReturned (T.wired site.old) (reverse (numbered 1 (map (back_of M.bare) workers.items))) (T.wired site.new) }
    ensures told { T.told site.new ≡ T.told site.old }
    ensures count { OneFailed (outside_of M.Metered.Wires T.C.moments T.L.contents T.L.told T.L.faults) workers.items → Rose (T.faults site.old) (T.faults site.new) }
    ensures no_fall { T.faults site.old ≤ T.faults site.new }
{
    while let Some(worker) = workers.pop() {
        give_back::<T, M>(site, permits, workers.len() as u32 + 1, worker);
    }
    workers.destroy_empty();
}

// What a worker worked over goes back to the site, and its permits to the others.
fn give_back<T: WireSite, M: Meter<T::W>>(
    site: &mut T,
    permits: &Permits,
    number: u32,
    worker: Worker<M::Metered, T::C, OpenGate, T::L>,
)
    requires paid { IsPaid permits.now worker }
    ensures wired { TellsReturned (T.wired site.old) ((number, back_of M.bare worker) ∷ []) (T.wired site.new) }
    ensures told { T.told site.new ≡ T.told site.old }
    ensures count { (0 < M.Metered.faults worker.wires) ⊎ (0 < T.L.faults worker.journal) → Rose (T.faults site.old) (T.faults site.new) }
    ensures no_fall { T.faults site.old ≤ T.faults site.new }
{
    let back = take_apart(worker);
    give_parts_back::<T, M>(site, permits, number, back);
}

// The rest of the worker ends here.
fn take_apart<M, C: Drop, L>(worker: Worker<M, C, OpenGate, L>) -> Back<M, L>
    ensures { IsBackOf worker result }
{
    let Worker {
        core,
        pass,
        follower,
        seat,
        held,
        wires,
        clock,
        gate: _,
        journal,
        ended: _,
    } = worker;
    drop(core);
    drop(pass);
    drop(follower);
    drop(clock);
    Back {
        held,
        seat,
        wires,
        journal,
    }
}

fn give_parts_back<T: WireSite, M: Meter<T::W>>(
    site: &mut T,
    permits: &Permits,
    number: u32,
    back: Back<M::Metered, T::L>,
)
    requires seat { IsSeatOf permits.now back.seat }
    requires none { back.held ≡ [] }
    ensures wired { TellsReturned (T.wired site.old) ((number, (M.bare back.wires, back.journal)) ∷ []) (T.wired site.new) }
    ensures told { T.told site.new ≡ T.told site.old }
    ensures count { (0 < M.Metered.faults back.wires) ⊎ (0 < T.L.faults back.journal) → Rose (T.faults site.old) (T.faults site.new) }
    ensures no_fall { T.faults site.old ≤ T.faults site.new }
{
    let Back {
        held,
        mut seat,
        wires,
        journal,
    } = back;
    held.give_back(permits, &mut seat);
    site.give_back(number, M::unwrap(wires), journal);
}
