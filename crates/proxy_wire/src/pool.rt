// The workers of the proxy, and what they are made of.
ghost use Rattle.std.specs.Prelude.{[], All, IfOk, OnOk, vec_len, ◌≡◌};
ghost use Rattle.proxy_config.specs.Ranges.{IsInRange};
ghost use Rattle.proxy_wire.specs.Pools.{SharesOf};
ghost use Rattle.proxy_wire.specs.Hires.{HasParts, IsNext, IsTaken};
ghost use Rattle.proxy_wire.specs.Tasks.{IsTask};
ghost use Rattle.shared_state.specs.PermitSeats.{IsSeatOf, seats_in};
ghost use Rattle.worker_core.specs.Sessions.{IsNew, RestsWire, StandsAt};

use crate::meter::Unmetered;
use config_tables::read_config;
use io_ports::NoMemory;
use post_queue::RunnerPass;
use proxy_config::Config;
use session_config::names_of;
use shared_state::{Follower, Followers, PermitSeat, PermitSeats, Permits};
use std::alloc::Global;
use std::sync::atomic::{AtomicBool, AtomicU32};
use worker_core::Core;
use worker_ports::OpenGate;
use worker_threads::{Shared, Worker};

/// What the workers are to do: under which configuration, which was read from which text, and for how many turns each.
#[derive(Drop)]
pub(crate) struct Task<'a> {
    pub config: &'a Config,
    pub text: &'a [u8],
    pub turns: u64,
}

/// The workers that were fitted, and what they share. It can't be dropped: `give_back_all` ends it.
pub(crate) struct Pool<M, C, L> {
    pub workers: Vec<Worker<M, C, OpenGate, L>>,
    pub shared: Shared,
}

/// What workers share, and what is given out to them.
#[derive(Drop)]
pub(crate) struct Staff<M> {
    pub shared: Shared,
    pub supply: Supply<M>,
}

/// What is given out to workers: followers, seats of permits, and of a meter the rights to have connections.
#[derive(Drop)]
pub(crate) struct Supply<M> {
    pub followers: Followers,
    pub seats: PermitSeats,
    pub meter: M,
    /// What the next worker is made of, once it is had.
    pub next: Option<Parts>,
}

/// What a worker is made of.
#[derive(Drop)]
pub(crate) struct Parts {
    pub core: Core,
    pub follower: Follower,
    pub seat: PermitSeat,
    pub pass: RunnerPass,
}

/// What the workers of the configuration share, as long as there are none, and a seat for each.
#[tactic(auto, using(crate::proofs::Sharing::new_seats))]
pub(crate) fn share(alloc: Global, config: &Config) -> Result<(Shared, PermitSeats), NoMemory>
    requires { IsInRange config.now }
    ensures shares { IfOk result (λ made. SharesOf config.now made.0) }
    ensures none { IfOk result (λ made. (made.0.posts.items ≡ []) × (vec_len made.0.posts ≡ 0)) }
    ensures seats { IfOk result (λ made. All (IsSeatOf made.0.permits) (seats_in made.1)) }
{
    let most = u64::from(config.proxy.max_connections);
    let (permits, seats) = Permits::new(alloc, most, config.proxy.workers)?;
    let shared = Shared {
        posts: Vec::new(alloc),
        permits,
        names: names_of(alloc, config)?,
        begun: AtomicU32::new(0),
        over: AtomicBool::new(false),
    };
    Ok((shared, seats))
}

/// The same staff, with a meter.
pub(crate) fn metered<M>(staff: Staff<Unmetered>, meter: M) -> Staff<M>
    ensures shared { result.shared ≡ staff.shared }
    ensures seats { result.supply.seats ≡ staff.supply.seats }
{
    let Staff { shared, supply } = staff;
    let Supply {
        followers,
        seats,
        meter: _unmetered,
        next,
    } = supply;
    Staff {
        shared,
        supply: Supply {
            followers,
            seats,
            meter,
            next,
        },
    }
}

impl<M> Supply<M> {
    /// Has what the next worker is made of, behind this pass.
    pub fn prepare(
        &mut self,
        alloc: Global,
        task: &Task<'_>,
        permits: &Permits,
        pass: RunnerPass,
    ) -> Result<(), NoMemory>
        requires task { IsTask task.now }
        requires seats { All (IsSeatOf permits.now) (seats_in self.old.seats) }
        ensures seats { All (IsSeatOf permits.now) (seats_in self.new.seats) }
        ensures next { OnOk result (IsNext task.now.config.now permits.now pass self.new.next) }
    {
        let Some(follower) = self.followers.take_one() else {
            return Err(NoMemory);
        };
        let Some(seat) = self.seats.take_one() else {
            return Err(NoMemory);
        };
        let core = make_core(alloc, task)?;
        drop(
            self.next.replace(Parts {
                core,
                follower,
                seat,
                pass,
            }),
        );
        Ok(())
    }
}

/// What the next worker is made of, which is there no more.
pub(crate) fn take_next(next: &mut Option<Parts>) -> Parts
    requires { HasParts next.old }
    ensures { IsTaken next.old result }
{
    let Some(parts) = next.take() else {
        unreachable!()
    };
    parts
}

// A core of the configuration, which is read from its text once more, since a core owns it.
#[tactic(auto, using(crate::proofs::Sharing::new_core))]
fn make_core(alloc: Global, task: &Task<'_>) -> Result<Core, NoMemory>
    requires { IsTask task.now }
    ensures rests { IfOk result (λ core. RestsWire core.kind) }
    ensures new { IfOk result (λ core. IsNew task.now.config.now core.kind) }
    ensures octets { IfOk result (λ core. StandsAt core.kind []) }
{
    match read_config(alloc, task.text) {
        Ok(config) => Core::new(alloc, config),
        Err(_) => Err(NoMemory),
    }
}
