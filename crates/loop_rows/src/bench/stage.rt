// What a worker begins with whose turns are measured.
ghost use Rattle.loop_rows.specs.Workers.{IsFresh, IsReady};
ghost use Rattle.mem_ports.specs.Memory.{seen_of};
ghost use Rattle.proxy_config.specs.Ranges.{IsInRange};
ghost use Rattle.std.specs.Prelude.{IfOk};

use crate::bench::quiet::Quiet;
use crate::script::Script;
use crate::stage::Desk;
use flow_notes::Names;
use io_ports::NoMemory;
use mem_ports::{MemClock, MemWires, Room};
use proxy_config::Config;
use std::alloc::Global;
use std::collections::VecDeque;
use std::sync::Wait;
use worker_ports::Wired;

/// The record of the connections has room for one offer of a turn.
const ROOM: Room = Room {
    offers: 1,
    octets: 1_000,
};

/// How many permits there are.
const PERMITS: u64 = 1 << 20;

/// What a worker begins with, beside its core.
#[derive(Drop)]
pub struct Stage {
    pub desk: Desk,
    pub wires: MemWires,
    pub clock: MemClock,
    pub journal: Quiet,
}

impl Stage {
    /// A stage on which so many clients come, and then nothing.
    pub fn new<R: AllocGlobal + Wait>(
        rt: &R,
        config: &Config,
        names: &Names,
        clients: u32,
    ) -> Result<Self, NoMemory>
        requires { IsInRange config.now }
        ensures ready { IfOk result (λ made. IsReady made.desk) }
        ensures fresh { IfOk result (λ made. IsFresh names.now (seen_of made.wires)) }
    {
        let wires = wires_of(rt.alloc(), names, clients)?;
        let desk = desk_of(rt, config)?;
        Ok(Stage {
            desk,
            wires,
            clock: MemClock::new(Vec::new(rt.alloc())),
            journal: Quiet { octets: 0 },
        })
    }
}

// A desk where nothing is posted and nothing was published.
fn desk_of<R: AllocGlobal + Wait>(rt: &R, config: &Config) -> Result<Desk, NoMemory>
    requires { IsInRange config.now }
    ensures { IfOk result IsReady }
{
    let script = Script::new(rt.alloc());
    let desk = Desk::new(rt, config, &script, PERMITS);
    drop(script);
    desk
}

fn wires_of(alloc: Global, names: &Names, clients: u32) -> Result<MemWires, NoMemory>
    ensures { IfOk result (λ wires. IsFresh names.now (seen_of wires)) }
{
    let Ok(clusters) = u32::try_from(names.len()) else {
        return Err(NoMemory);
    };
    let answers = arrivals(alloc, clients)?;
    Ok(MemWires::new(alloc, clusters, answers, ROOM, Vec::new(alloc)))
}

// So many clients come.
fn arrivals(alloc: Global, clients: u32) -> Result<VecDeque<Wired>, NoMemory> {
    let mut answers = VecDeque::new(alloc);
    for client in 1..=clients {
        answers.push_back(Wired::Accept(client))?;
    }
    Ok(answers)
}
