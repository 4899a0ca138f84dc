// A core that is given what its peers do.
ghost use Rattle.proxy_config.specs.Ranges.{IsInRange};

use crate::peers::Peers;
use anyhow::{anyhow, bail, ensure};
use bench_parts::CpuStopwatch;
use config_tables::read_config;
use flow_notes::{Event, Note, Notes, Passage};
use io_ports::{NoMemory, Octets};
use proxy_config::Config;
use std::alloc::Global;
use std::marker::Model;
use std::time::CpuClock;
use wire_steps::WireSteps;
use worker_core::Core;

/// The most octets of a configuration.
const MOST_CONFIG: usize = 4_096;

/// That memory ran out, as the error of a bench.
pub fn no_memory(_: NoMemory) -> anyhow::Error {
    anyhow!("out of memory")
}

/// What events took: nanoseconds of processor time, and how many notes the last of them wrote.
#[derive(Clone, Copy)]
pub struct Cost {
    pub nanos: u64,
    pub notes: u64,
}

/// A core of wire sessions, and the room for its notes.
#[derive(Drop)]
pub struct Rig {
    core: Core,
    notes: Notes,
}

impl Model for Rig {
    ghost use Rattle.core_rig.specs.Rigs.{IsFit};
    ghost use Rattle.std.specs.Prelude.{Bool, true};

    ghost Value = { Bool };

    ghost view = { λ a. true };

    ghost invariant = { λ a. IsFit a.core.kind };
}

impl Rig {
    /// Before the first event of sessions under this configuration, of at most 4,096 octets.
    pub fn new(alloc: Global, config: &[u8]) -> anyhow::Result<Self> {
        ensure!(config.len() <= MOST_CONFIG, "the configuration is too long");
        match read_config(alloc, config) {
            Ok(config) => Rig::under(alloc, config),
            Err(_) => bail!("the configuration is refused"),
        }
    }

    fn under(alloc: Global, config: Config) -> anyhow::Result<Self>
        requires { IsInRange config }
    {
        match Core::new(alloc, config) {
            Ok(core) => Ok(Rig {
                core,
                notes: Notes::new(alloc),
            }),
            Err(_) => bail!("out of memory"),
        }
    }

    /// Dispatches one event.
    #[tactic(auto, using(crate::proofs::Fitting::may_take, crate::proofs::Fitting::stays_fit))]
    pub fn go(&mut self, event: &Event) -> anyhow::Result<()> {
        self.notes.clear();
        let went = self.core.dispatch(&WireSteps, event, &mut self.notes);
        ensure!(went.is_ok(), "a dispatch failed");
        Ok(())
    }

    /// Dispatches what peers do.
    pub fn play(&mut self, peers: &Peers) -> anyhow::Result<()> {
        for event in peers.events() {
            self.go(event)?;
        }
        Ok(())
    }

    /// The same, where there was memory to put it together.
    pub fn play_made(&mut self, made: Result<Peers, NoMemory>) -> anyhow::Result<()> {
        match made {
            Ok(peers) => self.play(&peers),
            Err(NoMemory) => bail!("out of memory"),
        }
    }

    /// Dispatches what peers do, and tells what it took.
    pub fn cost(&mut self, clock: &impl CpuClock, peers: &Peers) -> anyhow::Result<Cost> {
        let watch = CpuStopwatch::start(clock)?;
        self.play(peers)?;
        Ok(Cost {
            nanos: watch.nanos(clock)?,
            notes: self.notes.len() as u64,
        })
    }

    // The same, behind what they did before.
    fn play_both(
        &mut self,
        clock: &impl CpuClock,
        before: &Peers,
        then: &Peers,
    ) -> anyhow::Result<Cost> {
        self.play(before)?;
        self.cost(clock, then)
    }

    /// How many octets the last dispatch granted on a stream.
    pub fn granted(&self, conn: u32, stream: u32) -> usize {
        let mut sum = 0usize;
        for passage in self.notes.passages() {
            sum = sum.saturating_add(credit_of(passage, conn, stream));
        }
        sum
    }
}

/// What it takes on a new core under this configuration that peers do something, behind what they did before.
pub fn cost_behind(
    rt: &(impl AllocGlobal + CpuClock),
    config: &[u8],
    before: &Peers,
    then: &Peers,
) -> anyhow::Result<Cost> {
    let mut rig = Rig::new(rt.alloc(), config)?;
    let cost = rig.play_both(rt, before, then);
    drop(rig);
    cost
}

// What a note grants on a stream.
fn credit_of(passage: Passage<'_>, conn: u32, stream: u32) -> usize {
    match passage {
        Passage::One(
            Note::Credit {
                conn: at,
                stream: on,
                n,
            },
        ) if *at == conn && *on == stream => *n as usize,
        _ => 0,
    }
}

/// So many octets 7.
pub fn piece(alloc: Global, n: usize) -> anyhow::Result<Octets> {
    let Ok(piece) = vec![in alloc; 7u8; n] else {
        bail!("out of memory");
    };
    Ok(Octets::from_vec(piece))
}
