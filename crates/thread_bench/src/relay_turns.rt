// Turns of a live relay over connections in memory, with few and with many idle pairs beside them.
ghost use Rattle.std.specs.Prelude.{◌≡◌, ◌≤◌, IfOk, OnOk};
ghost use Rattle.relay_ports.specs.Memory.{seen_of};
ghost use Rattle.relay_work.specs.Belonging.{Belongs};

use anyhow::anyhow;
use bench_parts::{CpuStopwatch, Line};
use flow_notes::Names;
use io_ports::{MemSink, Octets};
use mem_ports::Room;
use relay_ports::MemTaps;
use relay_work::{RelayEnded, relay_work};
use std::alloc::Global;
use std::collections::VecDeque;
use std::time::CpuClock;
use tcp_relay::Relay;
use worker_ports::Wired;

/// The limit of each write buffer.
const LIMIT: u32 = 1_048_576;

/// The turns of a round.
const TURNS: u32 = 256;

/// The rounds: so many that the record of the connections, which grows by doubling, weighs little in a turn.
const ROUNDS: u32 = 1_024;

/// The idle pairs.
const IDLE: u32 = 10_000;

/// How many octets the journal of a round has room for.
const JOURNAL: usize = 1_048_576;

/// For how many offers of a turn the record has room.
const ROOM: Room = Room {
    offers: 100,
    octets: 100_000,
};

/// A relay at work, with the connections that it has.
#[derive(Drop)]
struct Work {
    relay: Relay,
    taps: MemTaps,
    names: Names,
}

fn out_of_memory<E: Drop>(_: E) -> anyhow::Error {
    anyhow!("out of memory")
}

impl Work {
    /// A relay without connections, which are to give these answers.
    fn new(alloc: Global, answers: VecDeque<Wired>) -> anyhow::Result<Self>
        ensures { IfOk result (λ work. Belongs work.names work.relay (seen_of work.taps)) }
    {
        let mut names = Names::new(alloc);
        let taps = MemTaps::new(alloc, 1, answers, ROOM, Vec::new(alloc));
        let relay = Relay::new(alloc, LIMIT);
        match names.push(b"a") {
            Ok(()) => Ok(Work { relay, taps, names }),
            Err(refusal) => Err(out_of_memory(refusal)),
        }
    }

    /// A relay with so many pairs, the first of which is the one that is read.
    fn with_pairs(alloc: Global, pairs: u32) -> anyhow::Result<Self>
        requires { pairs ≤ 1000000 }
        ensures { IfOk result (λ work. Belongs work.names work.relay (seen_of work.taps)) }
    {
        let mut work = Work::new(alloc, arrivals(alloc, pairs)?)?;
        match work.run(alloc, 2 * pairs) {
            Ok(()) => Ok(work),
            Err(fault) => {
                drop(work);
                Err(fault)
            }
        }
    }

    /// A round's reads of 100 octets of the client of the first pair, and how long it took to relay them, in nanoseconds.
    fn round(&mut self, rt: &(impl AllocGlobal + CpuClock)) -> anyhow::Result<u64>
        requires { Belongs self.old.names self.old.relay (seen_of self.old.taps) }
        ensures { OnOk result (Belongs self.new.names self.new.relay (seen_of self.new.taps)) }
    {
        tell_reads(&mut self.taps, rt.alloc())?;
        let watch = CpuStopwatch::start(rt)?;
        self.run(rt.alloc(), TURNS)?;
        Ok(watch.nanos(rt)?)
    }

    /// So many turns.
    fn run(&mut self, alloc: Global, turns: u32) -> anyhow::Result<()>
        requires { Belongs self.old.names self.old.relay (seen_of self.old.taps) }
        ensures { OnOk result (Belongs self.new.names self.new.relay (seen_of self.new.taps)) }
    {
        let mut journal = MemSink::new(alloc, JOURNAL, Vec::new(alloc))?;
        match relay_work(
            alloc,
            &mut self.relay,
            &mut self.taps,
            &mut journal,
            &self.names,
            u64::from(turns),
        ) {
            RelayEnded::Turns => Ok(()),
            _ => Err(anyhow!("the work ended early")),
        }
    }
}

// The connections of so many pairs, which come one after the other.
fn arrivals(alloc: Global, pairs: u32) -> anyhow::Result<VecDeque<Wired>>
    requires { pairs ≤ 1000000 }
{
    let mut answers = VecDeque::new(alloc);
    for pair in 0..pairs {
        answers.push_back(Wired::Join(2 * pair + 1, 0))?;
        answers.push_back(Wired::Accept(2 * pair + 2))?;
    }
    Ok(answers)
}

// A read for each turn of a round.
fn tell_reads(taps: &mut MemTaps, alloc: Global) -> anyhow::Result<()>
    ensures { OnOk result (seen_of taps.new ≡ seen_of taps.old) }
{
    for _turn in 0..TURNS {
        let octets = Octets::from_slice(alloc, &[7; 100])?;
        taps.tell(Wired::Read(2, octets))?;
    }
    Ok(())
}

/// Turns with one pair, and with 10,000 idle pairs beside it, in turn.
pub fn run(rt: &(impl AllocGlobal + Print + CpuClock)) -> anyhow::Result<()> {
    let mut alone = Work::with_pairs(rt.alloc(), 1)?;
    let end = run_beside(rt, &mut alone);
    drop(alone);
    end
}

// A work is dropped by a call, since the check follows a drop without one field by field.
fn run_beside(rt: &(impl AllocGlobal + Print + CpuClock), alone: &mut Work) -> anyhow::Result<()>
    requires { Belongs alone.old.names alone.old.relay (seen_of alone.old.taps) }
{
    let mut crowded = Work::with_pairs(rt.alloc(), 1 + IDLE)?;
    let spent = run_rounds(rt, alone, &mut crowded);
    drop(crowded);
    let (one, many) = spent?;
    tell_turns(rt, one, many)
}

// The nanoseconds of all rounds of the one and of the other, in turn.
fn run_rounds(
    rt: &(impl AllocGlobal + CpuClock),
    alone: &mut Work,
    crowded: &mut Work,
) -> anyhow::Result<(u64, u64)>
    requires alone { Belongs alone.old.names alone.old.relay (seen_of alone.old.taps) }
    requires crowded { Belongs crowded.old.names crowded.old.relay (seen_of crowded.old.taps) }
{
    let (mut one, mut many) = (0u64, 0u64);
    for _round in 0..ROUNDS {
        one = one.saturating_add(alone.round(rt)?);
        many = many.saturating_add(crowded.round(rt)?);
    }
    Ok((one, many))
}

fn tell_turns(rt: &(impl AllocGlobal + Print), one: u64, many: u64) -> anyhow::Result<()> {
    let turns = u64::from(TURNS) * u64::from(ROUNDS);
    let mut line = Line::new(rt.alloc());
    line.say_with("a turn with one pair: ", one / turns);
    line.say_with(" ns\nwith 10,000 idle pairs beside it: ", many / turns);
    line.say_times(" ns\nratio: ", many, one);
    Ok(line.print(rt)?)
}
