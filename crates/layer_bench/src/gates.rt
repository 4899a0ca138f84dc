// Calls of the gates while few and while many flows are open.
ghost use Rattle.std.specs.Prelude.{◌≤◌};

use anyhow::ensure;
use bench_parts::{CpuStopwatch, Line, per_second};
use flow_gate::{BufferId, FlowId, Gates};
use io_ports::NoMemory;
use std::alloc::Global;
use std::time::CpuClock;

/// How many flows are open, each with a send buffer of its own that it watches.
const FEW: u64 = 1_000;

const SOME: u64 = 20_000;

const MANY: u64 = 200_000;

/// The turns that each side takes before it is the next one's.
const TURNS_A_ROUND: u64 = 10_000;

const ROUNDS: u64 = 60;

/// A turn is a rise and a drain, each with the two questions whether it may come, the telling of the
/// flow, and one more call that finds nobody left to tell.
const CALLS_A_TURN: u64 = 8;

const CALLS: u64 = CALLS_A_TURN * TURNS_A_ROUND * ROUNDS;

/// How far apart the flows of two turns are: a number that has no divisor in common with the numbers
/// of flows, so each flow has its turn before one has its second.
const STRIDE: u64 = 7_919;

/// Gates on which so many flows are open.
#[derive(Drop)]
struct Side {
    gates: Gates,
    flows: u64,
    /// The flow whose turn is next.
    next: u64,
    /// Nanoseconds of processor time that the turns took.
    nanos: u64,
}

impl Side {
    /// No flow is open yet.
    fn new(alloc: Global, flows: u64) -> Self {
        Side {
            gates: Gates::new(alloc),
            flows,
            next: 0,
            nanos: 0,
        }
    }

    fn open_all(&mut self) -> Result<(), NoMemory> {
        for exchange in 0..self.flows {
            open(&mut self.gates, request(exchange))?;
        }
        Ok(())
    }

    /// Takes a round's turns. Answers how many flows were told.
    fn round(&mut self) -> u64 {
        let mut told = 0u64;
        for _turn in 0..TURNS_A_ROUND {
            told = told.saturating_add(turn(&mut self.gates, request(self.next)));
            self.next = self.next.saturating_add(STRIDE) % self.flows.max(1);
        }
        told
    }

    /// Takes a round's turns, and adds the processor time that they took.
    fn timed_round(&mut self, clock: &impl CpuClock) -> anyhow::Result<()> {
        let watch = CpuStopwatch::start(clock)?;
        let told = self.round();
        self.nanos = self.nanos.saturating_add(watch.nanos(clock)?);
        ensure!(told == TURNS_A_ROUND, "not each flow was told once");
        Ok(())
    }

    fn calls_per_second(&self) -> u64 {
        per_second(CALLS, self.nanos.max(1))
    }
}

/// The request flow of an exchange.
fn request(exchange: u64) -> FlowId {
    FlowId {
        exchange,
        back: false,
    }
}

/// Opens a flow that watches its send buffer.
fn open(gates: &mut Gates, flow: FlowId) -> Result<(), NoMemory> {
    let buffer = BufferId::Send(flow);
    if !gates.is_open(flow) {
        gates.open_flow(flow)?;
    }
    if !gates.is_known(buffer) {
        gates.open_buffer(buffer)?;
    }
    if gates.is_known(buffer) && gates.is_open(flow) && !gates.is_watching(flow, buffer) {
        gates.watch(flow, buffer)?;
    }
    Ok(())
}

/// The send buffer of a flow rises and drains, and the flow is told. Answers how many were told.
fn turn(gates: &mut Gates, flow: FlowId) -> u64
    ensures { result ≤ 2 }
{
    let buffer = BufferId::Send(flow);
    if gates.is_known(buffer) && !gates.is_marked(buffer) {
        gates.high(buffer);
    }
    if gates.is_marked(buffer) && !gates.has_pending(buffer) {
        gates.begin_low(buffer);
    }
    let first = gates.next_low(buffer);
    let second = gates.next_low(buffer);
    u64::from(first.is_some()) + u64::from(second.is_some())
}

/// Opens the flows of all sides.
fn open_all(few: &mut Side, some: &mut Side, many: &mut Side) -> Result<(), NoMemory> {
    few.open_all()?;
    some.open_all()?;
    many.open_all()
}

/// Takes turns at each number of open flows, and prints how many calls each does in a second of
/// processor time.
pub fn run(rt: &(impl AllocGlobal + Print + CpuClock)) -> anyhow::Result<()> {
    let mut few = Side::new(rt.alloc(), FEW);
    let mut some = Side::new(rt.alloc(), SOME);
    let mut many = Side::new(rt.alloc(), MANY);
    let end = measure(rt, &mut few, &mut some, &mut many);
    drop(few);
    drop(some);
    drop(many);
    end
}

// The sides are dropped by calls, since the check follows a drop without one field by field, at each end of a function.
fn measure(
    rt: &(impl AllocGlobal + Print + CpuClock),
    few: &mut Side,
    some: &mut Side,
    many: &mut Side,
) -> anyhow::Result<()> {
    open_all(few, some, many)?;
    take_turns(rt, few, some, many)?;
    report(
        rt,
        few.calls_per_second(),
        some.calls_per_second(),
        many.calls_per_second(),
    )
}

/// The rounds of all sides.
fn take_turns(
    clock: &impl CpuClock,
    few: &mut Side,
    some: &mut Side,
    many: &mut Side,
) -> anyhow::Result<()> {
    for _round in 0..ROUNDS {
        few.timed_round(clock)?;
        some.timed_round(clock)?;
        many.timed_round(clock)?;
    }
    Ok(())
}

fn report(rt: &(impl Print + AllocGlobal), few: u64, some: u64, many: u64) -> anyhow::Result<()> {
    let mut line = Line::new(rt.alloc());
    line.say_with("", FEW);
    line.say_with(" flows: ", few);
    line.say_with(" calls in a second of processor time\n", SOME);
    line.say_with(" flows: ", some);
    line.say_with(" calls in a second of processor time\n", MANY);
    line.say_with(" flows: ", many);
    line.say_with(" calls in a second of processor time\na call at ", MANY);
    line.say_times(" flows costs ", few, many);
    line.say_with(" times one at ", FEW);
    Ok(line.print(rt)?)
}
