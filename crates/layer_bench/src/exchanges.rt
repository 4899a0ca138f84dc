// Exchanges that start, are used once and are doomed, while one and while many others live.
ghost use Rattle.proxy_config.specs.Ranges.{IsInRange};

use anyhow::ensure;
use bench_parts::{CpuStopwatch, Line, per_second};
use exchange_core::{Exchanges, StartSpec, Step};
use flow_gate::{FlowId, Gates};
use flow_notes::Cause;
use io_ports::{NoMemory, Octets};
use proxy_config::Config;
use std::alloc::Global;
use std::time::CpuClock;

/// How many exchanges live beside the one that comes and goes.
const ONE: u64 = 1;

const MANY: u64 = 50_000;

/// The exchanges that come and go on each side.
const USES: u64 = 100_000;

const USES_A_ROUND: u64 = 1_000;

/// A use is a start, octets that arrive, a move, a doom and a sweep.
const CALLS: u64 = 5 * USES;

const SPEC: StartSpec = StartSpec {
    plain: false,
    from_conn: 1,
    from_stream: 1,
    to_conn: Some(2),
    row: None,
    recv: 1_000,
    send: 0,
    quantum: 16_384,
    now: 0,
};

/// Starts an exchange whose flows watch nothing. None where the exchanges were told of a later moment.
fn start(
    exchanges: &mut Exchanges,
    gates: &mut Gates,
    config: &Config,
) -> Result<Option<u64>, NoMemory>
    requires { IsInRange config.now }
{
    if exchanges.time() > SPEC.now {
        return Ok(None);
    }
    let exchange = exchanges.start(&SPEC, config)?;
    for back in [false, true] {
        let flow = FlowId { exchange, back };
        if !gates.is_open(flow) {
            gates.open_flow(flow)?;
        }
    }
    Ok(Some(exchange))
}

/// Ten octets arrive and move. Answers how many moved.
fn feed(
    exchanges: &mut Exchanges,
    gates: &Gates,
    flow: FlowId,
    octets: &Octets,
) -> Result<u32, NoMemory> {
    if !exchanges.has_flow(flow) || exchanges.has_ended(flow) || !gates.is_open(flow) {
        return Ok(0);
    }
    exchanges.arrive(flow, octets)?;
    if !exchanges.has_flow(flow) {
        return Ok(0);
    }
    match exchanges.step(flow, gates)? {
        Step::Moved { n, .. } => Ok(n),
        Step::Still | Step::TooLarge => Ok(0),
    }
}

/// Dooms an exchange and sweeps it. Answers whether it was live.
fn end(exchanges: &mut Exchanges, gates: &mut Gates, exchange: u64) -> bool {
    let request = FlowId {
        exchange,
        back: false,
    };
    let response = FlowId {
        exchange,
        back: true,
    };
    if !exchanges.is_live(exchange) || !gates.is_open(request) || !gates.is_open(response) {
        return false;
    }
    let _ = exchanges.doom(exchange, Cause::Done, false, gates);
    exchanges.sweep() == Some(exchange)
}

/// Exchanges of which so many live.
#[derive(Drop)]
struct Side {
    exchanges: Exchanges,
    gates: Gates,
    /// Nanoseconds of processor time that the uses took.
    nanos: u64,
}

impl Side {
    /// None lives yet.
    fn new(alloc: Global) -> Self {
        Side {
            exchanges: Exchanges::new(alloc),
            gates: Gates::new(alloc),
            nanos: 0,
        }
    }

    /// So many start.
    fn start_all(&mut self, config: &Config, living: u64) -> Result<(), NoMemory>
        requires { IsInRange config.now }
    {
        for _exchange in 0..living {
            let _ = start(&mut self.exchanges, &mut self.gates, config)?;
        }
        Ok(())
    }

    /// An exchange comes, takes the ten octets, moves them, and goes. Answers whether all went so.
    fn use_one(&mut self, config: &Config, octets: &Octets) -> Result<bool, NoMemory>
        requires { IsInRange config.now }
    {
        let Some(exchange) = start(&mut self.exchanges, &mut self.gates, config)? else {
            return Ok(false);
        };
        let request = FlowId {
            exchange,
            back: false,
        };
        let moved = feed(&mut self.exchanges, &self.gates, request, octets)?;
        Ok(end(&mut self.exchanges, &mut self.gates, exchange) && moved == 10)
    }

    /// Uses a round's exchanges, and adds the processor time that they took.
    fn timed_round(
        &mut self,
        config: &Config,
        octets: &Octets,
        clock: &impl CpuClock,
    ) -> anyhow::Result<()>
        requires { IsInRange config.now }
    {
        let watch = CpuStopwatch::start(clock)?;
        for _use in 0..USES_A_ROUND {
            ensure!(
                self.use_one(config, octets)?,
                "an exchange did not come and go"
            );
        }
        self.nanos = self.nanos.saturating_add(watch.nanos(clock)?);
        Ok(())
    }

    fn calls_per_second(&self) -> u64 {
        per_second(CALLS, self.nanos.max(1))
    }
}

fn start_both(one: &mut Side, many: &mut Side, config: &Config) -> Result<(), NoMemory>
    requires { IsInRange config.now }
{
    one.start_all(config, ONE)?;
    many.start_all(config, MANY)
}

fn report(rt: &(impl Print + AllocGlobal), one: u64, many: u64) -> anyhow::Result<()> {
    let mut line = Line::new(rt.alloc());
    line.say_with("", ONE);
    line.say_with(" live: ", one);
    line.say_with(" calls in a second of processor time\n", MANY);
    line.say_with(" live: ", many);
    line.say_with(" calls in a second of processor time\na call with ", MANY);
    line.say_times(" live exchanges costs ", one, many);
    line.say_with(" times one with ", ONE);
    Ok(line.print(rt)?)
}

/// The rounds of both sides.
fn take_turns(
    clock: &impl CpuClock,
    config: &Config,
    octets: &Octets,
    one: &mut Side,
    many: &mut Side,
) -> anyhow::Result<()>
    requires { IsInRange config.now }
{
    for _round in 0..USES / USES_A_ROUND {
        one.timed_round(config, octets, clock)?;
        many.timed_round(config, octets, clock)?;
    }
    Ok(())
}

/// Uses exchanges on both sides in turns, and prints how many calls each does in a second of processor time.
pub fn run(rt: &(impl AllocGlobal + Print + CpuClock)) -> anyhow::Result<()> {
    let config = Config::of_defaults(rt.alloc())?;
    let end = measure(rt, &config);
    drop(config);
    end
}

fn measure(rt: &(impl AllocGlobal + Print + CpuClock), config: &Config) -> anyhow::Result<()>
    requires { IsInRange config.now }
{
    let octets = Octets::from_slice(rt.alloc(), &[7; 10])?;
    let mut one = Side::new(rt.alloc());
    let mut many = Side::new(rt.alloc());
    let end = measure_both(rt, config, &octets, &mut one, &mut many);
    drop(one);
    drop(many);
    end
}

// The sides are dropped by calls, since the check follows a drop without one field by field.
fn measure_both(
    rt: &(impl AllocGlobal + Print + CpuClock),
    config: &Config,
    octets: &Octets,
    one: &mut Side,
    many: &mut Side,
) -> anyhow::Result<()>
    requires { IsInRange config.now }
{
    start_both(one, many, config)?;
    take_turns(rt, config, octets, one, many)?;
    report(rt, one.calls_per_second(), many.calls_per_second())
}
