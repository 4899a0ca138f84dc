// What permits, tokens and published states cost a call, on one thread and on four, beside bare fetches on one word.
ghost use Rattle.std.specs.Prelude.{◌≡◌, ◌≤◌, length};
ghost use Rattle.std.specs.Thread.{IsSync};
ghost use Rattle.shared_state.specs.States.{resources_of};

use crate::loads::{Enters, FetchPairs, Fetches, Follows, Load, Takes};
use anyhow::{anyhow, bail, ensure};
use bench_parts::{CpuStopwatch, Line};
use config_tables::read_config;
use proxy_config::Config;
use shared_state::{Followers, Permits, Publisher, make_shared};
use shared_tokens::Bucket;
use std::alloc::{AllocError, Global};
use std::sync::atomic::{AtomicBool, AtomicU64, Ordering};
use std::sync::{Arc, Wait};
use std::thread;
use std::thread::Threads;
use std::time::CpuClock;

/// How many calls each thread makes in a turn.
const CALLS: u64 = 1_000_000;

/// How many turns there are. The best of them counts.
const TURNS: u32 = 7;

/// More tokens than are taken in all turns on four threads.
const TOKENS: u64 = 1 << 30;

const CONFIG: &str = "[overload]
resources = [\"mem\", \"cpu\"]
[[overload.triggers]]
action = \"stop_requests\"
resource = \"mem\"
value = 900000
[[overload.triggers]]
action = \"reduce_timeouts\"
resource = \"cpu\"
scaling = 500000
saturation = 900000
";

/// A load, and what a turn of it took.
#[derive(Drop)]
struct Timed<L> {
    load: L,
    nanos: u64,
    failed: bool,
}

fn unmeasured<L>(load: L) -> Timed<L> {
    Timed {
        load,
        nanos: 0,
        failed: false,
    }
}

fn measure<R: Wait + AllocGlobal + CpuClock, L: Load>(rt: &R, timed: &mut Timed<L>) {
    let Ok(watch) = CpuStopwatch::start(rt) else {
        timed.failed = true;
        return;
    };
    for _ in 0..CALLS {
        if !timed.load.call(rt) {
            timed.failed = true;
        }
    }
    timed.nanos = watch.nanos(rt).unwrap_or(u64::MAX);
}

// Each in a thread of its own. The best turn's nanoseconds of processor time for ten calls.
fn best<R: Threads + Wait + AllocGlobal + CpuClock + Sync, L: Load + Send>(
    rt: &R,
    loads: &mut [Timed<L>],
) -> anyhow::Result<u64> {
    let threads = loads.len().max(1);
    let mut best = u64::MAX;
    for _ in 0..TURNS {
        thread::for_each_mut(rt, loads, threads, &|_, one| measure(rt, one));
        let mut nanos: u64 = 0;
        for one in &*loads {
            ensure!(!one.failed, "a call failed");
            nanos = nanos.saturating_add(one.nanos);
        }
        best = best.min(nanos / threads as u64 / (CALLS / 10));
    }
    Ok(best)
}

fn fetches(alloc: Global, threads: u32) -> Result<Vec<Timed<Fetches>>, AllocError> {
    let word = Arc::new(alloc, AtomicU64::new(0))?;
    let mut loads = Vec::new(alloc);
    for _ in 0..threads {
        loads.push(unmeasured(Fetches {
            word: Arc::try_clone(&word)?,
        }))?;
    }
    Ok(loads)
}

fn fetch_pairs(alloc: Global, threads: u32) -> Result<Vec<Timed<FetchPairs>>, AllocError> {
    let word = Arc::new(alloc, AtomicU64::new(0))?;
    let mut loads = Vec::new(alloc);
    for _ in 0..threads {
        loads.push(unmeasured(FetchPairs {
            word: Arc::try_clone(&word)?,
        }))?;
    }
    Ok(loads)
}

fn enters(alloc: Global, threads: u32) -> anyhow::Result<Vec<Timed<Enters>>>
    requires { (1 ≤ threads) × (threads ≤ 4) }
{
    let (permits, mut seats) = Permits::new(alloc, 4, threads).map_err(|_| anyhow!("no memory"))?;
    let permits = Arc::new(alloc, permits)?;
    let mut loads = Vec::new(alloc);
    while let Some(seat) = seats.take_one() {
        let permits = Arc::try_clone(&permits)?;
        loads.push(unmeasured(Enters { permits, seat }))?;
    }
    Ok(loads)
}

fn takes(alloc: Global, threads: u32, tokens: u64) -> anyhow::Result<Vec<Timed<Takes>>>
    requires { (1 ≤ threads) × (threads ≤ 4) }
{
    let (bucket, mut seats, mut put) = Bucket::new(alloc, TOKENS, threads)?;
    ensure!(
        bucket.put(&mut put, tokens) == tokens,
        "the tokens weren't put"
    );
    let bucket = Arc::new(alloc, bucket)?;
    let mut loads = Vec::new(alloc);
    while let Some(seat) = seats.take_one() {
        let bucket = Arc::try_clone(&bucket)?;
        loads.push(unmeasured(Takes {
            bucket,
            seat,
            has_tokens: tokens > 0,
        }))?;
    }
    Ok(loads)
}

fn follows(alloc: Global, followers: &mut Followers) -> Result<Vec<Timed<Follows>>, AllocError> {
    let mut loads = Vec::new(alloc);
    while let Some(follower) = followers.take_one() {
        loads.push(unmeasured(Follows { follower }))?;
    }
    Ok(loads)
}

fn publish_until<R: Wait>(rt: &R, publisher: &mut Publisher, stop: &AtomicBool)
    requires { resources_of publisher.old ≡ 2 }
{
    for _ in rt.forever() {
        if stop.load(Ordering::SeqCst) || publisher.publish(rt, &[100, 600_000]).is_err() {
            return;
        }
    }
}

fn best_beside<R: Threads + Wait + AllocGlobal + CpuClock + Sync>(
    rt: &R,
    publisher: &mut Publisher,
    loads: &mut [Timed<Follows>],
    stop: &AtomicBool,
) -> anyhow::Result<u64>
    requires { resources_of publisher.old ≡ 2 }
{
    thread::join(
        rt,
        move ||
            requires { resources_of publisher.now ≡ 2 }
        { publish_until(rt, publisher, stop) },
        move ||
            requires { IsSync R.row }
        {
            let best = best(rt, loads);
            stop.store(true, Ordering::SeqCst);
            best
        },
    )
    .1
}

// The figures of `current` with nothing new, and beside a publisher.
fn states<R: Threads + Wait + AllocGlobal + CpuClock + Sync>(
    rt: &R,
    config: &Config,
    threads: u32,
) -> anyhow::Result<(u64, u64)>
    requires threads { 1 ≤ threads }
    requires resources { length config.now.overload.resources ≡ 2 }
{
    let (mut publisher, mut followers) = make_shared(rt, rt.alloc(), config, threads)?;
    let figures = quiet_and_loud(rt, &mut publisher, &mut followers);
    publisher.end(rt);
    figures
}

fn quiet_and_loud<R: Threads + Wait + AllocGlobal + CpuClock + Sync>(
    rt: &R,
    publisher: &mut Publisher,
    followers: &mut Followers,
) -> anyhow::Result<(u64, u64)>
    requires { resources_of publisher.old ≡ 2 }
{
    let mut loads = follows(rt.alloc(), followers)?;
    let quiet = best(rt, loads.as_mut_slice())?;
    let stop = AtomicBool::new(false);
    let loud = best_beside(rt, publisher, loads.as_mut_slice(), &stop)?;
    Ok((quiet, loud))
}

// Prints the figure of these loads.
fn report_loads<R: Threads + Wait + AllocGlobal + CpuClock + Print + Sync, L: Load + Send + Drop>(
    rt: &R,
    threads: u32,
    call: &str,
    loads: Vec<Timed<L>>,
) -> anyhow::Result<()> {
    let mut loads = loads;
    let tenths = best(rt, loads.as_mut_slice());
    drop(loads);
    tell(rt, threads, call, tenths?)
}

fn report_tokens<R: Threads + Wait + AllocGlobal + CpuClock + Print + Sync>(
    rt: &R,
    threads: u32,
) -> anyhow::Result<()>
    requires { (1 ≤ threads) × (threads ≤ 4) }
{
    report_loads(rt, threads, "a bare fetch", fetches(rt.alloc(), threads)?)?;
    report_loads(rt, threads, "a take", takes(rt.alloc(), threads, TOKENS)?)?;
    report_loads(
        rt,
        threads,
        "a refused take",
        takes(rt.alloc(), threads, 0)?,
    )
}

fn report_permits<R: Threads + Wait + AllocGlobal + CpuClock + Print + Sync>(
    rt: &R,
    threads: u32,
) -> anyhow::Result<()>
    requires { (1 ≤ threads) × (threads ≤ 4) }
{
    report_loads(
        rt,
        threads,
        "two bare fetches",
        fetch_pairs(rt.alloc(), threads)?,
    )?;
    report_loads(rt, threads, "enter and leave", enters(rt.alloc(), threads)?)
}

fn report_states<R: Threads + Wait + AllocGlobal + CpuClock + Print + Sync>(
    rt: &R,
    config: &Config,
    threads: u32,
) -> anyhow::Result<()>
    requires threads { 1 ≤ threads }
    requires resources { length config.now.overload.resources ≡ 2 }
{
    let (quiet, loud) = states(rt, config, threads)?;
    tell(rt, threads, "current with nothing new", quiet)?;
    tell(rt, threads, "current beside a publisher", loud)
}

fn report<R: Threads + Wait + AllocGlobal + CpuClock + Print + Sync>(
    rt: &R,
    config: &Config,
    threads: u32,
) -> anyhow::Result<()>
    requires threads { (1 ≤ threads) × (threads ≤ 4) }
    requires resources { length config.now.overload.resources ≡ 2 }
{
    report_tokens(rt, threads)?;
    report_permits(rt, threads)?;
    report_states(rt, config, threads)
}

// Prints what a call takes, in nanoseconds with one place behind the point.
fn tell<R: Print + AllocGlobal>(
    rt: &R,
    threads: u32,
    call: &str,
    tenths: u64,
) -> anyhow::Result<()> {
    let mut line = Line::new(rt.alloc());
    line.say_with("", u64::from(threads));
    line.say_tenths(" threads: ", tenths);
    line.say(" ns ");
    line.say(call);
    Ok(line.print(rt)?)
}

fn report_both<R: Threads + Wait + AllocGlobal + CpuClock + Print + Sync>(
    rt: &R,
    config: &Config,
) -> anyhow::Result<()> {
    ensure!(config.overload.resources.len() == 2, "two resources");
    report(rt, config, 1)?;
    report(rt, config, 4)
}

/// Measures on one thread and on four, and prints nanoseconds of processor time for each call.
pub fn run<R: Threads + Wait + AllocGlobal + CpuClock + Print + Sync>(
    rt: &R,
) -> anyhow::Result<()> {
    let Ok(config) = read_config(rt.alloc(), CONFIG.as_bytes()) else {
        bail!("a bad config");
    };
    let end = report_both(rt, &config);
    drop(config);
    end
}
