//! Benches of what threads share, and of relays, run by hand. Without words it prints which there are.
#![tactic(auto)]

mod loads;
mod plain_queue;
mod posts;
mod relay_octets;
mod relay_pairs;
mod relay_turns;
mod shared;

use std::env;
use std::rt::Clock;
use std::sync::Wait;
use std::thread::Threads;
use std::time::CpuClock;

const USAGE: &str = "usage: thread_bench BENCH
  posts      posts of one and of three posters beside a draining runner, and a plain queue
  relay      relay octets: 1 GiB through one pair in reads of 16,384 octets, beside two plain copies;
             relay turns: turns of a live relay over connections in memory, with one pair and with 10,000 idle ones beside it;
             relay pairs N: pairs that come, send and go, one after the other
  shared     permits, tokens that are granted and refused, and published states, on one thread and on four, beside bare fetches
";

fn main(rt: HostRuntime) -> anyhow::Result<()> {
    let mut words = env::args(&rt)?;
    let _program = words.next();
    let bench = words.next();
    let word = words.next();
    let number = words.next();
    run(
        &rt,
        bench.as_deref().unwrap_or(""),
        word.as_deref().unwrap_or(""),
        number.as_deref(),
    )
}

// Runs the bench of this name. Where there is none it prints the usage.
fn run<R: Threads + Wait + AllocGlobal + Clock + CpuClock + Print + Sync>(
    rt: &R,
    bench: &str,
    word: &str,
    number: Option<&str>,
) -> anyhow::Result<()> {
    match bench {
        "posts" => posts::run(rt),
        "relay" => run_relay(rt, word, number),
        "shared" => shared::run(rt),
        _ => usage(rt),
    }
}

fn run_relay(
    rt: &(impl AllocGlobal + Print + CpuClock),
    bench: &str,
    number: Option<&str>,
) -> anyhow::Result<()> {
    match bench {
        "octets" => relay_octets::run(rt),
        "turns" => relay_turns::run(rt),
        "pairs" => relay_pairs::run(rt, number),
        _ => usage(rt),
    }
}

fn usage(rt: &impl Print) -> anyhow::Result<()> {
    Ok(rt.print(USAGE)?)
}
