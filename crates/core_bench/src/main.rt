//! Benches of the core of wire sessions and of the drill, run by hand. Without words it prints which there are.
#![tactic(auto)]

mod bodies;
mod bursts;
mod crowds;
mod drill;
mod full;
mod gets;
mod many;

use crate::bursts::Burst;
use bench_parts::print_line;
use std::env;
use std::time::CpuClock;

const USAGE: &str = "usage: core_bench BENCH
  gets             small exchanges by ones and by thirty-twos, beside the drill
  alone N AT_ONCE  so many small exchanges
  bodies           bodies of a MiB down and up, beside a plain copy
  idle N           small exchanges beside ten and beside N idle connections and exchanges
  tick N           ticks beside ten and beside N exchanges with idle Meters
  close            a close that dooms 10, 100 and 1,000 exchanges
  low              a write buffer that drains and tells 10, 100 and 1,000 flows
  settings         a SETTINGS frame of a MiB on 10, 100 and 1,000 streams
  full N           N hundred exchanges whose buffers are full
  many C N         C connections and N thousand exchanges that come and go
  drill            a drill from end to end, beside its octets through two buffers
";

fn main(rt: HostRuntime) -> anyhow::Result<()> {
    let mut words = env::args(&rt)?;
    let _program = words.next();
    let bench = words.next();
    let one = number(words.next());
    let two = number(words.next());
    run(&rt, bench.as_deref().unwrap_or(""), one, two)
}

// The number that a word spells, else 0.
fn number(word: Option<String>) -> u32 {
    match word {
        Some(word) => word.as_str().parse::<u32>().unwrap_or(0),
        None => 0,
    }
}

// Runs the bench of this name, and prints what it took. Where there is none it prints the usage.
fn run(
    rt: &(impl AllocGlobal + Print + CpuClock),
    bench: &str,
    one: u32,
    two: u32,
) -> anyhow::Result<()> {
    match bench {
        "gets" => gets::run(rt),
        "alone" => gets::alone(rt, one, two),
        "bodies" => bodies::run(rt),
        "idle" => crowds::idle(rt, one),
        "tick" => crowds::tick(rt, one),
        "close" => bursts::run(rt, Burst::Close),
        "low" => bursts::run(rt, Burst::Low),
        "settings" => bursts::run(rt, Burst::Settings),
        "full" => full::run(rt, one),
        "many" => many::run(rt, one, two),
        "drill" => drill::run(rt),
        _ => usage(rt),
    }
}

fn usage(rt: &impl Print) -> anyhow::Result<()> {
    Ok(rt.print(USAGE)?)
}

/// Prints a line of numbers, each behind its words, and the words at its end.
pub(crate) fn tell(
    rt: &(impl AllocGlobal + Print),
    numbers: &[(&str, u64)],
    end: &str,
) -> anyhow::Result<()> {
    Ok(print_line(rt, numbers, end)?)
}
