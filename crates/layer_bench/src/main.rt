//! Benches of the layers below the cores of sessions that need no threads, run by hand. Without words it prints which there are.
#![tactic(auto)]

mod buffers;
mod copies;
mod exchanges;
mod fields;
mod frames;
mod gates;
mod heads;
mod inlet;
mod notes;
mod outlet;
mod report;
mod requests;
mod sessions;
mod timers;

use std::env;
use std::rt::Clock;
use std::time::CpuClock;

const USAGE: &str = "usage: layer_bench BENCH
  buffer     octets through two watermark buffers, beside two plain copies
  exchanges  starts, moves and dooms, with one and with 50,000 live exchanges
  fields     blocks of request fields, decoded and encoded (fields blocks: prints them as stories;
             fields stories: decodes the stories of the standard input)
  frames     reading of frames
  gates      calls of the gates while few and while many flows are open
  heads      checks of a request's head, beside decoding its block
  inlet      DATA frames of 16,384 octets that are taken, beside a plain copy of the same octets; small heads that are taken
  notes      lines of notes, written and read, beside a plain copy of the same text
  outlet     DATA frames of 16,384 octets that are framed, beside a plain copy of the same octets; small heads that are framed
  session    acts of frames, with 10 and with 1,000 open streams
  timers     arming, moving and firing of timers
";

fn main(rt: HostRuntime) -> anyhow::Result<()> {
    let mut words = env::args(&rt)?;
    let _program = words.next();
    let bench = words.next();
    let word = words.next();
    run(
        &rt,
        bench.as_deref().unwrap_or(""),
        word.as_deref().unwrap_or(""),
    )
}

// Runs the bench of this name. Where there is none it prints the usage.
fn run<R: AllocGlobal + Clock + CpuClock + Print + Input>(
    rt: &R,
    bench: &str,
    word: &str,
) -> anyhow::Result<()> {
    match bench {
        "buffer" => buffers::run(rt),
        "exchanges" => exchanges::run(rt),
        "fields" => fields::run(rt, word),
        "frames" => frames::run(rt),
        "gates" => gates::run(rt),
        "heads" => heads::run(rt),
        "inlet" => inlet::run(rt),
        "notes" => notes::run(rt),
        "outlet" => outlet::run(rt),
        "session" => sessions::run(rt),
        "timers" => timers::run(rt),
        _ => usage(rt),
    }
}

fn usage(rt: &impl Print) -> anyhow::Result<()> {
    Ok(rt.print(USAGE)?)
}
