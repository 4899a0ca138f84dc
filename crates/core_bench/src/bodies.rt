// Bodies of a MiB, down and up, beside a plain copy of the same octets.
use crate::tell;
use bench_parts::{CpuStopwatch, tenths};
use core_rig::{Peers, Rig, client_and_cluster, stream_after};
use flow_notes::Event;
use io_ports::{NoMemory, Octets};
use std::alloc::Global;
use std::time::CpuClock;

/// The pieces of a body.
const PIECES: u32 = 64;

/// The bodies of each direction; the best counts.
const BODIES: u32 = 64;

const CONFIG: &[u8] =
    b"[limits]\nconnection_window = 16777216\n[[clusters]]\nname = \"a\"\n[[routes]]\nprefix = \"/\"\ncluster = \"a\"\n";

/// The client's connection and the cluster's.
const CLIENT: u32 = 1;

const CLUSTER: u32 = 2;

/// The connections between which bodies go.
#[derive(Clone, Copy)]
struct Direction {
    from: u32,
    to: u32,
}

const DOWN: Direction = Direction {
    from: CLUSTER,
    to: CLIENT,
};

const UP: Direction = Direction {
    from: CLIENT,
    to: CLUSTER,
};

/// The fewest nanoseconds of processor time that a body took.
#[derive(Clone, Copy)]
struct Least {
    passed: u64,
    copied: u64,
}

/// Bodies of one direction.
fn pass(rt: &(impl AllocGlobal + CpuClock), way: Direction) -> anyhow::Result<Least> {
    let mut rig = Rig::new(rt.alloc(), CONFIG)?;
    let least = pass_all(&mut rig, rt, way);
    drop(rig);
    least
}

// Each body behind its heads. What its events read is copied plainly too, once it has passed.
fn pass_all(
    rig: &mut Rig,
    rt: &(impl AllocGlobal + CpuClock),
    way: Direction,
) -> anyhow::Result<Least> {
    rig.play_made(client_and_cluster(rt.alloc(), CLIENT, CLUSTER))?;
    let mut block = Octets::new(rt.alloc());
    let mut least = Least {
        passed: u64::MAX,
        copied: u64::MAX,
    };
    for one in 0..BODIES {
        let stream = stream_after(1, one);
        rig.play_made(heads(rt.alloc(), stream, way))?;
        let body = body_of(rt.alloc(), stream, way)?;
        least.passed = least.passed.min(rig.cost(rt, &body)?.nanos);
        least.copied = least.copied.min(copy_all(&body, &mut block, rt)?);
    }
    Ok(least)
}

// The heads that a body comes behind.
fn heads(alloc: Global, stream: u32, way: Direction) -> Result<Peers, NoMemory> {
    let mut peers = Peers::new(alloc);
    peers.posts(CLIENT, stream, 1)?;
    peers.room(CLUSTER)?;
    if way.from == CLUSTER {
        peers.answer(CLUSTER, stream)?;
        peers.room(CLIENT)?;
    }
    Ok(peers)
}

// A body: each piece of 16,384 octets is read, and goes on.
fn body_of(alloc: Global, stream: u32, way: Direction) -> Result<Peers, NoMemory> {
    let mut peers = Peers::new(alloc);
    for left in (0..PIECES).rev() {
        peers.body(way.from, stream, &[7; 16_384], left == 0)?;
        peers.room(way.to)?;
    }
    Ok(peers)
}

// The octets that the events of a body read, copied one behind the other into a block: nanoseconds of processor time.
fn copy_all(body: &Peers, block: &mut Octets, clock: &impl CpuClock) -> anyhow::Result<u64> {
    block.clear();
    let watch = CpuStopwatch::start(clock)?;
    for event in body.events() {
        copy(event, block)?;
    }
    Ok(watch.nanos(clock)?)
}

fn copy(event: &Event, block: &mut Octets) -> Result<(), NoMemory> {
    match event {
        Event::Read { conn: _, octets } => block.push_all(octets.as_slice()),
        _ => Ok(()),
    }
}

/// A MiB down and up, beside a plain copy.
pub fn run(rt: &(impl AllocGlobal + Print + CpuClock)) -> anyhow::Result<()> {
    let down = pass(rt, DOWN)?;
    report(rt, "a MiB down: ", down)?;
    let up = pass(rt, UP)?;
    report(rt, "a MiB up: ", up)
}

fn report(rt: &(impl AllocGlobal + Print), way: &str, least: Least) -> anyhow::Result<()> {
    let times = tenths(least.passed, least.copied);
    let numbers = [
        (way, least.passed),
        (" ns, copied: ", least.copied),
        (" ns, ", times / 10),
        (".", times % 10),
    ];
    tell(rt, &numbers, " times")
}
