// Small exchanges and ticks beside idle connections and exchanges.
use crate::gets::{CONFIG, EXCHANGES, Route, exchanges};
use crate::tell;
use bench_parts::tenths;
use core_rig::{Cost, Peers, Rig, cost_behind, stream_after};
use io_ports::NoMemory;
use std::alloc::Global;
use std::time::CpuClock;

/// A connection to a cluster takes so many exchanges at once.
const LANES: u32 = 100;

/// So many ticks of a millisecond, fewer than the route's timeout.
const TICKS: u64 = 10_000;

/// Milliseconds after which each idle exchange has passed its timeout.
const IDLE: u64 = 301_000;

/// How often each side is measured; the best counts.
const TURNS: u32 = 5;

/// Few idle connections and exchanges.
const FEW: u32 = 10;

const METERS: &[u8] =
    b"[limits]\nwrite_buffer = 65536\nsend_buffer = 16384\nconnection_window = 16777216\nmax_streams = 1000\nframe_size = 1048576\n[[clusters]]\nname = \"a\"\n[[routes]]\nprefix = \"/\"\ncluster = \"a\"\nrequest = [\"meter\"]\nresponse = [\"meter\"]\n";

/// So many idle exchanges come, a hundred a client, and so many idle connections more. The answer is the first number of a
/// connection that is free.
fn crowd(peers: &mut Peers, exchanges: u32, idle: u32) -> Result<u32, NoMemory> {
    let whole = exchanges / LANES;
    for place in 0..whole {
        lane(peers, lane_at(place), LANES)?;
    }
    let rest = exchanges % LANES;
    if rest > 0 {
        lane(peers, lane_at(whole), rest)?;
    }
    idle_clients(peers, lane_at(whole.saturating_add(1)), idle)
}

// So many clients come that send nothing, the first with this number. The answer is the number behind the last.
fn idle_clients(peers: &mut Peers, first: u32, idle: u32) -> Result<u32, NoMemory> {
    for place in 0..idle {
        peers.client(first.saturating_add(place), true)?;
    }
    Ok(first.saturating_add(idle))
}

// The number of the cluster's connection of a lane; the client's is the next one.
fn lane_at(place: u32) -> u32 {
    place.saturating_mul(2).saturating_add(1)
}

// A cluster's connection and a client with so many idle exchanges.
fn lane(peers: &mut Peers, cluster: u32, exchanges: u32) -> Result<(), NoMemory> {
    peers.cluster(cluster, true)?;
    let client = cluster.saturating_add(1);
    peers.client(client, true)?;
    peers.posts(client, 1, exchanges)?;
    peers.room(cluster)?;
    peers.room(client)
}

/// Small exchanges beside ten and beside so many idle connections and exchanges: the fewest nanoseconds each, in turn.
pub fn idle(rt: &(impl AllocGlobal + Print + CpuClock), count: u32) -> anyhow::Result<()> {
    let mut few = u64::MAX;
    let mut many = u64::MAX;
    for _turn in 0..TURNS {
        few = few.min(beside(rt, FEW)?.nanos / u64::from(EXCHANGES));
        many = many.min(beside(rt, count)?.nanos / u64::from(EXCHANGES));
    }
    report_idle(rt, count, few, many)
}

fn report_idle(
    rt: &(impl AllocGlobal + Print),
    count: u32,
    few: u64,
    many: u64,
) -> anyhow::Result<()> {
    let numbers = [
        ("beside ", u64::from(FEW)),
        (" idle connections and exchanges: ", few),
        (" ns an exchange; beside ", u64::from(count)),
        (": ", many),
        (" ns, ", tenths(many.saturating_mul(10), few)),
    ];
    tell(rt, &numbers, " hundredths")
}

/// What small exchanges take beside so many idle connections and exchanges.
fn beside(rt: &(impl AllocGlobal + CpuClock), n: u32) -> anyhow::Result<Cost> {
    let mut before = Peers::new(rt.alloc());
    let route = route_beside(&mut before, n)?;
    let then = exchanges(rt.alloc(), route, EXCHANGES, 1)?;
    cost_behind(rt, CONFIG, &before, &then)
}

/// A client beside so many idle connections and exchanges, and the first connection to the cluster that has room.
fn route_beside(peers: &mut Peers, n: u32) -> Result<Route, NoMemory> {
    let conn = crowd(peers, n, n)?;
    let client = conn.saturating_add(1);
    let (cluster, first) = if n < LANES {
        (1, stream_after(1, n))
    } else {
        peers.cluster(conn, true)?;
        (conn, 1)
    };
    peers.client(client, true)?;
    Ok(Route {
        client,
        cluster,
        first,
    })
}

/// Ticks beside ten and beside so many exchanges with idle Meters: those that fire nothing, and one that fires all.
pub fn tick(rt: &(impl AllocGlobal + Print + CpuClock), count: u32) -> anyhow::Result<()> {
    let idle = idle_ticks(rt.alloc())?;
    for n in [FEW, count, FEW, count] {
        ticks_beside(rt, n, &idle)?;
    }
    Ok(())
}

// Ticks of a millisecond each.
fn idle_ticks(alloc: Global) -> Result<Peers, NoMemory> {
    let mut peers = Peers::new(alloc);
    for now in 0..TICKS {
        peers.tick(now)?;
    }
    Ok(peers)
}

// Ticks beside so many idle Meters.
fn ticks_beside(
    rt: &(impl AllocGlobal + Print + CpuClock),
    n: u32,
    idle: &Peers,
) -> anyhow::Result<()> {
    let mut before = Peers::new(rt.alloc());
    let _first = crowd(&mut before, n, 0)?;
    let mut rig = Rig::new(rt.alloc(), METERS)?;
    let ticked = ticks(&mut rig, rt, &before, idle);
    drop(rig);
    let (idle, fired) = ticked?;
    report_ticks(rt, n, idle, fired)
}

// What the ticks take that fire nothing, and the tick that fires all.
fn ticks(
    rig: &mut Rig,
    rt: &(impl AllocGlobal + CpuClock),
    before: &Peers,
    idle: &Peers,
) -> anyhow::Result<(Cost, Cost)> {
    rig.play(before)?;
    let ticked = rig.cost(rt, idle)?;
    let mut last = Peers::new(rt.alloc());
    last.tick(IDLE)?;
    Ok((ticked, rig.cost(rt, &last)?))
}

fn report_ticks(
    rt: &(impl AllocGlobal + Print),
    n: u32,
    idle: Cost,
    fired: Cost,
) -> anyhow::Result<()> {
    let notes = fired.notes.max(1);
    let numbers = [
        ("beside ", u64::from(n)),
        (" idle Meters: ", idle.nanos / TICKS),
        (" ns a tick that fires nothing; ", fired.nanos),
        (" ns the tick that fires all, ", notes),
        (" notes, ", fired.nanos / notes),
    ];
    tell(rt, &numbers, " ns a note")
}
