// Small requests and their responses, one after the other.
use crate::drill::{drill_once, events_a_second};
use crate::tell;
use bench_parts::per_second;
use core_rig::{Cost, Peers, client_and_cluster, cost_behind, stream_after};
use io_ports::NoMemory;
use std::alloc::Global;
use std::time::CpuClock;

/// The exchanges of a turn.
pub const EXCHANGES: u32 = 20_000;

/// How many exchanges go on at the same time.
const AT_ONCE: u32 = 32;

/// How often each side is measured; the best counts.
const TURNS: u32 = 7;

pub const CONFIG: &[u8] =
    b"[limits]\nwrite_buffer = 65536\nsend_buffer = 16384\nconnection_window = 16777216\n[[clusters]]\nname = \"a\"\n[[routes]]\nprefix = \"/\"\ncluster = \"a\"\n";

/// Between whom exchanges go: a client and a cluster, on streams from this one on.
#[derive(Clone, Copy)]
pub struct Route {
    pub client: u32,
    pub cluster: u32,
    pub first: u32,
}

/// So many exchanges, `at_once` at the same time.
pub fn exchanges(alloc: Global, route: Route, count: u32, at_once: u32) -> Result<Peers, NoMemory> {
    let mut peers = Peers::new(alloc);
    for turn in 0..count / at_once.max(1) {
        let first = stream_after(route.first, turn.saturating_mul(at_once));
        exchange(&mut peers, Route { first, ..route }, at_once)?;
    }
    Ok(peers)
}

// Exchanges at the same time, each with a body of 100 octets.
fn exchange(peers: &mut Peers, route: Route, at_once: u32) -> Result<(), NoMemory> {
    peers.gets(route.client, route.first, at_once)?;
    peers.room(route.cluster)?;
    peers.responses(route.cluster, route.first, at_once, &[7; 100])?;
    peers.room(route.client)
}

/// What so many exchanges take between a client and a cluster that have just come.
fn once(rt: &(impl AllocGlobal + CpuClock), count: u32, at_once: u32) -> anyhow::Result<Cost> {
    let route = Route {
        client: 1,
        cluster: 2,
        first: 1,
    };
    let before = client_and_cluster(rt.alloc(), 1, 2)?;
    let then = exchanges(rt.alloc(), route, count, at_once.max(1))?;
    cost_behind(rt, CONFIG, &before, &then)
}

/// The fewest nanoseconds that a drill took, and the exchanges of a turn by ones and by thirty-twos.
#[derive(Clone, Copy)]
struct Least {
    drill: u64,
    ones: u64,
    many: u64,
}

// The best of some turns, in which the three are run one after the other.
fn measure(rt: &(impl AllocGlobal + CpuClock)) -> anyhow::Result<Least> {
    let mut drill = u64::MAX;
    let mut ones = u64::MAX;
    let mut many = u64::MAX;
    for _turn in 0..TURNS {
        drill = drill.min(drill_once(rt)?);
        ones = ones.min(once(rt, EXCHANGES, 1)?.nanos);
        many = many.min(once(rt, EXCHANGES, AT_ONCE)?.nanos);
    }
    Ok(Least { drill, ones, many })
}

/// Small exchanges by ones and by thirty-twos, beside the drill.
pub fn run(rt: &(impl AllocGlobal + Print + CpuClock)) -> anyhow::Result<()> {
    let least = measure(rt)?;
    let drill = events_a_second(least.drill);
    tell(rt, &[("drill: ", drill)], " events a second")?;
    report(rt, 1, least.ones, drill)?;
    report(rt, AT_ONCE, least.many, drill)
}

fn report(
    rt: &(impl AllocGlobal + Print),
    at_once: u32,
    nanos: u64,
    drill: u64,
) -> anyhow::Result<()> {
    let rate = per_second(u64::from(EXCHANGES), nanos.max(1));
    let numbers = [
        ("", u64::from(at_once)),
        (" at once: ", rate),
        (
            " exchanges a second, ",
            rate.saturating_mul(1_000) / drill.max(1),
        ),
    ];
    tell(rt, &numbers, " in a thousand of the drill's events")
}

/// The exchanges alone, so many, for a profile.
pub fn alone(
    rt: &(impl AllocGlobal + Print + CpuClock),
    count: u32,
    at_once: u32,
) -> anyhow::Result<()> {
    let nanos = once(rt, count, at_once)?.nanos;
    let numbers = [
        ("", u64::from(count)),
        (" exchanges, ", u64::from(at_once)),
        (" at once: ", nanos / u64::from(count.max(1))),
    ];
    tell(rt, &numbers, " ns each")
}
