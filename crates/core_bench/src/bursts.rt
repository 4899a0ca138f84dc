// What one event costs that has to do with all exchanges of a client: a close, a low, SETTINGS.
use crate::tell;
use core_rig::{Cost, Peers, cost_behind, stream_after};
use io_ports::NoMemory;
use std::alloc::Global;
use std::time::CpuClock;

/// A connection to a cluster takes so many exchanges at once.
const LANES: u32 = 100;

/// How many exchanges the client has.
const SIZES: [u32; 3] = [10, 100, 1_000];

/// How often each is measured; the best counts.
const TURNS: u32 = 10;

const LARGE: &[u8] =
    b"[limits]\nwrite_buffer = 65536\nsend_buffer = 16384\nconnection_window = 16777216\nmax_streams = 1000\nframe_size = 1048576\n[[clusters]]\nname = \"a\"\n[[routes]]\nprefix = \"/\"\ncluster = \"a\"\n";

/// The event that is measured.
#[derive(Clone, Copy)]
pub enum Burst {
    /// The client's connection is lost, which dooms its exchanges.
    Close,
    /// The client's write buffer, which is above its high watermark, drains.
    Low,
    /// SETTINGS of a MiB that name the initial window over and over.
    Settings,
}

/// The event on clients with ten, a hundred and a thousand exchanges.
pub fn run(rt: &(impl AllocGlobal + Print + CpuClock), burst: Burst) -> anyhow::Result<()> {
    for n in SIZES {
        let cost = least(rt, burst, n)?;
        report(rt, n, cost)?;
    }
    Ok(())
}

fn report(rt: &(impl AllocGlobal + Print), n: u32, cost: Cost) -> anyhow::Result<()> {
    let notes = cost.notes.max(1);
    let numbers = [
        ("", u64::from(n)),
        (" exchanges: ", cost.nanos),
        (" ns, ", notes),
        (" notes, ", cost.nanos / notes),
    ];
    tell(rt, &numbers, " ns a note")
}

// The least of some turns.
fn least(rt: &(impl AllocGlobal + CpuClock), burst: Burst, n: u32) -> anyhow::Result<Cost> {
    let mut nanos = u64::MAX;
    let mut notes = 0u64;
    for _turn in 0..TURNS {
        let cost = once(rt, burst, n)?;
        nanos = nanos.min(cost.nanos);
        notes = cost.notes;
    }
    Ok(Cost { nanos, notes })
}

fn once(rt: &(impl AllocGlobal + CpuClock), burst: Burst, n: u32) -> anyhow::Result<Cost> {
    let client = client_at(n);
    let before = before(rt.alloc(), burst, client, n)?;
    let event = event_of(rt.alloc(), burst, client)?;
    cost_behind(rt, LARGE, &before, &event)
}

// The number of a client with so many exchanges, behind those of connections that take a hundred each.
fn client_at(exchanges: u32) -> u32 {
    (exchanges / LANES).saturating_add(2)
}

// What comes before the event.
fn before(alloc: Global, burst: Burst, client: u32, n: u32) -> Result<Peers, NoMemory> {
    let mut peers = Peers::new(alloc);
    come(&mut peers, client, n)?;
    if let Burst::Low = burst {
        rise(&mut peers)?;
    }
    Ok(peers)
}

// The event, and SETTINGS of a MiB that name the initial window over and over.
fn event_of(alloc: Global, burst: Burst, client: u32) -> Result<Peers, NoMemory> {
    let mut peers = Peers::new(alloc);
    match burst {
        Burst::Close => peers.gone(client)?,
        Burst::Low => peers.room(client)?,
        Burst::Settings => peers.settings(client, 1_000_000, 174_762)?,
    }
    Ok(peers)
}

// A client with so many exchanges comes, behind connections to the cluster.
fn come(peers: &mut Peers, client: u32, exchanges: u32) -> Result<(), NoMemory> {
    for cluster in 1..client {
        peers.cluster(cluster, true)?;
    }
    peers.client(client, true)?;
    peers.posts(client, 1, exchanges)?;
    drain_below(peers, client)
}

// What waits for the connections below a number goes.
fn drain_below(peers: &mut Peers, client: u32) -> Result<(), NoMemory> {
    for cluster in 1..client {
        peers.room(cluster)?;
    }
    Ok(())
}

// Responses come from the first connection until the client's write buffer is above.
fn rise(peers: &mut Peers) -> Result<(), NoMemory> {
    for place in 0..5 {
        let stream = stream_after(1, place);
        peers.answer(1, stream)?;
        peers.body(1, stream, &[7; 16_384], false)?;
    }
    Ok(())
}
