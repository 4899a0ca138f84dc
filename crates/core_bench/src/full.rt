// Exchanges whose buffers are full.
use crate::tell;
use core_rig::{Peers, Rig, piece, stream_after};
use io_ports::NoMemory;
use std::alloc::Global;
use std::cmp;

const PIECE: usize = 16_384;

/// What a stream's window has at first.
const WINDOW: usize = 65_535;

/// The exchanges of a client.
const LANES: u32 = 100;

/// More frames than a stream's window and its buffers take.
const FRAMES: u32 = 64;

/// The limits of a flow's receive buffer and of its send buffer.
const LIMITS: u64 = 65_535 + 65_536;

/// The octets of a unit, by which a buffer may pass its limit.
const UNIT: u64 = 16_384;

const CONFIG: &[u8] =
    b"[limits]\nconnection_window = 16777216\n[[clusters]]\nname = \"a\"\n[[routes]]\nprefix = \"/\"\ncluster = \"a\"\n";

/// So many hundred exchanges whose buffers are all full. Prints the octets that they took, the sum of their limits, and that
/// of limits and units.
pub fn run(rt: &(impl AllocGlobal + Print), clients: u32) -> anyhow::Result<()> {
    let mut rig = Rig::new(rt.alloc(), CONFIG)?;
    let filled = fill_all(&mut rig, rt.alloc(), clients);
    drop(rig);
    report(rt, clients, filled?)
}

// The answer is how many octets were taken.
fn fill_all(rig: &mut Rig, alloc: Global, clients: u32) -> anyhow::Result<u64> {
    let mut taken = 0u64;
    for client in 0..clients {
        let cluster = client.saturating_mul(2).saturating_add(1);
        let more = fill_hundred(rig, alloc, cluster, cluster.saturating_add(1))?;
        taken = taken.saturating_add(more);
    }
    Ok(taken)
}

fn report(rt: &(impl AllocGlobal + Print), clients: u32, taken: u64) -> anyhow::Result<()> {
    let flows = u64::from(clients).saturating_mul(u64::from(2 * LANES));
    let numbers = [
        ("", flows),
        (" flows took ", taken),
        (" octets of ", flows.saturating_mul(LIMITS)),
        (
            "; with a unit each ",
            flows.saturating_mul(LIMITS.saturating_add(UNIT)),
        ),
    ];
    tell(rt, &numbers, "")
}

// A cluster's connection and a client come, which take nothing, and both send on each stream what they may. The answer is
// how many octets.
fn fill_hundred(rig: &mut Rig, alloc: Global, cluster: u32, client: u32) -> anyhow::Result<u64> {
    rig.play_made(come(alloc, cluster, client))?;
    let mut taken = 0u64;
    for place in 0..LANES {
        let stream = stream_after(1, place);
        taken = taken.saturating_add(fill(rig, alloc, client, stream)?);
        taken = taken.saturating_add(fill(rig, alloc, cluster, stream)?);
    }
    Ok(taken)
}

// A client with a hundred exchanges comes behind a connection to the cluster, and each is answered.
fn come(alloc: Global, cluster: u32, client: u32) -> Result<Peers, NoMemory> {
    let mut peers = Peers::new(alloc);
    peers.cluster(cluster, false)?;
    peers.client(client, false)?;
    peers.posts(client, 1, LANES)?;
    peers.room(cluster)?;
    for place in 0..LANES {
        peers.answer(cluster, stream_after(1, place))?;
    }
    Ok(peers)
}

// Body comes on a stream until its window is used up. The answer is how many octets.
fn fill(rig: &mut Rig, alloc: Global, conn: u32, stream: u32) -> anyhow::Result<u64> {
    let body = piece(alloc, PIECE)?;
    let mut left = WINDOW;
    let mut taken = 0u64;
    for _frame in 0..FRAMES {
        let n = cmp::min(left, PIECE);
        if n == 0 {
            break;
        }
        let octets = body.as_slice().get(0..n).unwrap_or(&[]);
        rig.play_made(frame(alloc, conn, stream, octets))?;
        taken = taken.saturating_add(n as u64);
        left = left
            .saturating_sub(n)
            .saturating_add(rig.granted(conn, stream));
    }
    Ok(taken)
}

// A frame of body comes on a stream.
fn frame(alloc: Global, conn: u32, stream: u32, body: &[u8]) -> Result<Peers, NoMemory> {
    let mut peers = Peers::new(alloc);
    peers.body(conn, stream, body, false)?;
    Ok(peers)
}
