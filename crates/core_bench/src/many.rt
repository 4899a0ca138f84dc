// Connections and exchanges that come and go.
use crate::gets::{CONFIG, Route, exchanges};
use crate::tell;
use core_rig::{Peers, Rig, client_and_cluster};
use io_ports::NoMemory;
use std::alloc::Global;

/// The cluster's connection.
const CLUSTER: u32 = 1;

/// So many connections come and go, and so many thousands of exchanges.
pub fn run(rt: &(impl AllocGlobal + Print), conns: u32, thousands: u32) -> anyhow::Result<()> {
    play(rt.alloc(), conns, thousands)?;
    let numbers = [
        ("", u64::from(conns)),
        (" connections and ", u64::from(thousands)),
    ];
    tell(rt, &numbers, " thousand exchanges came and went")
}

fn play(alloc: Global, conns: u32, thousands: u32) -> anyhow::Result<()> {
    let mut rig = Rig::new(alloc, CONFIG)?;
    let played = play_all(&mut rig, alloc, conns, thousands);
    drop(rig);
    played
}

// A client that stays and the cluster's connection come first.
fn play_all(rig: &mut Rig, alloc: Global, conns: u32, thousands: u32) -> anyhow::Result<()> {
    let client = conns.saturating_add(2);
    rig.play_made(client_and_cluster(alloc, client, CLUSTER))?;
    for place in 0..conns {
        rig.play_made(come_and_go(alloc, place.saturating_add(2)))?;
    }
    exchange(rig, alloc, client, thousands)
}

fn come_and_go(alloc: Global, conn: u32) -> Result<Peers, NoMemory> {
    let mut peers = Peers::new(alloc);
    peers.client(conn, true)?;
    peers.gone(conn)?;
    Ok(peers)
}

// So many thousands of exchanges of a client.
fn exchange(rig: &mut Rig, alloc: Global, client: u32, thousands: u32) -> anyhow::Result<()> {
    for thousand in 0..thousands {
        let route = Route {
            client,
            cluster: CLUSTER,
            first: thousand.saturating_mul(2_000).saturating_add(1),
        };
        rig.play_made(exchanges(alloc, route, 1_000, 1))?;
    }
    Ok(())
}
