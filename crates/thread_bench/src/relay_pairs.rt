// Pairs that come and go. What memory they leave is seen from outside.
use crate::relay_octets::{begin, pass};
use anyhow::anyhow;
use flow_notes::{Event, Notes};
use io_ports::Octets;
use std::alloc::Global;
use tcp_relay::Relay;

/// One pair: it begins, octets go, the client is lost, and the rest is written.
fn one_pair(alloc: Global, relay: &mut Relay, conn: u32, notes: &mut Notes) -> anyhow::Result<()> {
    let client = conn.saturating_add(1);
    begin(relay, conn, notes)?;
    let read = Event::Read {
        conn: client,
        octets: Octets::from_slice(alloc, &[7; 1_000])?,
    };
    pass(relay, read, notes)?;
    pass(relay, Event::Gone { conn: client }, notes)?;
    Ok(pass(relay, Event::Room { conn, n: 1_000 }, notes)?)
}

/// As many pairs as the word says, one after the other. The relay is dropped by a call, since the check follows a drop without one
/// field by field.
pub fn run(rt: &(impl AllocGlobal + Print), word: Option<&str>) -> anyhow::Result<()> {
    let pairs = number_of(word)?;
    let mut relay = Relay::new(rt.alloc(), 1_048_576);
    let end = play(rt, &mut relay, pairs);
    drop(relay);
    end
}

fn number_of(word: Option<&str>) -> anyhow::Result<u32> {
    match word {
        Some(word) => word
            .parse::<u32>()
            .map_err(|_| anyhow!("no number of pairs")),
        None => Ok(1_000),
    }
}

fn play(rt: &(impl AllocGlobal + Print), relay: &mut Relay, pairs: u32) -> anyhow::Result<()> {
    let mut notes = Notes::new(rt.alloc());
    let end = all_pairs(rt.alloc(), relay, pairs, &mut notes);
    drop(notes);
    end?;
    match relay.conn_after(0) {
        None => println!(rt; "{pairs} pairs came and went")?,
        Some(conn) => println!(rt; "connection {conn} is still there")?,
    }
    Ok(())
}

fn all_pairs(
    alloc: Global,
    relay: &mut Relay,
    pairs: u32,
    notes: &mut Notes,
) -> anyhow::Result<()> {
    for pair in 0..pairs.min(1_000_000) {
        one_pair(alloc, relay, 2 * pair + 1, notes)?;
    }
    Ok(())
}
