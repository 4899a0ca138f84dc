// Octets through one pair, beside the same octets copied twice by plain slice copies.
use anyhow::ensure;
use bench_parts::{CpuStopwatch, Line, per_second};
use flow_notes::{Event, Notes};
use io_ports::Octets;
use std::alloc::{AllocError, Global};
use std::time::CpuClock;
use tcp_relay::{Relay, RelayFault};

/// The octets of a read.
const PIECE: u32 = 16_384;

/// The limit of each write buffer.
const LIMIT: u32 = 1_048_576;

/// The reads of a round, and the rounds that come to 1 GiB.
const READS_A_ROUND: u64 = 256;

const ROUNDS: u64 = 256;

const OCTETS: u64 = PIECE as u64 * READS_A_ROUND * ROUNDS;

// Dispatches an event, and lets its notes go.
fn dispatch(relay: &mut Relay, event: &Event, notes: &mut Notes) -> Result<(), RelayFault> {
    relay.dispatch(event, notes)?;
    notes.clear();
    Ok(())
}

/// The same of an event that comes once.
pub(crate) fn pass(relay: &mut Relay, event: Event, notes: &mut Notes) -> Result<(), RelayFault> {
    let end = dispatch(relay, &event, notes);
    drop(event);
    end
}

/// A pair from connection `conn` + 1, a client's, to `conn`.
pub(crate) fn begin(relay: &mut Relay, conn: u32, notes: &mut Notes) -> Result<(), RelayFault> {
    let client = conn.saturating_add(1);
    pass(relay, Event::Join { conn, cluster: 0 }, notes)?;
    pass(relay, Event::Accept { conn: client }, notes)
}

/// A round's reads, each written out at once, as a live relay does it; sums the first octets that go out.
fn relay_round(relay: &mut Relay, read: &Event, room: &Event) -> Result<u64, RelayFault> {
    let mut sum = 0u64;
    for _read in 0..READS_A_ROUND {
        relay.carry_out(read)?;
        sum = sum.wrapping_add(first_octet(relay.out_front(1)));
        relay.carry_out(room)?;
    }
    Ok(sum)
}

/// The same, with the notes of a tape.
fn noted_round(
    relay: &mut Relay,
    read: &Event,
    room: &Event,
    notes: &mut Notes,
) -> Result<u64, RelayFault> {
    let mut sum = 0u64;
    for _read in 0..READS_A_ROUND {
        dispatch(relay, read, notes)?;
        sum = sum.wrapping_add(first_octet(relay.out_front(1)));
        dispatch(relay, room, notes)?;
    }
    Ok(sum)
}

/// Copies a round's pieces to one block and from there to another, and sums the first octets.
fn copy_round(first: &mut [u8], second: &mut [u8], piece: &[u8]) -> u64 {
    let mut sum = 0u64;
    for _read in 0..READS_A_ROUND {
        copy(piece, first);
        copy(first, second);
        sum = sum.wrapping_add(first_octet(second));
    }
    sum
}

/// One plain copy of what fits, which the compiler may not leave out.
#[inline(never)]
fn copy(from: &[u8], to: &mut [u8]) {
    let n = from.len().min(to.len());
    to[..n].copy_from_slice(&from[..n]);
}

fn first_octet(octets: &[u8]) -> u64 {
    octets.first().map_or(0, |octet| u64::from(*octet))
}

fn block(alloc: Global, octet: u8) -> Result<Vec<u8>, AllocError> {
    vec![in alloc; octet; PIECE as usize]
}

/// A pair's relay, with what is read of its client and the room that the other side has for it.
#[derive(Drop)]
struct Pair {
    relay: Relay,
    read: Event,
    room: Event,
    notes: Notes,
}

impl Pair {
    /// The pair has not begun.
    fn new(alloc: Global) -> Result<Self, AllocError> {
        let octets = Octets::from_vec(block(alloc, 7)?);
        Ok(Pair {
            relay: Relay::new(alloc, LIMIT),
            read: Event::Read { conn: 2, octets },
            room: Event::Room { conn: 1, n: PIECE },
            notes: Notes::new(alloc),
        })
    }

    fn relay(&mut self) -> Result<u64, RelayFault> {
        relay_round(&mut self.relay, &self.read, &self.room)
    }

    fn note(&mut self) -> Result<u64, RelayFault> {
        noted_round(&mut self.relay, &self.read, &self.room, &mut self.notes)
    }
}

/// The blocks of the plain copies.
#[derive(Drop)]
struct Blocks {
    piece: Vec<u8>,
    first: Vec<u8>,
    second: Vec<u8>,
}

impl Blocks {
    fn new(alloc: Global) -> Result<Self, AllocError> {
        Ok(Blocks {
            piece: block(alloc, 7)?,
            first: block(alloc, 0)?,
            second: block(alloc, 0)?,
        })
    }
}

/// Nanoseconds of processor time that each has taken.
#[derive(Clone, Copy)]
struct Spent {
    relaying: u64,
    noting: u64,
    copying: u64,
}

impl Spent {
    // A round of relaying. The sum of the first octets, as of the others.
    fn relay(&mut self, rt: &impl CpuClock, pair: &mut Pair) -> anyhow::Result<u64> {
        let watch = CpuStopwatch::start(rt)?;
        let relayed = pair.relay()?;
        self.relaying = self.relaying.saturating_add(watch.nanos(rt)?);
        Ok(relayed)
    }

    fn note(&mut self, rt: &impl CpuClock, pair: &mut Pair) -> anyhow::Result<u64> {
        let watch = CpuStopwatch::start(rt)?;
        let noted = pair.note()?;
        self.noting = self.noting.saturating_add(watch.nanos(rt)?);
        Ok(noted)
    }

    fn copy(&mut self, rt: &impl CpuClock, blocks: &mut Blocks) -> anyhow::Result<u64> {
        let watch = CpuStopwatch::start(rt)?;
        let copied = copy_round(&mut blocks.first, &mut blocks.second, &blocks.piece);
        self.copying = self.copying.saturating_add(watch.nanos(rt)?);
        Ok(copied)
    }
}

/// A round of each, one after the other.
fn round(
    rt: &impl CpuClock,
    pair: &mut Pair,
    blocks: &mut Blocks,
    spent: &mut Spent,
) -> anyhow::Result<()> {
    let relayed = spent.relay(rt, pair)?;
    let noted = spent.note(rt, pair)?;
    let copied = spent.copy(rt, blocks)?;
    ensure!(
        relayed == copied && noted == copied,
        "the relay gave other octets"
    );
    Ok(())
}

/// Relays and copies in turn, and prints how many octets each does in a second of processor time.
pub fn run(rt: &(impl AllocGlobal + Print + CpuClock)) -> anyhow::Result<()> {
    let mut spent = Spent {
        relaying: 0,
        noting: 0,
        copying: 0,
    };
    let mut blocks = Blocks::new(rt.alloc())?;
    let mut pair = Pair::new(rt.alloc())?;
    let end = rounds(rt, &mut pair, &mut blocks, &mut spent);
    drop(pair);
    end?;
    show(rt, spent)
}

fn rounds(
    rt: &impl CpuClock,
    pair: &mut Pair,
    blocks: &mut Blocks,
    spent: &mut Spent,
) -> anyhow::Result<()> {
    begin(&mut pair.relay, 1, &mut pair.notes)?;
    for _round in 0..ROUNDS {
        round(rt, pair, blocks, spent)?;
    }
    Ok(())
}

fn show(rt: &(impl AllocGlobal + Print), spent: Spent) -> anyhow::Result<()> {
    let relayed = per_second(OCTETS, spent.relaying.max(1));
    let noted = per_second(OCTETS, spent.noting.max(1));
    let copied = per_second(OCTETS, spent.copying.max(1));
    let mut line = Line::new(rt.alloc());
    line.say_with("two plain copies: ", copied);
    line.say_with(" octets in a second of processor time\none pair: ", relayed);
    line.say_times(
        " octets in a second of processor time\nratio: ",
        relayed,
        copied,
    );
    line.say_with("\none pair, with notes: ", noted);
    line.say_times(
        " octets in a second of processor time\nratio: ",
        noted,
        copied,
    );
    Ok(line.print(rt)?)
}
