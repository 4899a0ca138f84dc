// A drill from end to end, beside its octets through two watermark buffers.
use crate::tell;
use anyhow::ensure;
use bench_parts::{CpuStopwatch, per_second};
use core_rig::piece;
use flow_notes::{Event, EventList, PlainEvent};
use io_ports::{MemSink, MemSource, NoMemory};
use replay_run::{Status, drill_events, replay};
use std::alloc::Global;
use std::time::CpuClock;
use wm_buffer::WatermarkBuffer;

/// The streams of the drill.
const STREAMS: u32 = 1_000;

/// A stream of the drill has so many events.
const EVENTS: u64 = 69;

/// How often each side is measured; the best counts.
const TURNS: u32 = 7;

/// The octets of a great piece.
const PIECE: usize = 16_384;

/// A limit with which the seam of a ready buffer's ring wanders through the pieces.
const LIMIT: u32 = 65_521;

/// Room for the short summary.
const ROOM: usize = 4_096;

/// Runs the drill and passes its octets through two buffers, in turn, and prints the best of each.
pub fn run(rt: &(impl AllocGlobal + Print + CpuClock)) -> anyhow::Result<()> {
    let events = drill_events(rt.alloc(), STREAMS)?;
    let octets = octets_in(&events);
    let mut drill = u64::MAX;
    let mut bodies = u64::MAX;
    let mut pieces = u64::MAX;
    for _turn in 0..TURNS {
        drill = drill.min(drill_once(rt)?);
        bodies = bodies.min(bodies_once(rt, &events)?);
        pieces = pieces.min(pieces_once(rt, octets)?);
    }
    report(rt, events.len() as u64, octets, drill, bodies, pieces)
}

/// How many body octets the events bring.
fn octets_in(events: &EventList) -> u64 {
    let mut octets = 0u64;
    for event in events.as_slice() {
        octets = octets.saturating_add(body_of(event).len() as u64);
    }
    octets
}

/// The body octets of an event, none of most.
fn body_of(event: &Event) -> &[u8] {
    match event {
        Event::Plain(PlainEvent::Body { octets, .. }) => octets.as_slice(),
        _ => &[],
    }
}

/// Runs the drill once, and answers the nanoseconds of processor time.
pub fn drill_once(rt: &(impl AllocGlobal + CpuClock)) -> anyhow::Result<u64> {
    let alloc = rt.alloc();
    let words = vec![in alloc;
        String::from_str(alloc, "drill")?,
        format!(in alloc; "{STREAMS}")?,
    ]?;
    let mut out = MemSink::new(alloc, ROOM, Vec::new(alloc))?;
    let spent = timed_replay(rt, words.as_slice(), &mut out);
    drop(out);
    spent
}

fn timed_replay(
    rt: &(impl AllocGlobal + CpuClock),
    words: &[String],
    out: &mut MemSink,
) -> anyhow::Result<u64> {
    let watch = CpuStopwatch::start(rt)?;
    let status = replay_words(rt.alloc(), words, out);
    let spent = watch.nanos(rt)?;
    ensure!(status == Status::Done, "the drill was not done");
    Ok(spent)
}

/// The drill's events a second, where it took so many nanoseconds.
pub fn events_a_second(nanos: u64) -> u64 {
    per_second(EVENTS * u64::from(STREAMS), nanos.max(1))
}

/// A replay of no configuration and no session.
fn replay_words(alloc: Global, words: &[String], out: &mut MemSink) -> Status {
    let mut config = MemSource::new(Vec::new(alloc), Vec::new(alloc));
    let mut session = MemSource::new(Vec::new(alloc), Vec::new(alloc));
    replay(alloc, words, &mut config, &mut session, out)
}

/// An empty buffer with room for its limit and a piece.
fn ready_buffer(alloc: Global) -> Result<WatermarkBuffer, NoMemory> {
    let mut buffer = WatermarkBuffer::new(alloc, LIMIT);
    buffer.ready(PIECE as u32)?;
    Ok(buffer)
}

/// Two buffers that octets pass through.
#[derive(Drop)]
struct Buffers {
    first: WatermarkBuffer,
    second: WatermarkBuffer,
}

impl Buffers {
    fn new(alloc: Global) -> Result<Self, NoMemory> {
        let first = ready_buffer(alloc)?;
        let second = ready_buffer(alloc)?;
        Ok(Buffers { first, second })
    }

    /// Passes a piece, if it has octets, into the first buffer, on to the second and out of it, and answers its first octet.
    fn pass(&mut self, piece: &[u8]) -> Result<u64, NoMemory> {
        if piece.is_empty() {
            return Ok(0);
        }
        self.first.add(piece)?;
        let n = self.first.len();
        self.first.move_to(&mut self.second, &[], n)?;
        let octet = self
            .second
            .front()
            .first()
            .map_or(0, |octet| u64::from(*octet));
        let n = self.second.len();
        self.second.take(n);
        Ok(octet)
    }

    fn pass_bodies(&mut self, clock: &impl CpuClock, events: &EventList) -> anyhow::Result<u64> {
        let mut sum = 0u64;
        let watch = CpuStopwatch::start(clock)?;
        for event in events.as_slice() {
            sum = sum.wrapping_add(self.pass(body_of(event))?);
        }
        let spent = watch.nanos(clock)?;
        ensure!(sum > 0, "the buffers gave nothing");
        Ok(spent)
    }

    fn pass_pieces(
        &mut self,
        clock: &impl CpuClock,
        pieces: u64,
        piece: &[u8],
    ) -> anyhow::Result<u64> {
        let mut sum = 0u64;
        let watch = CpuStopwatch::start(clock)?;
        for _piece in 0..pieces {
            sum = sum.wrapping_add(self.pass(piece)?);
        }
        let spent = watch.nanos(clock)?;
        ensure!(sum > 0, "the buffers gave nothing");
        Ok(spent)
    }
}

/// Passes each body through two buffers, and answers the nanoseconds of processor time.
fn bodies_once(rt: &(impl AllocGlobal + CpuClock), events: &EventList) -> anyhow::Result<u64> {
    let mut buffers = Buffers::new(rt.alloc())?;
    let spent = buffers.pass_bodies(rt, events);
    drop(buffers);
    spent
}

/// Passes so many octets through two buffers in great pieces, and answers the nanoseconds of processor time.
fn pieces_once(rt: &(impl AllocGlobal + CpuClock), octets: u64) -> anyhow::Result<u64> {
    let piece = piece(rt.alloc(), PIECE)?;
    let mut buffers = Buffers::new(rt.alloc())?;
    let spent = buffers.pass_pieces(rt, octets / PIECE as u64, piece.as_slice());
    drop(buffers);
    spent
}

fn report(
    rt: &(impl AllocGlobal + Print),
    events: u64,
    octets: u64,
    drill: u64,
    bodies: u64,
    pieces: u64,
) -> anyhow::Result<()> {
    let numbers = [
        ("drill ", u64::from(STREAMS)),
        (": ", events),
        (" events with ", octets),
        (" octets in ", drill),
        (" ns, ", per_second(events, drill.max(1))),
    ];
    tell(rt, &numbers, " events a second")?;
    compare(rt, drill, "the same bodies through two buffers: ", bodies)?;
    compare(rt, drill, "as many octets in pieces of 16384: ", pieces)
}

fn compare(
    rt: &(impl AllocGlobal + Print),
    drill: u64,
    what: &str,
    nanos: u64,
) -> anyhow::Result<()> {
    let numbers = [
        (what, nanos),
        (" ns, the drill takes ", drill / nanos.max(1)),
    ];
    tell(rt, &numbers, " times that")
}
