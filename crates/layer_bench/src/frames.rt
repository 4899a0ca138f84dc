// How fast frames are read.
use crate::report::tell;
use bench_parts::{Stopwatch, per_second};
use h2_frames::{Frame, ReadFrame, frame_head, read_frame};
use io_ports::{NoMemory, Octets};
use std::alloc::Global;
use std::rt::Clock;

const SMALL_PAIRS: u32 = 10_000;

const LARGE_FRAMES: u32 = 64;

const ROUNDS: u32 = 200;

/// Appends a frame's head and its payload.
pub fn push_frame(into: &mut Octets, head: [u8; 9], payload: &[u8]) -> Result<(), NoMemory> {
    into.push_all(&head)?;
    into.push_all(payload)
}

// WINDOW_UPDATE and HEADERS of 40 octets in turn.
fn small_frames(alloc: Global) -> Result<Octets, NoMemory> {
    let mut into = Octets::new(alloc);
    for _ in 0..SMALL_PAIRS {
        push_frame(&mut into, frame_head(4, 8, 0, 1), &1024u32.to_be_bytes())?;
        push_frame(&mut into, frame_head(40, 1, 4, 1), &[0x82; 40])?;
    }
    Ok(into)
}

// DATA frames of 16,384 octets.
fn large_frames(alloc: Global) -> Result<Octets, NoMemory> {
    let mut into = Octets::new(alloc);
    for _ in 0..LARGE_FRAMES {
        push_frame(&mut into, frame_head(16384, 0, 0, 1), &[7; 16384])?;
    }
    Ok(into)
}

// A number that each frame gives to a sum, so that none is left unread.
fn weight(frame: &Frame) -> u64 {
    match *frame {
        Frame::WindowUpdate { increment, .. } => u64::from(increment),
        Frame::Headers { block, .. } => block.len() as u64,
        Frame::DataFrame { octets, .. } => octets.len() as u64,
        _ => 0,
    }
}

// How many frames the octets are, and the sum of what they give.
fn read_all(octets: &[u8]) -> (u64, u64) {
    let mut rest = octets;
    let mut frames: u64 = 0;
    let mut sum: u64 = 0;
    for _ in 0..octets.len() {
        let ReadFrame::Whole(frame, used) = read_frame(rest, 16384) else {
            break;
        };
        frames = frames.wrapping_add(1);
        sum = sum.wrapping_add(weight(&frame));
        rest = rest.split_at(used as usize).1;
    }
    (frames, sum)
}

// Frames a second of reading them, and the sum of what they give.
fn time_reading(rt: &impl Clock, octets: &[u8]) -> anyhow::Result<(u64, u64)> {
    let mut frames: u64 = 0;
    let mut sum: u64 = 0;
    let watch = Stopwatch::start(rt)?;
    for _ in 0..ROUNDS {
        let read = read_all(octets);
        frames = frames.wrapping_add(read.0);
        sum = sum.wrapping_add(read.1);
    }
    Ok((per_second(frames, watch.nanos(rt)?), sum))
}

// Octets a second of a plain copy.
fn time_copying(rt: &impl Clock, octets: &[u8], copy: &mut Octets) -> anyhow::Result<u64> {
    let watch = Stopwatch::start(rt)?;
    for _ in 0..ROUNDS {
        copy.clear();
        copy.push_all(octets)?;
    }
    let copied = u64::from(ROUNDS).wrapping_mul(octets.len() as u64);
    Ok(per_second(copied, watch.nanos(rt)?))
}

fn report(
    rt: &(impl Print + Clock + AllocGlobal),
    frames: &str,
    octets: &[u8],
) -> anyhow::Result<()> {
    let (rate, sum) = time_reading(rt, octets)?;
    let copy_rate = time_copying(rt, octets, &mut Octets::new(rt.alloc()))?;
    let numbers = [
        (frames, rate),
        (" frames a second (sum ", sum),
        ("); a plain copy takes ", copy_rate),
    ];
    tell(rt, &numbers, " octets a second")
}

/// Reads a stream of small frames and one of large ones.
pub fn run(rt: &(impl Print + Clock + AllocGlobal)) -> anyhow::Result<()> {
    let small = small_frames(rt.alloc())?;
    report(
        rt,
        "frames: WINDOW_UPDATE and HEADERS of 40 octets: ",
        small.as_slice(),
    )?;
    let large = large_frames(rt.alloc())?;
    report(rt, "frames: DATA of 16,384 octets: ", large.as_slice())
}
