// Octets through two watermark buffers, beside the same octets copied twice by plain slice copies.
use anyhow::ensure;
use bench_parts::{CpuStopwatch, Line, per_second};
use io_ports::NoMemory;
use std::alloc::{AllocError, Global};
use std::time::CpuClock;
use wm_buffer::WatermarkBuffer;

/// The octets of a piece.
const PIECE: u32 = 16_384;

/// A limit with which the seam of a ready buffer's ring wanders through the pieces.
const LIMIT: u32 = 65_521;

/// The pieces that each side moves before it is the other's turn.
const PIECES_A_ROUND: u64 = 256;

/// The rounds that come to 1 GiB.
const ROUNDS: u64 = 256;

const OCTETS: u64 = PIECE as u64 * PIECES_A_ROUND * ROUNDS;

/// An empty buffer with room for its limit and a piece.
fn ready_buffer(alloc: Global) -> Result<WatermarkBuffer, NoMemory> {
    let mut buffer = WatermarkBuffer::new(alloc, LIMIT);
    buffer.ready(PIECE)?;
    Ok(buffer)
}

/// The same with an octet that is kept back: a ring that is emptied goes on where it begins, and one
/// that never is has its seam wander.
fn wandering_buffer(alloc: Global) -> Result<WatermarkBuffer, NoMemory> {
    let mut buffer = ready_buffer(alloc)?;
    buffer.add(&[7])?;
    Ok(buffer)
}

/// Two buffers, and the nanoseconds of processor time that moving through them took.
#[derive(Drop)]
struct Moving {
    first: WatermarkBuffer,
    second: WatermarkBuffer,
    nanos: u64,
}

impl Moving {
    fn new(alloc: Global) -> Result<Self, NoMemory> {
        let first = wandering_buffer(alloc)?;
        let second = wandering_buffer(alloc)?;
        Ok(Moving {
            first,
            second,
            nanos: 0,
        })
    }

    /// Passes a round's pieces through both buffers, and sums the first octets that come out.
    fn round(&mut self, piece: &[u8]) -> Result<u64, NoMemory> {
        let mut sum = 0u64;
        for _piece in 0..PIECES_A_ROUND {
            self.first.add(piece)?;
            let n = self.first.len().min(PIECE);
            self.first.move_to(&mut self.second, &[], n)?;
            sum = sum.wrapping_add(first_octet(self.second.front()));
            let n = self.second.len().min(PIECE);
            self.second.take(n);
        }
        Ok(sum)
    }

    /// The same, and adds the processor time that it took.
    fn timed_round(&mut self, clock: &impl CpuClock, piece: &[u8]) -> anyhow::Result<u64> {
        let watch = CpuStopwatch::start(clock)?;
        let moved = self.round(piece)?;
        self.nanos = self.nanos.saturating_add(watch.nanos(clock)?);
        Ok(moved)
    }
}

/// Two blocks, and the nanoseconds of processor time that copying into them took.
#[derive(Drop)]
struct Copying {
    first: Vec<u8>,
    second: Vec<u8>,
    nanos: u64,
}

impl Copying {
    fn new(alloc: Global) -> Result<Self, AllocError> {
        let first = block(alloc, 0)?;
        let second = block(alloc, 0)?;
        Ok(Copying {
            first,
            second,
            nanos: 0,
        })
    }

    /// Copies a round's pieces to one block and from there to another, and sums the first octets.
    fn round(&mut self, piece: &[u8]) -> u64 {
        let mut sum = 0u64;
        for _piece in 0..PIECES_A_ROUND {
            copy(piece, self.first.as_mut_slice());
            copy(self.first.as_slice(), self.second.as_mut_slice());
            sum = sum.wrapping_add(first_octet(self.second.as_slice()));
        }
        sum
    }

    /// The same, and adds the processor time that it took.
    fn timed_round(&mut self, clock: &impl CpuClock, piece: &[u8]) -> anyhow::Result<u64> {
        let watch = CpuStopwatch::start(clock)?;
        let copied = self.round(piece);
        self.nanos = self.nanos.saturating_add(watch.nanos(clock)?);
        Ok(copied)
    }
}

/// One plain copy of what fits, which the compiler may not leave out.
#[inline(never)]
fn copy(from: &[u8], to: &mut [u8]) {
    let n = from.len().min(to.len());
    to[..n].copy_from_slice(&from[..n]);
}

fn first_octet(octets: &[u8]) -> u64 {
    octets.first().map_or(0, |octet| u64::from(*octet))
}

fn block(alloc: Global, octet: u8) -> Result<Vec<u8>, AllocError> {
    vec![in alloc; octet; PIECE as usize]
}

/// Moves and copies in turn, and prints how many octets each does in a second of processor time.
pub fn run(rt: &(impl AllocGlobal + Print + CpuClock)) -> anyhow::Result<()> {
    let piece = block(rt.alloc(), 7)?;
    let mut moving = Moving::new(rt.alloc())?;
    let end = beside(rt, &mut moving, piece.as_slice());
    drop(moving);
    end
}

fn beside(
    rt: &(impl AllocGlobal + Print + CpuClock),
    moving: &mut Moving,
    piece: &[u8],
) -> anyhow::Result<()> {
    let mut copying = Copying::new(rt.alloc())?;
    take_turns(rt, moving, &mut copying, piece)?;
    report(rt, moving.nanos, copying.nanos)
}

/// The rounds of both sides.
fn take_turns(
    clock: &impl CpuClock,
    moving: &mut Moving,
    copying: &mut Copying,
    piece: &[u8],
) -> anyhow::Result<()> {
    for _round in 0..ROUNDS {
        let moved = moving.timed_round(clock, piece)?;
        let copied = copying.timed_round(clock, piece)?;
        ensure!(moved == copied, "the buffers gave other octets");
    }
    Ok(())
}

fn report(rt: &(impl Print + AllocGlobal), moving: u64, copying: u64) -> anyhow::Result<()> {
    let moved = per_second(OCTETS, moving.max(1));
    let copied = per_second(OCTETS, copying.max(1));
    let mut line = Line::new(rt.alloc());
    line.say_with("two buffers: ", moved);
    line.say_with(
        " octets in a second of processor time\ntwo plain copies: ",
        copied,
    );
    line.say_times(
        " octets in a second of processor time\nratio: ",
        moved,
        copied,
    );
    Ok(line.print(rt)?)
}
