// Octets that are copied plainly.
use bench_parts::CpuStopwatch;
use std::alloc::{AllocError, Global};
use std::time::CpuClock;

/// The octets of a DATA frame.
pub const PIECE: u32 = 16_384;

/// The frames of a round, and the rounds.
pub const FRAMES_A_ROUND: u64 = 64;

pub const ROUNDS: u64 = 512;

/// A piece, and a block of 1 MiB with room for a round of them.
#[derive(Drop)]
pub struct Copies {
    pub piece: Vec<u8>,
    copied: Vec<u8>,
}

impl Copies {
    pub fn new(alloc: Global) -> Result<Self, AllocError> {
        let piece = vec![in alloc; 7; PIECE as usize]?;
        let copied = vec![in alloc; 0; PIECE as usize * FRAMES_A_ROUND as usize]?;
        Ok(Copies { piece, copied })
    }

    /// Copies the piece as often as a round has frames, each time to another place of the block. Answers the sum of the first
    /// octets, and nanoseconds.
    pub fn round(&mut self, rt: &impl CpuClock) -> anyhow::Result<(u64, u64)> {
        let watch = CpuStopwatch::start(rt)?;
        let sum = copy_all(self.piece.as_slice(), self.copied.as_mut_slice());
        Ok((sum, watch.nanos(rt)?))
    }
}

// Copies the piece to each place of a block. Answers the sum of the first octets.
fn copy_all(piece: &[u8], block: &mut [u8]) -> u64 {
    let mut sum = 0u64;
    for place in block.chunks_mut(PIECE as usize) {
        copy(piece, place);
        sum = sum.wrapping_add(first_octet(place));
    }
    sum
}

/// One plain copy of what fits, which the compiler may not leave out.
#[inline(never)]
fn copy(from: &[u8], to: &mut [u8]) {
    let n = from.len().min(to.len());
    to[..n].copy_from_slice(&from[..n]);
}

/// The first octet, and 0 where there is none.
pub fn first_octet(octets: &[u8]) -> u64 {
    match octets.first() {
        Some(octet) => u64::from(*octet),
        None => 0,
    }
}
