// What comes in: DATA frames beside a plain copy of their octets, and small heads.
use crate::copies::{Copies, FRAMES_A_ROUND, PIECE, ROUNDS};
use crate::report::{Spent, report_count, report_octets};
use crate::requests::small_request;
use anyhow::{bail, ensure};
use bench_parts::CpuStopwatch;
use h2_frames::frame_head;
use hpack_codec::Encoder;
use io_ports::{NoMemory, Octets};
use std::alloc::Global;
use std::time::CpuClock;
use wire_inlet::{Inlet, Intake, Peer};

/// What a client's connection begins with (RFC 9113 section 3.4).
const PREFACE: &[u8] = b"PRI * HTTP/2.0\r\n\r\nSM\r\n\r\n";

/// The types of frames.
const DATA: u8 = 0;

const HEADERS: u8 = 1;

const SETTINGS: u8 = 4;

/// The flag END_HEADERS, and that with END_STREAM.
const END_HEADERS: u8 = 4;

const ENDS: u8 = 5;

/// The greatest number of a stream.
const MAX_STREAM: u32 = 0x7fff_ffff;

/// A client's connection on which nothing came.
fn new_inlet(alloc: Global) -> Inlet {
    Inlet::new(alloc, Peer::Client, 100, 100, 61_440)
}

/// Takes one frame, and answers its flow-controlled octets.
fn take(inlet: &mut Inlet) -> anyhow::Result<u64> {
    match inlet.next(PIECE)? {
        Intake::Taken(taken) => Ok(u64::from(taken.content)),
        _ => bail!("a frame wasn't taken"),
    }
}

/// The block of a small request's head, which uses no dynamic table.
fn small_block(alloc: Global) -> Result<Octets, NoMemory> {
    let fields = small_request(alloc)?;
    Encoder::new(alloc).encode(&fields)
}

/// The preface, and an empty SETTINGS frame.
fn beginning(alloc: Global) -> Result<Octets, NoMemory> {
    let mut octets = Octets::from_slice(alloc, PREFACE)?;
    octets.push_all(&frame_head(0, SETTINGS, 0, 0))?;
    Ok(octets)
}

/// A DATA frame with this piece, in a block that the inlet may share.
fn data_frame(alloc: Global, piece: &[u8]) -> Result<Octets, NoMemory> {
    let mut octets = Octets::from_slice(alloc, &frame_head(PIECE, DATA, 0, 1))?;
    octets.push_all(piece)?;
    octets.shared()
}

/// The nine octets before a block that is sent whole.
fn headers_head(block: &[u8], flags: u8, stream: u32) -> [u8; 9] {
    let len = block.len().min(PIECE as usize) as u32;
    frame_head(len, HEADERS, flags, stream.min(MAX_STREAM))
}

/// The frame of a head, in a block that the inlet may share.
fn head_frame(alloc: Global, block: &[u8], flags: u8, stream: u32) -> Result<Octets, NoMemory> {
    let mut octets = Octets::from_slice(alloc, &headers_head(block, flags, stream))?;
    octets.push_all(block)?;
    octets.shared()
}

/// What came is one frame, which is taken.
fn take_frame(inlet: &mut Inlet, frame: &Octets) -> anyhow::Result<u64> {
    inlet.push(frame)?;
    take(inlet)
}

/// What a connection begins with comes, and is taken.
fn begin(alloc: Global, inlet: &mut Inlet) -> anyhow::Result<u64> {
    let octets = beginning(alloc)?;
    take_frame(inlet, &octets)
}

/// A stream is opened for its body.
fn open(alloc: Global, inlet: &mut Inlet, block: &[u8], stream: u32) -> anyhow::Result<u64> {
    let frame = head_frame(alloc, block, END_HEADERS, stream)?;
    take_frame(inlet, &frame)
}

/// A round of DATA frames, each taken once it has come. Answers their octets.
fn take_data(inlet: &mut Inlet, frame: &Octets) -> anyhow::Result<u64> {
    let mut sum = 0u64;
    for _frame in 0..FRAMES_A_ROUND {
        sum = sum.wrapping_add(take_frame(inlet, frame)?);
    }
    Ok(sum)
}

/// Nanoseconds of a round of DATA frames.
fn time_data(rt: &impl CpuClock, inlet: &mut Inlet, frame: &Octets) -> anyhow::Result<u64> {
    let watch = CpuStopwatch::start(rt)?;
    let content = take_data(inlet, frame)?;
    let nanos = watch.nanos(rt)?;
    let wanted = FRAMES_A_ROUND * u64::from(PIECE);
    ensure!(content == wanted, "octets are lost");
    Ok(nanos)
}

/// Rounds of DATA frames, each with one of plain copies.
fn data_rounds(
    rt: &impl CpuClock,
    inlet: &mut Inlet,
    frame: &Octets,
    copies: &mut Copies,
) -> anyhow::Result<Spent> {
    let mut spent = Spent::none();
    for _round in 0..ROUNDS {
        let taking = time_data(rt, inlet, frame)?;
        spent.add(taking, copies.round(rt)?.1);
    }
    Ok(spent)
}

/// DATA frames beside plain copies, on the stream that is open.
fn play_data(
    rt: &(impl AllocGlobal + Print + CpuClock),
    inlet: &mut Inlet,
    copies: &mut Copies,
) -> anyhow::Result<()> {
    let frame = data_frame(rt.alloc(), copies.piece.as_slice())?;
    let spent = data_rounds(rt, inlet, &frame, copies)?;
    report_octets(rt, "DATA frames taken", spent)
}

/// Begins the connection, and opens a stream for its body.
fn play_stream(
    rt: &(impl AllocGlobal + Print + CpuClock),
    inlet: &mut Inlet,
    block: &[u8],
) -> anyhow::Result<()> {
    begin(rt.alloc(), inlet)?;
    open(rt.alloc(), inlet, block, 1)?;
    let mut copies = Copies::new(rt.alloc())?;
    play_data(rt, inlet, &mut copies)
}

/// A round's frames of heads, each of the stream that comes next.
fn head_frames(alloc: Global, block: &[u8], first: u32) -> Result<Vec<Octets>, NoMemory> {
    let mut frames = Vec::new(alloc);
    let mut stream = first;
    for _head in 0..FRAMES_A_ROUND {
        frames.push(head_frame(alloc, block, ENDS, stream)?)?;
        stream = stream.saturating_add(2);
    }
    Ok(frames)
}

/// A round of heads is taken, each of the stream that comes next, which is closed. Answers the next stream.
fn take_heads(inlet: &mut Inlet, frames: &[Octets], first: u32) -> anyhow::Result<u32> {
    let mut stream = first;
    for frame in frames {
        take_frame(inlet, frame)?;
        inlet.close_stream(stream);
        stream = stream.saturating_add(2);
    }
    Ok(stream)
}

/// A round of heads. Answers the next stream, and nanoseconds.
fn head_round(
    rt: &(impl AllocGlobal + CpuClock),
    inlet: &mut Inlet,
    block: &[u8],
    first: u32,
) -> anyhow::Result<(u32, u64)> {
    let frames = head_frames(rt.alloc(), block, first)?;
    let watch = CpuStopwatch::start(rt)?;
    let next = take_heads(inlet, frames.as_slice(), first)?;
    Ok((next, watch.nanos(rt)?))
}

/// Nanoseconds of all rounds of heads.
fn time_heads(
    rt: &(impl AllocGlobal + CpuClock),
    inlet: &mut Inlet,
    block: &[u8],
) -> anyhow::Result<u64> {
    let mut nanos = 0u64;
    let mut stream = 1;
    for _round in 0..ROUNDS {
        let (next, spent) = head_round(rt, inlet, block, stream)?;
        nanos = nanos.saturating_add(spent);
        stream = next;
    }
    Ok(nanos)
}

/// Begins the connection, and takes heads.
fn play_heads(
    rt: &(impl AllocGlobal + Print + CpuClock),
    inlet: &mut Inlet,
    block: &[u8],
) -> anyhow::Result<()> {
    begin(rt.alloc(), inlet)?;
    let nanos = time_heads(rt, inlet, block)?;
    report_count(rt, "small heads taken", nanos)
}

/// Prints how many octets of DATA, and how many small heads, are taken in a second of processor time.
pub fn run(rt: &(impl AllocGlobal + Print + CpuClock)) -> anyhow::Result<()> {
    let block = small_block(rt.alloc())?;
    run_data(rt, block.as_slice())?;
    run_heads(rt, block.as_slice())
}

fn run_data(rt: &(impl AllocGlobal + Print + CpuClock), block: &[u8]) -> anyhow::Result<()> {
    let mut inlet = new_inlet(rt.alloc());
    play_stream(rt, &mut inlet, block)
}

fn run_heads(rt: &(impl AllocGlobal + Print + CpuClock), block: &[u8]) -> anyhow::Result<()> {
    let mut inlet = new_inlet(rt.alloc());
    play_heads(rt, &mut inlet, block)
}
