// What goes out: DATA frames beside a plain copy of their octets, and small heads.
use crate::copies::{Copies, FRAMES_A_ROUND, PIECE, ROUNDS, first_octet};
use crate::report::{Spent, report_count, report_octets};
use crate::requests::small_request;
use anyhow::{bail, ensure};
use bench_parts::CpuStopwatch;
use h2_frames::data_head;
use hpack_codec::FieldList;
use io_ports::NoMemory;
use std::time::CpuClock;
use wire_outlet::Outlet;
use wm_buffer::WatermarkBuffer;

/// The limit of the write buffer, and the most octets that are framed at once.
const LIMIT: u32 = 1_048_576;

const UNIT: u32 = 65_536;

/// The socket takes all that there is.
fn leave_all(outlet: &mut Outlet) {
    let n = outlet.len();
    outlet.leave(n);
}

/// The first octet that goes out behind the head of a frame, and 0 where there is none.
fn first_content(outlet: &Outlet) -> u64 {
    match outlet.front().get(9) {
        Some(octet) => u64::from(*octet),
        None => 0,
    }
}

/// Fills a send buffer, frames what it holds, and lets it leave. Answers the first octet of the content.
fn frame_piece(
    outlet: &mut Outlet,
    send: &mut WatermarkBuffer,
    piece: &[u8],
) -> Result<u64, NoMemory> {
    send.add(piece)?;
    let n = send.len().min(PIECE);
    send.move_to(outlet.write_mut(), &data_head(1, n, false), n)?;
    let octet = first_content(outlet);
    leave_all(outlet);
    Ok(octet)
}

/// A round of DATA frames. Answers the sum of their first octets.
fn frame_data(
    outlet: &mut Outlet,
    send: &mut WatermarkBuffer,
    piece: &[u8],
) -> Result<u64, NoMemory> {
    let mut sum = 0u64;
    for _frame in 0..FRAMES_A_ROUND {
        sum = sum.wrapping_add(frame_piece(outlet, send, piece)?);
    }
    Ok(sum)
}

/// A round of DATA frames: the sum of their first octets, and nanoseconds.
fn time_data(
    rt: &impl CpuClock,
    outlet: &mut Outlet,
    send: &mut WatermarkBuffer,
    piece: &[u8],
) -> anyhow::Result<(u64, u64)> {
    let watch = CpuStopwatch::start(rt)?;
    let sum = frame_data(outlet, send, piece)?;
    Ok((sum, watch.nanos(rt)?))
}

/// Rounds of DATA frames, each with one of plain copies.
fn data_rounds(
    rt: &impl CpuClock,
    outlet: &mut Outlet,
    send: &mut WatermarkBuffer,
    copies: &mut Copies,
) -> anyhow::Result<Spent> {
    let mut spent = Spent::none();
    for _round in 0..ROUNDS {
        let (framed, framing) = time_data(rt, outlet, send, copies.piece.as_slice())?;
        let (copied, copying) = copies.round(rt)?;
        ensure!(framed == copied, "other octets go out");
        spent.add(framing, copying);
    }
    Ok(spent)
}

/// DATA frames beside plain copies.
fn play_data(
    rt: &(impl AllocGlobal + Print + CpuClock),
    outlet: &mut Outlet,
) -> anyhow::Result<()> {
    let mut copies = Copies::new(rt.alloc())?;
    let mut send = WatermarkBuffer::new(rt.alloc(), UNIT);
    let spent = data_rounds(rt, outlet, &mut send, &mut copies);
    drop(send);
    drop(copies);
    report_octets(rt, "DATA frames framed", spent?)
}

/// Encodes and frames one head, which leaves. Answers its first octet.
fn frame_head(outlet: &mut Outlet, fields: &FieldList) -> anyhow::Result<u64> {
    if outlet.is_above() {
        bail!("a head can't be framed");
    }
    let (octets, _crossed) = outlet.frame_block(1, true, fields)?;
    leave_all(outlet);
    Ok(first_octet(octets.as_slice()))
}

/// A round of heads. Answers the sum of their first octets.
fn frame_heads(outlet: &mut Outlet, fields: &FieldList) -> anyhow::Result<u64> {
    let mut sum = 0u64;
    for _head in 0..FRAMES_A_ROUND {
        sum = sum.wrapping_add(frame_head(outlet, fields)?);
    }
    Ok(sum)
}

/// Nanoseconds of all rounds of heads.
fn time_heads(rt: &impl CpuClock, outlet: &mut Outlet, fields: &FieldList) -> anyhow::Result<u64> {
    let watch = CpuStopwatch::start(rt)?;
    let mut sum = 0u64;
    for _round in 0..ROUNDS {
        sum = sum.wrapping_add(frame_heads(outlet, fields)?);
    }
    let nanos = watch.nanos(rt)?;
    ensure!(sum == 0, "a head is longer than 65,535 octets");
    Ok(nanos)
}

/// Heads that are encoded and framed.
fn play_heads(
    rt: &(impl AllocGlobal + Print + CpuClock),
    outlet: &mut Outlet,
) -> anyhow::Result<()> {
    let fields = small_request(rt.alloc())?;
    let nanos = time_heads(rt, outlet, &fields)?;
    report_count(rt, "small heads framed", nanos)
}

/// Prints how many octets of DATA, and how many small heads, are framed in a second of processor time.
pub fn run(rt: &(impl AllocGlobal + Print + CpuClock)) -> anyhow::Result<()> {
    let mut outlet = Outlet::new(rt.alloc(), LIMIT, UNIT)?;
    play(rt, &mut outlet)
}

fn play(rt: &(impl AllocGlobal + Print + CpuClock), outlet: &mut Outlet) -> anyhow::Result<()> {
    play_data(rt, outlet)?;
    play_heads(rt, outlet)
}
