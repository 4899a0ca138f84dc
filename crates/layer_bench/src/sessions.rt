// How fast frames become acts.
ghost use Rattle.std.specs.Prelude.{◌<◌, ◌^◌};

use crate::frames::push_frame;
use crate::report::tell;
use anyhow::{Result, ensure};
use bench_parts::{CpuStopwatch, per_second};
use h2_frames::{ReadFrame, frame_head, read_frame};
use h2_session::{Act, Session};
use io_ports::{NoMemory, Octets};
use std::alloc::Global;
use std::time::CpuClock;

/// How many rounds of five frames there are in one turn.
const ROUNDS: u32 = 20_000;

/// How many turns there are. The best of them counts, by the processor's time.
const TURNS: u32 = 50;

// SETTINGS, and HEADERS that open so many streams.
fn opening(alloc: Global, open: u16) -> std::result::Result<Octets, NoMemory> {
    let mut into = Octets::new(alloc);
    into.push_all(&frame_head(0, 4, 0, 0))?;
    for n in 0..u32::from(open) {
        push_frame(&mut into, frame_head(16, 1, 4, 2 * n + 1), &[0x82; 16])?;
    }
    Ok(into)
}

// In turn: HEADERS of a new stream, DATA on it and on an old one, WINDOW_UPDATE on an old one, and
// RST_STREAM on the new one.
fn mix(alloc: Global, open: u16) -> std::result::Result<Octets, NoMemory> {
    let mut into = Octets::new(alloc);
    let open = u32::from(open).max(1);
    for n in 0..ROUNDS {
        push_five(&mut into, 2 * (open + n) + 1, 2 * (n % open) + 1)?;
    }
    Ok(into)
}

fn push_five(into: &mut Octets, new: u32, old: u32) -> std::result::Result<(), NoMemory>
    requires { (new < 2 ^ 31) × (old < 2 ^ 31) }
{
    push_frame(into, frame_head(16, 1, 4, new), &[0x82; 16])?;
    push_frame(into, frame_head(16, 0, 0, new), &[7; 16])?;
    push_frame(into, frame_head(16, 0, 0, old), &[7; 16])?;
    push_frame(into, frame_head(4, 8, 0, old), &1024u32.to_be_bytes())?;
    push_frame(into, frame_head(4, 3, 0, new), &8u32.to_be_bytes())
}

// A number that each act gives to a sum, so that none is left out.
fn weight(act: &Act) -> u64 {
    match act {
        Act::Body { octets, .. } => octets.len() as u64,
        Act::Head { block, .. } => block.len() as u64,
        Act::WindowUp { n, .. } => u64::from(*n),
        Act::PeerReset { code, .. } => u64::from(*code),
        _ => 0,
    }
}

// How many acts the octets give, and the sum of what they give.
fn accept_all(session: &mut Session, octets: &[u8]) -> std::result::Result<(u64, u64), NoMemory> {
    let mut rest = octets;
    let mut acts: u64 = 0;
    let mut sum: u64 = 0;
    for _ in 0..octets.len() {
        let ReadFrame::Whole(frame, used) = read_frame(rest, 16384) else {
            break;
        };
        let act = session.accept(&frame)?;
        acts = acts.wrapping_add(1);
        sum = sum.wrapping_add(weight(&act));
        rest = rest.split_at(used as usize).1;
    }
    Ok((acts, sum))
}

// The acts a second of one turn, and the sum of what they give.
fn turn(
    rt: &(impl CpuClock + AllocGlobal),
    open: u16,
    opening: &[u8],
    mix: &[u8],
) -> Result<(u64, u64)> {
    let mut session = Session::new(rt.alloc(), false, u32::from(open) + 1, 100);
    let given = turn_on(rt, &mut session, open, opening, mix);
    drop(session);
    given
}

// A session is dropped by a call, since the check follows a drop without one field by field.
fn turn_on(
    rt: &impl CpuClock,
    session: &mut Session,
    open: u16,
    opening: &[u8],
    mix: &[u8],
) -> Result<(u64, u64)> {
    accept_all(session, opening)?;
    let watch = CpuStopwatch::start(rt)?;
    let (acts, sum) = accept_all(session, mix)?;
    let rate = per_second(acts, watch.nanos(rt)?);
    let left = session.streams();
    ensure!(left == u32::from(open), "{left} streams are open");
    Ok((rate, sum))
}

// The best turn's acts a second, and the sum of what all turns give.
fn turns(
    rt: &(impl CpuClock + AllocGlobal),
    open: u16,
    opening: &[u8],
    mix: &[u8],
) -> Result<(u64, u64)> {
    let mut best = 0;
    let mut total = 0u64;
    for _ in 0..TURNS {
        let (rate, sum) = turn(rt, open, opening, mix)?;
        best = best.max(rate);
        total = total.wrapping_add(sum);
    }
    Ok((best, total))
}

fn report(rt: &(impl Print + CpuClock + AllocGlobal), open: u16) -> Result<()> {
    let opening = opening(rt.alloc(), open)?;
    let mix = mix(rt.alloc(), open)?;
    let (best, total) = turns(rt, open, opening.as_slice(), mix.as_slice())?;
    let numbers = [
        ("session: ", best),
        (" acts a second with ", u64::from(open)),
        (" open streams (sum ", total),
    ];
    tell(rt, &numbers, ")")
}

/// A mix of frames with few and with many open streams.
pub fn run(rt: &(impl Print + CpuClock + AllocGlobal)) -> Result<()> {
    report(rt, 10)?;
    report(rt, 1000)
}
