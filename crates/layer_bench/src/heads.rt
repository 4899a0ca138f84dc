// Checks of a request's head, beside decoding its block.
use crate::copies::{FRAMES_A_ROUND, ROUNDS};
use crate::report::{report_count, tell};
use crate::requests::large_request;
use anyhow::ensure;
use bench_parts::CpuStopwatch;
use h2_heads::check_request;
use hpack_codec::{Decoder, Encoder, FieldList};
use io_ports::{NoMemory, Octets};
use std::alloc::Global;
use std::time::CpuClock;

/// The block, which uses neither the dynamic table nor Huffman's code.
fn plain_block(alloc: Global, fields: &FieldList) -> Result<Octets, NoMemory> {
    let mut encoder = Encoder::new(alloc);
    let _first = encoder.encode(fields)?;
    encoder.encode(fields)
}

/// Answers how many fields the block decodes to, and 0 where it doesn't decode.
fn decode(decoder: &mut Decoder, block: &[u8]) -> u64 {
    match decoder.decode(block) {
        Ok(fields) => fields.len() as u64,
        Err(_) => 0,
    }
}

/// The same, and 0 too where the head breaks a rule. Each head is one that was just decoded, so that the compiler can't check
/// one for all.
fn decode_and_check(decoder: &mut Decoder, block: &[u8]) -> u64 {
    match decoder.decode(block) {
        Ok(fields) if check_request(&fields).is_ok() => fields.len() as u64,
        _ => 0,
    }
}

/// A round of blocks that are decoded. Answers the sum of their fields.
fn decode_all(decoder: &mut Decoder, block: &[u8]) -> u64 {
    let mut sum = 0u64;
    for _head in 0..FRAMES_A_ROUND {
        sum = sum.wrapping_add(decode(decoder, block));
    }
    sum
}

/// A round of blocks that are decoded and checked. Answers the sum of their fields.
fn check_all(decoder: &mut Decoder, block: &[u8]) -> u64 {
    let mut sum = 0u64;
    for _head in 0..FRAMES_A_ROUND {
        sum = sum.wrapping_add(decode_and_check(decoder, block));
    }
    sum
}

/// Nanoseconds of a round of decoding, whose lists have so many fields together.
fn time_decoding(
    rt: &impl CpuClock,
    decoder: &mut Decoder,
    block: &[u8],
    fields: u64,
) -> anyhow::Result<u64> {
    let watch = CpuStopwatch::start(rt)?;
    let sum = decode_all(decoder, block);
    let nanos = watch.nanos(rt)?;
    ensure!(sum == fields, "a block isn't decoded");
    Ok(nanos)
}

/// Nanoseconds of a round of decoding with checks.
fn time_checks(
    rt: &impl CpuClock,
    decoder: &mut Decoder,
    block: &[u8],
    fields: u64,
) -> anyhow::Result<u64> {
    let watch = CpuStopwatch::start(rt)?;
    let sum = check_all(decoder, block);
    let nanos = watch.nanos(rt)?;
    ensure!(sum == fields, "a head is refused");
    Ok(nanos)
}

/// Nanoseconds of all rounds of decoding, and of those with checks, which come in turn.
#[derive(Clone, Copy)]
struct Times {
    decoding: u64,
    with_checks: u64,
}

fn time_all(
    rt: &impl CpuClock,
    decoder: &mut Decoder,
    block: &[u8],
    fields: u64,
) -> anyhow::Result<Times> {
    let mut times = Times {
        decoding: 0,
        with_checks: 0,
    };
    for _round in 0..ROUNDS {
        let decoding = time_decoding(rt, decoder, block, fields)?;
        times.decoding = times.decoding.saturating_add(decoding);
        let with_checks = time_checks(rt, decoder, block, fields)?;
        times.with_checks = times.with_checks.saturating_add(with_checks);
    }
    Ok(times)
}

fn report(rt: &(impl AllocGlobal + Print), times: Times) -> anyhow::Result<()> {
    report_count(rt, "heads decoded", times.decoding)?;
    report_count(rt, "heads decoded and checked", times.with_checks)?;
    let checks = times.with_checks.saturating_sub(times.decoding);
    let percent = checks.saturating_mul(100) / times.decoding.max(1);
    tell(
        rt,
        &[("a check takes ", percent)],
        " percent of the time of decoding",
    )
}

/// Prints how many heads are decoded, and how many are decoded and checked, in a second of processor time.
pub fn run(rt: &(impl AllocGlobal + Print + CpuClock)) -> anyhow::Result<()> {
    let fields = large_request(rt.alloc())?;
    play(rt, &fields)
}

fn play(rt: &(impl AllocGlobal + Print + CpuClock), fields: &FieldList) -> anyhow::Result<()> {
    let block = plain_block(rt.alloc(), fields)?;
    let mut decoder = Decoder::new(rt.alloc(), 4_096, 61_440);
    let wanted = (fields.len() as u64).saturating_mul(FRAMES_A_ROUND);
    let times = time_all(rt, &mut decoder, block.as_slice(), wanted)?;
    report(rt, times)
}
