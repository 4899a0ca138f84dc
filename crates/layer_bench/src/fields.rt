// Stories of field blocks, decoded, and a list of ten ordinary request fields, encoded.
use crate::report::tell;
use anyhow::{Result, bail, ensure};
use bench_parts::{CpuStopwatch, per_second};
use hpack_codec::{Decoder, Encoder, FieldList};
use std::alloc::Global;
use std::io::Read;
use std::time::CpuClock;

/// How many blocks are taken in one turn, or a few more.
const TURN: u64 = 10_000;

/// How many turns there are. The best of them counts, by the processor's time.
const TURNS: u64 = 100;

/// How often a story of one block has it.
const AGAIN: usize = 100;

/// Ten fields, with plain strings.
const PLAIN: &str = concat!(
    "8287010f7777772e6578616d706c652e636f6d04172f7365617263683f713d6874747032266c616e673d656e",
    "0f2b464d6f7a696c6c612f352e3020285831313b204c696e7578207838365f36343b2072763a3130392e3029",
    "204765636b6f2f32303130303130312046697265666f782f3131392e300f043f746578742f68746d6c2c6170",
    "706c69636174696f6e2f7868746d6c2b786d6c2c6170706c69636174696f6e2f786d6c3b713d302e392c2a2f",
    "2a3b713d302e380f020e656e2d55532c656e3b713d302e350f0111677a69702c206465666c6174652c206272",
    "0f241868747470733a2f2f7777772e6578616d706c652e636f6d2f0f112873657373696f6e3d386331663065",
    "32623664356134633366396237653b207468656d653d6461726b",
);

/// The same fields, with strings in the Huffman code.
const CODED: &str = concat!(
    "8287018cf1e3c2e5f23a6ba0ab90f4ff049161051d849ffced04e94d62f8a0754d016a0f2bb5d07f66a281b0",
    "dae053fafc087ed4ce6aadf2a7979c89c6bed4b3bdc081f5c1fda988a4ea76040080010054c26b0b29fcb010",
    "beb83f0f04b0497ca589d34d1f43aeba0c41a4c7a98f33a69a3fdf9a68fa1d75d0620d263d4c79a68fbed001",
    "77febe58f9fbed00177b0f028b2d4b70ddf45abefb4005db0f018d9bd9abfa5242cb40d25fa523b30f24929d",
    "29ad171863c78f0b97c8e9ae82ae43d2c70f119d4150831ea81e206501451b92363688ccafc6e97ed44ce5a4",
    "b0483b3aff",
);

/// Decodes a story with a new decoder, and gives the octets that its lists count.
fn decode_story(alloc: Global, story: &[Vec<u8>]) -> Result<u64> {
    let mut decoder = Decoder::new(alloc, 4096, 61_440);
    let mut sum = 0u64;
    for block in story {
        let Ok(list) = decoder.decode(block.as_slice()) else {
            bail!("a block isn't read");
        };
        sum = sum.wrapping_add(list.size() as u64);
    }
    Ok(sum)
}

/// The best number of blocks a second of some turns, and the octets that a list counts.
fn decode_rate(clock: &impl CpuClock, alloc: Global, story: &[Vec<u8>]) -> Result<(u64, u64)> {
    let blocks = (story.len() as u64).max(1);
    let times = TURN / blocks;
    let read = times.saturating_mul(blocks).max(1);
    let mut best = 0;
    let mut octets = 0u64;
    for _ in 0..TURNS {
        let watch = CpuStopwatch::start(clock)?;
        octets = decode_often(alloc, story, times)?;
        best = best.max(per_second(read, watch.nanos(clock)?));
    }
    Ok((best, octets / read))
}

/// Decodes a story so often, and gives the octets that all lists count.
fn decode_often(alloc: Global, story: &[Vec<u8>], times: u64) -> Result<u64> {
    let mut octets = 0u64;
    for _ in 0..times {
        octets = octets.wrapping_add(decode_story(alloc, story)?);
    }
    Ok(octets)
}

/// Encodes a list so often, and gives the octets of the blocks.
fn encode_turn(encoder: &mut Encoder, list: &FieldList) -> Result<u64> {
    ensure!(list.has_spelling(), "a field has no spelling");
    let mut sum = 0u64;
    for _ in 0..TURN {
        sum = sum.wrapping_add(encoder.encode(list)?.len() as u64);
    }
    Ok(sum)
}

/// The same of an encoder of the list that a block spells.
fn encode_rate(clock: &impl CpuClock, alloc: Global, block: &[u8]) -> Result<(u64, u64)> {
    let Ok(list) = Decoder::new(alloc, 4096, 61_440).decode(block) else {
        bail!("a block isn't read");
    };
    let mut encoder = Encoder::new(alloc);
    let mut best = 0;
    let mut octets = 0;
    for _ in 0..TURNS {
        let (rate, n) = encode_once(clock, &mut encoder, &list)?;
        best = best.max(rate);
        octets = n;
    }
    Ok((best, octets))
}

// The rate of one turn, and the octets of a block.
fn encode_once(
    clock: &impl CpuClock,
    encoder: &mut Encoder,
    list: &FieldList,
) -> Result<(u64, u64)> {
    let watch = CpuStopwatch::start(clock)?;
    let octets = encode_turn(encoder, list)? / TURN;
    Ok((per_second(TURN, watch.nanos(clock)?), octets))
}

/// The blocks of words in hexadecimal.
fn story_of(alloc: Global, words: &str) -> Result<Vec<Vec<u8>>> {
    let mut story = Vec::new(alloc);
    for word in words.split(' ') {
        story.push(hex::decode(alloc, word)?)?;
    }
    Ok(story)
}

/// Decodes a story, and prints the rate.
fn show_decoded(
    rt: &(impl Print + CpuClock + AllocGlobal),
    name: &str,
    story: &[Vec<u8>],
) -> Result<()> {
    let (rate, octets) = decode_rate(rt, rt.alloc(), story)?;
    println!(rt;
        "hpack_codec decode {name}: {rate} blocks a second, a list of {octets} octets each"
    )?;
    Ok(())
}

/// One block over and over.
fn story_again(alloc: Global, text: &str) -> Result<Vec<Vec<u8>>> {
    let mut story = Vec::new(alloc);
    for _ in 0..AGAIN {
        story.push(hex::decode(alloc, text)?)?;
    }
    Ok(story)
}

/// Prints the stories of the two blocks, for another program.
fn show_stories(rt: &impl Print) -> Result<()> {
    show_story(rt, "literals", PLAIN)?;
    show_story(rt, "coded_literals", CODED)
}

fn show_story(rt: &impl Print, name: &str, text: &str) -> Result<()> {
    rt.print(name)?;
    for _ in 0..AGAIN {
        rt.print(" ")?;
        rt.print(text)?;
    }
    Ok(rt.println("")?)
}

/// Decodes the stories of the standard input: each line has a name, and blocks in hexadecimal.
fn run_stories(rt: &(impl Print + CpuClock + AllocGlobal + Input)) -> Result<()> {
    let mut octets = Vec::new(rt.alloc());
    rt.reader().read_to_end(&mut octets)?;
    run_lines(rt, std::str::from_utf8(octets.as_slice()).unwrap_or(""))
}

fn run_lines(rt: &(impl Print + CpuClock + AllocGlobal), text: &str) -> Result<()> {
    for line in text.lines() {
        run_line(rt, line)?;
    }
    Ok(())
}

fn run_line(rt: &(impl Print + CpuClock + AllocGlobal), line: &str) -> Result<()> {
    let (name, words) = line.split_once(' ').unwrap_or((line, ""));
    let story = story_of(rt.alloc(), words)?;
    show_decoded(rt, name, story.as_slice())
}

/// Decodes a block over and over, and prints the rate.
fn run_again(rt: &(impl Print + CpuClock + AllocGlobal), name: &str, text: &str) -> Result<()> {
    let story = story_again(rt.alloc(), text)?;
    show_decoded(rt, name, story.as_slice())
}

/// Encodes the list of a block, and prints the rate.
fn run_encoded(rt: &(impl Print + CpuClock + AllocGlobal), text: &str) -> Result<()> {
    let block = hex::decode(rt.alloc(), text)?;
    let (rate, octets) = encode_rate(rt, rt.alloc(), block.as_slice())?;
    let numbers = [
        ("hpack_codec encode: ", rate),
        (" blocks a second, ", octets),
    ];
    tell(rt, &numbers, " octets each")
}

fn run_blocks(rt: &(impl Print + CpuClock + AllocGlobal)) -> Result<()> {
    run_again(rt, "literals", PLAIN)?;
    run_again(rt, "coded_literals", CODED)?;
    run_encoded(rt, PLAIN)
}

/// Prints the rates of the two blocks and of the stories of the standard input, or the blocks as
/// stories for another program.
pub fn run(rt: &(impl Print + CpuClock + AllocGlobal + Input), word: &str) -> Result<()> {
    match word {
        "blocks" => show_stories(rt),
        "stories" => run_stories(rt),
        _ => run_blocks(rt),
    }
}
