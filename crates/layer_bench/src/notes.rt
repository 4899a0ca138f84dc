// How fast notes are written and read.
ghost use Rattle.flow_notes.specs.Note.{IsNote};

use crate::report::tell;
use bench_parts::{CpuStopwatch, per_second};
use flow_notes::{Names, Note, note_text, read_note};
use io_ports::{NoMemory, Octets};
use memchr::memchr_iter;
use std::alloc::Global;
use std::rt::CpuClock;

const SMALL_LINES: [&str; 16] = [
    "turn 1234 open 77",
    "turn 1235 room 65536",
    "in 77q 00112233445566778899aabbccddeeff",
    "move 77q 0 16384",
    "frame 2 77q 16384 more",
    "frame 2 77r 1000 end",
    "out 2 16393",
    "pause 77q send",
    "resume 77q stage 1",
    "resume 77r write 2",
    "credit 1 77 32768",
    "waste 1 77 12",
    "start 77 1 153 2",
    "doom 77 done",
    "gone 77",
    "fire stream-idle 77",
];

// A million lines in all.
const SMALL_COPIES: u32 = 62_500;

const BODY: usize = 16_384;

// A text of 256 MiB.
const BODY_COPIES: u32 = 8_190;

fn small_lines(alloc: Global) -> Result<Vec<Octets>, NoMemory> {
    let mut lines = Vec::new(alloc);
    for line in SMALL_LINES {
        lines.push(Octets::from_slice(alloc, line.as_bytes())?)?;
    }
    Ok(lines)
}

// Octets that follow no pattern.
fn body_of(alloc: Global) -> Result<Octets, NoMemory> {
    let mut body = Octets::new(alloc);
    let mut x: u32 = 1;
    for _ in 0..BODY {
        x = x.wrapping_mul(1_103_515_245).wrapping_add(12_345);
        body.push_all(&x.to_be_bytes()[1..2])?;
    }
    Ok(body)
}

// A line of 16,384 such octets.
fn body_line(alloc: Global) -> Result<Vec<Octets>, NoMemory> {
    let body = body_of(alloc)?;
    let mut line = Octets::from_slice(alloc, b"in 1q ")?;
    line.push_all(hex::encode(alloc, body.as_slice())?.as_bytes())?;
    let mut lines = Vec::new(alloc);
    lines.push(line)?;
    Ok(lines)
}

fn write_copies(note: &Note, copies: u32, names: &Names, into: &mut Octets) -> Result<(), NoMemory>
    requires { IsNote names.now note.now }
{
    for _ in 0..copies {
        note_text(note, names, into)?;
    }
    Ok(())
}

// Writes the note of each line so many times.
fn write_lines(
    alloc: Global,
    lines: &[Octets],
    copies: u32,
    names: &Names,
    into: &mut Octets,
) -> Result<(), NoMemory> {
    for line in lines {
        if let Some(note) = read_note(alloc, line.as_slice(), names)? {
            write_copies(&note, copies, names, into)?;
        }
    }
    Ok(())
}

// Reads each line, and answers how many are notes.
fn read_lines(alloc: Global, text: &[u8], names: &Names) -> Result<u64, NoMemory> {
    let mut notes: u64 = 0;
    let mut start: usize = 0;
    for end in memchr_iter(b'\n', text) {
        let Some(line) = text.get(start..end) else {
            break;
        };
        if read_note(alloc, line, names)?.is_some() {
            notes = notes.wrapping_add(1);
        }
        start = end.wrapping_add(1);
    }
    Ok(notes)
}

// Octets a second of writing the notes into what has room for them.
fn time_writing(
    rt: &(impl CpuClock + AllocGlobal),
    lines: &[Octets],
    copies: u32,
    names: &Names,
    text: &mut Octets,
) -> anyhow::Result<u64> {
    text.clear();
    let watch = CpuStopwatch::start(rt)?;
    write_lines(rt.alloc(), lines, copies, names, text)?;
    Ok(per_second(text.len() as u64, watch.nanos(rt)?))
}

// How many notes a text has, and octets a second of reading them.
fn time_reading(
    rt: &(impl CpuClock + AllocGlobal),
    text: &[u8],
    names: &Names,
) -> anyhow::Result<(u64, u64)> {
    let watch = CpuStopwatch::start(rt)?;
    let notes = read_lines(rt.alloc(), text, names)?;
    Ok((notes, per_second(text.len() as u64, watch.nanos(rt)?)))
}

// Octets a second of a plain copy into what has room for it.
fn time_copy(rt: &impl CpuClock, text: &[u8], copy: &mut Octets) -> anyhow::Result<u64> {
    copy.clear();
    let watch = CpuStopwatch::start(rt)?;
    copy.push_all(text)?;
    Ok(per_second(text.len() as u64, watch.nanos(rt)?))
}

fn time_copying(rt: &(impl CpuClock + AllocGlobal), text: &[u8]) -> anyhow::Result<u64> {
    let mut copy = Octets::from_slice(rt.alloc(), text)?;
    time_copy(rt, text, &mut copy)
}

fn report(
    rt: &(impl Print + CpuClock + AllocGlobal),
    notes: &str,
    lines: &[Octets],
    copies: u32,
) -> anyhow::Result<()> {
    let names = Names::new(rt.alloc());
    let mut text = Octets::new(rt.alloc());
    // The first run makes the room that the one measured writes into.
    write_lines(rt.alloc(), lines, copies, &names, &mut text)?;
    report_on(rt, notes, lines, copies, &names, &mut text)
}

fn report_on(
    rt: &(impl Print + CpuClock + AllocGlobal),
    notes: &str,
    lines: &[Octets],
    copies: u32,
    names: &Names,
    text: &mut Octets,
) -> anyhow::Result<()> {
    let written = time_writing(rt, lines, copies, names, text)?;
    let (count, read) = time_reading(rt, text.as_slice(), names)?;
    let numbers = [
        (notes, count),
        (" notes in ", text.len() as u64),
        (" octets; octets a second: ", written),
        (" written, ", read),
        (" read, ", time_copying(rt, text.as_slice())?),
    ];
    tell(rt, &numbers, " by a plain copy")
}

/// Writes and reads a million small notes, and notes of 16,384 octets in 256 MiB of text.
pub fn run(rt: &(impl Print + CpuClock + AllocGlobal)) -> anyhow::Result<()> {
    let small = small_lines(rt.alloc())?;
    report(rt, "notes: small: ", small.as_slice(), SMALL_COPIES)?;
    let body = body_line(rt.alloc())?;
    report(
        rt,
        "notes: bodies of 16,384 octets: ",
        body.as_slice(),
        BODY_COPIES,
    )
}
