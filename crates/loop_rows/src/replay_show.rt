// What comes of a replay.
use crate::replay_case::Case;
use crate::said::Said;
use io_ports::{MemSink, MemSource, NoMemory, Octets};
use replay_run::{Outcome, Status, put_reason, replay, replay_with_reason};
use std::alloc::Global;

/// How many octets a sink has room for.
const ROOM: usize = 1_000_000;

/// That of a long session.
const LONG_ROOM: usize = 200_000_000;

/// The most octets of a line that are shown.
const SHOWN: usize = 200;

/// The most octets of a session that is replayed in small pieces too.
const SMALL: usize = 4_096;

/// The outside of a replay: the configuration and the session of a case, and what is written.
#[derive(Drop)]
pub struct Outside {
    pub config: MemSource,
    pub session: MemSource,
    pub out: MemSink,
}

/// That of a case, where each read gives and each write takes at most so many octets.
fn open_outside(alloc: Global, case: &Case, most: usize) -> Result<Outside, NoMemory> {
    let mut config = source(alloc, case.config.as_slice(), case.config_reads.as_slice())?;
    let mut session = source(alloc, case.session.as_slice(), case.reads.as_slice())?;
    let mut writes = Vec::new(alloc);
    writes.extend_from_slice(case.writes.as_slice())?;
    let room = if case.is_long { LONG_ROOM } else { ROOM };
    let mut out = MemSink::new(alloc, room, writes)?;
    config.give_at_most(most.max(1));
    session.give_at_most(most.max(1));
    out.take_at_most(most);
    Ok(Outside {
        config,
        session,
        out,
    })
}

fn source(alloc: Global, octets: &[u8], failing: &[u64]) -> Result<MemSource, NoMemory> {
    let mut held = Vec::new(alloc);
    held.extend_from_slice(octets)?;
    let mut calls = Vec::new(alloc);
    calls.extend_from_slice(failing)?;
    Ok(MemSource::new(held, calls))
}

/// Reads the lines of a case, replays it, and says how it ends. A great value is dropped by a call, since the check follows a drop
/// without one field by field.
pub fn say_replay(alloc: Global, lines: &str, said: &mut Said) {
    let mut case = Case::new(alloc);
    for line in lines.strip_suffix('\n').unwrap_or(lines).split('\n') {
        if case.line(line).is_err() {
            said.lack();
        }
    }
    say_case(&case, said);
    drop(case);
}

// Says the status of a case with its reason, and what it writes. A small session without faults ends and writes the
// same in pieces of 1 and of 7 octets, or else it is said where it doesn't.
fn say_case(case: &Case, said: &mut Said) {
    match open_outside(said.alloc(), case, usize::MAX) {
        Ok(mut whole) => {
            let status = say_status(case, &mut whole, said);
            say_written(case, status, whole.out.octets(), said);
            drop(whole);
        }
        Err(_) => said.lack(),
    }
}

fn say_status(case: &Case, whole: &mut Outside, said: &mut Said) -> Status {
    let outcome = replay_with_reason(
        said.alloc(),
        case.words.as_slice(),
        &mut whole.config,
        &mut whole.session,
        &mut whole.out,
    );
    say_outcome(&outcome, said);
    let status = outcome.status;
    drop(outcome);
    status
}

fn say_written(case: &Case, status: Status, text: &[u8], said: &mut Said) {
    if case.is_long {
        say_lines(last_line(text), said);
        return;
    }
    say_lines(text, said);
    let session = case.session.len();
    if case.is_sound() && 0 < session && session <= SMALL {
        say_difference(case, status, text, 1, said);
        say_difference(case, status, text, 7, said);
    }
}

fn say_outcome(outcome: &Outcome, said: &mut Said) {
    say_code(outcome.status, said);
    let mut text = Octets::new(said.alloc());
    if put_reason(said.alloc(), &outcome.reason, &mut text).is_err() {
        said.lack();
    }
    if !text.is_empty() {
        said.say(": ");
        said.say(shown(text.as_slice()));
    }
    said.line("");
}

/// The code of a status, and its name.
pub fn say_code(status: Status, said: &mut Said) {
    match format!(in said.alloc(); "{} {status:?}", status.code()) {
        Ok(text) => said.say(text.as_str()),
        Err(_) => said.lack(),
    }
}

fn say_difference(case: &Case, status: Status, text: &[u8], most: usize, said: &mut Said) {
    match open_outside(said.alloc(), case, most) {
        Ok(mut pieces) => {
            if !ends_so(said.alloc(), case, status, text, &mut pieces) {
                said.line_with("otherwise in pieces of ", most as u64);
            }
            drop(pieces);
        }
        Err(_) => said.lack(),
    }
}

// Whether a replay ends so and writes this text.
fn ends_so(alloc: Global, case: &Case, status: Status, text: &[u8], pieces: &mut Outside) -> bool {
    let other = replay(
        alloc,
        case.words.as_slice(),
        &mut pieces.config,
        &mut pieces.session,
        &mut pieces.out,
    );
    other == status && pieces.out.octets() == text
}

fn last_line(text: &[u8]) -> &[u8] {
    let lines = text.strip_suffix(b"\n").unwrap_or(text);
    lines.rsplit(|octet| *octet == b'\n').next().unwrap_or(b"")
}

/// A text, each line of it shortened to its front and its length where it is long.
pub fn say_lines(text: &[u8], said: &mut Said) {
    if text.is_empty() {
        return;
    }
    let lines = text.strip_suffix(b"\n").unwrap_or(text);
    for line in lines.split(|octet| *octet == b'\n') {
        say_line(line, said);
    }
}

fn say_line(line: &[u8], said: &mut Said) {
    match line.get(..SHOWN) {
        Some(front) if front.len() < line.len() => {
            said.say(shown(front));
            said.say_with(".. ", line.len() as u64);
            said.line(" octets");
        }
        _ => said.line(shown(line)),
    }
}

fn shown(octets: &[u8]) -> &str {
    std::str::from_utf8(octets).unwrap_or("?")
}
