// How a case ends.
use crate::case::Case;
use crate::said::Said;
use io_ports::{MemSink, MemSource};
use mem_ports::{Kept, MemWires};
use std::alloc::Global;
use wire_run::run_wire;
use worker_loop::{Ended, MemJournal};
use worker_ports::Wired;

/// How many octets the replay's tape has room for.
const TAPE: usize = 1_000_000;

/// Says how the work ended.
pub fn say_ended(ended: Ended, said: &mut Said) {
    said.say("ended by ");
    said.line(match ended {
        Ended::Turns => "turns",
        Ended::Stopped => "stop",
        Ended::WiresFault => "a fault of the connections",
        Ended::JournalFault => "a fault of the journal",
        Ended::Memory => "out of memory",
    });
}

/// Says what the journal has, what the connections did, and how the journal replays.
pub fn say_whole(
    alloc: Global,
    case: &Case,
    journal: &MemJournal,
    wires: &MemWires,
    said: &mut Said,
) {
    say_journal(journal, said);
    say_record(wires, said);
    say_replay(alloc, case, journal, said);
}

fn say_journal(journal: &MemJournal, said: &mut Said) {
    say_text(journal, said);
    said.say_with("dispatches ", journal.notes().len() as u64);
    said.line_with(", notes ", notes_of(journal));
}

/// Says what the journal has. A line that was cut off ends with `..`.
pub fn say_text(journal: &MemJournal, said: &mut Said) {
    let text = std::str::from_utf8(journal.octets()).unwrap_or("no text\n");
    said.say(text);
    if !text.is_empty() && !text.ends_with('\n') {
        said.line("..");
    }
}

// How many notes it was handed.
fn notes_of(journal: &MemJournal) -> u64 {
    let mut count = 0u64;
    for notes in journal.notes() {
        count = count.saturating_add(notes.len() as u64);
    }
    count
}

// What the connections gave, were offered and were closed.
fn say_record(wires: &MemWires, said: &mut Said) {
    let (record, _) = wires.record();
    for step in record {
        match step {
            Kept::Gave(wired) => say_wired(wired, said),
            Kept::Offered { conn, len, taken } => {
                say_two("> offer ", *conn, *len as u64, said);
                said.line_with(" taken ", *taken as u64);
            }
            Kept::Closed(conn) => said.line_with("> close ", u64::from(*conn)),
        }
    }
    said.line_with("faults ", wires.faults());
}

/// Says what the connections gave.
pub fn say_wired(wired: &Wired, said: &mut Said) {
    match wired {
        Wired::Accept(conn) => said.say_with("< accept ", u64::from(*conn)),
        Wired::Join(conn, cluster) => say_two("< join ", *conn, u64::from(*cluster), said),
        Wired::Read(conn, octets) => say_two("< read ", *conn, octets.len() as u64, said),
        Wired::Lost(conn) => said.say_with("< lost ", u64::from(*conn)),
        Wired::Idle => said.say("< idle"),
        Wired::Stop => said.say("< stop"),
    }
    said.line("");
}

/// Words, and two numbers behind them.
pub fn say_two(words: &str, conn: u32, number: u64, said: &mut Said) {
    said.say_with(words, u64::from(conn));
    said.say_with(" ", number);
}

// With which status the journal replays, and to how many notes.
fn say_replay(alloc: Global, case: &Case, journal: &MemJournal, said: &mut Said) {
    let Ok(octets) = Vec::from_slice(alloc, journal.octets()) else {
        said.lack();
        return;
    };
    let mut session = MemSource::new(octets, Vec::new(alloc));
    match MemSink::new(alloc, TAPE, Vec::new(alloc)) {
        Ok(mut tape) => replay(alloc, case, &mut session, &mut tape, said),
        Err(_) => said.lack(),
    }
}

fn replay(
    alloc: Global,
    case: &Case,
    session: &mut MemSource,
    tape: &mut MemSink,
    said: &mut Said,
) {
    let Some(config) = case.configuration(alloc) else {
        said.line("no configuration");
        return;
    };
    let end = run_wire(alloc, config, session, tape);
    said.say_with("replays with ", u64::from(end.status.code()));
    let tape = std::str::from_utf8(tape.octets()).unwrap_or("");
    said.line_with(", notes ", notes_in(tape));
}

// How many lines of a tape are notes.
fn notes_in(tape: &str) -> u64 {
    let mut count = 0u64;
    for line in tape.lines() {
        if is_note(line) {
            count = count.saturating_add(1);
        }
    }
    count
}

// Whether a line is a note, and none of those behind all notes.
fn is_note(line: &str) -> bool {
    !line.starts_with("peak ") && !line.starts_with("done ") && !line.starts_with("refused ")
}
