// The replay of a worker's journal.

use crate::web_journal::{Kept, put_note};
use config_tables::read_config;
use flow_notes::{NameRefusal, Names, read_note};
use io_ports::{MemSink, MemSource, NoMemory, Octets};
use session_run::Status;
use std::alloc::Global;
use wire_run::run_wire;

/// How many octets a tape has at most, and the text of a configuration.
const MOST: usize = 8_000_000;

/// What the replay of a worker's journal shows.
#[derive(Drop)]
pub struct Replayed {
    /// Whether it went to the journal's end, and to exactly the notes that the worker handed over, one for one.
    pub is_as_noted: bool,
    /// Why exchanges ended, in order, each in a line.
    pub dooms: Octets,
}

impl Replayed {
    // Where the journal isn't replayed to its end.
    fn none(alloc: Global) -> Self {
        Replayed {
            is_as_noted: false,
            dooms: Octets::new(alloc),
        }
    }
}

/// Replays a journal that was written under a configuration with this text.
pub fn replay(alloc: Global, text: &[u8], kept: &Kept) -> Result<Replayed, NoMemory> {
    let mut tape = MemSink::new(alloc, MOST, Vec::new(alloc))?;
    let shown = replay_into(alloc, text, kept, &mut tape);
    drop(tape);
    shown
}

fn replay_into(
    alloc: Global,
    text: &[u8],
    kept: &Kept,
    tape: &mut MemSink,
) -> Result<Replayed, NoMemory> {
    if kept.is_whole && is_replayed(alloc, text, kept, tape)? {
        shown(alloc, tape.octets(), kept)
    } else {
        Ok(Replayed::none(alloc))
    }
}

// Whether the replay went to the journal's end.
fn is_replayed(
    alloc: Global,
    text: &[u8],
    kept: &Kept,
    tape: &mut MemSink,
) -> Result<bool, NoMemory> {
    if text.len() > MOST {
        return Ok(false);
    }
    let lines = Vec::from_slice(alloc, kept.lines.as_slice())?;
    match read_config(alloc, text) {
        Ok(config) => {
            let mut session = MemSource::new(lines, Vec::new(alloc));
            let end = run_wire(alloc, config, &mut session, tape);
            Ok(end.status == Status::Done)
        }
        Err(_) => Ok(false),
    }
}

// What a tape shows, beside the notes that the worker handed over.
fn shown(alloc: Global, tape: &[u8], kept: &Kept) -> Result<Replayed, NoMemory> {
    let dooms = dooms_in(alloc, tape)?;
    let notes = notes_in(alloc, tape)?;
    Ok(Replayed {
        is_as_noted: !notes.is_empty() && notes.as_slice() == kept.notes.as_slice(),
        dooms,
    })
}

// The notes of a tape, each in a line. Lines of the summary are none.
fn notes_in(alloc: Global, tape: &[u8]) -> Result<Octets, NoMemory> {
    let mut notes = Octets::new(alloc);
    let names = names_of_server(alloc)?;
    for line in tape.split(|octet| *octet == b'\n') {
        put_line(alloc, line, &names, &mut notes)?;
    }
    Ok(notes)
}

fn names_of_server(alloc: Global) -> Result<Names, NoMemory> {
    let mut names = Names::new(alloc);
    match names.push(b"server") {
        Err(NameRefusal::NoMemory) => Err(NoMemory),
        _ => Ok(names),
    }
}

// Appends the note of a tape's line, if it is one.
fn put_line(alloc: Global, line: &[u8], names: &Names, notes: &mut Octets) -> Result<(), NoMemory> {
    match read_note(alloc, line, names)? {
        Some(note) => {
            let put = put_note(alloc, &note, notes);
            drop(note);
            put
        }
        None => Ok(()),
    }
}

// Why exchanges ended, in order, each in a line. A tape's line of it is `doom X CAUSE`.
fn dooms_in(alloc: Global, tape: &[u8]) -> Result<Octets, NoMemory> {
    let mut dooms = Octets::new(alloc);
    let tape = std::str::from_utf8(tape).unwrap_or("");
    for line in tape.lines() {
        if let Some(doom) = line.strip_prefix("doom ") {
            let (_, cause) = doom.split_once(' ').unwrap_or(("", ""));
            dooms.push_all(cause.as_bytes())?;
            dooms.push_all(b"\n")?;
        }
    }
    Ok(dooms)
}
