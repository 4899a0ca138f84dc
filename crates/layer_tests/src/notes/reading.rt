// Lines that are read and written again, and lines that are no spelling.
ghost use Rattle.flow_notes.specs.Event.{IsEvent};
ghost use Rattle.flow_notes.specs.Note.{IsNote};

use super::some_names;
use crate::said::{holds_in, same};
use flow_notes::{Event, Names, Note, event_text, note_text, read_event, read_note, read_numbers};
use io_ports::{NoMemory, Octets};
use std::alloc::AllocGlobal;
use std::process::Abort;

const NOTES: &[&str] = &[
    "turn 1 open 1",
    "turn 18446744073709551615 room 2147483647",
    "turn 2 room 1 2147483647",
    "turn 3 join 2 api-2_b",
    "turn 4 obey 1 0 4294967295",
    "in 1q aa01",
    "in 3r 00",
    "move 1q 0 16384",
    "frame 2 1q 10 more",
    "frame 2 1r 0 end",
    "out 0 1",
    "pause 1q send",
    "pause 1q stage 1",
    "resume 1r stage 4294967295",
    "resume 1q write 0",
    "credit 1 0 983041",
    "head 2 1 83",
    "answer 1 000000040100000000",
    "waste 1 3 7",
    "start 1 1 1 0",
    "doom 1 done",
    "doom 1 peer-reset 8",
    "doom 1 stream-error 1",
    "doom 1 too-large",
    "doom 1 timeout route",
    "doom 1 timeout connection-idle",
    "doom 1 overload",
    "doom 1 overflow",
    "doom 1 conn-lost 4",
    "doom 1 early-end",
    "doom 1 posted 0 5",
    "doom 1 refused 404",
    "gone 1",
    "close 1 0 drained",
    "close 1 1 protocol",
    "fire stream-idle 7",
];

const NO_NOTES: &[&str] = &[
    "",
    " ",
    "turn",
    "turn 1",
    "turn 0 open 1",
    "turn 01 open 1",
    "turn 1 open 01",
    "turn +1 open 1",
    "turn 18446744073709551616 open 1",
    "turn 1  open 1",
    "turn 1 open 1 ",
    " turn 1 open 1",
    "turn 1 join 2 nobody",
    "in 1q AA01",
    "in 1q aa0",
    "in 1q ",
    "in 1q",
    "in 1 aa",
    "in q aa",
    "in 01q aa",
    "in 1s aa",
    "move 1q 4294967296 1",
    "frame 2 1q 10 last",
    "out 0 0",
    "pause 1q recv",
    "pause 1q send 3q",
    "pause 1q stage 0",
    "pause 1q write",
    "credit 1 0",
    "credit 1 0 1 1",
    "doom 1 timeout",
    "doom 1 peer-reset",
    "doom 1 refused 65536",
    "close 1 0 closed",
    "fire route -7",
    "Gone 1",
];

const WIRE: &[&str] = &[
    "accept 0",
    "accept 4294967295",
    "join 1 web",
    "read 1 505249",
    "gone 1",
    "room 1 2147483647",
    "tick 1152921504606846975",
    "post 0 9223372036854775807 drain",
    "post 1 0 cancel 9223372036854775807",
    "post 4294967295 0 look",
    "obey 1",
    "obey 2 0 4294967295 1",
];

const NO_WIRE: &[&str] = &[
    "open 1",
    "room 1",
    "room 1 0",
    "room 1 2147483648",
    "accept 4294967296",
    "accept",
    "accept 1 2",
    "tick 1152921504606846976",
    "post 0 9223372036854775808 drain",
    "post 0 0 cancel",
    "post 0 0 drain 1",
    "post 0 0 stop",
    "obey 1 4294967296",
    "obey 1 ",
];

const PLAIN: &[&str] = &[
    "open 2147483647",
    "pair 1 3",
    "in 1 ff00",
    "end 1",
    "reset 1",
    "room 1",
];

const NO_PLAIN: &[&str] = &[
    "open 0",
    "open 2147483648",
    "pair 1",
    "in 1 f",
    "in 0 ff",
    "accept 1",
    "room 0",
    "reset",
    "end 1\n",
];

fn line_is_kept(rt: &impl Abort, line: &str, written: &Octets) -> Result<(), NoMemory> {
    let (text, newline) = written.as_slice().split_at(line.len().min(written.len()));
    same(rt, &text, &line.as_bytes());
    same(rt, &newline, &b"\n".as_slice());
    Ok(())
}

/// Whether the line is a note's, and is written as it was read.
fn note_is_read(
    rt: &(impl AllocGlobal + Abort),
    names: &Names,
    line: &str,
) -> Result<(), NoMemory> {
    match read_note(rt.alloc(), line.as_bytes(), names)? {
        Some(note) => {
            let end = note_is_written(rt, names, &note, line);
            drop(note);
            end
        }
        None => {
            holds_in(rt, &line, false);
            Ok(())
        }
    }
}

fn note_is_written(
    rt: &(impl AllocGlobal + Abort),
    names: &Names,
    note: &Note,
    line: &str,
) -> Result<(), NoMemory>
    requires { IsNote names.now note.now }
{
    let mut written = Octets::new(rt.alloc());
    note_text(note, names, &mut written)?;
    line_is_kept(rt, line, &written)
}

fn no_note_is_read(
    rt: &(impl AllocGlobal + Abort),
    names: &Names,
    line: &str,
) -> Result<(), NoMemory> {
    let read = read_note(rt.alloc(), line.as_bytes(), names)?;
    holds_in(rt, &line, read.is_none());
    Ok(())
}

fn notes_of_lines(
    rt: &(impl AllocGlobal + Abort),
    names: &Names,
    lines: &[&str],
) -> Result<(), NoMemory> {
    for line in lines {
        note_is_read(rt, names, line)?;
    }
    Ok(())
}

fn no_notes_of_lines(
    rt: &(impl AllocGlobal + Abort),
    names: &Names,
    lines: &[&str],
) -> Result<(), NoMemory> {
    for line in lines {
        no_note_is_read(rt, names, line)?;
    }
    Ok(())
}

#[test]
fn notes_are_read(rt: HostRuntime) -> Result<(), NoMemory> {
    let names = some_names(rt.alloc())?;
    notes_of_lines(&rt, &names, NOTES)?;
    no_notes_of_lines(&rt, &names, NO_NOTES)
}

/// Whether the line is an event's, and is written as it was read.
fn event_is_read(
    rt: &(impl AllocGlobal + Abort),
    names: &Names,
    line: &str,
    plain: bool,
) -> Result<(), NoMemory> {
    match read_event(rt.alloc(), line.as_bytes(), names, plain)? {
        Some(event) => {
            holds_in(rt, &line, event.is_plain() == plain);
            let end = event_is_written(rt, names, &event, line);
            drop(event);
            end
        }
        None => {
            holds_in(rt, &line, false);
            Ok(())
        }
    }
}

fn event_is_written(
    rt: &(impl AllocGlobal + Abort),
    names: &Names,
    event: &Event,
    line: &str,
) -> Result<(), NoMemory>
    requires { IsEvent names.now event.now }
{
    let mut written = Octets::new(rt.alloc());
    event_text(event, names, &mut written)?;
    line_is_kept(rt, line, &written)
}

fn no_event_is_read(
    rt: &(impl AllocGlobal + Abort),
    names: &Names,
    line: &str,
    plain: bool,
) -> Result<(), NoMemory> {
    let read = read_event(rt.alloc(), line.as_bytes(), names, plain)?;
    holds_in(rt, &line, read.is_none());
    Ok(())
}

/// Whether the first lines are events, and the others are none.
fn events_of_lines(
    rt: &(impl AllocGlobal + Abort),
    lines: &[&str],
    others: &[&str],
    plain: bool,
) -> Result<(), NoMemory> {
    let names = some_names(rt.alloc())?;
    events_are_read(rt, &names, lines, plain)?;
    no_events_are_read(rt, &names, others, plain)
}

fn events_are_read(
    rt: &(impl AllocGlobal + Abort),
    names: &Names,
    lines: &[&str],
    plain: bool,
) -> Result<(), NoMemory> {
    for line in lines {
        event_is_read(rt, names, line, plain)?;
    }
    Ok(())
}

fn no_events_are_read(
    rt: &(impl AllocGlobal + Abort),
    names: &Names,
    lines: &[&str],
    plain: bool,
) -> Result<(), NoMemory> {
    for line in lines {
        no_event_is_read(rt, names, line, plain)?;
    }
    Ok(())
}

#[test]
fn wire_events_are_read(rt: HostRuntime) -> Result<(), NoMemory> {
    events_of_lines(&rt, WIRE, NO_WIRE, false)
}

#[test]
fn plain_events_are_read(rt: HostRuntime) -> Result<(), NoMemory> {
    events_of_lines(&rt, PLAIN, NO_PLAIN, true)
}

const NO_NUMBERS: [&str; 6] = [
    "limit 1",
    "limits ",
    "limits1",
    "limits 1 ",
    "limits  1",
    "limits 4294967296",
];

fn same_numbers(
    rt: &(impl AllocGlobal + Abort),
    line: &str,
    wanted: &[u32],
) -> Result<(), NoMemory> {
    match read_numbers(rt.alloc(), b"limits", line.as_bytes())? {
        Some(numbers) => same(rt, &numbers.as_slice(), &wanted),
        None => holds_in(rt, &line, false),
    }
    Ok(())
}

fn no_numbers(rt: &(impl AllocGlobal + Abort), line: &str) -> Result<(), NoMemory> {
    let read = read_numbers(rt.alloc(), b"limits", line.as_bytes())?;
    holds_in(rt, &line, read.is_none());
    Ok(())
}

#[test]
fn numbers_are_read(rt: HostRuntime) -> Result<(), NoMemory> {
    same_numbers(&rt, "limits 65535 0 4294967295", &[65535, 0, 4294967295])?;
    same_numbers(&rt, "limits", &[])?;
    for line in NO_NUMBERS {
        no_numbers(&rt, line)?;
    }
    Ok(())
}
