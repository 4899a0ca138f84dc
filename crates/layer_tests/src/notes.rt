// Texts of events and notes, and names that are refused.
ghost use Rattle.flow_notes.specs.Event.{IsEvent};
ghost use Rattle.flow_notes.specs.Note.{IsNote};
ghost use Rattle.std.specs.Prelude.{◌≡◌, length};

mod copies;
mod passages;
mod reading;

use crate::said::{holds, same};
use flow_gate::{BufferId, FlowId};
use flow_notes::{
    Cause, CloseCause, Event, FireKind, Job, NameRefusal, Names, Note, PlainEvent, event_text,
    note_text,
};
use io_ports::{NoMemory, Octets};
use std::alloc::{AllocGlobal, Global};
use std::process::Abort;

const REQUEST: FlowId = FlowId {
    exchange: 1,
    back: false,
};

const RESPONSE: FlowId = FlowId {
    exchange: 18_446_744_073_709_551_615,
    back: true,
};

// The names `web` and `api-2_b`.
fn some_names(alloc: Global) -> Result<Names, NoMemory> {
    let mut names = Names::new(alloc);
    if names.push(b"web").is_err() || names.push(b"api-2_b").is_err() {
        return Err(NoMemory);
    }
    Ok(names)
}

// Appends the line of a note.
fn put(note: Note, names: &Names, text: &mut Octets) -> Result<(), NoMemory>
    requires { IsNote names.now note }
{
    note_text(&note, names, text)
}

fn put_bodies(alloc: Global, names: &Names, text: &mut Octets) -> Result<(), NoMemory> {
    let octets = Octets::from_slice(alloc, &[0xaa, 0x01])?;
    let flow = REQUEST;
    put(Note::Arrive { flow, octets }, names, text)?;
    let octets = Octets::from_slice(alloc, &[0, 0, 4, 3])?;
    put(Note::Answer { conn: 1, octets }, names, text)?;
    let octets = Octets::from_slice(alloc, &[0x83])?;
    let [conn, stream] = [2, 1];
    let head = Note::Head {
        conn,
        stream,
        octets,
    };
    put(head, names, text)
}

fn put_moves(names: &Names, text: &mut Octets) -> Result<(), NoMemory> {
    let moved = Note::Move {
        flow: RESPONSE,
        place: 4_294_967_295,
        n: 0,
    };
    put(moved, names, text)?;
    for (n, last) in [(10, false), (0, true)] {
        let framed = Note::Frame {
            conn: 2,
            flow: REQUEST,
            n,
            last,
        };
        put(framed, names, text)?;
    }
    Ok(())
}

fn put_crossings(names: &Names, text: &mut Octets) -> Result<(), NoMemory> {
    let flow = REQUEST;
    let buffer = BufferId::Send(flow);
    put(Note::Pause { flow, buffer }, names, text)?;
    let buffer = BufferId::Stage(flow, 1);
    put(Note::Resume { flow, buffer }, names, text)?;
    let flow = RESPONSE;
    let buffer = BufferId::Write(2);
    put(Note::Resume { flow, buffer }, names, text)
}

fn put_counts(names: &Names, text: &mut Octets) -> Result<(), NoMemory> {
    put(Note::Out { conn: 0, n: 34 }, names, text)?;
    let credit = Note::Credit {
        conn: 1,
        stream: 0,
        n: 983_041,
    };
    put(credit, names, text)?;
    let waste = Note::Waste {
        conn: 1,
        stream: 3,
        n: 7,
    };
    put(waste, names, text)?;
    let start = Note::Start {
        exchange: 1,
        conn: 1,
        stream: 1,
        to: 2,
    };
    put(start, names, text)
}

fn put_dooms(names: &Names, text: &mut Octets) -> Result<(), NoMemory> {
    let causes = [
        Cause::Overflow,
        Cause::Timeout {
            kind: FireKind::StreamIdle,
        },
        Cause::Posted {
            poster: 0,
            number: 5,
        },
    ];
    for cause in causes {
        put(Note::Doom { exchange: 3, cause }, names, text)?;
    }
    put(Note::Gone { exchange: 3 }, names, text)
}

fn put_closes(names: &Names, text: &mut Octets) -> Result<(), NoMemory> {
    let close = Note::Close {
        conn: 1,
        code: 11,
        cause: CloseCause::Flood,
    };
    put(close, names, text)?;
    let kind = FireKind::ConnectionIdle;
    put(Note::Fire { kind, id: 7 }, names, text)?;
    let event = Event::Plain(PlainEvent::Begin { stream: 1 });
    put(Note::Turn { number: 1, event }, names, text)
}

fn put_others(names: &Names, text: &mut Octets) -> Result<(), NoMemory> {
    put_moves(names, text)?;
    put_crossings(names, text)?;
    put_counts(names, text)?;
    put_dooms(names, text)?;
    put_closes(names, text)
}

#[test]
fn notes_are_written(rt: HostRuntime) -> Result<(), NoMemory> {
    let names = some_names(rt.alloc())?;
    let mut text = Octets::new(rt.alloc());
    put_bodies(rt.alloc(), &names, &mut text)?;
    put_others(&names, &mut text)?;
    let expected = "in 1q aa01\nanswer 1 00000403\nhead 2 1 83\n\
move 18446744073709551615r 4294967295 0\nframe 2 1q 10 more\nframe 2 1q 0 end\n\
pause 1q send\nresume 1q stage 1\nresume 18446744073709551615r write 2\n\
out 0 34\ncredit 1 0 983041\nwaste 1 3 7\nstart 1 1 1 2\ndoom 3 overflow\n\
doom 3 timeout stream-idle\ndoom 3 posted 0 5\ngone 3\nclose 1 11 flood\n\
fire connection-idle 7\nturn 1 open 1\n";
    same(&rt, &text.as_slice(), &expected.as_bytes());
    Ok(())
}

// Appends the line of an event.
fn say(event: Event, names: &Names, text: &mut Octets) -> Result<(), NoMemory>
    requires { IsEvent names.now event }
{
    event_text(&event, names, text)
}

fn say_events(names: &Names, text: &mut Octets) -> Result<(), NoMemory>
    requires { length names.now ≡ 2 }
{
    say(Event::Accept { conn: 1 }, names, text)?;
    let [conn, cluster] = [2, 1];
    say(Event::Join { conn, cluster }, names, text)?;
    say(Event::Room { conn, n: 94 }, names, text)?;
    say(Event::Tick { now: 50 }, names, text)?;
    let post = Event::Post {
        poster: 0,
        number: 0,
        job: Job::Cancel { exchange: 1 },
    };
    say(post, names, text)?;
    let [first, second] = [1, 3];
    let pair = PlainEvent::Pair { first, second };
    say(Event::Plain(pair), names, text)
}

#[test]
fn events_are_written(rt: HostRuntime) -> Result<(), NoMemory> {
    let names = some_names(rt.alloc())?;
    let mut text = Octets::new(rt.alloc());
    assert!(rt; names.len() == 2);
    say_events(&names, &mut text)?;
    let expected = "accept 1\njoin 2 api-2_b\nroom 2 94\ntick 50\npost 0 0 cancel 1\npair 1 3\n";
    same(&rt, &text.as_slice(), &expected.as_bytes());
    Ok(())
}

const BAD: [&[u8]; 5] = [b"", b"Web", b"a b", b"a.b", b"a\n"];

// Names that are refused leave the list as it is.
fn bad_names_are_refused(rt: &impl Abort, names: &mut Names) {
    for bad in BAD {
        same(rt, &names.push(bad), &Err(NameRefusal::BadForm));
    }
    same(rt, &names.push(b"web"), &Err(NameRefusal::Doubled));
}

// A name has 64 octets at most.
fn long_names_are_refused(
    rt: &(impl AllocGlobal + Abort),
    names: &mut Names,
) -> Result<(), NoMemory> {
    let long = vec![in rt.alloc(); b'a'; 65]?;
    same(rt, &names.push(long.as_slice()), &Err(NameRefusal::BadForm));
    same(rt, &names.push(&long[..64]), &Ok(()));
    Ok(())
}

#[test]
fn names_are_kept(rt: HostRuntime) -> Result<(), NoMemory> {
    let mut names = some_names(rt.alloc())?;
    bad_names_are_refused(&rt, &mut names);
    long_names_are_refused(&rt, &mut names)?;
    assert!(rt; names.len() == 3);
    same(&rt, &names.find(b"api-2_b"), &Some(1));
    same(&rt, &names.find(b"nobody"), &None);
    same(&rt, &names.name(0), &b"web".as_slice());
    holds(&rt, !names.is_empty());
    Ok(())
}
