// What is wrong with a line of a wire session.
ghost use Rattle.std.specs.Prelude.{◌≡◌, IfOk};

use crate::fault::{Fault, LineFault, Mistake};
use crate::fields::wire_fields;
use crate::header::{line_mistake, wire_header_mistake};
use crate::put::{at_place, first_word, whole};
use crate::words::field_mistake;
use flow_notes::{Event, read_event};
use io_ports::NoMemory;
use session_lines::{WireLines, WireOrder};
use session_run::RefusedLine;
use std::alloc::Global;

/// What is wrong where a wire session is refused, behind the lines before.
pub fn explain_wire(
    alloc: Global,
    lines: &WireLines,
    line: u32,
    refused: RefusedLine<'_>,
) -> Result<LineFault, NoMemory>
    ensures { IfOk result (λ fault. fault.line ≡ line) }
{
    let mistake = match refused {
        RefusedLine::Line(text) => return line_fault(alloc, lines, line, text),
        RefusedLine::Long => Mistake::Long,
        RefusedLine::Cut(_) => Mistake::Cut,
        RefusedLine::End => Mistake::NoHeader,
    };
    LineFault::new(alloc, line, None, whole(alloc, b"", mistake)?)
}

/// What is wrong where a session is refused whose arrivals pass the load shed points: there the posts of one poster are their own.
pub fn explain_shed(
    alloc: Global,
    lines: &WireLines,
    own: u32,
    line: u32,
    refused: RefusedLine<'_>,
) -> Result<LineFault, NoMemory>
    ensures { IfOk result (λ fault. fault.line ≡ line) }
{
    if let RefusedLine::Line(text) = refused {
        if lines.is_playing() && is_post_of(alloc, lines, own, text)? {
            let fault = whole(alloc, text, Mistake::OwnPoster { poster: own })?;
            return LineFault::new(alloc, line, Some(first_word(text)), fault);
        }
    }
    explain_wire(alloc, lines, line, refused)
}

fn is_post_of(alloc: Global, lines: &WireLines, own: u32, text: &[u8]) -> Result<bool, NoMemory> {
    match read_event(alloc, text, lines.names(), false)? {
        Some(Event::Post { poster, .. }) => Ok(poster == own),
        _ => Ok(false),
    }
}

fn line_fault(
    alloc: Global,
    lines: &WireLines,
    line: u32,
    text: &[u8],
) -> Result<LineFault, NoMemory>
    ensures { IfOk result (λ fault. fault.line ≡ line) }
{
    let fault = match line_mistake(text) {
        Some(mistake) => whole(alloc, text, mistake)?,
        None if lines.is_playing() => event_fault(alloc, lines, text)?,
        None => whole(alloc, text, wire_header_mistake(text))?,
    };
    let event = if lines.is_playing() && wire_fields(first_word(text)).is_some() {
        Some(first_word(text))
    } else {
        None
    };
    LineFault::new(alloc, line, event, fault)
}

fn event_fault(alloc: Global, lines: &WireLines, text: &[u8]) -> Result<Fault, NoMemory> {
    let Some(fields) = wire_fields(first_word(text)) else {
        return whole(alloc, first_word(text), Mistake::NoWireEvent);
    };
    if let Some(place) = field_mistake(text, fields, lines.names()) {
        return at_place(alloc, text, Some(place));
    }
    match read_event(alloc, text, lines.names(), false)? {
        Some(event) => whole(alloc, text, order_mistake(lines.order(), &event)),
        None => whole(alloc, text, Mistake::Unspelled),
    }
}

// Why an event may not follow. One that the order lets follow reads a paused flow of a relay.
fn order_mistake(order: &WireOrder, event: &Event) -> Mistake {
    match event {
        Event::Accept { conn } => new_mistake(order, *conn),
        Event::Join { conn, .. } => new_mistake(order, *conn),
        Event::Read { conn, .. } if order.is_there(*conn) => Mistake::Paused { conn: *conn },
        Event::Read { conn, .. } => there_mistake(order, *conn),
        Event::Gone { conn } => there_mistake(order, *conn),
        Event::Room { conn, .. } => there_mistake(order, *conn),
        Event::Post { poster, number, .. } => Mistake::OtherPost {
            poster: *poster,
            number: *number,
            next: order.posts_of(*poster),
        },
        Event::Obey { version, pressures } => obey_mistake(order, *version, pressures.len()),
        Event::Tick { .. } | Event::Plain(_) => Mistake::Unspelled,
    }
}

fn new_mistake(order: &WireOrder, conn: u32) -> Mistake {
    Mistake::OldConnection {
        conn,
        greatest: order.greatest(),
    }
}

fn there_mistake(order: &WireOrder, conn: u32) -> Mistake {
    if conn <= order.greatest() {
        Mistake::Lost { conn }
    } else {
        Mistake::NoConnection { conn }
    }
}

fn obey_mistake(order: &WireOrder, version: u64, pressures: usize) -> Mistake {
    if version <= order.version() {
        Mistake::OldVersion {
            version,
            greatest: order.version(),
        }
    } else {
        Mistake::Pressures {
            found: pressures,
            resources: order.resources(),
        }
    }
}
