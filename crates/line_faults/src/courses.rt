// What is wrong with a line of a plain session.
ghost use Rattle.std.specs.Prelude.{◌≡◌, IfOk};

use crate::fault::{Fault, LineFault, Mistake};
use crate::fields::{LIMITS, LIMITS_TWO, plain_fields};
use crate::header::{line_mistake, plain_header_mistake};
use crate::put::{at_place, first_word, whole};
use crate::words::field_mistake;
use flow_notes::{Event, PlainEvent, read_event};
use io_ports::NoMemory;
use session_lines::{Courses, Format, Order, Stage};
use session_run::RefusedLine;
use std::alloc::Global;

/// What is wrong where a plain session is refused, behind the lines that the order stands for.
pub fn explain_plain(
    alloc: Global,
    order: &Order,
    line: u32,
    refused: RefusedLine<'_>,
) -> Result<LineFault, NoMemory>
    ensures { IfOk result (λ fault. fault.line ≡ line) }
{
    let mistake = match refused {
        RefusedLine::Line(text) => return line_fault(alloc, order, line, text),
        RefusedLine::Long => Mistake::Long,
        RefusedLine::Cut(_) => Mistake::Cut,
        RefusedLine::End if matches!(order.stage, Stage::Begins) => Mistake::NoHeader,
        RefusedLine::End => Mistake::NoLimits,
    };
    LineFault::new(alloc, line, None, whole(alloc, b"", mistake)?)
}

fn line_fault(alloc: Global, order: &Order, line: u32, text: &[u8]) -> Result<LineFault, NoMemory>
    ensures { IfOk result (λ fault. fault.line ≡ line) }
{
    let fault = match (line_mistake(text), &order.stage) {
        (Some(mistake), _) => whole(alloc, text, mistake)?,
        (None, Stage::Begins) => whole(alloc, text, plain_header_mistake(text))?,
        (None, Stage::Headed(format)) => limits_fault(alloc, order, *format, text)?,
        (None, Stage::Plays(courses)) => event_fault(alloc, order, courses, text)?,
    };
    let event = match &order.stage {
        Stage::Plays(_) if plain_fields(first_word(text)).is_some() => Some(first_word(text)),
        _ => None,
    };
    LineFault::new(alloc, line, event, fault)
}

fn limits_fault(
    alloc: Global,
    order: &Order,
    format: Format,
    text: &[u8],
) -> Result<Fault, NoMemory> {
    if first_word(text) != b"limits".as_slice() {
        return whole(alloc, text, Mistake::NoLimitsLine);
    }
    let place = match format {
        Format::One => field_mistake(text, &LIMITS, &order.names),
        Format::Two => field_mistake(text, &LIMITS_TWO, &order.names),
    };
    at_place(alloc, text, place)
}

fn event_fault(
    alloc: Global,
    order: &Order,
    courses: &Courses,
    text: &[u8],
) -> Result<Fault, NoMemory> {
    if let Some(Event::Plain(event)) = read_event(alloc, text, &order.names, true)? {
        return whole(alloc, text, order_mistake(courses, &event));
    }
    match plain_fields(first_word(text)) {
        Some(fields) => at_place(alloc, text, field_mistake(text, fields, &order.names)),
        None => whole(alloc, first_word(text), Mistake::NoPlainEvent),
    }
}

// Why an event may not follow.
fn order_mistake(courses: &Courses, event: &PlainEvent) -> Mistake {
    match event {
        PlainEvent::Begin { stream } => Mistake::OldStream {
            stream: *stream,
            greatest: courses.greatest(),
        },
        PlainEvent::Pair { first, second } => pair_mistake(courses, *first, *second),
        PlainEvent::Body { stream, .. } => flow_mistake(courses, *stream),
        PlainEvent::Finish { stream } => flow_mistake(courses, *stream),
        PlainEvent::Cut { stream } => flow_mistake(courses, *stream),
        PlainEvent::Room { .. } => Mistake::Unspelled,
    }
}

fn pair_mistake(courses: &Courses, first: u32, second: u32) -> Mistake {
    if courses.course(first).is_none() {
        Mistake::NoStream { stream: first }
    } else if courses.course(second).is_none() {
        Mistake::NoStream { stream: second }
    } else if first == second {
        Mistake::Itself { stream: first }
    } else {
        Mistake::Paired { stream: first }
    }
}

fn flow_mistake(courses: &Courses, stream: u32) -> Mistake {
    match courses.course(stream) {
        None => Mistake::NoStream { stream },
        Some(course) if course.cut => Mistake::Reset { stream },
        Some(_) => Mistake::Ended { stream },
    }
}
