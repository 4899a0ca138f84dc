// The events of a plain session's lines.
ghost use Rattle.session_lines.specs.Courses.{IsNumbered};
ghost use Rattle.session_lines.specs.Reading.{FollowsRead, ReadsEvent};

use crate::courses::Courses;
use crate::order::LineRead;
use flow_notes::{Event, Names, PlainEvent, read_event};
use io_ports::NoMemory;
use std::alloc::Global;

/// Reads an event that may follow.
pub fn read_plain(
    alloc: Global,
    names: &Names,
    courses: &mut Courses,
    line: &[u8],
) -> Result<LineRead, NoMemory>
    ensures { ReadsEvent names.now courses.old line.now courses.new result }
{
    let Some(event) = read_event(alloc, line, names, true)? else {
        return Ok(LineRead::Refused);
    };
    match event {
        Event::Plain(event) => follow(courses, event),
        _ => Ok(LineRead::Refused),
    }
}

// An event that may follow has followed.
fn follow(courses: &mut Courses, event: PlainEvent) -> Result<LineRead, NoMemory>
    requires { IsNumbered event }
    ensures { FollowsRead courses.old event courses.new result }
{
    if courses.follow(&event)? {
        Ok(LineRead::Event(Event::Plain(event)))
    } else {
        Ok(LineRead::Refused)
    }
}
