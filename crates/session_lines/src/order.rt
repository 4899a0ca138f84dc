// The lines of a plain session, in their order.
ghost use Rattle.session_lines.specs.Orders.{ReadsLine};

use crate::courses::Courses;
use crate::grammar::{read_header, read_limits};
use crate::plain::read_plain;
use flow_notes::{Event, Names};
use io_ports::NoMemory;
use std::alloc::Global;
use tape_laws::PlainLimits;

/// The format of a session's text.
#[derive(Clone, Copy, PartialEq, Eq)]
pub enum Format {
    /// `h2replay-session 1 plain`, whose quantum is 16,384 octets.
    One,
    /// `h2replay-session 2 plain`, whose limits name the quantum.
    Two,
}

/// What a line was read as.
#[derive(Drop)]
pub enum LineRead {
    Header,
    Limits(PlainLimits),
    Event(Event),
    /// The line breaks the grammar or the order.
    Refused,
}

/// Which line comes next.
#[derive(Drop)]
pub enum Stage {
    Begins,
    Headed(Format),
    Plays(Courses),
}

/// The lines of a session so far, as far as they say what may come next.
#[derive(Drop)]
pub struct Order {
    alloc: Global,
    pub names: Names,
    pub stage: Stage,
}

impl Order {
    ghost use Rattle.std.specs.Prelude.{◌≡◌, Ok};
    ghost use Rattle.session_lines.specs.Orders.{OrderIs, PlaysNow, ReadsLine, has_played};
    ghost use Rattle.session_lines.specs.Seen.{Unread};

    /// Before the first line of a plain session. Takes no memory.
    pub fn plain(alloc: Global) -> Self
        ensures { OrderIs result Unread }
    {
        Order {
            alloc,
            names: Names::new(alloc),
            stage: Stage::Begins,
        }
    }

    /// Whether the limits were read, so that events may come.
    pub fn is_playing(&self) -> bool
        ensures lines { PlaysNow self.now result }
        ensures stage { result ≡ has_played self.now }
    {
        matches!(self.stage, Stage::Plays(_))
    }

    /// Reads the next line.
    pub(crate) fn read(&mut self, line: &[u8]) -> Result<LineRead, NoMemory>
        ensures { ReadsLine self.old line.now self.new result }
    {
        match &mut self.stage {
            Stage::Begins => Ok(self.header(line)),
            Stage::Headed(format) => {
                let format = *format;
                self.limits(format, line)
            }
            Stage::Plays(courses) => read_plain(self.alloc, &self.names, courses, line),
        }
    }

    fn header(&mut self, line: &[u8]) -> LineRead
        requires { self.old.stage ≡ Stage.Begins }
        ensures { ReadsLine self.old line.now self.new (Ok result) }
    {
        let Some(format) = read_header(line) else {
            return LineRead::Refused;
        };
        self.stage = Stage::Headed(format);
        LineRead::Header
    }

    fn limits(&mut self, format: Format, line: &[u8]) -> Result<LineRead, NoMemory>
        requires { self.old.stage ≡ Stage.Headed format }
        ensures { ReadsLine self.old line.now self.new result }
    {
        let Some(limits) = read_limits(self.alloc, format, line)? else {
            return Ok(LineRead::Refused);
        };
        self.stage = Stage::Plays(Courses::new(self.alloc));
        Ok(LineRead::Limits(limits))
    }
}

/// Reads the next line of a session, given without its newline. A line that is refused, and running out of
/// memory, leave the order as it was.
pub fn read_session_line(state: &mut Order, line: &[u8]) -> Result<LineRead, NoMemory>
    ensures { ReadsLine state.old line.now state.new result }
{
    state.read(line)
}
