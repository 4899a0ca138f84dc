// The lines of a wire session, in their order.
ghost use Rattle.std.specs.Prelude.{◌≡◌};

use crate::order::LineRead;
use crate::wire_order::WireOrder;
use flow_notes::{Names, read_event};
use io_ports::NoMemory;
use std::alloc::Global;

/// The lines of a wire session so far, as far as they say what may come next.
#[derive(Drop)]
pub struct WireLines {
    alloc: Global,
    names: Names,
    order: WireOrder,
    /// The header was read, so that events may come.
    headed: bool,
}

impl WireLines {
    ghost use Rattle.std.specs.Prelude.{◌≡◌, true, false, Ok};
    ghost use Rattle.session_lines.specs.WireLines.{NoLine, ReadsWireLine, WireLinesAre};

    /// Before the first line of a session with these clusters and so many resources. Takes no memory.
    pub fn new(alloc: Global, names: Names, resources: usize) -> Self
        ensures { WireLinesAre result names resources NoLine }
    {
        WireLines {
            alloc,
            names,
            order: WireOrder::new(alloc, resources),
            headed: false,
        }
    }

    /// The names of the clusters.
    pub fn names(&self) -> &Names
        ensures { result.now ≡ self.now.names }
    {
        &self.names
    }

    /// What came so far.
    pub fn order(&self) -> &WireOrder
        ensures { result.now ≡ self.now.order }
    {
        &self.order
    }

    /// Whether the header was read, so that events may come.
    pub fn is_playing(&self) -> bool
        ensures { result ≡ self.now.headed }
    {
        self.headed
    }

    /// Reads the next line, given without its newline. A refused line leaves all as it was, and so does running out of memory.
    pub fn read(&mut self, line: &[u8]) -> Result<LineRead, NoMemory>
        ensures { ReadsWireLine self.old line.now self.new result }
    {
        if self.headed {
            self.event(line)
        } else {
            Ok(self.header(line))
        }
    }

    fn header(&mut self, line: &[u8]) -> LineRead
        requires { self.old.headed ≡ false }
        ensures { ReadsWireLine self.old line.now self.new (Ok result) }
    {
        if line != b"h2replay-session 1 wire".as_slice() {
            return LineRead::Refused;
        }
        self.headed = true;
        LineRead::Header
    }

    // An event that may follow.
    fn event(&mut self, line: &[u8]) -> Result<LineRead, NoMemory>
        requires { self.old.headed ≡ true }
        ensures { ReadsWireLine self.old line.now self.new result }
    {
        let Some(event) = read_event(self.alloc, line, &self.names, false)? else {
            return Ok(LineRead::Refused);
        };
        if self.order.follow(&event)? {
            Ok(LineRead::Event(event))
        } else {
            Ok(LineRead::Refused)
        }
    }
}
