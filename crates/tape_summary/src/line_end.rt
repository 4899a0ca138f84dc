// A line that is written from its end, so that it goes into a text in one piece.
ghost use Rattle.std.specs.Prelude.{◌≤◌};

use flow_gate::{BufferId, FlowId};
use itoa::write_digits;

/// How many octets a line has room for.
const ROOM: usize = 128;

/// The end of a line, which grows at its front.
#[derive(Clone, Copy)]
pub struct LineEnd {
    text: [u8; ROOM],
    start: usize,
    ghost within: { start ≤ 128 },
}

impl LineEnd {
    ghost use Rattle.std.specs.Prelude.{◌≡◌, ◌≤◌, ◌+◌, ◌++◌, decimal, length};
    ghost use Rattle.flow_notes.specs.Buffer.{buffer_words};
    ghost use Rattle.flow_notes.specs.Flow.{flow_word};
    ghost use Rattle.flow_notes.specs.Line.{newline, spaced};
    ghost use Rattle.tape_summary.specs.LineEnds.{text_of};
    ghost use Rattle.tape_laws.specs.Report.{until_word};

    /// The newline alone.
    pub fn new() -> Self
        ensures text { text_of result ≡ newline }
        ensures room { 127 ≤ result.start }
    {
        LineEnd {
            text: [b'\n'; ROOM],
            start: ROOM - 1,
        }
    }

    /// The words of a buffer, each behind a space, and the newline.
    pub fn of_buffer(buffer: BufferId) -> Self
        ensures text { text_of result ≡ spaced (buffer_words buffer) ++ newline }
        ensures room { 100 ≤ result.start }
    {
        let mut line = LineEnd::new();
        line.put_buffer(buffer);
        line
    }

    /// The octets so far.
    pub fn as_slice(&self) -> &[u8]
        ensures { result.now ≡ text_of self.now }
    {
        &self.text[self.start..]
    }

    /// Puts octets before it.
    pub fn put(&mut self, piece: &[u8])
        requires { length piece.now ≤ self.old.start }
        ensures text { text_of self.new ≡ piece.now ++ text_of self.old }
        ensures room { self.old.start ≤ self.new.start + length piece.now }
    {
        let start = self.start - piece.len();
        self.text[start..self.start].copy_from_slice(piece);
        self.start = start;
    }

    /// Puts a number before it, in decimal.
    pub fn put_number(&mut self, n: u64)
        requires { 20 ≤ self.old.start }
        ensures text { text_of self.new ≡ decimal n ++ text_of self.old }
        ensures room { self.old.start ≤ self.new.start + 20 }
    {
        let start = write_digits(n, &mut self.text, self.start);
        self.start = start;
    }

    /// Puts a flow before it.
    pub fn put_flow(&mut self, flow: FlowId)
        requires { 21 ≤ self.old.start }
        ensures text { text_of self.new ≡ flow_word flow ++ text_of self.old }
        ensures room { self.old.start ≤ self.new.start + 21 }
    {
        self.put(if flow.back { b"r" } else { b"q" });
        self.put_number(flow.exchange);
    }

    /// Puts the words of a buffer before it, each behind a space.
    pub fn put_buffer(&mut self, buffer: BufferId)
        requires { 27 ≤ self.old.start }
        ensures text { text_of self.new ≡ spaced (buffer_words buffer) ++ text_of self.old }
        ensures room { self.old.start ≤ self.new.start + 27 }
    {
        match buffer {
            BufferId::Recv(_) => {}
            BufferId::Stage(_, place) => self.put_behind(b" stage ", place),
            BufferId::Send(_) => self.put(b" send"),
            BufferId::Write(conn) => self.put_behind(b" write ", conn),
        }
    }

    // Puts seven octets and a number before it.
    fn put_behind(&mut self, piece: &[u8], n: u32)
        requires room { 27 ≤ self.old.start }
        requires piece { length piece.now ≡ 7 }
        ensures text { text_of self.new ≡ piece.now ++ (decimal n ++ text_of self.old) }
        ensures room { self.old.start ≤ self.new.start + 27 }
    {
        self.put_number(u64::from(n));
        self.put(piece);
    }

    /// Puts the dispatch of a resume before it, or a dash where there was none.
    pub fn put_until(&mut self, until: Option<u64>)
        requires { 20 ≤ self.old.start }
        ensures text { text_of self.new ≡ until_word until ++ text_of self.old }
        ensures room { self.old.start ≤ self.new.start + 20 }
    {
        match until {
            Some(turn) => self.put_number(turn),
            None => self.put(b"-"),
        }
    }
}
