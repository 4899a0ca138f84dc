// A mistake in words.
ghost use Rattle.std.specs.Prelude.{◌≡◌, IfOk};

use crate::fault::{Fault, LineFault, Mistake};
use crate::fields::{Field, Kind};
use crate::words::Place;
use io_ports::{NoMemory, Octets};
use itoa::Buffer;
use std::alloc::Global;
use std::error::Error;
use std::fmt;
use std::fmt::Write;

/// The most octets of a line that are shown.
const SHOWN: usize = 40;

impl LineFault {
    ghost use Rattle.std.specs.Prelude.{◌≡◌, IfOk};

    /// A line that was refused, with the name of its event, if it has one.
    pub fn new(
        alloc: Global,
        line: u32,
        event: Option<&[u8]>,
        fault: Fault,
    ) -> Result<Self, NoMemory>
        ensures { IfOk result (λ made. made.line ≡ line) }
    {
        let event = match event {
            Some(name) => Some(Octets::from_slice(alloc, name)?),
            None => None,
        };
        Ok(LineFault { line, event, fault })
    }
}

/// The octets before the first space.
pub fn first_word(line: &[u8]) -> &[u8] {
    match line.iter().position(|octet| *octet == b' ') {
        Some(end) => &line[..end],
        None => line,
    }
}

/// A mistake of a whole line, of which a front is shown.
pub fn whole(alloc: Global, line: &[u8], mistake: Mistake) -> Result<Fault, NoMemory> {
    Ok(Fault {
        column: None,
        found: Octets::from_slice(alloc, &line[..line.len().min(SHOWN)])?,
        mistake,
    })
}

/// A mistake at a place of a line.
pub fn at_place(alloc: Global, line: &[u8], place: Option<Place>) -> Result<Fault, NoMemory> {
    let Some(place) = place else {
        return whole(alloc, line, Mistake::Unspelled);
    };
    let end = place.end.min(line.len());
    let start = place.start.min(end);
    let end = end.min(start.saturating_add(SHOWN));
    Ok(Fault {
        column: Some(start.saturating_add(1)),
        found: Octets::from_slice(alloc, &line[start..end])?,
        mistake: place.mistake,
    })
}

/// As `line 4, column 6: in: 16,385 octets, at most 16,384`: the line, the place, the event, what is wrong, and what stands there.
impl fmt::Display for LineFault {
    fn fmt<W: Write>(&self, f: &mut fmt::Formatter<W>) -> fmt::Result {
        write_place(f, self.line, self.fault.column)?;
        write_event(f, &self.event)?;
        write_fault(f, &self.fault)
    }
}

impl Error for LineFault {}

/// As `16,385 octets, at most 16,384`: what is wrong, and what stands there.
impl fmt::Display for Fault {
    fn fmt<W: Write>(&self, f: &mut fmt::Formatter<W>) -> fmt::Result {
        write_fault(f, self)
    }
}

// By hand: its text says all that it has.
impl fmt::Debug for Fault {
    fn fmt<W: Write>(&self, f: &mut fmt::Formatter<W>) -> fmt::Result {
        fmt::Display::fmt(self, f)
    }
}

impl Error for Fault {}

fn write_place<W: Write>(
    f: &mut fmt::Formatter<W>,
    line: u32,
    column: Option<usize>,
) -> fmt::Result {
    write_one(f, "line ", u64::from(line), "")?;
    match column {
        Some(column) => write_one(f, ", column ", column as u64, ": "),
        None => f.write_str(": "),
    }
}

// The name of an event is a word of ASCII.
fn write_event<W: Write>(f: &mut fmt::Formatter<W>, event: &Option<Octets>) -> fmt::Result {
    let Some(event) = event else {
        return Ok(());
    };
    f.write_str(std::str::from_utf8(event.as_slice()).unwrap_or("an event"))?;
    f.write_str(": ")
}

fn write_fault<W: Write>(f: &mut fmt::Formatter<W>, fault: &Fault) -> fmt::Result {
    if let Some(text) = text_of(fault.mistake) {
        return f.write_str(text);
    }
    let found = fault.found.as_slice();
    if let Some(wanted) = wanted_at(fault.mistake) {
        return write_expected(f, wanted, found);
    }
    match fault.mistake {
        Mistake::Missing(field) => write_missing(f, field.name),
        Mistake::NoNumber(field) => write_expected_number(f, field.name, found),
        Mistake::LeadingZero(field) => write_leading_zero(f, field.name, found),
        Mistake::OutOfRange(field) => write_out_of_range(f, field, found),
        Mistake::CapitalDigit => write_wrong(
            f,
            "capital digit in ",
            found,
            "; the hexadecimal digits are 0 to 9 and a to f",
        ),
        Mistake::OddDigits => write_wrong(
            f,
            "an odd number of digits in ",
            found,
            "; an octet has two",
        ),
        Mistake::TooMany(n) => write_counted(f, n as u64, " octets, at most 16,384"),
        Mistake::NoCluster => write_wrong(f, "the configuration has no cluster ", found, ""),
        Mistake::Behind => write_wrong(f, "the line should end before ", found, ""),
        Mistake::Unspelled => write_wrong(f, "no line of the format: ", found, ""),
        _ => write_order(f, fault.mistake),
    }
}

// The mistakes that a text tells whole.
fn text_of(mistake: Mistake) -> Option<&'static str> {
    match mistake {
        Mistake::Cut => Some("ends without a newline"),
        Mistake::NoHeader => Some("the session ends before its header"),
        Mistake::NoLimits => Some("the session ends before its limits"),
        Mistake::Long => Some("more than 40,000 octets"),
        Mistake::CarriageReturn => {
            Some("ends with a carriage return (CRLF); a line ends with a newline alone")
        }
        Mistake::Empty => Some("is empty"),
        Mistake::WireHeader => Some("this is a wire session, which h2replay wire CONFIG replays"),
        Mistake::PlainHeader => Some("this is a plain session, which h2replay plain replays"),
        Mistake::Space => Some("one space stands between two words, and none at the end"),
        _ => None,
    }
}

// What should stand in place of the words that do.
fn wanted_at(mistake: Mistake) -> Option<&'static str> {
    match mistake {
        Mistake::NoPlainHeader => Some("h2replay-session 1 plain or h2replay-session 2 plain"),
        Mistake::NoWireHeader => Some("h2replay-session 1 wire"),
        Mistake::NoPlainEvent => Some("open, pair, in, end, reset or room"),
        Mistake::NoWireEvent => Some("accept, join, read, gone, room, tick, post or obey"),
        Mistake::NoLimitsLine => Some("limits"),
        Mistake::NoHexDigit => Some("hexadecimal digits 0 to 9 and a to f"),
        Mistake::NoJob => Some("drain, cancel or look"),
        _ => None,
    }
}

// The mistakes of lines that may not follow those before them.
fn write_order<W: Write>(f: &mut fmt::Formatter<W>, mistake: Mistake) -> fmt::Result {
    match mistake {
        Mistake::NoStream { stream } => write_stream(f, stream, " was never opened"),
        Mistake::Ended { stream } => write_stream(f, stream, " has ended"),
        Mistake::Reset { stream } => write_stream(f, stream, " was reset"),
        Mistake::Itself { stream } => write_stream(f, stream, " can't be paired with itself"),
        Mistake::Paired { stream } => write_stream(f, stream, " has a pair"),
        Mistake::NoConnection { conn } => {
            write_conn(f, "connection ", conn, " was never accepted or joined")
        }
        Mistake::Lost { conn } => {
            write_conn(
                f,
                "connection ",
                conn,
                " is gone, or was never accepted or joined",
            )
        }
        Mistake::Paused { conn } => write_conn(
            f,
            "the flow from connection ",
            conn,
            " is paused, so nothing may be read of it",
        ),
        Mistake::OwnPoster { poster } => write_one(
            f,
            "the posts of poster ",
            u64::from(poster),
            " are those of the load shed points",
        ),
        _ => write_against(f, mistake),
    }
}

fn write_stream<W: Write>(f: &mut fmt::Formatter<W>, stream: u32, behind: &str) -> fmt::Result {
    write_one(f, "stream ", u64::from(stream), behind)
}

fn write_conn<W: Write>(
    f: &mut fmt::Formatter<W>,
    before: &str,
    conn: u32,
    behind: &str,
) -> fmt::Result {
    write_one(f, before, u64::from(conn), behind)
}

// The mistakes that two numbers tell.
fn write_against<W: Write>(f: &mut fmt::Formatter<W>, mistake: Mistake) -> fmt::Result {
    match mistake {
        Mistake::OldStream { stream, greatest } => write_two(
            f,
            "stream ",
            u64::from(stream),
            " isn't greater than stream ",
            u64::from(greatest),
        ),
        Mistake::OldConnection { conn, greatest } => write_two(
            f,
            "connection ",
            u64::from(conn),
            " isn't greater than connection ",
            u64::from(greatest),
        ),
        Mistake::OtherPost { poster, next, .. } => write_two(
            f,
            "the next post of poster ",
            u64::from(poster),
            " has the number ",
            next,
        ),
        Mistake::OldVersion { version, greatest } => write_two(
            f,
            "version ",
            version,
            " isn't greater than version ",
            greatest,
        ),
        Mistake::Pressures { found, resources } => write_two(
            f,
            "pressures: ",
            found as u64,
            " stand here, resources: ",
            resources as u64,
        ),
        _ => Ok(()),
    }
}

fn write_one<W: Write>(
    f: &mut fmt::Formatter<W>,
    before: &str,
    n: u64,
    behind: &str,
) -> fmt::Result {
    f.write_str(before)?;
    f.write(n)?;
    f.write_str(behind)
}

fn write_two<W: Write>(
    f: &mut fmt::Formatter<W>,
    before: &str,
    n: u64,
    between: &str,
    m: u64,
) -> fmt::Result {
    write_one(f, before, n, between)?;
    f.write(m)
}

fn write_counted<W: Write>(f: &mut fmt::Formatter<W>, n: u64, behind: &str) -> fmt::Result {
    write_grouped(f, n)?;
    f.write_str(behind)
}

fn write_wrong<W: Write>(
    f: &mut fmt::Formatter<W>,
    before: &str,
    found: &[u8],
    behind: &str,
) -> fmt::Result {
    f.write_str(before)?;
    write_shown(f, found)?;
    f.write_str(behind)
}

fn write_expected<W: Write>(f: &mut fmt::Formatter<W>, wanted: &str, found: &[u8]) -> fmt::Result {
    f.write_str(wanted)?;
    write_wrong(f, " expected, not ", found, "")
}

fn write_missing<W: Write>(f: &mut fmt::Formatter<W>, field: &str) -> fmt::Result {
    f.write_str(field)?;
    f.write_str(" expected, and the line ends")
}

fn write_expected_number<W: Write>(
    f: &mut fmt::Formatter<W>,
    field: &str,
    found: &[u8],
) -> fmt::Result {
    f.write_str(field)?;
    write_wrong(f, " expected, a number, not ", found, "")
}

fn write_leading_zero<W: Write>(
    f: &mut fmt::Formatter<W>,
    field: &str,
    found: &[u8],
) -> fmt::Result {
    f.write_str(field)?;
    write_wrong(f, " begins with a zero: ", found, "")
}

fn write_out_of_range<W: Write>(
    f: &mut fmt::Formatter<W>,
    field: Field,
    found: &[u8],
) -> fmt::Result {
    write_beyond(f, field.name, found)?;
    match field.kind {
        Kind::Number { least, most } => write_range(f, least, most),
        _ => Ok(()),
    }
}

fn write_beyond<W: Write>(f: &mut fmt::Formatter<W>, field: &str, found: &[u8]) -> fmt::Result {
    f.write_str(field)?;
    write_wrong(f, " is ", found, ", and may be ")
}

fn write_range<W: Write>(f: &mut fmt::Formatter<W>, least: u64, most: u64) -> fmt::Result {
    write_grouped(f, least)?;
    f.write_str(" to ")?;
    write_grouped(f, most)
}

// Octets in quotes; those that no letter, digit or sign of ASCII are as a question mark.
fn write_shown<W: Write>(f: &mut fmt::Formatter<W>, found: &[u8]) -> fmt::Result {
    f.write_str("\"")?;
    for octet in found {
        let shown = if matches!(*octet, 0x20..=0x7e) {
            *octet
        } else {
            b'?'
        };
        f.write_char(char::from(shown))?;
    }
    f.write_str("\"")
}

// A number with a comma before each three digits at its end.
fn write_grouped<W: Write>(f: &mut fmt::Formatter<W>, n: u64) -> fmt::Result {
    let mut digits = Buffer::new();
    let digits = digits.format(n).as_bytes();
    let mut left = digits.len();
    for digit in digits {
        f.write_char(char::from(*digit))?;
        left = left.saturating_sub(1);
        if left > 0 && left % 3 == 0 {
            f.write_str(",")?;
        }
    }
    Ok(())
}
