// The lines of a summary. A line is taken only where it is the one spelling of what was read of it.
ghost use Rattle.flow_notes.specs.Line.{newline};
ghost use Rattle.std.specs.Prelude.{◌≡◌, ◌++◌, IfOk, IfSome, OnOk};
ghost use Rattle.tape_laws.specs.Report.{paused_line, peak_line};
ghost use Rattle.tape_plot.specs.Lines.{line_text, peak_words};

use crate::words::{first_word, read_flow, read_number, read_u32};
use flow_gate::{BufferId, FlowId};
use io_ports::{NoMemory, Octets};
use session_run::Status;
use std::alloc::Global;
use std::error::Error;
use std::fmt;
use tape_summary::{LineEnd, put_behind, put_done, put_flow_peak, put_stage_peak, put_write_peak};

/// Why a line was refused.
#[derive(Clone, Copy, Debug, PartialEq, Eq)]
pub enum Refusal {
    /// It is no note, and no line of a summary.
    NoNote,
    /// It is a note behind a line of the summary.
    BehindSummary,
    /// It stands behind the last line.
    BehindEnd,
    /// It has more than 131,071 octets.
    Long,
}

impl fmt::Display for Refusal {
    fn fmt<W: fmt::Write>(&self, f: &mut fmt::Formatter<W>) -> fmt::Result {
        f.write_str(match self {
            Refusal::NoNote => "neither a note of a tape nor a line of its summary",
            Refusal::BehindSummary => "a note behind a line of the summary",
            Refusal::BehindEnd => "a line behind the tape's last line",
            Refusal::Long => "more than 131,071 octets",
        })
    }
}

impl Error for Refusal {}

/// How it ended, and which line was refused, counted from 1, and why, where one was.
#[derive(Clone, Copy, PartialEq, Eq)]
pub struct Outcome {
    pub status: Status,
    pub line: u64,
    pub refusal: Option<Refusal>,
}

// Words of lines.
const PEAK: &[u8] = b"peak";

const PAUSED: &[u8] = b"paused";

const DONE: &[u8] = b"done";

const REFUSED: &[u8] = b"refused";

const WRITE: &[u8] = b"write";

const RECV: &[u8] = b"recv";

const SEND: &[u8] = b"send";

const STAGE: &[u8] = b"stage";

const NEVER: &[u8] = b"-";

const LINE: &[u8] = b"line";

const LENGTH: &[u8] = b"length";

/// A line of a summary.
#[derive(Clone, Copy, PartialEq, Eq)]
pub enum Line {
    /// A buffer held at most `most` octets.
    Peak {
        buffer: BufferId,
        limit: u32,
        most: u64,
    },
    /// A flow was paused for a buffer in one dispatch, and resumed in another, if ever.
    Paused {
        flow: FlowId,
        buffer: BufferId,
        at: u64,
        until: Option<u64>,
    },
    /// The last line: how many dispatches there were.
    Done {
        turns: u64,
    },
    /// The last line: the session was refused at this line.
    RefusedLine {
        number: u32,
    },
    /// The last line: the session was refused for its length.
    RefusedLength,
}

/// The line of a summary, given without its newline, that this is.
pub fn read_line(alloc: Global, line: &[u8]) -> Result<Option<Line>, NoMemory>
    ensures { IfOk result (λ read. IfSome read (λ l. line.now ++ newline ≡ line_text l)) }
{
    let Some(read) = guess(line) else {
        return Ok(None);
    };
    let mut whole = Octets::from_slice(alloc, line)?;
    whole.push_all(b"\n")?;
    let mut text = Octets::new(alloc);
    put_line(&mut text, read)?;
    if whole.as_slice() == text.as_slice() {
        return Ok(Some(read));
    }
    Ok(None)
}

// What the line is, if it is one.
fn guess(line: &[u8]) -> Option<Line> {
    let (keyword, words) = first_word(line);
    if keyword == PEAK {
        return guess_peak(words);
    }
    if keyword == PAUSED {
        return guess_paused(words);
    }
    if keyword == DONE {
        let turns = read_number(words)?;
        return Some(Line::Done { turns });
    }
    if keyword == REFUSED {
        return guess_refused(words);
    }
    None
}

fn guess_peak(words: &[u8]) -> Option<Line> {
    let (kind, words) = first_word(words);
    let (of, words) = first_word(words);
    let buffer = peak_buffer(kind, of, words)?;
    let words = match buffer {
        BufferId::Stage(..) => first_word(words).1,
        _ => words,
    };
    let (limit, most) = first_word(words);
    let limit = read_u32(limit)?;
    let most = read_number(most)?;
    Some(Line::Peak {
        buffer,
        limit,
        most,
    })
}

fn peak_buffer(kind: &[u8], of: &[u8], words: &[u8]) -> Option<BufferId> {
    if kind == WRITE {
        return Some(BufferId::Write(read_u32(of)?));
    }
    let flow = read_flow(of)?;
    if kind == RECV {
        return Some(BufferId::Recv(flow));
    }
    if kind == SEND {
        return Some(BufferId::Send(flow));
    }
    if kind == STAGE {
        return Some(BufferId::Stage(flow, read_u32(first_word(words).0)?));
    }
    None
}

fn guess_paused(words: &[u8]) -> Option<Line> {
    let (flow, words) = first_word(words);
    let flow = read_flow(flow)?;
    let (kind, words) = first_word(words);
    let (number, behind) = first_word(words);
    let (buffer, words) = if kind == SEND {
        (BufferId::Send(flow), words)
    } else if kind == STAGE {
        (BufferId::Stage(flow, read_u32(number)?), behind)
    } else if kind == WRITE {
        (BufferId::Write(read_u32(number)?), behind)
    } else {
        return None;
    };
    let (at, until) = first_word(words);
    let at = read_number(at)?;
    let until = if until == NEVER {
        None
    } else {
        Some(read_number(until)?)
    };
    Some(Line::Paused {
        flow,
        buffer,
        at,
        until,
    })
}

fn guess_refused(words: &[u8]) -> Option<Line> {
    let (kind, number) = first_word(words);
    if kind == LINE {
        let number = read_u32(number)?;
        return Some(Line::RefusedLine { number });
    }
    if kind == LENGTH {
        return Some(Line::RefusedLength);
    }
    None
}

// Appends the spelling of a line, with its newline.
fn put_line(text: &mut Octets, line: Line) -> Result<(), NoMemory>
    ensures { OnOk result (text.new ≡ text.old ++ line_text line) }
{
    match line {
        Line::Peak {
            buffer,
            limit,
            most,
        } => put_peak(text, buffer, limit, most),
        Line::Paused {
            flow,
            buffer,
            at,
            until,
        } => put_paused(text, flow, buffer, at, until),
        Line::Done { turns } => put_done(text, turns),
        Line::RefusedLine { number } => {
            put_behind(text, b"refused line ", u64::from(number))?;
            text.push_all(b"\n")
        }
        Line::RefusedLength => text.push_all(b"refused length session\n"),
    }
}

fn put_peak(text: &mut Octets, buffer: BufferId, limit: u32, most: u64) -> Result<(), NoMemory>
    ensures { OnOk result (text.new ≡ text.old ++ peak_line (peak_words buffer) limit most) }
{
    match buffer {
        BufferId::Write(conn) => put_write_peak(text, conn, limit, most),
        BufferId::Recv(flow) => put_flow_peak(text, b"recv", flow, limit, most),
        BufferId::Send(flow) => put_flow_peak(text, b"send", flow, limit, most),
        BufferId::Stage(flow, i) => put_stage_peak(text, flow, u64::from(i), limit, most),
    }
}

fn put_paused(
    text: &mut Octets,
    flow: FlowId,
    buffer: BufferId,
    at: u64,
    until: Option<u64>,
) -> Result<(), NoMemory>
    ensures { OnOk result (text.new ≡ text.old ++ paused_line (record { flow = flow; buffer = buffer; at = at; until = until })) }
{
    let mut line = LineEnd::new();
    line.put_until(until);
    line.put(b" ");
    line.put_number(at);
    line.put(b" ");
    line.put_buffer(buffer);
    line.put_flow(flow);
    line.put(b"paused ");
    text.push_all(line.as_slice())
}
