// The lines of notes.
ghost use Rattle.std.specs.Prelude.{◌≡◌, ◌++◌, ◌∷◌, OnOk, OnErr, codes, decimal};
ghost use Rattle.flow_notes.specs.Buffer.{buffer_words};
ghost use Rattle.flow_notes.specs.Cause.{cause_words};
ghost use Rattle.flow_notes.specs.Close.{close_word};
ghost use Rattle.flow_notes.specs.Extends.{Extends};
ghost use Rattle.flow_notes.specs.Fire.{fire_word};
ghost use Rattle.flow_notes.specs.Flow.{flow_word};
ghost use Rattle.flow_notes.specs.Line.{line_of, newline};
ghost use Rattle.flow_notes.specs.Note.{IsNote, note_spelling};

use super::event::push_event;
use super::push_line;
use super::words::{Word, number};
use crate::keywords::*;
use crate::{Cause, CloseCause, FireKind, Names, Note};
use flow_gate::{BufferId, FlowId};
use io_ports::{NoMemory, Octets};

fn fire_kind(kind: FireKind) -> &'static [u8]
    ensures { result.now ≡ fire_word kind }
{
    match kind {
        FireKind::Route => ROUTE,
        FireKind::StreamIdle => STREAM_IDLE,
        FireKind::ConnectionIdle => CONNECTION_IDLE,
    }
}

fn close_cause(cause: CloseCause) -> &'static [u8]
    ensures { result.now ≡ close_word cause }
{
    match cause {
        CloseCause::Protocol => PROTOCOL,
        CloseCause::Lost => LOST,
        CloseCause::Drained => DRAINED,
        CloseCause::Idle => IDLE,
        CloseCause::Overload => OVERLOAD,
        CloseCause::Flood => FLOOD,
    }
}

// A pause or a resume.
fn push_crossing(
    first: &[u8],
    flow: FlowId,
    buffer: BufferId,
    into: &mut Octets,
) -> Result<(), NoMemory>
    ensures ok { OnOk result (into.new ≡ into.old
        ++ (line_of (first.now ∷ flow_word flow ∷ buffer_words buffer) ++ newline)) }
    ensures err { OnErr result (Extends into.old into.new) }
{
    let flow = Word::Flow(flow);
    match buffer {
        BufferId::Recv(_) => push_line(None, first, &[flow], into),
        BufferId::Stage(_, i) => {
            push_line(None, first, &[flow, Word::Text(STAGE), number(i)], into)
        }
        BufferId::Send(_) => push_line(None, first, &[flow, Word::Text(SEND)], into),
        BufferId::Write(conn) => {
            push_line(None, first, &[flow, Word::Text(WRITE), number(conn)], into)
        }
    }
}

fn push_doom(exchange: u64, cause: Cause, into: &mut Octets) -> Result<(), NoMemory>
    ensures ok { OnOk result (into.new ≡ into.old
        ++ (line_of (codes "doom" ∷ decimal exchange ∷ cause_words cause) ++ newline)) }
    ensures err { OnErr result (Extends into.old into.new) }
{
    let exchange = Word::Number(exchange);
    match cause {
        Cause::Done => push_line(None, DOOM, &[exchange, Word::Text(DONE)], into),
        Cause::PeerReset { code } => {
            push_line(
                None,
                DOOM,
                &[exchange, Word::Text(PEER_RESET), number(code)],
                into,
            )
        }
        Cause::StreamError { code } => {
            push_line(
                None,
                DOOM,
                &[exchange, Word::Text(STREAM_ERROR), number(code)],
                into,
            )
        }
        Cause::TooLarge => push_line(None, DOOM, &[exchange, Word::Text(TOO_LARGE)], into),
        Cause::Timeout { kind } => {
            let kind = Word::Text(fire_kind(kind));
            push_line(None, DOOM, &[exchange, Word::Text(TIMEOUT), kind], into)
        }
        Cause::Overload => push_line(None, DOOM, &[exchange, Word::Text(OVERLOAD)], into),
        Cause::Overflow => push_line(None, DOOM, &[exchange, Word::Text(OVERFLOW)], into),
        Cause::ConnLost { conn } => {
            push_line(
                None,
                DOOM,
                &[exchange, Word::Text(CONN_LOST), number(conn)],
                into,
            )
        }
        Cause::EarlyEnd => push_line(None, DOOM, &[exchange, Word::Text(EARLY_END)], into),
        Cause::Posted {
            poster,
            number: post,
        } => {
            let words = [
                exchange,
                Word::Text(POSTED),
                number(poster),
                Word::Number(post),
            ];
            push_line(None, DOOM, &words, into)
        }
        Cause::Refused { status } => {
            let status = Word::Number(u64::from(status));
            push_line(None, DOOM, &[exchange, Word::Text(REFUSED), status], into)
        }
    }
}

fn push_note(note: &Note, names: &Names, into: &mut Octets) -> Result<(), NoMemory>
    requires { IsNote names.now note.now }
    ensures ok { OnOk result (into.new ≡ into.old ++ (note_spelling names.now note.now ++ newline)) }
    ensures err { OnErr result (Extends into.old into.new) }
{
    match note {
        Note::Turn { number, event } => push_event(Some(*number), event, names, into),
        Note::Arrive { flow, octets } => {
            push_line(
                None,
                IN,
                &[Word::Flow(*flow), Word::Hex(octets.as_slice())],
                into,
            )
        }
        Note::Move { flow, place, n } => {
            push_line(
                None,
                MOVE,
                &[Word::Flow(*flow), number(*place), number(*n)],
                into,
            )
        }
        Note::Frame {
            conn,
            flow,
            n,
            last,
        } => {
            let last = Word::Text(if *last { END } else { MORE });
            push_line(
                None,
                FRAME,
                &[number(*conn), Word::Flow(*flow), number(*n), last],
                into,
            )
        }
        Note::Out { conn, n } => push_line(None, OUT, &[number(*conn), number(*n)], into),
        Note::Pause { flow, buffer } => push_crossing(PAUSE, *flow, *buffer, into),
        Note::Resume { flow, buffer } => push_crossing(RESUME, *flow, *buffer, into),
        Note::Credit { conn, stream, n } => {
            push_line(
                None,
                CREDIT,
                &[number(*conn), number(*stream), number(*n)],
                into,
            )
        }
        Note::Head {
            conn,
            stream,
            octets,
        } => {
            let octets = Word::Hex(octets.as_slice());
            push_line(None, HEAD, &[number(*conn), number(*stream), octets], into)
        }
        Note::Answer { conn, octets } => {
            push_line(
                None,
                ANSWER,
                &[number(*conn), Word::Hex(octets.as_slice())],
                into,
            )
        }
        Note::Waste { conn, stream, n } => {
            push_line(
                None,
                WASTE,
                &[number(*conn), number(*stream), number(*n)],
                into,
            )
        }
        Note::Start {
            exchange,
            conn,
            stream,
            to,
        } => {
            let exchange = Word::Number(*exchange);
            let words = [exchange, number(*conn), number(*stream), number(*to)];
            push_line(None, START, &words, into)
        }
        Note::Doom { exchange, cause } => push_doom(*exchange, *cause, into),
        Note::Gone { exchange } => push_line(None, GONE, &[Word::Number(*exchange)], into),
        Note::Close { conn, code, cause } => {
            let cause = Word::Text(close_cause(*cause));
            push_line(None, CLOSE, &[number(*conn), number(*code), cause], into)
        }
        Note::Fire { kind, id } => {
            push_line(
                None,
                FIRE,
                &[Word::Text(fire_kind(*kind)), Word::Number(*id)],
                into,
            )
        }
    }
}

/// Appends the line of a note, with its newline. After running out of memory `into` is as it was.
pub fn note_text(note: &Note, names: &Names, into: &mut Octets) -> Result<(), NoMemory>
    requires { IsNote names.now note.now }
    ensures ok { OnOk result (into.new ≡ into.old ++ (note_spelling names.now note.now ++ newline)) }
    ensures err { OnErr result (into.new ≡ into.old) }
{
    let before = into.len();
    let pushed = push_note(note, names, into);
    if pushed.is_err() {
        into.truncate(before);
    }
    pushed
}
