// The lines of events.
ghost use Rattle.std.specs.Prelude.{◌≡◌, ◌++◌, ◌∷◌, OnOk, OnErr};
ghost use Rattle.flow_notes.specs.Event.{IsEvent, event_spelling, event_words, plain_words};
ghost use Rattle.flow_notes.specs.Extends.{Extends};
ghost use Rattle.flow_notes.specs.Job.{job_words};
ghost use Rattle.flow_notes.specs.Line.{line_of, newline};
ghost use Rattle.flow_notes.specs.Word.{turn_words};
ghost use Rattle.std.specs.Prelude.{codes, decimal};

use super::push_line;
use super::words::{Word, number};
use crate::keywords::*;
use crate::{Event, Job, Names, PlainEvent};
use io_ports::{NoMemory, Octets};

fn push_plain(turn: Option<u64>, event: &PlainEvent, into: &mut Octets) -> Result<(), NoMemory>
    ensures ok { OnOk result (into.new ≡ into.old ++ (line_of (turn_words turn ++ plain_words event.now) ++ newline)) }
    ensures err { OnErr result (Extends into.old into.new) }
{
    match event {
        PlainEvent::Begin { stream } => push_line(turn, OPEN, &[number(*stream)], into),
        PlainEvent::Pair { first, second } => {
            push_line(turn, PAIR, &[number(*first), number(*second)], into)
        }
        PlainEvent::Body { stream, octets } => {
            push_line(
                turn,
                IN,
                &[number(*stream), Word::Hex(octets.as_slice())],
                into,
            )
        }
        PlainEvent::Finish { stream } => push_line(turn, END, &[number(*stream)], into),
        PlainEvent::Cut { stream } => push_line(turn, RESET, &[number(*stream)], into),
        PlainEvent::Room { n } => push_line(turn, ROOM, &[number(*n)], into),
    }
}

fn push_post(
    turn: Option<u64>,
    poster: u32,
    post: u64,
    job: Job,
    into: &mut Octets,
) -> Result<(), NoMemory>
    ensures ok { OnOk result (into.new ≡ into.old ++ (line_of (turn_words turn
        ++ (codes "post" ∷ decimal poster ∷ decimal post ∷ job_words job)) ++ newline)) }
    ensures err { OnErr result (Extends into.old into.new) }
{
    let [poster, post] = [number(poster), Word::Number(post)];
    match job {
        Job::Drain => push_line(turn, POST, &[poster, post, Word::Text(DRAIN)], into),
        Job::Cancel { exchange } => {
            let exchange = Word::Number(exchange);
            push_line(
                turn,
                POST,
                &[poster, post, Word::Text(CANCEL), exchange],
                into,
            )
        }
        Job::Look => push_line(turn, POST, &[poster, post, Word::Text(LOOK)], into),
    }
}

/// Appends the line of an event, or of the turn in which it happens. After running out of memory a part
/// of it may stand behind the octets from before.
pub fn push_event(
    turn: Option<u64>,
    event: &Event,
    names: &Names,
    into: &mut Octets,
) -> Result<(), NoMemory>
    requires { IsEvent names.now event.now }
    ensures ok { OnOk result (into.new ≡ into.old
        ++ (line_of (turn_words turn ++ event_words names.now event.now) ++ newline)) }
    ensures err { OnErr result (Extends into.old into.new) }
{
    match event {
        Event::Accept { conn } => push_line(turn, ACCEPT, &[number(*conn)], into),
        Event::Join { conn, cluster } => {
            let name = Word::Text(names.name(*cluster));
            push_line(turn, JOIN, &[number(*conn), name], into)
        }
        Event::Read { conn, octets } => {
            push_line(
                turn,
                READ,
                &[number(*conn), Word::Hex(octets.as_slice())],
                into,
            )
        }
        Event::Gone { conn } => push_line(turn, GONE, &[number(*conn)], into),
        Event::Room { conn, n } => push_line(turn, ROOM, &[number(*conn), number(*n)], into),
        Event::Tick { now } => push_line(turn, TICK, &[Word::Number(*now)], into),
        Event::Post {
            poster,
            number,
            job,
        } => push_post(turn, *poster, *number, *job, into),
        Event::Obey { version, pressures } => {
            let pressures = Word::Numbers(pressures.as_slice());
            push_line(turn, OBEY, &[Word::Number(*version), pressures], into)
        }
        Event::Plain(event) => push_plain(turn, event, into),
    }
}

/// Appends the line of an event, with its newline. After running out of memory `into` is as it was.
pub fn event_text(event: &Event, names: &Names, into: &mut Octets) -> Result<(), NoMemory>
    requires { IsEvent names.now event.now }
    ensures ok { OnOk result (into.new ≡ into.old ++ (event_spelling names.now event.now ++ newline)) }
    ensures err { OnErr result (into.new ≡ into.old) }
{
    let before = into.len();
    let pushed = push_event(None, event, names, into);
    if pushed.is_err() {
        into.truncate(before);
    }
    pushed
}
