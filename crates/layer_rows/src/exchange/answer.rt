// What a call answers, in words.
use crate::said::Said;
use exchange_core::{Doomed, Ends, Received, Reply, Step, Unit};
use wm_buffer::{Crossed, Shifted};

#[derive(Clone, Copy, PartialEq, Eq)]
pub enum Answer {
    Done,
    /// The call may not be made now.
    Refused,
    Began(u64),
    Step(Step),
    Unit(Unit),
    Received(Received),
    Doomed(Doomed),
    Ends(Ends),
    Is(bool),
    Number(Option<u64>),
    /// The octets in the receive buffer of a flow, and in all places of its exchange.
    Octets(u32, u64),
}

/// Says an answer.
pub fn show(said: &mut Said, answer: Answer) {
    match answer {
        Answer::Done => said.say(" done"),
        Answer::Refused => said.say(" refused"),
        Answer::Began(number) => said.say_with(" exchange ", number),
        Answer::Step(step) => show_step(said, step),
        Answer::Unit(unit) => show_unit(said, unit),
        Answer::Received(received) => said.say(word_of(received)),
        Answer::Doomed(doomed) => show_doomed(said, doomed),
        Answer::Ends(ends) => show_ends(said, ends),
        Answer::Is(is) => said.say(yes(is)),
        Answer::Number(Some(n)) => said.say_with(" ", n),
        Answer::Number(None) => said.say(" none"),
        Answer::Octets(received, held) => {
            said.say_with(" ", u64::from(received));
            said.say_with(" of ", held);
        }
    }
}

fn word_of(received: Received) -> &'static str {
    match received {
        Received::NotLive => " not live",
        Received::TooMany => " too many",
        Received::Arrived => " arrived",
    }
}

fn yes(is: bool) -> &'static str {
    if is { " yes" } else { " no" }
}

fn show_ends(said: &mut Said, ends: Ends) {
    said.say(" request");
    said.say(yes(ends.request));
    said.say(", response");
    said.say(yes(ends.response));
}

fn show_end(said: &mut Said, last: bool) {
    said.say(if last { " end" } else { "" });
}

fn crossed(what: Crossed) -> &'static str {
    match what {
        Crossed::Nothing => " -",
        Crossed::High => " high",
        Crossed::Low => " low",
    }
}

/// Says what the buffer that octets left crossed, and the one that they went to.
pub fn show_crossed(said: &mut Said, shifted: Shifted) {
    said.say(crossed(shifted.from));
    said.say(crossed(shifted.to));
}

fn show_step(said: &mut Said, step: Step) {
    match step {
        Step::Still => said.say(" still"),
        Step::TooLarge => said.say(" too large"),
        Step::Moved {
            place,
            n,
            shifted,
            overflow,
        } => {
            said.say_with(" ", u64::from(n));
            said.say_with(" from ", u64::from(place));
            show_crossed(said, shifted);
            said.say(if overflow { " overflow" } else { "" });
        }
    }
}

fn show_unit(said: &mut Said, unit: Unit) {
    match unit {
        Unit::Nothing => said.say(" nothing"),
        Unit::Head { last } => {
            said.say(" head");
            show_end(said, last);
        }
        Unit::Body { n, last } => {
            said.say_with(" body ", u64::from(n));
            show_end(said, last);
        }
        Unit::Trailers => said.say(" trailers"),
    }
}

fn show_doomed(said: &mut Said, doomed: Doomed) {
    said.say_with(" dropped ", u64::from(doomed.request_left));
    said.say_with(" and ", u64::from(doomed.response_left));
    said.say("; client");
    show_reply(said, doomed.down);
    said.say("; cluster");
    show_reply(said, doomed.up);
}

fn show_reply(said: &mut Said, reply: Reply) {
    match reply {
        Reply::Nothing => said.say(" nothing"),
        Reply::Answer { status, reset } => {
            said.say_with(" ", u64::from(status));
            said.say(if reset { ", reset 0" } else { "" });
        }
        Reply::Reset { code } => said.say_with(" reset ", u64::from(code)),
    }
}
