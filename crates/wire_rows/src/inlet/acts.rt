// Acts, and what their header blocks give, in words.
use crate::words::Answers;
use h2_session::{Act, SettingList};
use hpack_codec::FieldList;
use io_ports::Octets;
use wire_inlet::{Reading, Taken};

/// Octets beyond so many are told by their number and a sum.
const SHOWN: usize = 64;

// Each octet times its place, counted from 1.
fn sum_of(octets: &[u8]) -> u64 {
    let mut place: u64 = 0;
    let mut sum: u64 = 0;
    for octet in octets {
        place = place.wrapping_add(1);
        sum = sum.wrapping_add(place.wrapping_mul(u64::from(*octet)));
    }
    sum
}

// Octets in hexadecimal, or how many there are of more than 64, with their sum. No octets are a dash.
fn say_octets(answers: &mut Answers, octets: &Octets) {
    let octets = octets.as_slice();
    if octets.is_empty() {
        answers.say("-");
    } else if octets.len() > SHOWN {
        answers.say_with("[", octets.len() as u64);
        answers.say_with(" octets, sum ", sum_of(octets));
        answers.say("]");
    } else {
        answers.say_hex(octets);
    }
}

fn say_settings(answers: &mut Answers, list: &SettingList) {
    answers.say("settings");
    for setting in list.iter() {
        answers.say_with(" ", u64::from(setting.id));
        answers.say_with("=", u64::from(setting.value));
    }
}

// The word of an act, its stream, and a space.
fn say_with_stream(answers: &mut Answers, word: &str, stream: u32) {
    answers.say_with(word, u64::from(stream));
    answers.say(" ");
}

fn say_end(answers: &mut Answers, last: bool) {
    answers.say(if last { " last" } else { " more" });
}

// An act in words: what it is, its stream, its numbers and its octets.
fn say_act(answers: &mut Answers, act: &Act) {
    match act {
        Act::Ignore => answers.say("ignore"),
        Act::Body {
            stream,
            octets,
            padded,
            last,
        } => {
            say_with_stream(answers, "body ", *stream);
            say_octets(answers, octets);
            answers.say_with(" ", u64::from(*padded));
            say_end(answers, *last);
        }
        Act::Late { stream, n } => {
            say_with_stream(answers, "late ", *stream);
            answers.say_number(u64::from(*n));
        }
        Act::Settings { list } => say_settings(answers, list),
        Act::Ack => answers.say("ack"),
        Act::Ping { octets } => {
            answers.say("ping ");
            say_octets(answers, octets);
        }
        Act::WindowUp { stream, n } => {
            say_with_stream(answers, "window ", *stream);
            answers.say_number(u64::from(*n));
        }
        Act::PeerReset { stream, code } => {
            say_with_stream(answers, "reset ", *stream);
            answers.say_number(u64::from(*code));
        }
        Act::GoAway { last, code } => {
            say_with_stream(answers, "goaway ", *last);
            answers.say_number(u64::from(*code));
        }
        Act::ConnError { code } => answers.say_with("connection ", u64::from(*code)),
        _ => say_block(answers, act),
    }
}

// An act that brings a header block.
fn say_block(answers: &mut Answers, act: &Act) {
    match act {
        Act::Head {
            stream,
            block,
            last,
        } => {
            say_with_stream(answers, "head ", *stream);
            say_octets(answers, block);
            say_end(answers, *last);
        }
        Act::Trailers { stream, block } => {
            say_with_stream(answers, "trailers ", *stream);
            say_octets(answers, block);
        }
        Act::OldBlock { block } => {
            answers.say("old ");
            say_octets(answers, block);
        }
        Act::StreamError {
            stream,
            code,
            block,
        } => {
            say_with_stream(answers, "stream ", *stream);
            answers.say_number(u64::from(*code));
            answers.say(" ");
            say_octets(answers, block);
        }
        _ => answers.say("no such act"),
    }
}

fn is_printed(octet: u8) -> bool {
    (0x20..=0x7e).contains(&octet)
}

// Octets as a text, or else in hexadecimal.
fn say_text(answers: &mut Answers, octets: &Octets) {
    if octets.len() <= SHOWN && octets.as_slice().iter().all(|octet| is_printed(*octet)) {
        if let Ok(text) = std::str::from_utf8(octets.as_slice()) {
            answers.say(text);
            return;
        }
    }
    answers.say("0x");
    say_octets(answers, octets);
}

// The fields of a list, with bars between them.
fn say_fields(answers: &mut Answers, list: &FieldList) {
    let mut first = true;
    for field in list.as_slice() {
        if !first {
            answers.say(" | ");
        }
        first = false;
        if field.never {
            answers.say("!");
        }
        say_text(answers, &field.name);
        answers.say("=");
        say_text(answers, &field.value);
    }
}

fn say_reading(answers: &mut Answers, reading: &Reading) {
    match reading {
        Reading::Nothing => {}
        Reading::Fields(list) => {
            answers.say(" (");
            say_fields(answers, list);
            answers.say(")");
        }
        Reading::TooLong => answers.say(" (too long)"),
        Reading::Refused => answers.say(" (refused)"),
    }
}

/// A frame that was taken: its act, the octets that count against windows, in parentheses what its
/// header block gives, and whether it is a WINDOW_UPDATE.
pub fn say_taken(answers: &mut Answers, taken: &Taken) {
    say_act(answers, &taken.act);
    if taken.content > 0 {
        answers.say_with(" content ", u64::from(taken.content));
    }
    say_reading(answers, &taken.reading);
    if taken.is_update {
        answers.say(" update");
    }
}
