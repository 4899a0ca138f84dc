// Octets, numbers, frames and acts in words.
use crate::said::Said;
use h2_frames::{Frame, Weighting};
use h2_session::{Act, SettingList};

/// The number of a word, and 0 where it is none.
pub fn number(word: &str) -> u32 {
    word.parse::<u32>().unwrap_or(0)
}

/// The octets that a word spells in hexadecimal. `HEX~N` is filled up to N octets with octets 7.
pub fn octets_of(said: &mut Said, word: &str) -> Vec<u8> {
    let (text, len) = word.split_once('~').unwrap_or((word, "0"));
    let Ok(mut octets) = hex::decode(said.alloc(), text) else {
        return Vec::new(said.alloc());
    };
    let len = number(len) as usize;
    if len > octets.len() && octets.resize(len, 7).is_err() {
        said.lack();
    }
    octets
}

/// Octets in hexadecimal, or how many there are of more than 64. No octets are a dash.
pub fn say_shown(said: &mut Said, octets: &[u8]) {
    if octets.is_empty() {
        said.say("-");
    } else if octets.len() > 64 {
        said.say_with("(", octets.len() as u64);
        said.say(" octets)");
    } else {
        said.say_hex(octets);
    }
}

// The words, and octets behind them.
fn say_octets(said: &mut Said, words: &str, octets: &[u8]) {
    said.say(words);
    say_shown(said, octets);
}

fn end_word(last: bool) -> &'static str {
    if last { " last" } else { " more" }
}

fn ack_word(ack: bool) -> &'static str {
    if ack { " ack" } else { " -" }
}

fn say_weighting(said: &mut Said, weighting: &Weighting) {
    said.say(if weighting.exclusive {
        " exclusive"
    } else {
        " shared"
    });
    said.say_small(" ", weighting.dependency);
    said.say_small(" ", u32::from(weighting.weight));
}

fn say_priority(said: &mut Said, priority: &Option<Weighting>) {
    match priority {
        Some(weighting) => say_weighting(said, weighting),
        None => said.say(" -"),
    }
}

fn say_data(said: &mut Said, stream: u32, last: bool, padded: u32, octets: &[u8]) {
    said.say_small("DATA ", stream);
    said.say(end_word(last));
    said.say_small(" ", padded);
    say_octets(said, " ", octets);
}

fn say_headers(said: &mut Said, stream: u32, last: bool, end_headers: bool, padded: u32) {
    said.say_small("HEADERS ", stream);
    said.say(end_word(last));
    said.say(end_word(end_headers));
    said.say_small(" ", padded);
}

fn say_push(said: &mut Said, stream: u32, end_headers: bool, padded: u32, promised: u32) {
    said.say_small("PUSH_PROMISE ", stream);
    said.say(end_word(end_headers));
    said.say_small(" ", padded);
    said.say_small(" ", promised);
}

fn say_continuation(said: &mut Said, stream: u32, end_headers: bool, octets: &[u8]) {
    said.say_small("CONTINUATION ", stream);
    said.say(end_word(end_headers));
    say_octets(said, " ", octets);
}

fn say_unknown(said: &mut Said, kind: u8, flags: u8, stream: u32, octets: &[u8]) {
    said.say_small("type ", u32::from(kind));
    said.say_small(" ", u32::from(flags));
    said.say_small(" ", stream);
    say_octets(said, " ", octets);
}

// A frame that is or isn't an acknowledgement.
fn say_ack(said: &mut Said, name: &str, ack: bool, octets: &[u8]) {
    said.say(name);
    said.say(ack_word(ack));
    say_octets(said, " ", octets);
}

// A frame or an act of a stream and a number, or of two numbers.
fn say_pair(said: &mut Said, name: &str, stream: u32, n: u32) {
    said.say_small(name, stream);
    said.say_small(" ", n);
}

/// A frame in words: its type, its stream, flags and numbers, and its octets.
pub fn say_frame(said: &mut Said, frame: &Frame) {
    match *frame {
        Frame::DataFrame {
            stream,
            last,
            padded,
            octets,
        } => say_data(said, stream, last, padded, octets),
        Frame::Headers { block, .. } => {
            say_block_frame(said, frame);
            say_octets(said, " ", block);
        }
        Frame::Push { block, .. } => {
            say_block_frame(said, frame);
            say_octets(said, " ", block);
        }
        Frame::Priority { .. } => say_block_frame(said, frame),
        Frame::Continuation {
            stream,
            end_headers,
            block,
        } => say_continuation(said, stream, end_headers, block),
        Frame::Unknown {
            kind,
            flags,
            stream,
            octets,
        } => say_unknown(said, kind, flags, stream, octets),
        _ => say_control(said, frame),
    }
}

// What stands before the octets of a frame that opens a stream, and a priority.
fn say_block_frame(said: &mut Said, frame: &Frame) {
    match *frame {
        Frame::Headers {
            stream,
            last,
            end_headers,
            padded,
            priority,
            ..
        } => {
            say_headers(said, stream, last, end_headers, padded);
            say_priority(said, &priority);
        }
        Frame::Push {
            stream,
            end_headers,
            padded,
            promised,
            ..
        } => say_push(said, stream, end_headers, padded, promised),
        Frame::Priority { stream, priority } => {
            said.say_small("PRIORITY ", stream);
            say_weighting(said, &priority);
        }
        _ => {}
    }
}

fn say_control(said: &mut Said, frame: &Frame) {
    match frame {
        Frame::Reset { stream, code } => say_pair(said, "RST_STREAM ", *stream, *code),
        Frame::Settings { ack, entries } => say_ack(said, "SETTINGS", *ack, entries),
        Frame::Ping { ack, octets } => say_ack(said, "PING", *ack, octets),
        Frame::GoAway { last, code, debug } => {
            say_pair(said, "GOAWAY ", *last, *code);
            say_octets(said, " ", debug);
        }
        Frame::WindowUpdate { stream, increment } => {
            say_pair(said, "WINDOW_UPDATE ", *stream, *increment)
        }
        _ => {}
    }
}

/// An act in words: what it is, its stream, its numbers and its octets.
pub fn say_act(said: &mut Said, act: &Act) {
    match act {
        Act::Ignore => said.say("ignore"),
        Act::Settings { list } => say_list(said, list),
        Act::Ack => said.say("ack"),
        Act::Late { stream, n } => say_pair(said, "late ", *stream, *n),
        Act::WindowUp { stream, n } => say_pair(said, "window ", *stream, *n),
        Act::PeerReset { stream, code } => say_pair(said, "reset ", *stream, *code),
        Act::GoAway { last, code } => say_pair(said, "goaway ", *last, *code),
        Act::ConnError { code } => said.say_small("connection ", *code),
        _ => say_act_octets(said, act),
    }
}

// An act that has octets.
fn say_act_octets(said: &mut Said, act: &Act) {
    match act {
        Act::Body {
            stream,
            octets,
            padded,
            last,
        } => {
            said.say_small("body ", *stream);
            say_octets(said, " ", octets.as_slice());
            said.say_small(" ", *padded);
            said.say(end_word(*last));
        }
        Act::Head {
            stream,
            block,
            last,
        } => {
            said.say_small("head ", *stream);
            say_octets(said, " ", block.as_slice());
            said.say(end_word(*last));
        }
        Act::Trailers { stream, block } => {
            said.say_small("trailers ", *stream);
            say_octets(said, " ", block.as_slice());
        }
        Act::OldBlock { block } => say_octets(said, "old ", block.as_slice()),
        Act::Ping { octets } => say_octets(said, "ping ", octets.as_slice()),
        Act::StreamError {
            stream,
            code,
            block,
        } => {
            say_pair(said, "stream ", *stream, *code);
            say_octets(said, " ", block.as_slice());
        }
        _ => {}
    }
}

/// Settings in words: the number and value of each.
pub fn say_list(said: &mut Said, list: &SettingList) {
    said.say("settings");
    for setting in list.iter() {
        said.say_small(" ", u32::from(setting.id));
        said.say_small("=", setting.value);
    }
}
