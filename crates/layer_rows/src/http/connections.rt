// What each frame on a connection gives, and what this side does with its streams.
use crate::http::words::{number, octets_of, say_act};
use crate::said::Said;
use h2_frames::{ReadFrame, read_frame};
use h2_session::Session;
use std::alloc::Global;

/// `STREAMS EMPTY WORD ..`: a connection on which that many streams of the client may be open and
/// that many empty DATA frames may come in a row, and what its words give; then how many streams
/// are open, and the number of a GOAWAY. A session is dropped by a call, since the check follows a
/// drop without one field by field.
pub fn say_connection(said: &mut Said, client_side: bool, words: &str) {
    let (streams, rest) = words.split_once(' ').unwrap_or((words, ""));
    let (empty, script) = rest.split_once(' ').unwrap_or((rest, ""));
    let mut session = Session::new(said.alloc(), client_side, number(streams), number(empty));
    say_script(said, &mut session, script);
    drop(session);
}

// What the words give, and what stands then.
fn say_script(said: &mut Said, session: &mut Session, script: &str) {
    for word in script.split(' ') {
        step(said, session, word);
    }
    said.say_small("= ", session.streams());
    said.say_small(", greatest ", session.greatest());
}

// The stream that a word names behind a prefix.
fn stream_behind(word: &str, prefix: &str) -> Option<u32> {
    Some(number(word.strip_prefix(prefix)?))
}

// Takes one word, and tells what it gives, if anything.
fn step(said: &mut Said, session: &mut Session, word: &str) {
    if word == "open" {
        say_open(said, session);
    } else if let Some(stream) = stream_behind(word, "is_open:") {
        said.say_truth("", session.is_open(stream));
        said.say("; ");
    } else if let Some(stream) = stream_behind(word, "end:") {
        session.end_local(stream);
    } else if let Some(stream) = stream_behind(word, "close:") {
        session.close_stream(stream);
    } else if let Some(stream) = stream_behind(word, "interim:") {
        session.interim(stream);
    } else {
        say_step(said, session, word);
    }
}

fn say_open(said: &mut Said, session: &mut Session) {
    match session.open_stream() {
        Ok(Some(stream)) => said.say_small("opened ", stream),
        Ok(None) => said.say("none left"),
        Err(_) => said.say("no memory"),
    }
    said.say("; ");
}

// `HEX`, or `HEX*N` for a frame that comes N times.
fn say_step(said: &mut Said, session: &mut Session, word: &str) {
    let (spelled, times) = word.split_once('*').unwrap_or((word, "1"));
    let octets = octets_of(said, spelled);
    let mut first = Said::new(said.alloc());
    say_given(&mut first, session, &octets);
    let same = same_again(said.alloc(), session, &octets, first.text(), number(times));
    if same > 1 {
        said.say_small("", same);
        said.say(" times ");
    }
    said.say_all(&first);
    said.say("; ");
}

// How many of so many times a frame gave what it gave first.
fn same_again(alloc: Global, session: &mut Session, octets: &[u8], first: &str, times: u32) -> u32 {
    let mut same = 1u32;
    for _ in 1..times {
        if gives(alloc, session, octets, first) {
            same = same.saturating_add(1);
        }
    }
    same
}

fn gives(alloc: Global, session: &mut Session, octets: &[u8], text: &str) -> bool {
    let mut said = Said::new(alloc);
    say_given(&mut said, session, octets);
    said.text() == text
}

// What one frame gives.
fn say_given(said: &mut Said, session: &mut Session, octets: &[u8]) {
    let ReadFrame::Whole(frame, _) = read_frame(octets, 100_000) else {
        said.say("no frame");
        return;
    };
    match session.accept(&frame) {
        Ok(act) => {
            say_act(said, &act);
            drop(act);
        }
        Err(_) => said.say("no memory"),
    }
}
