// An outlet, and what is done to it.
ghost use Rattle.std.specs.Prelude.{◌≡◌, false, OnErr, OnOk};
ghost use Rattle.wire_outlet.specs.Outgoing.{Writes};

mod units;
mod words;

use self::units::waiting_unit;
use self::words::{crossed_word, fields_of, say_octets};
use crate::words::{Answers, next, small_number};
use anyhow::{Result, bail};
use h2_frames::data_head;
use io_ports::{NoMemory, Octets};
use std::alloc::{AllocError, Global};
use wire_outlet::{Framed, Outlet};
use wm_buffer::Crossed;

/// `outlet new LIMIT UNIT ; CALL ; ..`: the line, and what each call answers.
pub fn show(rt: &HostRuntime, line: &str) -> Result<()> {
    let (_, script) = next(line);
    let (first, calls) = script.split_once(" ; ").unwrap_or((script, ""));
    let Some(mut outlet) = new_outlet(rt.alloc(), first) else {
        bail!("no such outlet");
    };
    let answers = play(rt.alloc(), &mut outlet, calls);
    drop(outlet);
    answers.print(rt, line)
}

// What the calls answer, one after another.
fn play(alloc: Global, outlet: &mut Outlet, calls: &str) -> Answers {
    let mut answers = Answers::new(alloc);
    answers.say("new");
    for call in calls.split(" ; ") {
        answers.begin();
        answer(&mut answers, outlet, call);
    }
    answers
}

// `new LIMIT UNIT`.
fn new_outlet(alloc: Global, words: &str) -> Option<Outlet> {
    let (_, words) = next(words);
    let (limit, unit) = next(words);
    let (limit, unit) = (small_number(limit), small_number(unit));
    if limit > 16_777_216 || unit > 16_777_216 {
        return None;
    }
    Outlet::new(alloc, limit, unit).ok()
}

// What a call answers. While the buffer is above nothing is framed.
fn answer(answers: &mut Answers, outlet: &mut Outlet, call: &str) {
    let (name, words) = next(call);
    match name {
        "put" => answers.say(put(answers.alloc(), outlet, words)),
        "waits" => {
            answers.say_number(outlet.waits() as u64);
            answers.say(" ");
            answers.say_truth(outlet.has_waiting());
        }
        "named" | "close" | "loss" => change(answers, outlet, name),
        "front" => say_octets(answers, outlet.front()),
        "len" => {
            answers.say_number(u64::from(outlet.len()));
            answers.say(if outlet.is_empty() { " empty" } else { " some" });
        }
        "above" => answers.say_truth(outlet.is_above()),
        "leave" => answers.say(leave(outlet, small_number(words))),
        _ if outlet.is_above() => answers.say("above"),
        _ => frame(answers, outlet, name, words),
    }
}

fn frame(answers: &mut Answers, outlet: &mut Outlet, name: &str, words: &str)
    requires { outlet.old.write.above ≡ false }
{
    match name {
        "frame" => say_waiting(answers, outlet),
        "block" => {
            let framed = frame_block(answers.alloc(), outlet, words);
            say_framed(answers, framed);
        }
        "farewell" => {
            let framed = farewell(outlet, words);
            say_framed(answers, framed);
        }
        "update" => answers.say(frame_update(outlet, words)),
        "data" => answers.say(frame_data(answers.alloc(), outlet, words)),
        _ => answers.say("no such call"),
    }
}

// `MOST UNIT`: whether the unit was taken.
fn put(alloc: Global, outlet: &mut Outlet, words: &str) -> &'static str {
    let (most, unit) = next(words);
    let Some(unit) = waiting_unit(alloc, unit) else {
        return "no such unit";
    };
    match outlet.put(unit, small_number(most)) {
        Ok(true) => "true",
        Ok(false) => "false",
        Err(_) => "no memory",
    }
}

fn change(answers: &mut Answers, outlet: &mut Outlet, name: &str) {
    match name {
        "named" => outlet.table_size_named(),
        "close" => outlet.drop_waiting(),
        _ => outlet.drop_all(),
    }
    answers.say("done");
}

fn leave(outlet: &mut Outlet, n: u32) -> &'static str {
    if n > outlet.len() {
        return "too many";
    }
    crossed_word(outlet.leave(n))
}

// The first unit that waits, as it was framed.
fn say_waiting(answers: &mut Answers, outlet: &mut Outlet)
    requires { outlet.old.write.above ≡ false }
{
    match outlet.frame_waiting() {
        Ok(Some(first)) => {
            let (framed, crossed) = first;
            say_unit(answers, &framed);
            answers.say(" ");
            answers.say(crossed_word(crossed));
        }
        Ok(None) => answers.say("none"),
        Err(_) => answers.say("no memory"),
    }
}

fn say_unit(answers: &mut Answers, framed: &Framed) {
    match framed {
        Framed::Answer(octets) => {
            answers.say("answer ");
            say_octets(answers, octets.as_slice());
        }
        Framed::Reply { stream, octets } => {
            answers.say_with("reply ", u64::from(*stream));
            answers.say(" ");
            say_octets(answers, octets.as_slice());
        }
    }
}

// The frames, and what they crossed.
fn say_framed(answers: &mut Answers, framed: Option<(Octets, Crossed)>) {
    let Some((octets, crossed)) = framed else {
        answers.say("no stream, or no memory");
        return;
    };
    say_octets(answers, octets.as_slice());
    answers.say(" ");
    answers.say(crossed_word(crossed));
}

// `STREAM more|end NAME=VALUE ..`: the frames of a head or of trailers.
fn frame_block(alloc: Global, outlet: &mut Outlet, words: &str) -> Option<(Octets, Crossed)>
    requires { outlet.old.write.above ≡ false }
{
    let (stream, words) = next(words);
    let (end, words) = next(words);
    let fields = fields_of(alloc, words).ok()?;
    let stream = small_number(stream);
    if stream == 0 || stream >= 0x8000_0000 {
        return None;
    }
    outlet.frame_block(stream, end == "end", &fields).ok()
}

// `STREAM N`: a WINDOW_UPDATE.
fn frame_update(outlet: &mut Outlet, words: &str) -> &'static str
    requires { outlet.old.write.above ≡ false }
{
    let (stream, increment) = next(words);
    let (stream, increment) = (small_number(stream), small_number(increment));
    if stream >= 0x8000_0000 || increment >= 0x8000_0000 {
        return "no window";
    }
    match outlet.frame_update(stream, increment) {
        Ok(crossed) => crossed_word(crossed),
        Err(_) => "no memory",
    }
}

// `LAST CODE`: the GOAWAY before a close.
fn farewell(outlet: &mut Outlet, words: &str) -> Option<(Octets, Crossed)>
    requires { outlet.old.write.above ≡ false }
{
    let (last, code) = next(words);
    let last = small_number(last);
    if last >= 0x8000_0000 {
        return None;
    }
    outlet.farewell(last, small_number(code)).ok()
}

// `STREAM N more|end`: a DATA frame of N octets, written to the buffer that the outlet lends.
fn frame_data(alloc: Global, outlet: &mut Outlet, words: &str) -> &'static str {
    let (stream, words) = next(words);
    let (n, end) = next(words);
    let n = small_number(n);
    if n > 1_048_576 {
        return "too large";
    }
    let head = data_head(small_number(stream), n, end == "end");
    let Ok(octets) = data_frame(alloc, &head, n as usize) else {
        return "no memory";
    };
    match write(outlet, octets.as_slice()) {
        Ok(crossed) => crossed_word(crossed),
        Err(_) => "no memory",
    }
}

// The head, and so many octets behind it.
fn data_frame(alloc: Global, head: &[u8], n: usize) -> std::result::Result<Vec<u8>, AllocError> {
    let mut octets = Vec::from_slice(alloc, head)?;
    octets.resize(octets.len().saturating_add(n), 0x61)?;
    Ok(octets)
}

// What is written to the buffer that is lent is the outlet's.
fn write(outlet: &mut Outlet, octets: &[u8]) -> std::result::Result<Crossed, NoMemory>
    ensures writes { OnOk result (Writes octets.now outlet.old outlet.old outlet.new) }
    ensures err { OnErr result (outlet.new ≡ outlet.old) }
{
    outlet.write_mut().add(octets)
}
