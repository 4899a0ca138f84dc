// The timers of a worker, and what is done to them.
ghost use Rattle.std.specs.Prelude.{◌≤◌, IsTrue};
ghost use Rattle.proxy_config.specs.Ranges.{AreTimeouts};

use crate::words::{Answers, next, number, small_number};
use anyhow::{Result, bail};
use flow_notes::FireKind;
use proxy_config::{Config, TimeoutKeys};
use std::alloc::Global;
use wire_timers::{DueList, WireTimers};

/// The timers, and a moment that is no earlier than any that they were told.
#[derive(Drop)]
struct Clock {
    timers: WireTimers,
    now: u64,
    ghost told: { timers.latest ≤ now },
}

/// `timers new ROUTE STREAM LEAST CONNECTION LEAST ; CALL ; ..`: the line, and what each call answers.
pub fn show(rt: &HostRuntime, line: &str) -> Result<()> {
    let (_, script) = next(line);
    let (first, calls) = script.split_once(" ; ").unwrap_or((script, ""));
    let Some(mut clock) = new_clock(rt.alloc(), first) else {
        bail!("no timeouts");
    };
    let answers = play(rt.alloc(), &mut clock, calls);
    drop(clock);
    answers.print(rt, line)
}

// What the calls answer, one after another.
fn play(alloc: Global, clock: &mut Clock, calls: &str) -> Answers {
    let mut answers = Answers::new(alloc);
    answers.say("new");
    for call in calls.split(" ; ") {
        answers.begin();
        answer(&mut answers, clock, call);
    }
    answers
}

// `new ROUTE STREAM LEAST CONNECTION LEAST`, in milliseconds.
fn new_clock(alloc: Global, words: &str) -> Option<Clock> {
    let (_, words) = next(words);
    let timeouts = timeouts_of(words);
    if !are_timeouts(&timeouts) {
        return None;
    }
    timed(alloc, timeouts)
}

fn timeouts_of(words: &str) -> TimeoutKeys {
    let (route, words) = next(words);
    let (stream_idle, words) = next(words);
    let (stream_idle_min, words) = next(words);
    let (connection_idle, connection_idle_min) = next(words);
    TimeoutKeys {
        route: number(route),
        stream_idle: number(stream_idle),
        connection_idle: number(connection_idle),
        stream_idle_min: number(stream_idle_min),
        connection_idle_min: number(connection_idle_min),
    }
}

fn are_timeouts(keys: &TimeoutKeys) -> bool
    ensures { IsTrue result → AreTimeouts keys.now }
{
    keys.route <= 86_400_000
        && keys.stream_idle <= 86_400_000
        && keys.connection_idle <= 86_400_000
        && keys.stream_idle_min <= keys.stream_idle
        && keys.connection_idle_min <= keys.connection_idle
}

fn timed(alloc: Global, timeouts: TimeoutKeys) -> Option<Clock>
    requires { AreTimeouts timeouts }
{
    let mut config = Config::of_defaults(alloc).ok()?;
    config.timeouts = timeouts;
    let timers = WireTimers::new(alloc, &config);
    drop(config);
    Some(Clock {
        timers: timers.ok()?,
        now: 0,
    })
}

fn kind_of(word: &str) -> FireKind {
    match word {
        "route" => FireKind::Route,
        "stream-idle" => FireKind::StreamIdle,
        _ => FireKind::ConnectionIdle,
    }
}

fn kind_word(kind: FireKind) -> &'static str {
    match kind {
        FireKind::Route => "route",
        FireKind::StreamIdle => "stream-idle",
        FireKind::ConnectionIdle => "connection-idle",
    }
}

// `arm KIND ID NOW`, `disarm KIND ID`, `armed KIND ID`, `drop EXCHANGE`, `state PPM` or `due NOW`.
fn answer(answers: &mut Answers, clock: &mut Clock, call: &str) {
    let (name, words) = next(call);
    let (first, words) = next(words);
    let (second, third) = next(words);
    let (kind, id) = (kind_of(first), number(second));
    match name {
        "arm" => answers.say(arm(clock, kind, id, number(third))),
        "due" => say_due(answers, clock, number(first)),
        "armed" => answers.say_truth(clock.timers.is_armed(kind, id)),
        "disarm" => {
            clock.timers.disarm(kind, id);
            answers.say("done");
        }
        "drop" => {
            clock.timers.drop_exchange(number(first));
            answers.say("done");
        }
        _ => answers.say(set_state(clock, small_number(first))),
    }
}

fn arm(clock: &mut Clock, kind: FireKind, id: u64, now: u64) -> &'static str {
    if now < clock.now || now >= 1 << 60 {
        return "too early or too late";
    }
    clock.now = now;
    if clock.timers.arm(kind, id, now).is_ok() {
        "done"
    } else {
        "no memory"
    }
}

fn set_state(clock: &mut Clock, ppm: u32) -> &'static str {
    if ppm > 1_000_000 {
        return "too high";
    }
    clock.timers.set_state(ppm);
    "done"
}

// How many are due, and each in the order in which they fire.
fn say_due(answers: &mut Answers, clock: &mut Clock, now: u64) {
    if now < clock.now || now >= 1 << 60 {
        answers.say("too early or too late");
        return;
    }
    clock.now = now;
    match clock.timers.take_due(now) {
        Ok(due) => say_all(answers, due),
        Err(_) => answers.say("no memory"),
    }
}

fn say_all(answers: &mut Answers, mut due: DueList) {
    answers.say_number(due.len() as u64);
    'take: while let Some(timer) = due.take_first() {
        answers.say(" ");
        answers.say(kind_word(timer.kind));
        answers.say_with(" ", timer.id);
    }
}
