// A load, and what is done to it.
use crate::words::{Answers, next, number, small_number};
use anyhow::{Result, bail};
use config_tables::read_config;
use proxy_config::Config;
use std::alloc::Global;
use wire_load::{Action, Load};

/// The triggers of all cases.
const TRIGGERS: &str = "
[overload]
resources = ['mem', 'fds']
[[overload.triggers]]
action = 'stop_requests'
resource = 'mem'
scaling = 800000
saturation = 900000
[[overload.triggers]]
action = 'stop_accepting'
resource = 'mem'
value = 950000
[[overload.triggers]]
action = 'no_keepalive'
resource = 'fds'
value = 700000
[[overload.triggers]]
action = 'reduce_timeouts'
resource = 'mem'
scaling = 0
saturation = 1000000
[[overload.triggers]]
action = 'reset_streams'
resource = 'mem'
scaling = 0
saturation = 1000000
[[overload.triggers]]
action = 'reset_streams'
resource = 'fds'
value = 900000
";

/// `load new START ; CALL ; ..`: the line, and what each call answers.
pub fn show(rt: &HostRuntime, line: &str) -> Result<()> {
    let (_, script) = next(line);
    let (first, calls) = script.split_once(" ; ").unwrap_or((script, ""));
    let (_, start) = next(first);
    let Some(mut load) = new_load(rt.alloc(), small_number(start)) else {
        bail!("class 1 starts too high");
    };
    let answers = play_under(rt.alloc(), &mut load, calls);
    drop(load);
    answers?.print(rt, line)
}

// A configuration is dropped by a call, since the check follows a drop without one field by field.
fn play_under(alloc: Global, load: &mut Load, calls: &str) -> Result<Answers> {
    let Ok(config) = read_config(alloc, TRIGGERS.as_bytes()) else {
        bail!("no configuration");
    };
    let answers = play(alloc, &config, load, calls);
    drop(config);
    Ok(answers)
}

// What the calls answer, one after another.
fn play(alloc: Global, config: &Config, load: &mut Load, calls: &str) -> Answers {
    let mut answers = Answers::new(alloc);
    answers.say("new");
    for call in calls.split(" ; ") {
        answers.begin();
        answer(&mut answers, config, load, call);
    }
    answers
}

fn new_load(alloc: Global, start: u32) -> Option<Load> {
    if start > 40 {
        return None;
    }
    Load::new(alloc, start).ok()
}

fn answer(answers: &mut Answers, config: &Config, load: &mut Load, call: &str) {
    let (name, words) = next(call);
    match name {
        "obey" => {
            obey(config, load, words);
            answers.say("obeyed");
        }
        "actions" => say_actions(answers, load),
        "state" => answers.say_number(u64::from(load.state(action_of(words)))),
        "saturated" => answers.say_truth(load.is_saturated(action_of(words))),
        "timeouts" => answers.say_number(u64::from(load.timeouts_state())),
        "next" => answers.say_or(load.next_reset(), "none"),
        "take" => answers.say_or(load.take_touched(), "none"),
        _ => change(answers, load, name, words),
    }
}

// `P P`: the pressures of the two resources.
fn obey(config: &Config, load: &mut Load, words: &str) {
    let (mem, fds) = next(words);
    load.obey(config, &[small_number(mem), small_number(fds)]);
}

fn say_actions(answers: &mut Answers, load: &Load) {
    let of = load.actions();
    answers.say_number(u64::from(of.stop_requests));
    answers.say_with(" ", u64::from(of.stop_accepting));
    answers.say_with(" ", u64::from(of.reject_incoming));
    answers.say_with(" ", u64::from(of.no_keepalive));
    answers.say_with(" ", u64::from(of.reduce_timeouts));
    answers.say_with(" ", u64::from(of.reset_streams));
}

fn action_of(word: &str) -> Action {
    match word {
        "stop_requests" => Action::StopRequests,
        "stop_accepting" => Action::StopAccepting,
        "reject_incoming" => Action::RejectIncoming,
        "no_keepalive" => Action::NoKeepalive,
        "reduce_timeouts" => Action::ReduceTimeouts,
        _ => Action::ResetStreams,
    }
}

// `touch X`, `settle X OCTETS` or `drop X`.
fn change(answers: &mut Answers, load: &mut Load, name: &str, words: &str) {
    let (exchange, octets) = next(words);
    let exchange = number(exchange);
    match name {
        "touch" => answers.say_done(load.touch(exchange).is_ok()),
        "settle" => answers.say_done(load.settle(exchange, number(octets)).is_ok()),
        "drop" => {
            load.drop_one(exchange);
            answers.say("done");
        }
        _ => answers.say("no such call"),
    }
}
