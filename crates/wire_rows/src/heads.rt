//! Heads and trailers, judged one after another with the lengths of both bodies of one exchange.
//!
//! A LIST is as in `layer_rows`: its fields between ` | `, each a name, a space and a value; or `long` for a list that is
//! longer than its limit. A word `end` in front of it says that the stream ends there.
//!
//! | Call | What is done, and what is printed |
//! |---|---|
//! | `request [end] [stops] [to CONN] LIST` | the head of a request, while `stops` says that requests are refused for overload, and `to` which connection was chosen. What it leads to, and where it goes the row, the cluster and the connection |
//! | `response [end] LIST` | the head of a response: `interim`, `malformed` or `final` |
//! | `trailers request LIST`, `trailers response LIST` | `fit`, or `malformed` |
//! | `body request [end] N`, `body response [end] N` | N octets come: `fit`, or `malformed` |
//! | `came request N`, `came response N` | so many octets of the body came before |
//! | `lengths` | what was declared of either body, what came of it, and whether it may be empty whatever was declared |
ghost use Rattle.std.specs.Prelude.{◌<◌, ◌^◌, length, IfOk};
ghost use Rattle.std.specs.Option.{ForSome};
ghost use Rattle.proxy_config.specs.Ranges.{IsInRange};

use crate::words::{Answers, number, small_number};
use anyhow::{Result, bail};
use config_tables::read_config;
use hpack_codec::{Field, FieldList};
use io_ports::{NoMemory, Octets};
use proxy_config::Config;
use std::alloc::Global;
use wire_heads::{
    Decision, Expected, Judged, Response, judge_request, judge_response, judge_trailers, place,
};

/// The routes of all cases.
const ROUTES: &str = "
[[clusters]]
name = 'one'
[[clusters]]
name = 'two'
[[clusters]]
name = 'far'
[[routes]]
authority = 'a.example'
path = '/x'
cluster = 'two'
[[routes]]
prefix = '/x'
cluster = 'one'
[[routes]]
authority = 'b.example'
prefix = '/'
cluster = 'far'
";

/// What is expected of the two bodies of an exchange.
#[derive(Clone, Copy)]
struct Bodies {
    request: Expected,
    response: Expected,
}

impl Bodies {
    fn none() -> Self {
        let none = Expected {
            declared: None,
            body: 0,
            bodiless: false,
        };
        Bodies {
            request: none,
            response: none,
        }
    }

    fn of(&mut self, side: &str) -> &mut Expected {
        match side {
            "request" => &mut self.request,
            _ => &mut self.response,
        }
    }
}

fn routes(alloc: Global) -> Result<Config>
    ensures { IfOk result IsInRange }
{
    let text = ROUTES.as_bytes();
    if text.len() > u32::MAX as usize {
        bail!("too long");
    }
    match read_config(alloc, text) {
        Ok(config) => Ok(config),
        Err(_) => bail!("no configuration"),
    }
}

// The words behind a word in front, where it is there.
fn without<'a>(words: &'a str, front: &str) -> (bool, &'a str) {
    match words.strip_prefix(front) {
        Some(rest) => (true, rest.strip_prefix(" ").unwrap_or(rest)),
        None => (false, words),
    }
}

// A field of these words: its name, a space and its value.
fn field_of(alloc: Global, words: &str) -> std::result::Result<Field, NoMemory> {
    let (name, value) = words.split_once(' ').unwrap_or((words, ""));
    Ok(Field {
        name: Octets::from_slice(alloc, name.as_bytes())?,
        value: Octets::from_slice(alloc, value.as_bytes())?,
        never: false,
    })
}

// The list whose fields stand between bars.
fn fields_of(alloc: Global, words: &str) -> std::result::Result<FieldList, NoMemory> {
    let mut list = FieldList::new(alloc);
    for word in words.split(" | ") {
        list.push(field_of(alloc, word)?)?;
    }
    Ok(list)
}

// The list whose fields stand between bars, or none that was too long.
fn list_of(alloc: Global, words: &str) -> std::result::Result<Option<FieldList>, NoMemory>
    ensures { IfOk result (λ list. ForSome list (λ list. length list < 2 ^ 32)) }
{
    if words == "long" {
        return Ok(None);
    }
    let list = fields_of(alloc, words)?;
    if list.len() > u32::MAX as usize {
        return Err(NoMemory);
    }
    Ok(Some(list))
}

// `[end] [stops] [to CONN] LIST`
fn say_request(answers: &mut Answers, config: &Config, bodies: &mut Bodies, words: &str)
    requires { IsInRange config.now }
{
    let (last, words) = without(words, "end");
    let (stops, words) = without(words, "stops");
    let (is_chosen, words) = without(words, "to");
    let (conn, words) = words
        .split_once(if is_chosen { " " } else { "\n" })
        .unwrap_or(("", words));
    let chosen = if is_chosen {
        Some(small_number(conn))
    } else {
        None
    };
    let Ok(list) = list_of(answers.alloc(), words) else {
        answers.say("no memory");
        return;
    };
    let judged = judge_request(config, list.as_ref(), last, stops);
    say_decision(answers, &decided(bodies, judged, chosen));
}

// What is decided of a request, where it may go to this connection.
fn decided(bodies: &mut Bodies, judged: Judged, chosen: Option<u32>) -> Decision {
    match judged {
        Judged::Decided(decision) => decision,
        Judged::Choose(routed) => {
            *bodies = Bodies {
                request: routed.request,
                response: routed.response,
            };
            place(routed, chosen)
        }
    }
}

fn say_decision(answers: &mut Answers, decision: &Decision) {
    match decision {
        Decision::Going { routed, conn } => {
            answers.say_with("row ", u64::from(routed.row));
            answers.say_with(", cluster ", u64::from(routed.cluster));
            answers.say_with(", connection ", u64::from(*conn));
        }
        Decision::Refused { status, row } => {
            answers.say_with("refused ", u64::from(*status));
            say_row(answers, *row);
        }
        Decision::Malformed => answers.say("malformed"),
        Decision::Overload => answers.say("overload"),
    }
}

fn say_row(answers: &mut Answers, row: Option<u32>) {
    if let Some(row) = row {
        answers.say_with(", row ", u64::from(row));
    }
}

fn response_word(bodies: &mut Bodies, words: &str, alloc: Global) -> &'static str {
    let (last, words) = without(words, "end");
    let Ok(list) = list_of(alloc, words) else {
        return "no memory";
    };
    match judge_response(list.as_ref(), last, &bodies.response) {
        Response::Interim => "interim",
        Response::Malformed => "malformed",
        Response::Final { expected } => {
            bodies.response = expected;
            "final"
        }
    }
}

fn fit_word(fits: bool) -> &'static str {
    if fits { "fit" } else { "malformed" }
}

fn trailer_word(bodies: &mut Bodies, words: &str, alloc: Global) -> &'static str {
    let (side, words) = words.split_once(' ').unwrap_or((words, ""));
    match list_of(alloc, words) {
        Ok(list) => fit_word(judge_trailers(list.as_ref(), bodies.of(side))),
        Err(_) => "no memory",
    }
}

fn body_word(bodies: &mut Bodies, words: &str) -> &'static str {
    let (side, words) = words.split_once(' ').unwrap_or((words, ""));
    let (last, word) = without(words, "end");
    fit_word(bodies.of(side).grows(number(word) as usize, last))
}

// So many octets of a body came before.
fn came_word(bodies: &mut Bodies, words: &str) -> &'static str {
    let (side, word) = words.split_once(' ').unwrap_or((words, ""));
    bodies.of(side).body = number(word);
    "so"
}

fn say_length(answers: &mut Answers, expected: &Expected) {
    answers.say_number(expected.body);
    if let Some(length) = expected.declared {
        answers.say_with(" of ", length);
    }
    if expected.bodiless {
        answers.say(" or none");
    }
}

// What one call answers.
fn answer(answers: &mut Answers, config: &Config, bodies: &mut Bodies, call: &str)
    requires { IsInRange config.now }
{
    let (kind, words) = call.split_once(' ').unwrap_or((call, ""));
    match kind {
        "request" => say_request(answers, config, bodies, words),
        "lengths" => {
            say_length(answers, &bodies.request);
            answers.say(", ");
            say_length(answers, &bodies.response);
        }
        _ => answers.say(word_of(bodies, kind, words, answers.alloc())),
    }
}

fn word_of(bodies: &mut Bodies, kind: &str, words: &str, alloc: Global) -> &'static str {
    match kind {
        "response" => response_word(bodies, words, alloc),
        "trailers" => trailer_word(bodies, words, alloc),
        "body" => body_word(bodies, words),
        "came" => came_word(bodies, words),
        _ => "no such call",
    }
}

/// Prints a case and what its calls answer. The configuration is dropped by a call, since the check follows a drop without one field by
/// field.
pub fn show(rt: &HostRuntime, line: &str) -> Result<()> {
    let config = routes(rt.alloc())?;
    let answers = play(rt.alloc(), &config, line);
    drop(config);
    answers.print(rt, line)
}

fn play(alloc: Global, config: &Config, line: &str) -> Answers
    requires { IsInRange config.now }
{
    let mut bodies = Bodies::none();
    let mut answers = Answers::new(alloc);
    for call in line.split(" ; ").skip(1) {
        answers.begin();
        answer(&mut answers, config, &mut bodies, call);
    }
    answers
}
