//! The exchanges of a worker and the counts that hold their flows back. The first word of a case is `flows new SEND MULTIPLE`:
//! the limit of send buffers, and how many times its limit a buffer may hold. A FLOW is its exchange's number with `q` for the
//! request or `r` for the response; X is an exchange, CONN a connection, ROW one of the route rows below, `-` for none.
//!
//! | Call | What is done, and what is printed |
//! |---|---|
//! | `open CONN LIMIT`, `close CONN`, `knows CONN` | a write buffer of this limit is known from now on; it isn't any more, or `false` where flows still go to it; whether it is known |
//! | `rose CONN`, `drained CONN`, `leave CONN N` | a write buffer rose, drained, or N octets left it: whether it drained then |
//! | `told CONN` | the next flow that is told of the drain, or `none` |
//! | `start ROW CONN CONN` | an exchange from a connection to another begins: its number, and whether its request and its response are held back at once |
//! | `head FLOW [end]`, `body FLOW N`, `finish FLOW [trailers]` | what came: `done`, `arrived`, `too many`, `not live`, or `over`, `twice` or `early` where it can't come |
//! | `step FLOW`, `run FLOW` | one move, or moves until it is `still`: the place and the octets, the buffer that rose, the Meter that drained, and whether it overflowed; or `too large` |
//! | `unit FLOW ROOM FRAME`, `list FLOW` | what goes next; the head or the trailers that go next are framed |
//! | `frame FLOW CONN ROOM MOST FRAME` | the body octets that go next are framed: how many, whether with the end, whether the write buffer `rose` and the send buffer `drained`, and what goes next; or `none` |
//! | `doom X CAUSE [back]`, `sweep`, `tick NOW` | the octets dropped of both receive buffers, and what the client and the cluster are told; the exchange that is destroyed; the time goes on |
//! | `live X`, `last`, `time`, `metered X`, `ends X`, `held X` | what is asked of exchanges |
//! | `readable FLOW`, `ended FLOW`, `fields FLOW`, `watchers BUFFER` | what is asked of flows: of `fields` how many a list has that waits |
ghost use Rattle.std.specs.Prelude.{All, IfOk};
ghost use Rattle.proxy_config.specs.Ranges.{IsRoute};
ghost use Rattle.wire_flows.specs.Flows.{IsThere};

mod conditions;
mod moves;
mod words;

use self::conditions::{body_refusal, goes_on, is_there, may_start};
use self::moves::say_moves;
use self::words::{buffer_of, cause_of, field_list, flow_of, say_flow, say_flows, say_reply};
use crate::words::{Answers, next, number, small_number};
use anyhow::{Result, bail};
use config_tables::read_config;
use exchange_core::{Received, StartSpec};
use flow_gate::FlowId;
use io_ports::Octets;
use proxy_config::Config;
use std::alloc::{AllocError, Global};
use std::collections::BTreeMap;
use wire_flows::{Started, WireFlows};
use wm_buffer::{Crossed, WatermarkBuffer};

/// The route rows of all cases: no filters; a Hold of 10 octets; a Meter of 8 octets that lets 5 go in 50 ms; a Meter and a Hold; a
/// Hold and two Meters. A row has the same filters both ways.
const ROWS: &str = "
[[clusters]]
name = 'a'
[[routes]]
prefix = '/'
cluster = 'a'
[[routes]]
prefix = '/'
cluster = 'a'
request = ['pass', 'hold']
response = ['pass', 'hold']
hold_limit = 10
[[routes]]
prefix = '/'
cluster = 'a'
request = ['meter']
response = ['meter']
meter_limit = 8
meter_rate = 5
[[routes]]
prefix = '/'
cluster = 'a'
request = ['meter', 'hold']
response = ['meter', 'hold']
hold_limit = 10
meter_limit = 8
meter_rate = 5
[[routes]]
prefix = '/'
cluster = 'a'
request = ['hold', 'pass', 'meter', 'meter']
response = ['hold', 'pass', 'meter', 'meter']
hold_limit = 100
meter_limit = 8
meter_rate = 5
";

/// Exchanges and gates, the write buffers of their connections, and the limit of send buffers.
#[derive(Drop)]
pub struct Case {
    pub flows: WireFlows,
    pub outs: BTreeMap<u32, WatermarkBuffer>,
    pub send: u32,
}

/// A case, and what each call answers. What is great is dropped by a call, since the check follows a drop without one field by field.
pub fn show(rt: &HostRuntime, line: &str) -> Result<()> {
    let (_, script) = next(line);
    let (first, calls) = script.split_once(" ; ").unwrap_or((script, ""));
    let (_, words) = next(first);
    let (send, multiple) = next(words);
    let config = route_rows(rt.alloc(), small_number(multiple))?;
    let mut case = new_case(rt.alloc(), small_number(send));
    let answers = play(rt.alloc(), &config, &mut case, calls);
    drop(case);
    drop(config);
    answers.print(rt, line)
}

// The route rows, under which a buffer may hold so many times its limit.
fn route_rows(alloc: Global, multiple: u32) -> Result<Config>
    ensures { IfOk result (λ config. All IsRoute config.routes) }
{
    match read_config(alloc, ROWS.as_bytes()) {
        Ok(mut config) => {
            config.limits.overflow_multiple = multiple.min(1000);
            Ok(config)
        }
        Err(_) => bail!("no configuration"),
    }
}

fn new_case(alloc: Global, send: u32) -> Case {
    Case {
        flows: WireFlows::new(alloc),
        outs: BTreeMap::new(alloc),
        send: send.min(16_777_216),
    }
}

// What the calls answer, one after another.
fn play(alloc: Global, config: &Config, case: &mut Case, calls: &str) -> Answers
    requires { All IsRoute config.now.routes }
{
    let mut answers = Answers::new(alloc);
    answers.say("new");
    for call in calls.split(" ; ") {
        answers.begin();
        answer(&mut answers, config, case, call);
    }
    answers
}

fn answer(answers: &mut Answers, config: &Config, case: &mut Case, call: &str)
    requires { All IsRoute config.now.routes }
{
    let (name, words) = next(call);
    match name {
        "start" => start(answers, config, case, words),
        "open" | "close" | "leave" | "rose" | "drained" | "told" => {
            change_write(answers, case, name, words);
        }
        "head" | "body" | "finish" => come(answers, case, name, words),
        "doom" | "sweep" | "tick" => end(answers, case, name, words),
        "step" | "run" | "unit" | "list" | "frame" => say_moves(answers, case, name, words),
        _ => ask(answers, &case.flows, name, words),
    }
}

// `ROW CONN CONN`
fn start(answers: &mut Answers, config: &Config, case: &mut Case, words: &str)
    requires { All IsRoute config.now.routes }
{
    let (row, words) = next(words);
    let (from, to) = next(words);
    let spec = StartSpec {
        plain: false,
        from_conn: small_number(from),
        from_stream: 1,
        to_conn: to.parse::<u32>().ok(),
        row: row.parse::<u32>().ok(),
        recv: 65_535,
        send: case.send,
        quantum: 16_384,
        now: case.flows.time(),
    };
    if !may_start(&case.flows, &spec, config) || spec.send > 16_777_216 {
        answers.say("it may not start");
        return;
    }
    match case.flows.start(&spec, config) {
        Ok(started) => say_started(answers, started),
        Err(_) => answers.say("no memory"),
    }
}

fn say_started(answers: &mut Answers, started: Started) {
    answers.say_number(started.exchange);
    answers.say(" ");
    answers.say_truth(started.request_held);
    answers.say(" ");
    answers.say_truth(started.response_held);
}

// What is done to write buffers.
fn change_write(answers: &mut Answers, case: &mut Case, name: &str, words: &str) {
    let (conn, n) = next(words);
    let (conn, n) = (small_number(conn), small_number(n));
    match name {
        "open" => answers.say_done(opens(answers.alloc(), case, conn, n)),
        "close" => answers.say_truth(case.flows.close_write(conn)),
        "leave" => answers.say_truth(drains(case, conn, n)),
        "rose" => {
            case.flows.write_rose(conn);
            answers.say("done");
        }
        "drained" => {
            case.flows.write_drained(conn);
            answers.say("done");
        }
        _ => say_told(answers, case.flows.next_told(conn)),
    }
}

// A write buffer of this limit is known from now on, where there is memory.
fn opens(alloc: Global, case: &mut Case, conn: u32, limit: u32) -> bool {
    let out = WatermarkBuffer::new(alloc, limit);
    case.outs.insert(conn, out).is_ok() && case.flows.open_write(conn).is_ok()
}

fn say_told(answers: &mut Answers, told: Option<FlowId>) {
    match told {
        Some(flow) => say_flow(answers, flow),
        None => answers.say("none"),
    }
}

// Octets leave a write buffer: the answer is whether it drained, and then its flows are to be told.
fn drains(case: &mut Case, conn: u32, n: u32) -> bool {
    let Some(out) = case.outs.get_mut(&conn) else {
        return false;
    };
    let n = n.min(out.len());
    let drained = out.take(n) == Crossed::Low;
    if drained {
        case.flows.write_drained(conn);
    }
    drained
}

// What comes on a flow.
fn come(answers: &mut Answers, case: &mut Case, name: &str, words: &str) {
    let (flow, more) = next(words);
    let Some(flow) = flow_of(flow) else {
        answers.say("no flow");
        return;
    };
    let alloc = answers.alloc();
    answers.say(match name {
        "body" => body(alloc, &mut case.flows, flow, small_number(more)),
        "head" => head(alloc, &mut case.flows, flow, more == "end"),
        _ => finish(alloc, &mut case.flows, flow, more == "trailers"),
    });
}

fn done_word(done: bool) -> &'static str {
    if done { "done" } else { "no memory" }
}

fn head(alloc: Global, flows: &mut WireFlows, flow: FlowId, last: bool) -> &'static str {
    if !goes_on(flows, flow) {
        return "over";
    }
    if flows.head_came(flow) {
        return "twice";
    }
    match field_list(alloc) {
        Ok(list) => done_word(flows.head(flow, list, last).is_ok()),
        Err(_) => "no memory",
    }
}

fn finish(alloc: Global, flows: &mut WireFlows, flow: FlowId, trailers: bool) -> &'static str {
    if !goes_on(flows, flow) {
        return "over";
    }
    if !trailers {
        return done_word(flows.finish(flow, None).is_ok());
    }
    match field_list(alloc) {
        Ok(list) => done_word(flows.finish(flow, Some(list)).is_ok()),
        Err(_) => "no memory",
    }
}

// N octets of a body, behind its head and before its end.
fn body(alloc: Global, flows: &mut WireFlows, flow: FlowId, n: u32) -> &'static str {
    if let Some(word) = body_refusal(flows, flow) {
        return word;
    }
    let Ok(octets) = body_octets(alloc, n) else {
        return "no memory";
    };
    match flows.receive(flow, &octets) {
        Received::NotLive => "not live",
        Received::TooMany => "too many",
        Received::Arrived => "arrived",
    }
}

fn body_octets(alloc: Global, n: u32) -> std::result::Result<Octets, AllocError> {
    let mut octets = Vec::new(alloc);
    octets.resize(n as usize, b'x')?;
    Ok(Octets::from_vec(octets))
}

// Dooms, what follows them, and time.
fn end(answers: &mut Answers, case: &mut Case, name: &str, words: &str) {
    let (first, more) = next(words);
    match name {
        "tick" => {
            let now = number(first).max(case.flows.time());
            case.flows.tick(now);
            answers.say("done");
        }
        "sweep" => answers.say_or(case.flows.sweep(), "none"),
        _ => doom(answers, &mut case.flows, number(first), more),
    }
}

// `CAUSE [back]`
fn doom(answers: &mut Answers, flows: &mut WireFlows, exchange: u64, words: &str) {
    if !flows.is_live(exchange) {
        answers.say("over");
        return;
    }
    let (cause, side) = next(words);
    let doomed = flows.doom(exchange, cause_of(cause), side == "back");
    answers.say_number(u64::from(doomed.request_left));
    answers.say_with(" ", u64::from(doomed.response_left));
    answers.say(" ");
    say_reply(answers, doomed.down);
    answers.say(" ");
    say_reply(answers, doomed.up);
}

// What is asked of exchanges, and of write buffers.
fn ask(answers: &mut Answers, flows: &WireFlows, name: &str, words: &str) {
    let exchange = number(words);
    match name {
        "knows" => answers.say_truth(flows.knows_write(small_number(words))),
        "live" => answers.say_truth(flows.is_live(exchange)),
        "last" => answers.say_number(flows.last()),
        "time" => answers.say_number(flows.time()),
        "metered" => answers.say_or(flows.metered(exchange), "none"),
        "ends" | "held" => ask_of_exchange(answers, flows, name, exchange),
        "watchers" => match buffer_of(words) {
            Some(buffer) => say_flows(answers, flows.watchers(buffer)),
            None => answers.say("no buffer"),
        },
        _ => ask_of_flow(answers, flows, name, words),
    }
}

fn ask_of_exchange(answers: &mut Answers, flows: &WireFlows, name: &str, exchange: u64) {
    if !flows.is_live(exchange) {
        answers.say("no flow");
        return;
    }
    match name {
        "ends" => {
            let ends = flows.ends(exchange);
            answers.say_truth(ends.request);
            answers.say(" ");
            answers.say_truth(ends.response);
        }
        _ => answers.say_number(flows.held(exchange)),
    }
}

// What is asked of a flow.
fn ask_of_flow(answers: &mut Answers, flows: &WireFlows, name: &str, words: &str) {
    let Some(flow) = flow_of(words) else {
        answers.say("no flow");
        return;
    };
    match name {
        "readable" => answers.say_truth(flows.is_readable(flow)),
        _ if !is_there(flows, flow) => answers.say("over"),
        "ended" => answers.say_truth(flows.has_ended(flow)),
        "fields" => say_fields(answers, flows, flow),
        _ => answers.say("no such call"),
    }
}

// How many fields the list has that waits.
fn say_fields(answers: &mut Answers, flows: &WireFlows, flow: FlowId)
    requires { IsThere flows.now flow }
{
    match flows.fields(flow) {
        Some(list) => answers.say_number(list.len() as u64),
        None => answers.say("none"),
    }
}
