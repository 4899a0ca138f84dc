// Words of flows.
use crate::words::{Answers, next, small_number};
use exchange_core::Reply;
use flow_gate::{BufferId, FlowId, Watchers};
use flow_notes::{Cause, FireKind};
use hpack_codec::{Field, FieldList};
use io_ports::{NoMemory, Octets};
use std::alloc::Global;

/// A flow: its exchange's number with `q` for the request or `r` for the response.
pub fn flow_of(word: &str) -> Option<FlowId> {
    let (number, back) = match word.strip_suffix('q') {
        Some(number) => (number, false),
        None => (word.strip_suffix('r')?, true),
    };
    let exchange = number.parse::<u64>().ok()?;
    Some(FlowId { exchange, back })
}

/// A buffer: `write CONN`, `send FLOW` or `stage FLOW PLACE`.
pub fn buffer_of(words: &str) -> Option<BufferId> {
    let (kind, words) = next(words);
    let (flow, place) = next(words);
    match kind {
        "write" => Some(BufferId::Write(small_number(words))),
        "send" => Some(BufferId::Send(flow_of(flow)?)),
        "stage" => Some(BufferId::Stage(flow_of(flow)?, small_number(place))),
        _ => None,
    }
}

/// Flows in their order, `none` where there are none.
pub fn say_flows(answers: &mut Answers, flows: Watchers<'_>) {
    let mut first = true;
    for flow in flows {
        if !first {
            answers.say(" ");
        }
        first = false;
        say_flow(answers, flow);
    }
    if first {
        answers.say("none");
    }
}

pub fn say_flow(answers: &mut Answers, flow: FlowId) {
    answers.say_number(flow.exchange);
    answers.say(if flow.back { "r" } else { "q" });
}

/// A buffer of a flow, or a dash.
pub fn say_own(answers: &mut Answers, buffer: Option<BufferId>) {
    match buffer {
        Some(BufferId::Stage(_, place)) => answers.say_with("stage", u64::from(place)),
        Some(BufferId::Send(_)) => answers.say("send"),
        _ => answers.say("-"),
    }
}

pub fn cause_of(word: &str) -> Cause {
    match word {
        "done" => Cause::Done,
        "reset" => Cause::PeerReset { code: 8 },
        "too-large" => Cause::TooLarge,
        "overflow" => Cause::Overflow,
        "timeout" => Cause::Timeout {
            kind: FireKind::Route,
        },
        "early-end" => Cause::EarlyEnd,
        _ => Cause::Overload,
    }
}

/// `-`, `resetCODE`, `STATUS` or `STATUS+` where a reset follows.
pub fn say_reply(answers: &mut Answers, reply: Reply) {
    match reply {
        Reply::Nothing => answers.say("-"),
        Reply::Reset { code } => answers.say_with("reset", u64::from(code)),
        Reply::Answer { status, reset } => {
            answers.say_number(u64::from(status));
            answers.say(if reset { "+" } else { "" });
        }
    }
}

/// A list of one field.
pub fn field_list(alloc: Global) -> Result<FieldList, NoMemory> {
    let mut list = FieldList::new(alloc);
    list.push(Field {
        name: Octets::from_slice(alloc, b"a")?,
        value: Octets::from_slice(alloc, b"b")?,
        never: false,
    })?;
    Ok(list)
}
