// How the octets of a flow go on.
ghost use Rattle.wire_flows.specs.Flows.{IsThere};

use super::Case;
use super::conditions::is_there;
use super::words::{flow_of, say_own};
use crate::words::{Answers, next, small_number};
use exchange_core::Unit;
use flow_gate::FlowId;
use wire_flows::{Framed, Moved, Outcome, WireFlows};

/// Moves, and what is framed.
pub fn say_moves(answers: &mut Answers, case: &mut Case, name: &str, words: &str) {
    let (flow, words) = next(words);
    let Some(flow) = flow_of(flow) else {
        answers.say("no flow");
        return;
    };
    match name {
        "step" => {
            let _goes_on = step(answers, &mut case.flows, flow);
        }
        "run" => run(answers, &mut case.flows, flow),
        _ if !is_there(&case.flows, flow) => answers.say("over"),
        "frame" => frame(answers, case, flow, words),
        "unit" => {
            let (room, frame) = next(words);
            let unit = case
                .flows
                .next_unit(flow, room_of(room), small_number(frame));
            say_unit(answers, unit);
        }
        _ => frame_list(answers, &mut case.flows, flow),
    }
}

fn room_of(word: &str) -> i64 {
    word.parse::<i64>().unwrap_or(0)
}

// One step: the place and the octets, the buffer that rose, the one that drained, and whether it overflowed. Whether it moved.
fn step(answers: &mut Answers, flows: &mut WireFlows, flow: FlowId) -> bool {
    match flows.step(flow) {
        Ok(Outcome::Moved(moved)) => {
            say_moved(answers, moved);
            return true;
        }
        Ok(Outcome::Still) => answers.say("still"),
        Ok(Outcome::TooLarge) => answers.say("too large"),
        Err(_) => answers.say("no memory"),
    }
    false
}

fn say_moved(answers: &mut Answers, moved: Moved) {
    answers.say_number(u64::from(moved.place));
    answers.say_with(" ", u64::from(moved.n));
    answers.say(" ");
    say_own(answers, moved.rose);
    answers.say(" ");
    say_own(answers, moved.drained);
    if moved.overflow {
        answers.say(" overflow");
    }
}

// Steps until it is still, at most 20.
fn run(answers: &mut Answers, flows: &mut WireFlows, flow: FlowId) {
    for _ in 0..20_u32 {
        if !step(answers, flows, flow) {
            break;
        }
        answers.say(", ");
    }
}

fn say_unit(answers: &mut Answers, unit: Unit) {
    match unit {
        Unit::Nothing => answers.say("nothing"),
        Unit::Head { last } => {
            answers.say("head ");
            answers.say_truth(last);
        }
        Unit::Body { n, last } => {
            answers.say_with("body ", u64::from(n));
            answers.say(" ");
            answers.say_truth(last);
        }
        Unit::Trailers => answers.say("trailers"),
    }
}

// Frames the head or the trailers that go next.
fn frame_list(answers: &mut Answers, flows: &mut WireFlows, flow: FlowId)
    requires { IsThere flows.old flow }
{
    let unit = flows.next_unit(flow, 0, 16_384);
    match unit {
        Unit::Head { last } => flows.list_framed(flow, last),
        Unit::Trailers => flows.list_framed(flow, true),
        _ => {}
    }
    say_unit(answers, unit);
}

// A DATA frame on stream 1 of a connection: the octets and the end, what rose and drained, and what goes next.
fn frame(answers: &mut Answers, case: &mut Case, flow: FlowId, words: &str)
    requires { IsThere case.old.flows flow }
{
    let (conn, words) = next(words);
    let (room, words) = next(words);
    let (most, frame) = next(words);
    let (room, most, frame) = (room_of(room), room_of(most), small_number(frame));
    let conn = small_number(conn);
    let Some(out) = case.outs.get_mut(&conn) else {
        answers.say("no such connection");
        return;
    };
    match case.flows.frame_body(flow, conn, 1, out, room, most, frame) {
        Ok(Some(framed)) => say_framed(answers, framed),
        Ok(None) => answers.say("none"),
        Err(_) => answers.say("no memory"),
    }
}

fn say_framed(answers: &mut Answers, framed: Framed) {
    answers.say_number(u64::from(framed.n));
    answers.say(" ");
    answers.say_truth(framed.last);
    answers.say(if framed.rose { " rose" } else { " -" });
    answers.say(if framed.drained { " drained, " } else { " -, " });
    say_unit(answers, framed.next);
}
