// Gates by tables of calls. What each call answers, and the counts after it, were found by hand from the rules.
mod many;
mod watchers;

use crate::said::{holds, same, same_in};
use flow_gate::{BufferId, FlowId, Gates};
use io_ports::NoMemory;
use std::process::Abort;

const FIRST: FlowId = FlowId {
    exchange: 1,
    back: false,
};

const SECOND: FlowId = FlowId {
    exchange: 1,
    back: true,
};

const LEAST: FlowId = FlowId {
    exchange: 0,
    back: false,
};

const SHARED: BufferId = BufferId::Write(0);

const OWN: BufferId = BufferId::Send(FIRST);

#[derive(Clone, Copy)]
enum Call {
    OpenFlow(FlowId),
    OpenBuffer(BufferId),
    CloseBuffer(BufferId),
    Watch(FlowId, BufferId),
    High(BufferId),
    BeginLow(BufferId),
    NextLow(BufferId),
    Forget(FlowId),
}

use Call::*;

#[derive(Clone, Copy, Debug, PartialEq, Eq)]
enum Answer {
    Done,
    /// The call may not be made now.
    Refused,
    Above(bool),
    Told(Option<FlowId>),
}

const DONE: Answer = Answer::Done;

const LOW: Answer = Answer::Above(false);

const TOLD_FIRST: Answer = Answer::Told(Some(FIRST));

const TOLD_SECOND: Answer = Answer::Told(Some(SECOND));

const NOBODY: Answer = Answer::Told(None);

/// Makes a call, where its condition holds.
fn make(gates: &mut Gates, call: Call) -> Result<Answer, NoMemory> {
    match call {
        Call::OpenFlow(flow) if !gates.is_open(flow) => gates.open_flow(flow)?,
        Call::OpenBuffer(buffer) if !gates.is_known(buffer) => gates.open_buffer(buffer)?,
        Call::CloseBuffer(buffer) => return Ok(close(gates, buffer)),
        Call::Watch(flow, buffer) => return watch(gates, flow, buffer),
        Call::High(buffer) => return Ok(high(gates, buffer)),
        Call::BeginLow(buffer) => return Ok(begin_low(gates, buffer)),
        Call::NextLow(buffer) => return Ok(Answer::Told(gates.next_low(buffer))),
        Call::Forget(flow) if gates.is_open(flow) => gates.forget(flow),
        _ => return Ok(Answer::Refused),
    }
    Ok(Answer::Done)
}

/// Makes a call whose condition holds.
fn make_one(rt: &impl Abort, gates: &mut Gates, call: Call) -> Result<(), NoMemory> {
    let answer = make(gates, call)?;
    holds(rt, answer != Answer::Refused);
    Ok(())
}

fn close(gates: &mut Gates, buffer: BufferId) -> Answer {
    if !gates.is_known(buffer) || gates.is_watched(buffer) {
        return Answer::Refused;
    }
    gates.close_buffer(buffer);
    Answer::Done
}

fn watch(gates: &mut Gates, flow: FlowId, buffer: BufferId) -> Result<Answer, NoMemory> {
    if !gates.is_known(buffer) || !gates.is_open(flow) || gates.is_watching(flow, buffer) {
        return Ok(Answer::Refused);
    }
    Ok(Answer::Above(gates.watch(flow, buffer)?))
}

fn high(gates: &mut Gates, buffer: BufferId) -> Answer {
    if !gates.is_known(buffer) || gates.is_marked(buffer) {
        return Answer::Refused;
    }
    gates.high(buffer);
    Answer::Done
}

fn begin_low(gates: &mut Gates, buffer: BufferId) -> Answer {
    if !gates.is_marked(buffer) || gates.has_pending(buffer) {
        return Answer::Refused;
    }
    gates.begin_low(buffer);
    Answer::Done
}

/// A flow's count, where the flow is there.
fn count(gates: &Gates, flow: FlowId) -> Option<u64> {
    if gates.is_open(flow) {
        Some(gates.count(flow))
    } else {
        None
    }
}

type Row = (Call, Answer, Option<u64>, Option<u64>);

// One flow with a send buffer: the count goes up with the buffer, and down when the flow is told.
const ONE_FLOW: [Row; 9] = [
    (OpenFlow(FIRST), DONE, Some(0), None),
    (OpenBuffer(OWN), DONE, Some(0), None),
    (Watch(FIRST, OWN), LOW, Some(0), None),
    (High(OWN), DONE, Some(1), None),
    (BeginLow(OWN), DONE, Some(1), None),
    (NextLow(OWN), TOLD_FIRST, Some(0), None),
    (NextLow(OWN), NOBODY, Some(0), None),
    (Forget(FIRST), DONE, None, None),
    (OpenBuffer(OWN), DONE, None, None),
];

// Two flows watch one buffer. The second, whose low is still pending when the buffer rises again, goes from 1 to 2 and
// back to 1. A third watcher begins while the buffer is above, and is told last, though its name is the least.
const TWO_FLOWS: [Row; 23] = [
    (OpenBuffer(SHARED), DONE, None, None),
    (OpenFlow(SECOND), DONE, None, Some(0)),
    (OpenFlow(FIRST), DONE, Some(0), Some(0)),
    (Watch(FIRST, SHARED), LOW, Some(0), Some(0)),
    (Watch(SECOND, SHARED), LOW, Some(0), Some(0)),
    (High(SHARED), DONE, Some(1), Some(1)),
    (BeginLow(SHARED), DONE, Some(1), Some(1)),
    (NextLow(SHARED), TOLD_FIRST, Some(0), Some(1)),
    (High(SHARED), DONE, Some(1), Some(2)),
    (NextLow(SHARED), TOLD_SECOND, Some(1), Some(1)),
    (NextLow(SHARED), NOBODY, Some(1), Some(1)),
    (OpenFlow(LEAST), DONE, Some(1), Some(1)),
    (Watch(LEAST, SHARED), Answer::Above(true), Some(1), Some(1)),
    (BeginLow(SHARED), DONE, Some(1), Some(1)),
    (NextLow(SHARED), TOLD_FIRST, Some(0), Some(1)),
    (NextLow(SHARED), TOLD_SECOND, Some(0), Some(0)),
    (NextLow(SHARED), Answer::Told(Some(LEAST)), Some(0), Some(0)),
    (NextLow(SHARED), NOBODY, Some(0), Some(0)),
    (Forget(FIRST), DONE, None, Some(0)),
    (Forget(SECOND), DONE, None, None),
    (Forget(LEAST), DONE, None, None),
    (CloseBuffer(SHARED), DONE, None, None),
    (NextLow(SHARED), NOBODY, None, None),
];

// A flow is held back by each of two buffers, and by a low of one of them that rose again: three times at most here.
const TWO_BUFFERS: [Row; 14] = [
    (OpenFlow(FIRST), DONE, Some(0), None),
    (OpenBuffer(OWN), DONE, Some(0), None),
    (OpenBuffer(SHARED), DONE, Some(0), None),
    (Watch(FIRST, OWN), LOW, Some(0), None),
    (High(SHARED), DONE, Some(0), None),
    (Watch(FIRST, SHARED), Answer::Above(true), Some(1), None),
    (High(OWN), DONE, Some(2), None),
    (BeginLow(OWN), DONE, Some(2), None),
    (High(OWN), DONE, Some(3), None),
    (BeginLow(SHARED), DONE, Some(3), None),
    (NextLow(SHARED), TOLD_FIRST, Some(2), None),
    (NextLow(OWN), TOLD_FIRST, Some(1), None),
    (BeginLow(OWN), DONE, Some(1), None),
    (NextLow(OWN), TOLD_FIRST, Some(0), None),
];

// A flow that is forgotten takes its pending low along, and one that begins to watch has none.
const FORGOTTEN: [Row; 15] = [
    (OpenBuffer(SHARED), DONE, None, None),
    (OpenFlow(FIRST), DONE, Some(0), None),
    (Watch(FIRST, SHARED), LOW, Some(0), None),
    (OpenFlow(SECOND), DONE, Some(0), Some(0)),
    (Watch(SECOND, SHARED), LOW, Some(0), Some(0)),
    (High(SHARED), DONE, Some(1), Some(1)),
    (BeginLow(SHARED), DONE, Some(1), Some(1)),
    (Forget(FIRST), DONE, None, Some(1)),
    (OpenFlow(FIRST), DONE, Some(0), Some(1)),
    (Watch(FIRST, SHARED), LOW, Some(0), Some(1)),
    (NextLow(SHARED), TOLD_SECOND, Some(0), Some(0)),
    (NextLow(SHARED), NOBODY, Some(0), Some(0)),
    (High(SHARED), DONE, Some(1), Some(1)),
    (Forget(SECOND), DONE, Some(1), None),
    (BeginLow(SHARED), DONE, Some(1), None),
];

// The buffers of a flow go with it, but for the one that another flow watches.
const OWN_BUFFERS: [Row; 11] = [
    (OpenFlow(FIRST), DONE, Some(0), None),
    (OpenBuffer(BufferId::Recv(FIRST)), DONE, Some(0), None),
    (OpenBuffer(BufferId::Stage(FIRST, 1)), DONE, Some(0), None),
    (OpenBuffer(BufferId::Stage(FIRST, 4)), DONE, Some(0), None),
    (OpenBuffer(BufferId::Stage(SECOND, 1)), DONE, Some(0), None),
    (OpenBuffer(OWN), DONE, Some(0), None),
    (OpenFlow(SECOND), DONE, Some(0), Some(0)),
    (
        Watch(FIRST, BufferId::Stage(FIRST, 1)),
        LOW,
        Some(0),
        Some(0),
    ),
    (
        Watch(SECOND, BufferId::Stage(FIRST, 4)),
        LOW,
        Some(0),
        Some(0),
    ),
    (Watch(FIRST, OWN), LOW, Some(0), Some(0)),
    (Forget(FIRST), DONE, None, Some(0)),
];

// Which of them are known after that.
const LEFT: [(BufferId, bool); 5] = [
    (BufferId::Recv(FIRST), false),
    (BufferId::Stage(FIRST, 1), false),
    (BufferId::Stage(FIRST, 4), true),
    (BufferId::Stage(SECOND, 1), true),
    (OWN, false),
];

/// Makes the calls of a table, and compares.
fn make_all(rt: &impl Abort, gates: &mut Gates, rows: &[Row]) -> Result<(), NoMemory> {
    for (at, row) in rows.iter().enumerate() {
        let (call, answer, first, second) = *row;
        same_in(rt, &at, &make(gates, call)?, &answer);
        same_in(rt, &at, &count(gates, FIRST), &first);
        same_in(rt, &at, &count(gates, SECOND), &second);
    }
    Ok(())
}

/// Makes the calls of a table on new gates. A call drops them, as in all tests of gates: without it the check follows at
/// each end of a function how all that they hold is dropped.
fn make_by_table(rt: &(impl AllocGlobal + Abort), rows: &[Row]) -> Result<(), NoMemory> {
    let mut gates = Gates::new(rt.alloc());
    let end = make_all(rt, &mut gates, rows);
    drop(gates);
    end
}

#[test]
fn calls_answer_by_the_tables(rt: HostRuntime) -> Result<(), NoMemory> {
    make_by_table(&rt, &ONE_FLOW)?;
    make_by_table(&rt, &TWO_FLOWS)?;
    make_by_table(&rt, &TWO_BUFFERS)?;
    make_by_table(&rt, &FORGOTTEN)
}

/// Flows and buffers of their own come, and which of them go with a flow.
fn some_are_left(rt: &impl Abort, gates: &mut Gates) -> Result<(), NoMemory> {
    make_all(rt, gates, &OWN_BUFFERS)?;
    for (buffer, known) in LEFT {
        same(rt, &gates.is_known(buffer), &known);
    }
    Ok(())
}

#[test]
fn the_buffers_of_a_flow_go_with_it(rt: HostRuntime) -> Result<(), NoMemory> {
    let mut gates = Gates::new(rt.alloc());
    let end = some_are_left(&rt, &mut gates);
    drop(gates);
    end
}

/// A flow is clear until a buffer rises that it doesn't watch.
fn one_is_clear(rt: &impl Abort, gates: &mut Gates) -> Result<(), NoMemory> {
    make_all(rt, gates, &TWO_BUFFERS[..4])?;
    assert!(rt; gates.is_open(FIRST));
    holds(rt, gates.is_clear(FIRST, OWN, SHARED));
    make_all(rt, gates, &TWO_BUFFERS[4..5])?;
    assert!(rt; gates.is_open(FIRST));
    holds(rt, gates.is_clear(FIRST, OWN, OWN));
    holds(rt, !gates.is_clear(FIRST, OWN, SHARED));
    Ok(())
}

// A flow that nothing holds back is clear while neither of two buffers is above, be they watched or not.
#[test]
fn a_flow_is_clear_where_no_buffer_is_above(rt: HostRuntime) -> Result<(), NoMemory> {
    let mut gates = Gates::new(rt.alloc());
    let end = one_is_clear(&rt, &mut gates);
    drop(gates);
    end
}
