// Many buffers of one flow, many flows, and many watchers of one buffer. What a call costs among 200,000 flows `layer_bench gates`
// measures.
use super::Call::{BeginLow, Forget, High, NextLow, OpenBuffer, OpenFlow, Watch};
use super::{Answer, DONE, FIRST, LOW, NOBODY, SHARED, count, make, make_one};
use crate::said::{holds, same};
use flow_gate::{BufferId, FlowId, Gates};
use io_ports::NoMemory;
use std::process::Abort;

const MANY: u64 = 2_000;

/// A flow watches four buffers that rise.
fn four_rise(rt: &impl Abort, gates: &mut Gates) -> Result<(), NoMemory> {
    make_one(rt, gates, OpenFlow(FIRST))?;
    for n in 1..=4 {
        let buffer = BufferId::Write(n);
        for call in [OpenBuffer(buffer), Watch(FIRST, buffer), High(buffer)] {
            make_one(rt, gates, call)?;
        }
        same(rt, &count(gates, FIRST), &Some(u64::from(n)));
    }
    Ok(())
}

// Each of the buffers that a flow watches counts, be they few or many.
#[test]
fn each_buffer_counts(rt: HostRuntime) -> Result<(), NoMemory> {
    let mut gates = Gates::new(rt.alloc());
    let end = four_rise(&rt, &mut gates);
    drop(gates);
    end
}

/// A flow by its exchange, with its send buffer.
fn sending(exchange: u64) -> (FlowId, BufferId) {
    let flow = FlowId {
        exchange,
        back: false,
    };
    (flow, BufferId::Send(flow))
}

/// Opens a flow that watches its send buffer.
fn open(rt: &impl Abort, gates: &mut Gates, exchange: u64) -> Result<(), NoMemory> {
    let (flow, buffer) = sending(exchange);
    same(rt, &make(gates, OpenFlow(flow))?, &DONE);
    same(rt, &make(gates, OpenBuffer(buffer))?, &DONE);
    same(rt, &make(gates, Watch(flow, buffer))?, &LOW);
    Ok(())
}

/// The send buffer of a flow rises and drains, and its flow alone is told.
fn rise_and_drain(rt: &impl Abort, gates: &mut Gates, exchange: u64) -> Result<(), NoMemory> {
    let (flow, buffer) = sending(exchange);
    make_one(rt, gates, High(buffer))?;
    same(rt, &count(gates, flow), &Some(1));
    make_one(rt, gates, BeginLow(buffer))?;
    same(
        rt,
        &make(gates, NextLow(buffer))?,
        &Answer::Told(Some(flow)),
    );
    same(rt, &make(gates, NextLow(buffer))?, &NOBODY);
    Ok(())
}

/// All flows come, rise and drain, and are free.
fn all_rise_and_drain(rt: &impl Abort, gates: &mut Gates) -> Result<(), NoMemory> {
    for exchange in 1..=MANY {
        open(rt, gates, exchange)?;
    }
    for exchange in 1..=MANY {
        rise_and_drain(rt, gates, exchange)?;
    }
    for exchange in 1..=MANY {
        let (flow, _) = sending(exchange);
        same(rt, &count(gates, flow), &Some(0));
    }
    Ok(())
}

// 2,000 flows, each with a send buffer of its own.
#[test]
fn many_flows_rise_and_drain(rt: HostRuntime) -> Result<(), NoMemory> {
    let mut gates = Gates::new(rt.alloc());
    let end = all_rise_and_drain(&rt, &mut gates);
    drop(gates);
    end
}

/// All flows watch the buffer, which rises and drains.
fn all_watch(rt: &impl Abort, gates: &mut Gates) -> Result<(), NoMemory> {
    make_one(rt, gates, OpenBuffer(SHARED))?;
    for exchange in 1..=MANY {
        let (flow, _) = sending(exchange);
        make_one(rt, gates, OpenFlow(flow))?;
        make_one(rt, gates, Watch(flow, SHARED))?;
    }
    make_one(rt, gates, High(SHARED))?;
    make_one(rt, gates, BeginLow(SHARED))
}

/// Those of even number leave while the others are told.
fn half_leave(rt: &impl Abort, gates: &mut Gates) -> Result<(), NoMemory> {
    for exchange in 1..=MANY {
        let (flow, _) = sending(exchange);
        if exchange % 2 == 0 {
            make_one(rt, gates, Forget(flow))?;
        } else {
            let told = make(gates, NextLow(SHARED))?;
            same(rt, &told, &Answer::Told(Some(flow)));
        }
    }
    same(rt, &make(gates, NextLow(SHARED))?, &NOBODY);
    Ok(())
}

/// The others leave, last first.
fn the_others_leave(rt: &impl Abort, gates: &mut Gates) -> Result<(), NoMemory> {
    for gone in 0..MANY {
        let exchange = MANY - gone;
        let (flow, _) = sending(exchange);
        if exchange % 2 == 1 {
            make_one(rt, gates, Forget(flow))?;
        }
    }
    Ok(())
}

/// They come, and go.
fn all_come_and_go(rt: &impl Abort, gates: &mut Gates) -> Result<(), NoMemory> {
    all_watch(rt, gates)?;
    half_leave(rt, gates)?;
    the_others_leave(rt, gates)?;
    holds(rt, !gates.is_watched(SHARED));
    Ok(())
}

// 2,000 flows watch one buffer, and leave it while others are told.
#[test]
fn many_watchers_come_and_go(rt: HostRuntime) -> Result<(), NoMemory> {
    let mut gates = Gates::new(rt.alloc());
    let end = all_come_and_go(&rt, &mut gates);
    drop(gates);
    end
}
