// Watchers of a buffer, and those that are still to be told, in the order in which they began.
use super::Call::{BeginLow, Forget, High, NextLow, OpenFlow, Watch};
use super::{FIRST, LEAST, OWN, SECOND, SHARED, TWO_FLOWS, count, make_all, make_one};
use crate::said::{holds, same};
use flow_gate::{FlowId, Gates, Watchers};
use io_ports::NoMemory;
use std::process::Abort;

/// Three watchers stand in the order in which they began.
fn three_watch(rt: &impl Abort, gates: &Gates) {
    let watchers = [FIRST, SECOND, LEAST];
    let mut seen = 0;
    for watcher in gates.watchers(SHARED) {
        same(rt, &watchers.get(seen).copied(), &Some(watcher));
        seen = seen.saturating_add(1);
    }
    same(rt, &seen, &3);
}

/// So they do by their numbers, and there is no fourth.
fn three_are_numbered(rt: &impl Abort, gates: &Gates) {
    for (i, watcher) in [FIRST, SECOND, LEAST].iter().enumerate() {
        same(rt, &gates.watcher(SHARED, i), &Some(*watcher));
    }
    same(rt, &gates.watcher(SHARED, 3), &None);
    same(rt, &gates.watcher(OWN, 0), &None);
}

#[test]
fn watchers_stand_in_the_order_in_which_they_began(rt: HostRuntime) -> Result<(), NoMemory> {
    let mut gates = Gates::new(rt.alloc());
    let end = make_all(&rt, &mut gates, &TWO_FLOWS[..13]);
    three_watch(&rt, &gates);
    three_are_numbered(&rt, &gates);
    drop(gates);
    end
}

/// All three watchers are still to be told, in the order in which they began.
fn three_are_to_be_told(rt: &impl Abort, gates: &Gates) {
    let lows = [FIRST, SECOND, LEAST];
    let mut seen = 0;
    for low in gates.lows(SHARED) {
        same(rt, &lows.get(seen).copied(), &Some(low));
        seen = seen.saturating_add(1);
    }
    same(rt, &seen, &3);
}

/// Two are told at once, and then the third.
fn two_and_one_are_told(rt: &impl Abort, gates: &mut Gates) {
    gates.take_lows(SHARED, 2);
    for (flow, held) in [(FIRST, 0), (SECOND, 0), (LEAST, 1)] {
        same(rt, &count(gates, flow), &Some(held));
    }
    same(rt, &gates.lows(SHARED).nth(0), &Some(LEAST));
    same(rt, &gates.lows(SHARED).nth(1), &None);
    gates.take_lows(SHARED, 2);
    same(rt, &count(gates, LEAST), &Some(0));
    same(rt, &gates.lows(SHARED).nth(0), &None);
    gates.take_lows(OWN, 1);
    same(rt, &gates.lows(OWN).nth(0), &None);
}

#[test]
fn lows_are_told_together(rt: HostRuntime) -> Result<(), NoMemory> {
    let mut gates = Gates::new(rt.alloc());
    let end = make_all(&rt, &mut gates, &TWO_FLOWS[..14]);
    three_are_to_be_told(&rt, &gates);
    two_and_one_are_told(&rt, &mut gates);
    drop(gates);
    end
}

/// What a watchers' iterator, its length and its slice say agrees with these flows; whether there is a slice.
fn are_all(rt: &impl Abort, mut watchers: Watchers<'_>, flows: &[FlowId]) -> bool {
    same(rt, &watchers.len(), &flows.len());
    same(rt, &watchers.is_empty(), &flows.is_empty());
    let row = watchers.as_slice();
    if let Some(row) = row {
        holds(rt, row == flows);
    }
    for flow in flows {
        same(rt, &watchers.next(), &Some(*flow));
    }
    same(rt, &watchers.next(), &None);
    row.is_some()
}

/// The watchers lie side by side until one leaves.
fn one_leaves(rt: &impl Abort, gates: &mut Gates) -> Result<(), NoMemory> {
    make_all(rt, gates, &TWO_FLOWS[..13])?;
    holds(
        rt,
        are_all(rt, gates.watchers(SHARED), &[FIRST, SECOND, LEAST]),
    );
    holds(rt, are_all(rt, gates.lows(SHARED), &[]));
    make_one(rt, gates, BeginLow(SHARED))?;
    make_one(rt, gates, NextLow(SHARED))?;
    holds(rt, are_all(rt, gates.lows(SHARED), &[SECOND, LEAST]));
    make_one(rt, gates, Forget(SECOND))?;
    holds(rt, !are_all(rt, gates.watchers(SHARED), &[FIRST, LEAST]));
    holds(rt, !are_all(rt, gates.lows(SHARED), &[LEAST]));
    Ok(())
}

/// They do again once the buffer rises.
fn it_rises_again(rt: &impl Abort, gates: &mut Gates) -> Result<(), NoMemory> {
    make_one(rt, gates, OpenFlow(SECOND))?;
    make_one(rt, gates, Watch(SECOND, SHARED))?;
    make_one(rt, gates, High(SHARED))?;
    holds(
        rt,
        are_all(rt, gates.watchers(SHARED), &[FIRST, LEAST, SECOND]),
    );
    holds(rt, are_all(rt, gates.lows(SHARED), &[LEAST]));
    holds(rt, are_all(rt, gates.watchers(OWN), &[]));
    Ok(())
}

/// Both, one after the other.
fn they_lie(rt: &impl Abort, gates: &mut Gates) -> Result<(), NoMemory> {
    one_leaves(rt, gates)?;
    it_rises_again(rt, gates)
}

#[test]
fn watchers_lie_side_by_side(rt: HostRuntime) -> Result<(), NoMemory> {
    let mut gates = Gates::new(rt.alloc());
    let end = they_lie(&rt, &mut gates);
    drop(gates);
    end
}
