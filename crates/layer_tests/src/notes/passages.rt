// Notes that were pushed one by one and in rows come back by passages, in their order.
use super::{REQUEST, RESPONSE};
use crate::said::{holds, holds_in, same};
use flow_gate::{BufferId, FlowId, Gates};
use flow_notes::{Note, Notes, Passage};
use io_ports::NoMemory;
use std::process::Abort;

const WRITE: BufferId = BufferId::Write(2);

const UNWATCHED: BufferId = BufferId::Write(3);

/// What a passage is to be.
#[derive(Clone, Copy)]
enum Wanted<'a> {
    Out(u32),
    Pauses(&'a [FlowId]),
    Resumes(&'a [FlowId]),
}

fn is_wanted(passage: Passage<'_>, wanted: Wanted<'_>) -> bool {
    match (passage, wanted) {
        (Passage::One(Note::Out { conn: 2, n }), Wanted::Out(k)) => *n == k,
        (Passage::Pauses { flows, buffer }, Wanted::Pauses(row))
        | (Passage::Resumes { flows, buffer }, Wanted::Resumes(row)) => {
            flows == row && buffer == WRITE
        }
        _ => false,
    }
}

fn is_at(wanted: &[Wanted<'_>], place: usize, passage: Passage<'_>) -> bool {
    match wanted.get(place) {
        Some(next) => is_wanted(passage, *next),
        None => false,
    }
}

fn assert_passages(rt: &impl Abort, notes: &Notes, wanted: &[Wanted<'_>]) {
    let mut place = 0usize;
    for passage in notes.passages() {
        holds_in(rt, &place, is_at(wanted, place, passage));
        place = place.saturating_add(1);
    }
    same(rt, &place, &wanted.len());
}

/// Two flows watch a write buffer.
fn watch(gates: &mut Gates) -> Result<(), NoMemory> {
    for flow in [REQUEST, RESPONSE] {
        if !gates.is_open(flow) {
            gates.open_flow(flow)?;
        }
    }
    if !gates.is_known(WRITE) {
        gates.open_buffer(WRITE)?;
    }
    for flow in [REQUEST, RESPONSE] {
        if gates.is_known(WRITE) && gates.is_open(flow) && !gates.is_watching(flow, WRITE) {
            let _ = gates.watch(flow, WRITE)?;
        }
    }
    Ok(())
}

fn push_rows(gates: &Gates, notes: &mut Notes) -> Result<(), NoMemory> {
    notes.push(Note::Out { conn: 2, n: 1 })?;
    notes.push_pauses(gates.watchers(WRITE), WRITE)?;
    notes.push_resumes(gates.watchers(WRITE), 1, WRITE)?;
    notes.push(Note::Out { conn: 2, n: 2 })?;
    notes.push(Note::Out { conn: 2, n: 3 })?;
    notes.push_resumes(gates.watchers(WRITE), 9, WRITE)
}

/// Notes and rows of these gates' flows come back in their order.
fn rows_come_back(rt: &impl Abort, gates: &mut Gates, notes: &mut Notes) -> Result<(), NoMemory> {
    watch(gates)?;
    push_rows(gates, notes)?;
    let rows = [
        Wanted::Out(1),
        Wanted::Pauses(&[REQUEST, RESPONSE]),
        Wanted::Resumes(&[REQUEST]),
        Wanted::Out(2),
        Wanted::Out(3),
        Wanted::Resumes(&[REQUEST, RESPONSE]),
    ];
    assert_passages(rt, notes, &rows);
    same(rt, &notes.len(), &8);
    Ok(())
}

// Gates and notes are dropped by calls, as those of gates.rt.
#[test]
fn rows_are_passages(rt: HostRuntime) -> Result<(), NoMemory> {
    let mut gates = Gates::new(rt.alloc());
    let mut notes = Notes::new(rt.alloc());
    let end = rows_come_back(&rt, &mut gates, &mut notes);
    drop(gates);
    drop(notes);
    end
}

/// A row of no flow is pushed, of a buffer that nobody watches and of one that two do.
fn push_empty(gates: &mut Gates, notes: &mut Notes) -> Result<(), NoMemory> {
    watch(gates)?;
    notes.push_pauses(gates.watchers(UNWATCHED), UNWATCHED)?;
    notes.push_resumes(gates.watchers(WRITE), 0, WRITE)
}

#[test]
fn an_empty_row_is_no_passage(rt: HostRuntime) -> Result<(), NoMemory> {
    let mut gates = Gates::new(rt.alloc());
    let mut notes = Notes::new(rt.alloc());
    let end = push_empty(&mut gates, &mut notes);
    assert_passages(&rt, &notes, &[]);
    holds(&rt, notes.is_empty());
    drop(gates);
    drop(notes);
    end
}

/// What is pushed is cleared, and a row is pushed again.
fn clear_and_push(rt: &impl Abort, gates: &mut Gates, notes: &mut Notes) -> Result<(), NoMemory> {
    watch(gates)?;
    notes.push(Note::Out { conn: 2, n: 1 })?;
    notes.push_pauses(gates.watchers(WRITE), WRITE)?;
    holds(rt, !notes.is_empty());
    notes.clear();
    assert_passages(rt, notes, &[]);
    same(rt, &notes.len(), &0);
    notes.push_pauses(gates.watchers(WRITE), WRITE)?;
    assert_passages(rt, notes, &[Wanted::Pauses(&[REQUEST, RESPONSE])]);
    Ok(())
}

#[test]
fn cleared_notes_are_none(rt: HostRuntime) -> Result<(), NoMemory> {
    let mut gates = Gates::new(rt.alloc());
    let mut notes = Notes::new(rt.alloc());
    let end = clear_and_push(&rt, &mut gates, &mut notes);
    drop(gates);
    drop(notes);
    end
}
