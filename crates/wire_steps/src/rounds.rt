// Rounds: which connection is looked at next, once nothing is under way.
ghost use Rattle.std.specs.Prelude.{◌≡◌, ◌≤◌, ◌<◌, IfOk, OnOk, true};
ghost use Rattle.wire_state.specs.Noting.{Appends};
ghost use Rattle.wire_state.specs.Progress.{conn_go, to_go};
ghost use Rattle.wire_state.specs.Sound.{IsSound};
ghost use Rattle.wire_state.specs.Worlds.{Goes, Keeps};

use flow_notes::{CloseCause, Notes};
use h2_frames::codes::NO_ERROR;
use io_ports::NoMemory;
use wire_ends::close;
use wire_flows::WireFlows;
use wire_links::Links;
use wire_out::begin_drain;
use wire_state::{Conn, NextUnit, WireCore};

/// What is to be done at a connection.
#[derive(Clone, Copy)]
enum Work {
    /// This may be framed.
    Frame(NextUnit),
    /// It is draining, and nothing is left.
    Close,
}

/// Goes on at the next connection at which something is to be done: a unit is framed, or it is closed as drained. The answer
/// is whether there was one.
pub(crate) fn next_round(core: &mut WireCore, notes: &mut Notes) -> Result<bool, NoMemory>
    requires sound { IsSound core.old }
    ensures sound { OnOk result (IsSound core.new) }
    ensures go { IfOk result (λ more. more ≡ true → to_go core.new < to_go core.old) }
    ensures notes { Appends notes.old notes.new }
    ensures octets { Goes result core.old notes.old core.new notes.new }
{
    if core.stirred.are_calm() {
        return Ok(false);
    }
    look_round(core, notes)
}

// As `next_round`, where not all are known to be calm.
#[inline(never)]
fn look_round(core: &mut WireCore, notes: &mut Notes) -> Result<bool, NoMemory>
    requires sound { IsSound core.old }
    ensures sound { OnOk result (IsSound core.new) }
    ensures go { IfOk result (λ more. more ≡ true → to_go core.new < to_go core.old) }
    ensures notes { Appends notes.old notes.new }
    ensures octets { Goes result core.old notes.old core.new notes.new }
{
    let Some((conn, work)) = next_work(core) else {
        return Ok(false);
    };
    core.cursor = conn;
    match work {
        Work::Frame(unit) => frame_at(core, conn, unit, notes),
        Work::Close => close_at(core, conn, notes),
    }
}

// The connection is drained. The answer is whether it is one that the dispatch changed.
fn frame_at(
    core: &mut WireCore,
    conn: u32,
    unit: NextUnit,
    notes: &mut Notes,
) -> Result<bool, NoMemory>
    requires sound { IsSound core.old }
    ensures sound { OnOk result (IsSound core.new) }
    ensures go { IfOk result (λ more. more ≡ true → to_go core.new < to_go core.old) }
    ensures notes { Appends notes.old notes.new }
    ensures octets { Goes result core.old notes.old core.new notes.new }
{
    if !core.stirred.has(conn) {
        return Ok(false);
    }
    begin_drain(core, conn, unit, notes)?;
    Ok(true)
}

// The connection is closed. The answer is whether it was open.
fn close_at(core: &mut WireCore, conn: u32, notes: &mut Notes) -> Result<bool, NoMemory>
    requires sound { IsSound core.old }
    ensures sound { OnOk result (IsSound core.new) }
    ensures go { IfOk result (λ more. more ≡ true → to_go core.new < to_go core.old) }
    ensures notes { Appends notes.old notes.new }
    ensures octets { Goes result core.old notes.old core.new notes.new }
{
    if !core.is_open(conn) {
        return Ok(false);
    }
    close(core, conn, NO_ERROR, CloseCause::Drained, notes)?;
    Ok(true)
}

// Of the connections at which this dispatch changed anything, the first from the cursor on at which something is to be done,
// else the first of all.
fn next_work(core: &mut WireCore) -> Option<(u32, Work)>
    requires sound { IsSound core.old }
    ensures sound { IsSound core.new }
    ensures go { to_go core.new ≤ to_go core.old }
    ensures rest { core.new ≡ record core.old { conns = core.new.conns } }
    ensures octets { Keeps core.old core.new }
{
    let cursor = core.cursor;
    if let Some(found) = first_in(core, cursor, u32::MAX) {
        return Some(found);
    }
    if cursor == 0 {
        return None;
    }
    first_in(core, 0, cursor - 1)
}

// The first of them from a number to another.
fn first_in(core: &mut WireCore, from: u32, last: u32) -> Option<(u32, Work)>
    requires sound { IsSound core.old }
    ensures sound { IsSound core.new }
    ensures go { to_go core.new ≤ to_go core.old }
    ensures rest { core.new ≡ record core.old { conns = core.new.conns } }
    ensures octets { Keeps core.old core.new }
{
    let mut from = from;
    while let Some(conn) = core.stirred.first_from(from) {
        if conn < from || conn > last {
            return None;
        }
        if let Some(work) = work_at(core, conn) {
            return Some((conn, work));
        }
        if conn == last {
            return None;
        }
        from = conn + 1;
    }
    None
}

// What is to be done at a connection.
fn work_at(core: &mut WireCore, number: u32) -> Option<Work>
    requires sound { IsSound core.old }
    ensures sound { IsSound core.new }
    ensures go { to_go core.new ≤ to_go core.old }
    ensures rest { core.new ≡ record core.old { conns = core.new.conns } }
    ensures octets { Keeps core.old core.new }
{
    if core.stirred.is_calm(number) {
        return None;
    }
    match core.conns.get_mut(&number) {
        Some(conn) => work_of(conn, &core.flows, &core.links, number),
        None => None,
    }
}

#[tactic(auto, unfolding(wire_state::specs::Progress::conn_go))]
fn work_of(conn: &mut Conn, flows: &WireFlows, links: &Links, number: u32) -> Option<Work>
    ensures rest { conn.new ≡ record conn.old { credits = conn.new.credits } }
    ensures go { conn_go conn.new ≡ conn_go conn.old }
{
    if conn.may_write()
        && let Some(unit) = conn.next_unit(flows)
    {
        return Some(Work::Frame(unit));
    }
    if is_drained(conn, links, number) {
        Some(Work::Close)
    } else {
        None
    }
}

// Whether an open connection is draining, with nothing left to do.
fn is_drained(conn: &Conn, links: &Links, number: u32) -> bool {
    conn.open
        && conn.draining.is_some()
        && !conn.outlet.has_waiting()
        && links.exchanges_of(number) == 0
}
