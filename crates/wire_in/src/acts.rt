// What each frame does.
ghost use Rattle.std.specs.Prelude.{◌≡◌, ◌≤◌, ◌+◌, ◌*◌, OnOk};
ghost use Rattle.wire_state.specs.Noting.{Appends};
ghost use Rattle.wire_state.specs.Progress.{to_go};
ghost use Rattle.wire_state.specs.Sound.{IsSound};
ghost use Rattle.wire_state.specs.Worlds.{Goes, Keeps, KeepsOk};

use crate::bodies::{Content, body, late};
use crate::faults::{Concerns, close_with, stream_fault};
use crate::heads::{head, trailers};
use crate::settings::settings;
use flow_gate::FlowId;
use flow_notes::{Cause, CloseCause, Notes};
use h2_frames::codes::{COMPRESSION_ERROR, ENHANCE_YOUR_CALM, FLOW_CONTROL_ERROR};
use h2_session::Act;
use h2_windows::Overflow;
use io_ports::{NoMemory, Octets};
use wire_ends::{Origin, doom, put};
use wire_inlet::{Reading, Taken};
use wire_outlet::Control;
use wire_state::{Task, WireCore};

/// The effect of a frame that was taken from a connection.
#[inline(always)]
pub(crate) fn take_act(
    core: &mut WireCore,
    number: u32,
    taken: Taken,
    notes: &mut Notes,
) -> Result<(), NoMemory>
    requires sound { IsSound core.old }
    ensures sound { OnOk result (IsSound core.new) }
    ensures go { OnOk result (to_go core.new ≤ to_go core.old + 300 + 392 * taken.content) }
    ensures notes { Appends notes.old notes.new }
    ensures octets { Goes result core.old notes.old core.new notes.new }
{
    let Taken {
        act,
        content,
        reading,
        is_update,
    } = taken;
    match act {
        Act::Body {
            stream,
            octets,
            padded,
            last,
        } => {
            let content = Content::of(octets, padded, content);
            body(core, number, stream, content, last, notes)
        }
        Act::Head { stream, last, .. } => head(core, number, stream, reading, last, notes),
        Act::WindowUp { stream, n } => window_up(core, number, stream, n, notes),
        act => {
            let taken = Taken {
                act,
                content,
                reading,
                is_update,
            };
            take_other(core, number, taken, notes)
        }
    }
}

// The effect of a frame whose act comes seldom.
#[cold]
#[inline(never)]
fn take_other(
    core: &mut WireCore,
    number: u32,
    taken: Taken,
    notes: &mut Notes,
) -> Result<(), NoMemory>
    requires sound { IsSound core.old }
    ensures sound { OnOk result (IsSound core.new) }
    ensures go { OnOk result (to_go core.new ≤ to_go core.old + 300 + 392 * taken.content) }
    ensures notes { Appends notes.old notes.new }
    ensures octets { Goes result core.old notes.old core.new notes.new }
{
    let Taken {
        act,
        content,
        reading,
        is_update,
    } = taken;
    match act {
        Act::Late { stream, .. } => late(core, number, stream, content, notes),
        Act::Trailers { stream, .. } => trailers(core, number, stream, reading, notes),
        Act::OldBlock { .. } => old_block(core, number, reading, notes),
        Act::StreamError { stream, code, .. } => {
            let fault = stream_fault(stream, code, content, Concerns::of(is_update));
            fault.take(core, number, reading, notes)
        }
        act => control(core, number, act, notes),
    }
}

// The effect of a frame without content and without a field block.
fn control(core: &mut WireCore, number: u32, act: Act, notes: &mut Notes) -> Result<(), NoMemory>
    requires sound { IsSound core.old }
    ensures sound { OnOk result (IsSound core.new) }
    ensures go { OnOk result (to_go core.new ≤ to_go core.old + 17) }
    ensures notes { Appends notes.old notes.new }
    ensures octets { Goes result core.old notes.old core.new notes.new }
{
    match act {
        Act::Settings { list } => settings(core, number, &list, notes),
        Act::Ping { octets } => ping(core, number, octets),
        Act::WindowUp { stream, n } => window_up(core, number, stream, n, notes),
        Act::PeerReset { stream, code } => peer_reset(core, number, stream, code, notes),
        Act::GoAway { last, .. } => goaway(core, number, last),
        Act::ConnError { code } => close_with(core, number, code, notes),
        _ => Ok(()),
    }
}

// A field block that only the decoder needed.
fn old_block(
    core: &mut WireCore,
    number: u32,
    reading: Reading,
    notes: &mut Notes,
) -> Result<(), NoMemory>
    requires sound { IsSound core.old }
    ensures sound { OnOk result (IsSound core.new) }
    ensures go { OnOk result (to_go core.new ≤ to_go core.old) }
    ensures notes { Appends notes.old notes.new }
    ensures octets { Goes result core.old notes.old core.new notes.new }
{
    match reading {
        Reading::Refused => close_with(core, number, COMPRESSION_ERROR, notes),
        _ => Ok(()),
    }
}

// The peer asks for an answer.
fn ping(core: &mut WireCore, number: u32, octets: Octets) -> Result<(), NoMemory>
    requires sound { IsSound core.old }
    ensures sound { OnOk result (IsSound core.new) }
    ensures go { OnOk result (to_go core.new ≤ to_go core.old + 6) }
    ensures octets { KeepsOk result core.old core.new }
{
    if octets.len() != 8 {
        return Ok(());
    }
    let control = Control::ping_ack(core.alloc, octets.as_slice())?;
    put(core, number, control)
}

// A send window grows.
fn window_up(
    core: &mut WireCore,
    number: u32,
    stream: u32,
    n: u32,
    notes: &mut Notes,
) -> Result<(), NoMemory>
    requires sound { IsSound core.old }
    ensures sound { OnOk result (IsSound core.new) }
    ensures go { OnOk result (to_go core.new ≤ to_go core.old + 17) }
    ensures notes { Appends notes.old notes.new }
    ensures octets { Goes result core.old notes.old core.new notes.new }
{
    if stream == 0 {
        return conn_window_up(core, number, n, notes);
    }
    let Some(course) = core.flow_to(number, stream) else {
        return Ok(());
    };
    core.ask_run(course)?;
    if widen(core, number, course.flow.exchange, n).is_err() {
        let fault = stream_fault(stream, FLOW_CONTROL_ERROR, 0, Concerns::Outgoing);
        return fault.end(core, number, notes);
    }
    core.refresh(course)
}

fn widen(core: &mut WireCore, number: u32, exchange: u64, n: u32) -> Result<(), Overflow>
    requires sound { IsSound core.old }
    ensures sound { IsSound core.new }
    ensures go { to_go core.new ≤ to_go core.old }
    ensures rest { core.new ≡ record core.old { conns = core.new.conns } }
    ensures octets { Keeps core.old core.new }
{
    match core.conns.get_mut(&number) {
        Some(conn) => conn.widen(exchange, n),
        None => Ok(()),
    }
}

// The send window of the connection grows.
fn conn_window_up(
    core: &mut WireCore,
    number: u32,
    n: u32,
    notes: &mut Notes,
) -> Result<(), NoMemory>
    requires sound { IsSound core.old }
    ensures sound { OnOk result (IsSound core.new) }
    ensures go { OnOk result (to_go core.new ≤ to_go core.old) }
    ensures notes { Appends notes.old notes.new }
    ensures octets { Goes result core.old notes.old core.new notes.new }
{
    if widen_conn(core, number, n).is_err() {
        return close_with(core, number, FLOW_CONTROL_ERROR, notes);
    }
    Ok(())
}

fn widen_conn(core: &mut WireCore, number: u32, n: u32) -> Result<(), Overflow>
    requires sound { IsSound core.old }
    ensures sound { IsSound core.new }
    ensures go { to_go core.new ≤ to_go core.old }
    ensures rest { core.new ≡ record core.old { conns = core.new.conns } }
    ensures octets { Keeps core.old core.new }
{
    match core.conns.get_mut(&number) {
        Some(conn) => conn.widen_conn(n),
        None => Ok(()),
    }
}

// The peer reset a stream. A client that resets more than it may has its connection closed after the doom.
fn peer_reset(
    core: &mut WireCore,
    number: u32,
    stream: u32,
    code: u32,
    notes: &mut Notes,
) -> Result<(), NoMemory>
    requires sound { IsSound core.old }
    ensures sound { OnOk result (IsSound core.new) }
    ensures go { OnOk result (to_go core.new ≤ to_go core.old + 10) }
    ensures notes { Appends notes.old notes.new }
    ensures octets { Goes result core.old notes.old core.new notes.new }
{
    let Some(course) = core.flow_from(number, stream) else {
        return Ok(());
    };
    let FlowId { exchange, back } = course.flow;
    core.ask_run(course)?;
    close_resetting(core, number, back)?;
    doom(
        core,
        exchange,
        Cause::PeerReset { code },
        Origin::of(course.flow),
        notes,
    )
}

// A client that reset more streams than it may has its connection closed.
fn close_resetting(core: &mut WireCore, number: u32, back: bool) -> Result<(), NoMemory>
    requires sound { IsSound core.old }
    ensures sound { OnOk result (IsSound core.new) }
    ensures go { OnOk result (to_go core.new ≤ to_go core.old + 1) }
    ensures octets { KeepsOk result core.old core.new }
{
    if back || !resets_too_often(core, number) {
        return Ok(());
    }
    core.begin(Task::Close {
        conn: number,
        code: ENHANCE_YOUR_CALM,
        cause: CloseCause::Flood,
    })
}

// Counts a reset by a client. The answer is whether there were more than it may have.
fn resets_too_often(core: &mut WireCore, number: u32) -> bool
    requires sound { IsSound core.old }
    ensures sound { IsSound core.new }
    ensures go { to_go core.new ≤ to_go core.old }
    ensures octets { Keeps core.old core.new }
{
    let most = core.config.limits.peer_resets;
    match core.conns.get_mut(&number) {
        Some(conn) => conn.was_reset(most),
        None => false,
    }
}

// The peer leaves: a cluster's connection is chosen no more, and what it didn't take up is lost.
fn goaway(core: &mut WireCore, number: u32, last: u32) -> Result<(), NoMemory>
    requires sound { IsSound core.old }
    ensures sound { OnOk result (IsSound core.new) }
    ensures go { OnOk result (to_go core.new ≤ to_go core.old + 1) }
    ensures octets { KeepsOk result core.old core.new }
{
    if !leaves(core, number, last) {
        return Ok(());
    }
    core.links.drain(number, last);
    core.begin(Task::Losses {
        conn: number,
        last: Some(last),
    })
}

fn leaves(core: &mut WireCore, number: u32, last: u32) -> bool
    requires sound { IsSound core.old }
    ensures sound { IsSound core.new }
    ensures go { to_go core.new ≤ to_go core.old }
    ensures octets { Keeps core.old core.new }
{
    match core.conns.get_mut(&number) {
        Some(conn) => conn.peer_leaves(last),
        None => false,
    }
}
