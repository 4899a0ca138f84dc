// Passes: what came of a flow is framed at once, where nothing else goes next at the connection that it goes to.
ghost use Rattle.exchange_core.specs.Units.{IsFrameable};
ghost use Rattle.flow_rules.specs.declared.unit.Unit.TheVariants.{Head};
ghost use Rattle.std.specs.Prelude.{◌≡◌, ◌≤◌, ◌+◌, ◌++◌, IfNone, IfSome, OnOk, true};
ghost use Rattle.wire_flows.specs.Flows.{IsThere, flow_in, is_live_in};
ghost use Rattle.wire_flows.specs.Writes.{watchers_on};
ghost use Rattle.wire_out.specs.Opening.{IsUnframed};
ghost use Rattle.wire_state.specs.Agenda.{top_go};
ghost use Rattle.wire_state.specs.Noting.{Appends, framed_of};
ghost use Rattle.wire_state.specs.Progress.{conn_go, to_go};
ghost use Rattle.wire_state.specs.Sound.{IsSound};
ghost use Rattle.wire_state.specs.Worlds.{Goes, Keeps, stream_in};

use crate::drains::{drain_at, drain_on};
use crate::lists::frame_list;
use crate::runs::{ask_drain, drain_both, next_from};
use crate::units::{Going, body_framed, going_to, write_body};
use exchange_core::Unit;
use flow_gate::FlowId;
use flow_notes::Notes;
use io_ports::NoMemory;
use wire_flows::{Framed, WireFlows};
use wire_state::{Conn, Course, NextUnit, Task, WireCore};

/// Octets of a flow that is being run moved: the connection that it goes to is drained. Where nothing else goes next there, they are
/// framed at once, and what goes next of the flow isn't looked up before.
pub(crate) fn pass_body(
    core: &mut WireCore,
    course: Course,
    notes: &mut Notes,
) -> Result<(), NoMemory>
    requires sound { IsSound core.old }
    ensures sound { OnOk result (IsSound core.new) }
    ensures go { OnOk result (to_go core.new ≤ to_go core.old) }
    ensures notes { Appends notes.old notes.new }
    ensures octets { Goes result core.old notes.old core.new notes.new }
{
    match free_way(core, course) {
        Some(to) => frame_moved(core, course, to, notes),
        None => look_and_drain(core, course, notes),
    }
}

// The octets that moved are framed at the connection that the flow goes to.
fn frame_moved(
    core: &mut WireCore,
    course: Course,
    to: u32,
    notes: &mut Notes,
) -> Result<(), NoMemory>
    requires sound { IsSound core.old }
    ensures sound { OnOk result (IsSound core.new) }
    ensures go { OnOk result (to_go core.new ≤ to_go core.old) }
    ensures notes { Appends notes.old notes.new }
    ensures octets { Goes result core.old notes.old core.new notes.new }
{
    let Some(going) = going_to(core, to, course.flow.exchange) else {
        return look_and_drain(core, course, notes);
    };
    // A flow that goes somewhere is live.
    core.flows.are_sound();
    frame_octets(core, going, notes)
}

// The octets of a flow that is being run are framed, unless something else of it goes next.
fn frame_octets(core: &mut WireCore, going: Going, notes: &mut Notes) -> Result<(), NoMemory>
    requires sound { IsSound core.old }
    requires there { IsThere core.old.flows going.course.flow }
    requires stream { going.stream ≡ stream_in core.old.links going.course.flow }
    ensures sound { OnOk result (IsSound core.new) }
    ensures go { OnOk result (to_go core.new ≤ to_go core.old) }
    ensures notes { Appends notes.old notes.new }
    ensures octets { Goes result core.old notes.old core.new notes.new }
{
    let Some(framed) = write_body(core, going)? else {
        return look_and_drain(core, going.course, notes);
    };
    drain_behind(core, going, framed, notes)
}

// A DATA frame of a flow that is being run went into the write buffer: the drain goes on behind it, and then the run.
fn drain_behind(
    core: &mut WireCore,
    going: Going,
    framed: Framed,
    notes: &mut Notes,
) -> Result<(), NoMemory>
    requires sound { IsSound core.old }
    ensures sound { OnOk result (IsSound core.new) }
    ensures go { OnOk result (to_go core.new ≤ to_go core.old + 40) }
    ensures notes { Appends notes.old notes.new }
    ensures octets { Goes result core.old (notes.old ++ framed_of going.conn going.course.flow framed (watchers_on going.conn core.old.flows)) core.new notes.new }
{
    core.begin(Task::Drain(going.conn))?;
    body_framed(core, going, framed, notes)?;
    drain_on(core, going.conn, notes)?;
    end_run(core, going.course, notes)
}

// Where the run of a flow goes on next and the flow has no octets left, the run ends.
fn end_run(core: &mut WireCore, course: Course, notes: &mut Notes) -> Result<(), NoMemory>
    requires sound { IsSound core.old }
    ensures sound { OnOk result (IsSound core.new) }
    ensures go { OnOk result (to_go core.new ≤ to_go core.old) }
    ensures notes { Appends notes.old notes.new }
    ensures octets { Goes result core.old notes.old core.new notes.new }
{
    if runs_on(core, course.flow) && !core.flows.holds(course.flow) {
        core.end_task();
        return drain_both(core, course, notes);
    }
    Ok(())
}

// Whether the run of a flow goes on next.
#[tactic(auto, using(crate::proofs::Framing::top_weight))]
fn runs_on(core: &WireCore, flow: FlowId) -> bool
    ensures { result ≡ true → top_go core.entry.now.agenda ≡ 6 }
{
    match core.agenda.top() {
        Some(
            Task::Run {
                course,
                tried: false,
            },
        ) => course.flow == flow,
        _ => false,
    }
}

// What goes next of a flow is looked up, and the connection that it goes to is drained.
fn look_and_drain(core: &mut WireCore, course: Course, notes: &mut Notes) -> Result<(), NoMemory>
    requires sound { IsSound core.old }
    ensures sound { OnOk result (IsSound core.new) }
    ensures go { OnOk result (to_go core.new ≤ to_go core.old) }
    ensures notes { Appends notes.old notes.new }
    ensures octets { Goes result core.old notes.old core.new notes.new }
{
    core.touch(course.flow.exchange)?;
    core.refresh(course)?;
    drain_at(core, course.to, notes)
}

/// A flow without octets is run: both its connections are drained. Where a list of it may be framed, and nothing else goes next at
/// the connection that it goes to, that is framed at once.
#[tactic(auto, using(crate::proofs::Framing::as_list))]
pub(crate) fn pass_list(
    core: &mut WireCore,
    course: Course,
    notes: &mut Notes,
) -> Result<(), NoMemory>
    requires sound { IsSound core.old }
    ensures sound { OnOk result (IsSound core.new) }
    ensures go { OnOk result (to_go core.new ≤ to_go core.old + 2) }
    ensures notes { Appends notes.old notes.new }
    ensures octets { Goes result core.old notes.old core.new notes.new }
{
    // Without octets, what goes next doesn't depend on any window.
    match core.flows.unit_of(course.flow, 0, 0) {
        Some(Unit::Head { last }) => frame_waiting_list(core, course, last, notes),
        Some(Unit::Trailers) => frame_waiting_list(core, course, true, notes),
        _ => drain_both(core, course, notes),
    }
}

// A list of a flow may be framed, with its end where `last` holds. Where that can't be at once, the connection that the flow goes to
// has something more to frame.
fn frame_waiting_list(
    core: &mut WireCore,
    course: Course,
    last: bool,
    notes: &mut Notes,
) -> Result<(), NoMemory>
    requires sound { IsSound core.old }
    requires live { is_live_in core.old.flows course.flow.exchange ≡ true }
    requires there { IsThere core.old.flows course.flow }
    requires unit { IfSome (flow_in core.old.flows course.flow) (IsFrameable (Head last)) }
    ensures sound { OnOk result (IsSound core.new) }
    ensures go { OnOk result (to_go core.new ≤ to_go core.old + 2) }
    ensures notes { Appends notes.old notes.new }
    ensures octets { Goes result core.old notes.old core.new notes.new }
{
    match way_of(core, course) {
        Some(going) => drain_list(core, going, last, notes),
        None => look_and_drain_both(core, course, notes),
    }
}

// The way of a flow to the connection that it goes to, where nothing goes next there.
#[inline(always)]
fn way_of(core: &mut WireCore, course: Course) -> Option<Going>
    requires sound { IsSound core.old }
    ensures sound { IsSound core.new }
    ensures go { to_go core.new ≤ to_go core.old }
    ensures rest { core.new ≡ record core.old { conns = core.new.conns } }
    ensures flow { IfSome result (λ going. going.course.flow ≡ course.flow) }
    ensures unframed { IfSome result (λ going. IfNone going.stream (IsUnframed going.conn going.course.flow.exchange core.new.links)) }
    ensures octets { Keeps core.old core.new }
{
    let to = free_way(core, course)?;
    let going = going_to(core, to, course.flow.exchange)?;
    Some(Going {
        conn: going.conn,
        course,
        stream: going.stream,
    })
}

// The connection that a flow goes to is drained, the list of the flow first. The one that it comes from is drained behind it.
fn drain_list(
    core: &mut WireCore,
    going: Going,
    last: bool,
    notes: &mut Notes,
) -> Result<(), NoMemory>
    requires sound { IsSound core.old }
    requires live { is_live_in core.old.flows going.course.flow.exchange ≡ true }
    requires there { IsThere core.old.flows going.course.flow }
    requires unframed { IfNone going.stream (IsUnframed going.conn going.course.flow.exchange core.old.links) }
    requires unit { IfSome (flow_in core.old.flows going.course.flow) (IsFrameable (Head last)) }
    ensures sound { OnOk result (IsSound core.new) }
    ensures go { OnOk result (to_go core.new ≤ to_go core.old + 2) }
    ensures notes { Appends notes.old notes.new }
    ensures octets { Goes result core.old notes.old core.new notes.new }
{
    let from = next_from(core, going.course.from);
    ask_drain(core, from)?;
    core.begin(Task::Drain(going.conn))?;
    frame_list(core, going, last, notes)?;
    drain_on(core, going.conn, notes)
}

// What goes next of a flow without octets is looked up, and both its connections are drained.
fn look_and_drain_both(
    core: &mut WireCore,
    course: Course,
    notes: &mut Notes,
) -> Result<(), NoMemory>
    requires sound { IsSound core.old }
    ensures sound { OnOk result (IsSound core.new) }
    ensures go { OnOk result (to_go core.new ≤ to_go core.old + 2) }
    ensures notes { Appends notes.old notes.new }
    ensures octets { Goes result core.old notes.old core.new notes.new }
{
    core.refresh(course)?;
    drain_both(core, course, notes)
}

// The connection that a flow goes to, where units may be framed, none of another exchange goes next, and it isn't being drained.
#[inline(always)]
fn free_way(core: &mut WireCore, course: Course) -> Option<u32>
    requires sound { IsSound core.old }
    ensures sound { IsSound core.new }
    ensures go { to_go core.new ≤ to_go core.old }
    ensures rest { core.new ≡ record core.old { conns = core.new.conns } }
    ensures octets { Keeps core.old core.new }
{
    let to = course.to?;
    if core.stirred.is_calm(to) || core.agenda.is_draining(to) {
        return None;
    }
    if goes_next(core, to, course.flow.exchange) {
        Some(to)
    } else {
        None
    }
}

// Whether units may be framed at a connection, and none but one of this exchange goes next.
#[inline(always)]
fn goes_next(core: &mut WireCore, number: u32, exchange: u64) -> bool
    requires sound { IsSound core.old }
    ensures sound { IsSound core.new }
    ensures go { to_go core.new ≤ to_go core.old }
    ensures rest { core.new ≡ record core.old { conns = core.new.conns } }
    ensures octets { Keeps core.old core.new }
{
    match core.conns.get_mut(&number) {
        Some(conn) => has_way(conn, &core.flows, exchange),
        None => false,
    }
}

#[inline(always)]
fn has_way(conn: &mut Conn, flows: &WireFlows, exchange: u64) -> bool
    ensures rest { conn.new ≡ record conn.old { credits = conn.new.credits } }
    ensures go { conn_go conn.new ≡ conn_go conn.old }
{
    if !conn.may_write() {
        return false;
    }
    match conn.next_unit(flows) {
        None => true,
        Some(NextUnit::Flow(next)) => next == exchange,
        Some(NextUnit::Body(next)) => next == exchange,
        Some(_) => false,
    }
}
