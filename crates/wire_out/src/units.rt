// Units of flows: heads, bodies and trailers.
ghost use Rattle.exchange_core.specs.Units.{IsFrameable};
ghost use Rattle.flow_notes.specs.declared.notes.Note.TheVariants as note;
ghost use Rattle.std.specs.Prelude.{◌≡◌, ◌≤◌, ◌+◌, IfNone, IfOk, IfSome, IsSome, MatchOption, OnOk, true, ◌++◌, ◌∷◌, [], Some};
ghost use Rattle.wire_flows.specs.Writes.{watchers_on};
ghost use Rattle.wire_flows.specs.Flows.{IsThere, flow_in, is_live_in};
ghost use Rattle.wire_links.specs.Links.{ends_of};
ghost use Rattle.wire_out.specs.Opening.{IsUnframed};
ghost use Rattle.wire_state.specs.Agenda.{stirred_at, top_go};
ghost use Rattle.wire_state.specs.Noting.{Appends, framed_of, told_of};
ghost use Rattle.wire_state.specs.Progress.{conn_go, to_go};
ghost use Rattle.wire_state.specs.Sound.{IsSound};
ghost use Rattle.wire_state.specs.Worlds.{Goes, Keeps, KeepsOk, Owes, stream_in};

use crate::drains::note_risen;
use crate::lists::frame_list;
use exchange_core::Unit;
use flow_gate::{BufferId, FlowId};
use flow_notes::{Note, Notes};
use io_ports::NoMemory;
use wire_ends::end_framed;
use wire_flows::Framed;
use wire_state::{Conn, Course, Task, WireCore, note};

/// A flow at the connection that it goes to: its stream there is none until a request's head is framed.
#[derive(Clone, Copy)]
pub(crate) struct Going {
    pub(crate) conn: u32,
    pub(crate) course: Course,
    pub(crate) stream: Option<u32>,
}

/// The next unit of the flow of an exchange that goes to a connection that is drained. Where there is none, the exchange isn't
/// ready any more. Where `body` is true, octets of the body went next when the flow was last asked: mostly they still do, and then
/// it isn't asked again.
pub(crate) fn frame_flow(
    core: &mut WireCore,
    conn: u32,
    exchange: u64,
    body: bool,
    notes: &mut Notes,
) -> Result<(), NoMemory>
    requires sound { IsSound core.old }
    requires top { top_go core.old.agenda ≡ 1 }
    ensures sound { OnOk result (IsSound core.new) }
    ensures go { OnOk result (to_go core.new + (1 + stirred_at conn core.old.stirred.conns.items) ≤ to_go core.old) }
    ensures notes { Appends notes.old notes.new }
    ensures octets { Goes result core.old notes.old core.new notes.new }
{
    let Some(going) = going_to(core, conn, exchange) else {
        unready(core, conn, exchange);
        return Ok(());
    };
    if body {
        // A flow that goes somewhere is live.
        core.flows.are_sound();
        return frame_body_first(core, going, notes);
    }
    frame_going(core, going, notes)
}

// A DATA frame of a flow, or what else of it goes next.
fn frame_body_first(core: &mut WireCore, going: Going, notes: &mut Notes) -> Result<(), NoMemory>
    requires sound { IsSound core.old }
    requires top { top_go core.old.agenda ≡ 1 }
    requires there { IsThere core.old.flows going.course.flow }
    requires unframed { IfNone going.stream (IsUnframed going.conn going.course.flow.exchange core.old.links) }
    requires stream { going.stream ≡ stream_in core.old.links going.course.flow }
    ensures sound { OnOk result (IsSound core.new) }
    ensures go { OnOk result (to_go core.new + (1 + stirred_at going.conn core.old.stirred.conns.items) ≤ to_go core.old) }
    ensures notes { Appends notes.old notes.new }
    ensures octets { Goes result core.old notes.old core.new notes.new }
{
    let Some(framed) = write_body(core, going)? else {
        return frame_going(core, going, notes);
    };
    body_framed(core, going, framed, notes)
}

// The unit of a flow that goes next.
#[tactic(auto, using(crate::proofs::Framing::as_list))]
fn frame_going(core: &mut WireCore, going: Going, notes: &mut Notes) -> Result<(), NoMemory>
    requires sound { IsSound core.old }
    requires top { top_go core.old.agenda ≡ 1 }
    requires unframed { IfNone going.stream (IsUnframed going.conn going.course.flow.exchange core.old.links) }
    requires stream { going.stream ≡ stream_in core.old.links going.course.flow }
    ensures sound { OnOk result (IsSound core.new) }
    ensures go { OnOk result (to_go core.new + (1 + stirred_at going.conn core.old.stirred.conns.items) ≤ to_go core.old) }
    ensures notes { Appends notes.old notes.new }
    ensures octets { Goes result core.old notes.old core.new notes.new }
{
    match unit_of(core, going) {
        Some(Unit::Head { last }) => frame_list(core, going, last, notes),
        Some(Unit::Trailers) => frame_list(core, going, true, notes),
        Some(Unit::Body { .. }) => frame_body(core, going, notes),
        Some(Unit::Nothing) | None => {
            unready(core, going.conn, going.course.flow.exchange);
            Ok(())
        }
    }
}

// The flow of an exchange that goes to a connection.
pub(crate) fn going_to(core: &WireCore, conn: u32, exchange: u64) -> Option<Going>
    ensures conn { IfSome result (λ going. going.conn ≡ conn) }
    ensures exchange { IfSome result (λ going. going.course.flow.exchange ≡ exchange) }
    ensures linked { IfSome result (λ going. IsSome (ends_of going.course.flow.exchange core.entry.now.links)) }
    ensures unframed { IfSome result (λ going. IfNone going.stream (IsUnframed conn exchange core.entry.now.links)) }
    ensures stream { IfSome result (λ going. going.stream ≡ stream_in core.entry.now.links going.course.flow) }
{
    let ends = core.links.ends_of(exchange)?;
    if ends.client == conn {
        let course = Course {
            flow: FlowId {
                exchange,
                back: true,
            },
            from: ends.cluster,
            to: Some(conn),
        };
        return Some(Going {
            conn,
            course,
            stream: Some(ends.stream),
        });
    }
    if ends.cluster != Some(conn) {
        return None;
    }
    let course = Course {
        flow: FlowId {
            exchange,
            back: false,
        },
        from: Some(ends.client),
        to: Some(conn),
    };
    Some(Going {
        conn,
        course,
        stream: ends.cluster_stream,
    })
}

// What of a flow may be framed now. None where it isn't live.
fn unit_of(core: &WireCore, going: Going) -> Option<Unit>
    ensures unit { IfSome result (λ unit. IfSome (flow_in core.entry.now.flows going.course.flow) (IsFrameable unit)) }
    ensures live { IsSome result → is_live_in core.entry.now.flows going.course.flow.exchange ≡ true }
    ensures there { IsSome result → IsThere core.entry.now.flows going.course.flow }
{
    let flow = going.course.flow;
    let conn = core.conns.get(&going.conn)?;
    let room = conn.room(flow.exchange);
    core.flows.unit_of(flow, room, conn.windows.send.payload())
}

/// The exchange has no unit for a connection that is drained.
pub(crate) fn unready(core: &mut WireCore, number: u32, exchange: u64)
    requires sound { IsSound core.old }
    requires top { top_go core.old.agenda ≡ 1 }
    ensures sound { IsSound core.new }
    ensures go { to_go core.new + (1 + stirred_at number core.old.stirred.conns.items) ≤ to_go core.old }
    ensures octets { Keeps core.old core.new }
{
    forget_hint(core, number, exchange);
    core.give_up(number);
}

fn forget_hint(core: &mut WireCore, number: u32, exchange: u64)
    requires sound { IsSound core.old }
    ensures sound { IsSound core.new }
    ensures go { to_go core.new ≤ to_go core.old }
    ensures rest { core.new ≡ record core.old { conns = core.new.conns } }
    ensures octets { Keeps core.old core.new }
{
    match core.conns.get_mut(&number) {
        Some(conn) => drop_hint(conn, exchange),
        None => {}
    }
}

#[tactic(auto, unfolding(wire_state::specs::Progress::conn_go))]
fn drop_hint(conn: &mut Conn, exchange: u64)
    ensures rest { conn.new ≡ record conn.old { ready = conn.new.ready } }
    ensures go { conn_go conn.new ≡ conn_go conn.old }
{
    conn.ready.remove(exchange);
}

// A DATA frame of a flow, and what it begins.
fn frame_body(core: &mut WireCore, going: Going, notes: &mut Notes) -> Result<(), NoMemory>
    requires sound { IsSound core.old }
    requires top { top_go core.old.agenda ≡ 1 }
    requires there { IsThere core.old.flows going.course.flow }
    requires stream { going.stream ≡ stream_in core.old.links going.course.flow }
    ensures sound { OnOk result (IsSound core.new) }
    ensures go { OnOk result (to_go core.new + (1 + stirred_at going.conn core.old.stirred.conns.items) ≤ to_go core.old) }
    ensures notes { Appends notes.old notes.new }
    ensures octets { Goes result core.old notes.old core.new notes.new }
{
    let Some(framed) = write_body(core, going)? else {
        unready(core, going.conn, going.course.flow.exchange);
        return Ok(());
    };
    body_framed(core, going, framed, notes)
}

// A DATA frame of a flow went into the write buffer: it is noted, with what it begins.
#[inline(always)]
pub(crate) fn body_framed(
    core: &mut WireCore,
    going: Going,
    framed: Framed,
    notes: &mut Notes,
) -> Result<(), NoMemory>
    requires sound { IsSound core.old }
    ensures sound { OnOk result (IsSound core.new) }
    ensures go { OnOk result (to_go core.new + (1 + stirred_at going.conn core.old.stirred.conns.items) ≤ to_go core.old + 40) }
    ensures notes { Appends notes.old notes.new }
    ensures octets { Goes result core.old (notes.old ++ framed_of going.conn going.course.flow framed (watchers_on going.conn core.old.flows)) core.new notes.new }
{
    let flow = going.course.flow;
    core.stir_course(going.course)?;
    core.touch(flow.exchange)?;
    note(
        notes,
        Note::Frame {
            conn: going.conn,
            flow,
            n: framed.n,
            last: framed.last,
        },
    )?;
    note_risen(core, going.conn, framed.rose, notes)?;
    end_or_resume(core, going.course, framed, notes)
}

// What a DATA frame begins. Where the send buffer of its flow has drained, the flow runs before it is looked at whether its
// exchange is done.
#[inline(always)]
fn end_or_resume(
    core: &mut WireCore,
    course: Course,
    framed: Framed,
    notes: &mut Notes,
) -> Result<(), NoMemory>
    requires sound { IsSound core.old }
    ensures sound { OnOk result (IsSound core.new) }
    ensures go { OnOk result (to_go core.new ≤ to_go core.old + 10) }
    ensures notes { Appends notes.old notes.new }
    ensures octets { Goes result core.old (notes.old ++ told_of framed.drained course.flow) core.new notes.new }
{
    let exchange = course.flow.exchange;
    if !framed.drained {
        return end_where(core, exchange, framed.last, notes);
    }
    ask_end(core, exchange, framed.last)?;
    resume(core, course, notes)
}

// The octets of a DATA frame go from the send buffer into the write buffer, under both windows. None where there is no such
// frame.
#[inline(always)]
pub(crate) fn write_body(core: &mut WireCore, going: Going) -> Result<Option<Framed>, NoMemory>
    requires sound { IsSound core.old }
    requires there { IsThere core.old.flows going.course.flow }
    requires stream { going.stream ≡ stream_in core.old.links going.course.flow }
    ensures sound { OnOk result (IsSound core.new) }
    ensures go { IfOk result (λ framed. MatchOption framed (to_go core.new ≤ to_go core.old) (λ f. to_go core.new + 40 ≤ to_go core.old)) }
    ensures rest { core.new ≡ record core.old { conns = core.new.conns; flows = core.new.flows } }
    ensures octets { IfOk result (λ framed. MatchOption framed (Keeps core.old core.new) (λ f. Owes (framed_of going.conn going.course.flow f (watchers_on going.conn core.new.flows)) core.old core.new)) }
{
    match going.stream {
        Some(stream) => write_body_on(core, going.conn, going.course.flow, stream),
        None => Ok(None),
    }
}

#[inline(always)]
fn write_body_on(
    core: &mut WireCore,
    number: u32,
    flow: FlowId,
    stream: u32,
) -> Result<Option<Framed>, NoMemory>
    requires sound { IsSound core.old }
    requires there { IsThere core.old.flows flow }
    requires stream { stream_in core.old.links flow ≡ Some stream }
    ensures sound { OnOk result (IsSound core.new) }
    ensures go { IfOk result (λ framed. MatchOption framed (to_go core.new ≤ to_go core.old) (λ f. to_go core.new + 40 ≤ to_go core.old)) }
    ensures rest { core.new ≡ record core.old { conns = core.new.conns; flows = core.new.flows } }
    ensures octets { IfOk result (λ framed. MatchOption framed (Keeps core.old core.new) (λ f. Owes (framed_of number flow f (watchers_on number core.new.flows)) core.old core.new)) }
{
    let quantum = core.config.limits.quantum;
    match core.conns.get_mut(&number) {
        Some(conn) => conn.write_body(&mut core.flows, flow, number, stream, quantum),
        None => Ok(None),
    }
}

// Where the end of a flow of the exchange was framed, it is looked at whether it is done, behind what goes on before.
fn ask_end(core: &mut WireCore, exchange: u64, last: bool) -> Result<(), NoMemory>
    requires sound { IsSound core.old }
    ensures sound { OnOk result (IsSound core.new) }
    ensures go { OnOk result (to_go core.new ≤ to_go core.old + 1) }
    ensures rest { core.new ≡ record core.old { agenda = core.new.agenda } }
    ensures octets { KeepsOk result core.old core.new }
{
    if last {
        return core.begin(Task::End(exchange));
    }
    Ok(())
}

/// Where the end of a flow of the exchange was framed, it is looked at whether it is done.
pub(crate) fn end_where(
    core: &mut WireCore,
    exchange: u64,
    last: bool,
    notes: &mut Notes,
) -> Result<(), NoMemory>
    requires sound { IsSound core.old }
    ensures sound { OnOk result (IsSound core.new) }
    ensures go { OnOk result (to_go core.new ≤ to_go core.old) }
    ensures notes { Appends notes.old notes.new }
    ensures octets { Goes result core.old notes.old core.new notes.new }
{
    if last {
        return end_framed(core, exchange, notes);
    }
    Ok(())
}

// The send buffer of a flow has drained: the flow is told, and runs.
fn resume(core: &mut WireCore, course: Course, notes: &mut Notes) -> Result<(), NoMemory>
    requires sound { IsSound core.old }
    ensures sound { OnOk result (IsSound core.new) }
    ensures go { OnOk result (to_go core.new ≤ to_go core.old + 9) }
    ensures notes { Appends notes.old notes.new }
    ensures octets { Goes result core.old (notes.old ++ note.Resume course.flow (BufferId.Send course.flow) ∷ []) core.new notes.new }
{
    let flow = course.flow;
    core.look_due(course)?;
    core.ask_run(course)?;
    note(
        notes,
        Note::Resume {
            flow,
            buffer: BufferId::Send(flow),
        },
    )
}
