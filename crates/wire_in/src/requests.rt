// Heads of requests: an exchange begins.
ghost use Rattle.proxy_config.specs.Ranges.{IsBetween, IsInRange, most_octets};
ghost use Rattle.std.specs.Option.{ForSome, option_copied};
ghost use Rattle.std.specs.Prelude.{◌≡◌, ◌<◌, ◌≤◌, ◌+◌, ◌^◌, IfSome, IsSome, None, OnOk, false, length, true, ◌∷◌, IfOk};
ghost use Rattle.wire_flows.specs.Writes.{write_at};
ghost use Rattle.wire_links.specs.Links.{cluster_of, exchange_at, is_client};
ghost use Rattle.wire_state.specs.Noting.{Appends, conn_number, held_of, hold_of};
ghost use Rattle.wire_state.specs.Progress.{to_go};
ghost use Rattle.wire_state.specs.Sound.{IsSound};
ghost use Rattle.wire_state.specs.Worlds.{Goes, Keeps, KeepsOk, Owes, Pays};
ghost use Rattle.flow_notes.specs.declared.notes.Note.TheVariants as note;

use crate::heads::{self, finish_where};
use exchange_core::{Awaited, StartSpec};
use flow_gate::{BufferId, FlowId};
use flow_notes::{Cause, FireKind, Note, Notes};
use h2_frames::codes::PROTOCOL_ERROR;
use hpack_codec::FieldList;
use io_ports::NoMemory;
use wire_ends::{Origin, doom};
use wire_flows::Started;
use wire_heads::{Decision, Expected, Judged, judge_request, place};
use wire_load::Action;
use wire_state::{Course, Lengths, WireCore, note};

/// The head of a request came on a stream of a client's connection.
pub(crate) fn request(
    core: &mut WireCore,
    number: u32,
    stream: u32,
    fields: Option<FieldList>,
    last: bool,
    notes: &mut Notes,
) -> Result<(), NoMemory>
    requires sound { IsSound core.old }
    requires client { is_client number core.old.links ≡ true }
    requires few { ForSome fields (λ list. length list < 2 ^ 32) }
    ensures sound { OnOk result (IsSound core.new) }
    ensures go { OnOk result (to_go core.new ≤ to_go core.old + 300) }
    ensures notes { Appends notes.old notes.new }
    ensures octets { Goes result core.old notes.old core.new notes.new }
{
    if ignores(core, number, stream) || !is_unused(core, number, stream) {
        return Ok(());
    }
    let decision = decide(core, fields.as_ref(), last);
    let course = begin(core, number, stream, &decision, notes)?;
    core.ask_run(course)?;
    let cause = match decision {
        Decision::Going { .. } => return go(core, course, stream, fields, last),
        Decision::Refused { status, .. } => Cause::Refused { status },
        Decision::Malformed => Cause::StreamError {
            code: PROTOCOL_ERROR,
        },
        Decision::Overload => Cause::Overload,
    };
    finish_where(core, course.flow, last)?;
    doom(core, course.flow.exchange, cause, Origin::Neither, notes)
}

// A request goes on, whose flow began just now.
#[inline(always)]
fn go(
    core: &mut WireCore,
    course: Course,
    stream: u32,
    fields: Option<FieldList>,
    last: bool,
) -> Result<(), NoMemory>
    requires sound { IsSound core.old }
    ensures sound { OnOk result (IsSound core.new) }
    ensures go { OnOk result (to_go core.new ≤ to_go core.old + 41) }
    ensures octets { KeepsOk result core.old core.new }
{
    match core.flows.awaits(course.flow) {
        Awaited::Head => heads::begin(core, course, stream, fields, last),
        _ => Ok(()),
    }
}

// Whether a connection takes no later streams: then the stream is closed.
fn ignores(core: &mut WireCore, number: u32, stream: u32) -> bool
    requires sound { IsSound core.old }
    ensures sound { IsSound core.new }
    ensures go { to_go core.new ≤ to_go core.old }
    ensures rest { core.new ≡ record core.old { conns = core.new.conns } }
    ensures octets { Keeps core.old core.new }
{
    match core.conns.get_mut(&number) {
        Some(conn) => conn.ignores(stream),
        None => true,
    }
}

// Whether no exchange is on the stream, and the write buffer of the connection is known.
fn is_unused(core: &WireCore, number: u32, stream: u32) -> bool
    ensures write { result ≡ true → IsSome (write_at number core.entry.now.flows) }
    ensures unused { result ≡ true → exchange_at number stream core.entry.now.links ≡ None }
{
    match core.links.exchange_at(number, stream) {
        Some(_) => false,
        None => core.flows.knows_write(number),
    }
}

// What becomes of a request.
fn decide(core: &WireCore, fields: Option<&FieldList>, last: bool) -> Decision
    requires range { IsInRange core.now.config }
    requires few { ForSome (option_copied fields) (λ list. length list < 2 ^ 32) }
{
    let stops = core.load.is_saturated(Action::StopRequests);
    match judge_request(&core.config, fields, last, stops) {
        Judged::Decided(decision) => decision,
        Judged::Choose(routed) => place(routed, core.links.choose(routed.cluster)),
    }
}

// The exchange begins, with its pauses.
fn begin(
    core: &mut WireCore,
    number: u32,
    stream: u32,
    decision: &Decision,
    notes: &mut Notes,
) -> Result<Course, NoMemory>
    requires sound { IsSound core.old }
    requires from { IsSome (write_at number core.old.flows) }
    requires client { is_client number core.old.links ≡ true }
    requires unused { exchange_at number stream core.old.links ≡ None }
    ensures sound { OnOk result (IsSound core.new) }
    ensures go { OnOk result (to_go core.new ≤ to_go core.old + 225) }
    ensures notes { Appends notes.old notes.new }
    ensures octets { Goes result core.old notes.old core.new notes.new }
{
    let (row, to) = goal_of(core, decision);
    let started = start(core, number, stream, row, to)?;
    let exchange = started.exchange;
    core.lengths.put(exchange, lengths_of(decision))?;
    core.disarm(FireKind::ConnectionIdle, u64::from(number));
    core.arm(FireKind::StreamIdle, exchange)?;
    begin_stream(core, number, exchange)?;
    note(
        notes,
        Note::Start {
            exchange,
            conn: number,
            stream,
            to: to.unwrap_or(0),
        },
    )?;
    note_held(started, number, to, notes)?;
    Ok(Course {
        flow: FlowId::request(exchange),
        from: Some(number),
        to,
    })
}

// The row of a request, and the connection that it goes to, if there are.
fn goal_of(core: &WireCore, decision: &Decision) -> (Option<u32>, Option<u32>)
    ensures row { IfSome result.0 (λ row. row < length core.entry.now.config.routes) }
    ensures to { IfSome result.1 (λ c. IsSome (write_at c core.entry.now.flows)) }
    ensures cluster { IfSome result.1 (λ c. IsSome (cluster_of c core.entry.now.links)) }
{
    match decision {
        Decision::Going { routed, conn } => {
            (known_row(core, Some(routed.row)), known_conn(core, *conn))
        }
        Decision::Refused { row, .. } => (known_row(core, *row), None),
        _ => (None, None),
    }
}

fn known_row(core: &WireCore, row: Option<u32>) -> Option<u32>
    ensures { IfSome result (λ row. row < length core.entry.now.config.routes) }
{
    match row {
        Some(row) if row < core.config.routes.len() => Some(row),
        _ => None,
    }
}

// The connection, where it is one to a cluster whose write buffer is known.
fn known_conn(core: &WireCore, conn: u32) -> Option<u32>
    ensures write { IfSome result (λ c. IsSome (write_at c core.entry.now.flows)) }
    ensures cluster { IfSome result (λ c. IsSome (cluster_of c core.entry.now.links)) }
{
    if core.flows.knows_write(conn) && core.links.cluster_of(conn).is_some() {
        Some(conn)
    } else {
        None
    }
}

// The exchange starts, and is linked.
fn start(
    core: &mut WireCore,
    number: u32,
    stream: u32,
    row: Option<u32>,
    to: Option<u32>,
) -> Result<Started, NoMemory>
    requires sound { IsSound core.old }
    requires row { IfSome row (λ row. row < length core.old.config.routes) }
    requires from { IsSome (write_at number core.old.flows) }
    requires client { is_client number core.old.links ≡ true }
    requires unused { exchange_at number stream core.old.links ≡ None }
    requires to { IfSome to (λ c. IsSome (write_at c core.old.flows)) }
    requires cluster { IfSome to (λ c. IsSome (cluster_of c core.old.links)) }
    ensures sound { OnOk result (IsSound core.new) }
    ensures go { OnOk result (to_go core.new ≤ to_go core.old + 144) }
    ensures octets { IfOk result (λ s. Owes (note.Start s.exchange number stream (conn_number to) ∷ held_of s number to) core.old core.new) }
{
    let spec = spec_of(core, number, stream, row, to);
    let started = core.flows.start(&spec, &core.config)?;
    core.links.start(started.exchange, number, stream, to)?;
    core.rows.push(row)?;
    Ok(started)
}

fn begin_stream(core: &mut WireCore, number: u32, exchange: u64) -> Result<(), NoMemory>
    requires sound { IsSound core.old }
    ensures sound { OnOk result (IsSound core.new) }
    ensures go { to_go core.new ≤ to_go core.old }
    ensures octets { KeepsOk result core.old core.new }
{
    match core.conns.get_mut(&number) {
        Some(conn) => conn.begin(exchange),
        None => Ok(()),
    }
}

// How an exchange begins on a stream of a client's connection, by its row and the connection chosen.
fn spec_of(
    core: &WireCore,
    number: u32,
    stream: u32,
    row: Option<u32>,
    to: Option<u32>,
) -> StartSpec
    requires { IsInRange core.now.config }
    ensures wire { result.plain ≡ false }
    ensures recv { result.recv ≤ most_octets }
    ensures send { result.send ≤ most_octets }
    ensures quantum { IsBetween 16384 1048576 result.quantum }
    ensures limits { (result.recv ≡ core.entry.now.config.limits.stream_window) × (result.send ≡ core.entry.now.config.limits.send_buffer) × (result.quantum ≡ core.entry.now.config.limits.quantum) }
    ensures ends { (result.from_conn ≡ number) × (result.to_conn ≡ to) }
    ensures rest { (result.row ≡ row) × (result.now ≡ core.entry.now.now) }
{
    let limits = &core.config.limits;
    StartSpec {
        plain: false,
        from_conn: number,
        from_stream: stream,
        to_conn: to,
        row,
        recv: limits.stream_window,
        send: limits.send_buffer,
        quantum: limits.quantum,
        now: core.now,
    }
}

// The pauses of flows that a write buffer holds back from the start.
#[inline(always)]
fn note_held(
    started: Started,
    number: u32,
    to: Option<u32>,
    notes: &mut Notes,
) -> Result<(), NoMemory>
    ensures notes { Appends notes.old notes.new }
    ensures paid { Pays result (held_of started number to) notes.old notes.new }
{
    let exchange = started.exchange;
    note_hold(FlowId::request(exchange), started.request_held, to, notes)?;
    note_hold(
        FlowId::response(exchange),
        started.response_held,
        Some(number),
        notes,
    )
}

// The pause of a flow, where the write buffer of the connection that it goes to holds it back.
#[inline(always)]
fn note_hold(flow: FlowId, held: bool, to: Option<u32>, notes: &mut Notes) -> Result<(), NoMemory>
    ensures notes { Appends notes.old notes.new }
    ensures paid { Pays result (hold_of flow held to) notes.old notes.new }
{
    let Some(to) = to else {
        return Ok(());
    };
    if !held {
        return Ok(());
    }
    note(
        notes,
        Note::Pause {
            flow,
            buffer: BufferId::Write(to),
        },
    )
}

fn lengths_of(decision: &Decision) -> Lengths {
    match decision {
        Decision::Going { routed, .. } => Lengths {
            request: routed.request,
            response: routed.response,
        },
        _ => Lengths {
            request: any(),
            response: any(),
        },
    }
}

fn any() -> Expected {
    Expected {
        declared: None,
        body: 0,
        bodiless: false,
    }
}
