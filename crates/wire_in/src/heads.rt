// Heads of responses, and trailers.
ghost use Rattle.std.specs.Option.{ForSome, option_copied, option_map_or};
ghost use Rattle.std.specs.Prelude.{◌≡◌, ◌<◌, ◌≤◌, ◌+◌, ◌^◌, OnOk, false, length, not, true};
ghost use Rattle.exchange_core.specs.Message.{head_came};
ghost use Rattle.wire_flows.specs.Flows.{flow_in};
ghost use Rattle.wire_state.specs.Noting.{Appends};
ghost use Rattle.wire_state.specs.Progress.{to_go};
ghost use Rattle.wire_state.specs.Sound.{IsSound};
ghost use Rattle.wire_state.specs.Worlds.{Goes, Keeps, KeepsOk};

use crate::faults::{Concerns, close_with, stream_fault};
use crate::requests::request;
use exchange_core::Awaited;
use flow_gate::FlowId;
use flow_notes::Notes;
use h2_frames::codes::{COMPRESSION_ERROR, PROTOCOL_ERROR};
use hpack_codec::FieldList;
use io_ports::NoMemory;
use wire_heads::{Expected, Response, judge_response, judge_trailers};
use wire_inlet::Reading;
use wire_state::{Course, WireCore};

/// A head came.
pub(crate) fn head(
    core: &mut WireCore,
    number: u32,
    stream: u32,
    reading: Reading,
    last: bool,
    notes: &mut Notes,
) -> Result<(), NoMemory>
    requires sound { IsSound core.old }
    ensures sound { OnOk result (IsSound core.new) }
    ensures go { OnOk result (to_go core.new ≤ to_go core.old + 300) }
    ensures notes { Appends notes.old notes.new }
    ensures octets { Goes result core.old notes.old core.new notes.new }
{
    if let Reading::Refused = reading {
        return close_with(core, number, COMPRESSION_ERROR, notes);
    }
    let fields = fields_of(reading);
    if core.links.is_client(number) {
        return request(core, number, stream, fields, last, notes);
    }
    response(core, number, stream, fields, last, notes)
}

// The fields of a block, none where they are longer than their limit.
fn fields_of(reading: Reading) -> Option<FieldList>
    ensures { ForSome result (λ list. length list < 2 ^ 32) }
{
    match reading {
        Reading::Fields(fields) if fields.len() <= u32::MAX as usize => Some(fields),
        _ => None,
    }
}

// The head of a response.
fn response(
    core: &mut WireCore,
    number: u32,
    stream: u32,
    fields: Option<FieldList>,
    last: bool,
    notes: &mut Notes,
) -> Result<(), NoMemory>
    requires sound { IsSound core.old }
    requires few { ForSome fields (λ list. length list < 2 ^ 32) }
    ensures sound { OnOk result (IsSound core.new) }
    ensures go { OnOk result (to_go core.new ≤ to_go core.old + 60) }
    ensures notes { Appends notes.old notes.new }
    ensures octets { Goes result core.old notes.old core.new notes.new }
{
    let Some(course) = core.flow_from(number, stream) else {
        return Ok(());
    };
    let Awaited::Head = core.flows.awaits(course.flow) else {
        return Ok(());
    };
    core.ask_run(course)?;
    match judged(core, course.flow.exchange, fields.as_ref(), last) {
        Response::Interim => {
            interim(core, number, stream);
            Ok(())
        }
        Response::Malformed => {
            let fault = stream_fault(stream, PROTOCOL_ERROR, 0, Concerns::Incoming);
            fault.end(core, number, notes)
        }
        Response::Final { .. } => begin(core, course, stream, fields, last),
    }
}

// What a response's head comes to. The length of its body is kept where it is the final one.
fn judged(core: &mut WireCore, exchange: u64, fields: Option<&FieldList>, last: bool) -> Response
    requires sound { IsSound core.old }
    requires few { ForSome (option_copied fields) (λ list. length list < 2 ^ 32) }
    ensures sound { IsSound core.new }
    ensures go { to_go core.new ≤ to_go core.old }
    ensures rest { core.new ≡ record core.old { lengths = core.new.lengths } }
    ensures octets { Keeps core.old core.new }
{
    let Some(lengths) = core.lengths.get_mut(&exchange) else {
        return Response::Interim;
    };
    let response = judge_response(fields, last, &lengths.response);
    if let Response::Final { expected } = response {
        lengths.response = expected;
    }
    response
}

fn interim(core: &mut WireCore, number: u32, stream: u32)
    requires sound { IsSound core.old }
    ensures sound { IsSound core.new }
    ensures go { to_go core.new ≤ to_go core.old }
    ensures octets { Keeps core.old core.new }
{
    match core.conns.get_mut(&number) {
        Some(conn) => conn.interim(stream),
        None => {}
    }
}

/// The message of a flow begins with its head, which waits to be framed.
#[inline(always)]
pub(crate) fn begin(
    core: &mut WireCore,
    course: Course,
    stream: u32,
    fields: Option<FieldList>,
    last: bool,
) -> Result<(), NoMemory>
    requires sound { IsSound core.old }
    requires goes_on { option_map_or (λ f. not f.message.ended) (flow_in core.old.flows course.flow) false ≡ true }
    requires first { option_map_or (λ f. head_came f.message) (flow_in core.old.flows course.flow) false ≡ false }
    ensures sound { OnOk result (IsSound core.new) }
    ensures go { OnOk result (to_go core.new ≤ to_go core.old + 41) }
    ensures octets { KeepsOk result core.old core.new }
{
    put_head(core, course.flow, fields, last)?;
    end_where(core, last, course, stream)
}

// The head, where there is one, waits to be framed.
#[inline(always)]
fn put_head(
    core: &mut WireCore,
    flow: FlowId,
    fields: Option<FieldList>,
    last: bool,
) -> Result<(), NoMemory>
    requires sound { IsSound core.old }
    requires goes_on { option_map_or (λ f. not f.message.ended) (flow_in core.old.flows flow) false ≡ true }
    requires first { option_map_or (λ f. head_came f.message) (flow_in core.old.flows flow) false ≡ false }
    ensures sound { OnOk result (IsSound core.new) }
    ensures go { OnOk result (to_go core.new ≤ to_go core.old + 40) }
    ensures octets { KeepsOk result core.old core.new }
{
    match fields {
        Some(fields) => core.flows.head(flow, fields, last),
        None => Ok(()),
    }
}

/// The message of the flow ended, where `last` holds.
#[inline(always)]
pub(crate) fn end_where(
    core: &mut WireCore,
    last: bool,
    course: Course,
    stream: u32,
) -> Result<(), NoMemory>
    requires sound { IsSound core.old }
    ensures sound { OnOk result (IsSound core.new) }
    ensures go { OnOk result (to_go core.new ≤ to_go core.old + 1) }
    ensures octets { KeepsOk result core.old core.new }
{
    if !last {
        return Ok(());
    }
    core.flow_ended(course, stream)
}

/// The body of the flow ended, with trailers or without. Nothing where it had ended, or isn't live.
#[inline(always)]
pub(crate) fn finish(
    core: &mut WireCore,
    flow: FlowId,
    fields: Option<FieldList>,
) -> Result<(), NoMemory>
    requires sound { IsSound core.old }
    ensures sound { OnOk result (IsSound core.new) }
    ensures go { OnOk result (to_go core.new ≤ to_go core.old + 40) }
    ensures octets { KeepsOk result core.old core.new }
{
    if !core.flows.goes_on(flow) {
        return Ok(());
    }
    core.flows.finish(flow, fields)
}

/// The body of the flow ended without trailers, where `last` holds.
#[inline(always)]
pub(crate) fn finish_where(core: &mut WireCore, flow: FlowId, last: bool) -> Result<(), NoMemory>
    requires sound { IsSound core.old }
    ensures sound { OnOk result (IsSound core.new) }
    ensures go { OnOk result (to_go core.new ≤ to_go core.old + 40) }
    ensures octets { KeepsOk result core.old core.new }
{
    if !last {
        return Ok(());
    }
    finish(core, flow, None)
}

/// Trailers came.
pub(crate) fn trailers(
    core: &mut WireCore,
    number: u32,
    stream: u32,
    reading: Reading,
    notes: &mut Notes,
) -> Result<(), NoMemory>
    requires sound { IsSound core.old }
    ensures sound { OnOk result (IsSound core.new) }
    ensures go { OnOk result (to_go core.new ≤ to_go core.old + 60) }
    ensures notes { Appends notes.old notes.new }
    ensures octets { Goes result core.old notes.old core.new notes.new }
{
    if let Reading::Refused = reading {
        return close_with(core, number, COMPRESSION_ERROR, notes);
    }
    let fields = fields_of(reading);
    let Some(course) = core.flow_from(number, stream) else {
        return Ok(());
    };
    if !core.flows.goes_on(course.flow) {
        return Ok(());
    }
    core.ask_run(course)?;
    let Some(expected) = expected_of(core, course) else {
        return Ok(());
    };
    if !judge_trailers(fields.as_ref(), &expected) {
        let fault = stream_fault(stream, PROTOCOL_ERROR, 0, Concerns::Incoming);
        return fault.end(core, number, notes);
    }
    finish(core, course.flow, fields)?;
    core.flow_ended(course, stream)
}

// What the body of a flow has to be.
fn expected_of(core: &WireCore, course: Course) -> Option<Expected> {
    let lengths = core.lengths.get(&course.flow.exchange)?;
    if course.flow.back {
        Some(lengths.response)
    } else {
        Some(lengths.request)
    }
}
