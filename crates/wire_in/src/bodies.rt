// DATA frames.
ghost use Rattle.exchange_core.specs.Message.{head_came};
ghost use Rattle.std.specs.Option.{option_map_or};
ghost use Rattle.std.specs.Prelude.{◌≡◌, ◌≤◌, ◌+◌, ◌*◌, IfNone, OnOk, false, length, not, true};
ghost use Rattle.wire_flows.specs.Flows.{flow_in};
ghost use Rattle.wire_state.specs.Noting.{Appends};
ghost use Rattle.wire_state.specs.Progress.{to_go};
ghost use Rattle.wire_state.specs.Sound.{IsSound};
ghost use Rattle.wire_state.specs.Worlds.{Goes, Keeps, KeepsOk};

use crate::faults::{Concerns, close_with, counts_late, owe, stream_fault};
use crate::heads::{end_where, finish_where};
use exchange_core::{Awaited, Received};
use flow_notes::{Note, Notes};
use h2_frames::codes::{FLOW_CONTROL_ERROR, PROTOCOL_ERROR};
use io_ports::{NoMemory, Octets};
use wire_state::{Course, WireCore, note};
use wire_windows::Came;

/// What a DATA frame carries: octets and padding, and how many of both count against the windows.
#[derive(Drop)]
pub(crate) struct Content {
    pub(crate) octets: Octets,
    pub(crate) padded: u32,
    pub(crate) counted: u32,
}

impl Content {
    pub(crate) fn of(octets: Octets, padded: u32, counted: u32) -> Self
        ensures octets { result.octets ≡ octets }
        ensures counted { result.counted ≡ counted }
    {
        Content {
            octets,
            padded,
            counted,
        }
    }

    // Whether no more is carried than is counted.
    fn is_counted(&self) -> bool
        ensures { result ≡ true → length self.now.octets ≤ self.now.counted }
    {
        match self.counted.checked_sub(self.padded) {
            Some(room) => self.octets.len() <= room as usize,
            None => false,
        }
    }
}

/// Content of an open stream.
#[inline(always)]
pub(crate) fn body(
    core: &mut WireCore,
    number: u32,
    stream: u32,
    content: Content,
    last: bool,
    notes: &mut Notes,
) -> Result<(), NoMemory>
    requires sound { IsSound core.old }
    ensures sound { OnOk result (IsSound core.new) }
    ensures go { OnOk result (to_go core.new ≤ to_go core.old + 60 + 228 * content.counted) }
    ensures notes { Appends notes.old notes.new }
    ensures octets { Goes result core.old notes.old core.new notes.new }
{
    let Some(course) = core.flow_from(number, stream) else {
        return Ok(());
    };
    let awaited = core.flows.awaits(course.flow);
    if !content.is_counted() || awaited == Awaited::Nothing {
        return Ok(());
    }
    let came = count(core, number, course, content.counted);
    if came == Came::ConnOver {
        return close_with(core, number, FLOW_CONTROL_ERROR, notes);
    }
    core.ask_run(course)?;
    if let Some(code) = fault_in(core, course, awaited, came, content.octets.len(), last) {
        // What the stream counted is, with its doom, the connection's.
        let fault = stream_fault(stream, code, content.counted, Concerns::Incoming);
        return fault.end(core, number, notes);
    }
    let is_empty = content.octets.is_empty();
    enter(core, number, course, content, stream, notes)?;
    finish_where(core, course.flow, last)?;
    end_where(core, last, course, stream)?;
    refresh_where(core, is_empty, course)
}

// What goes next of a flow is looked up where its end came without octets: those that come enter the receive buffer, from which
// nothing is framed, and what goes next is looked up once they move.
#[inline(always)]
fn refresh_where(core: &mut WireCore, is_empty: bool, course: Course) -> Result<(), NoMemory>
    requires sound { IsSound core.old }
    ensures sound { OnOk result (IsSound core.new) }
    ensures go { OnOk result (to_go core.new ≤ to_go core.old) }
    ensures octets { KeepsOk result core.old core.new }
{
    if is_empty {
        return core.refresh(course);
    }
    Ok(())
}

// The windows count content.
fn count(core: &mut WireCore, number: u32, course: Course, n: u32) -> Came
    requires sound { IsSound core.old }
    ensures sound { IsSound core.new }
    ensures go { to_go core.new ≤ to_go core.old + 8 * n }
    ensures rest { core.new ≡ record core.old { conns = core.new.conns } }
    ensures octets { Keeps core.old core.new }
{
    match core.conns.get_mut(&number) {
        Some(conn) => conn.came(course.flow.exchange, n),
        None => Came::ConnOver,
    }
}

// The stream error that n octets of a body are, if they are one: none only behind the head.
fn fault_in(
    core: &mut WireCore,
    course: Course,
    awaited: Awaited,
    came: Came,
    n: usize,
    last: bool,
) -> Option<u32>
    requires sound { IsSound core.old }
    ensures sound { IsSound core.new }
    ensures go { to_go core.new ≤ to_go core.old }
    ensures rest { core.new ≡ record core.old { lengths = core.new.lengths } }
    ensures behind { IfNone result (awaited ≡ Awaited.Body) }
    ensures octets { Keeps core.old core.new }
{
    if came == Came::StreamOver {
        return Some(FLOW_CONTROL_ERROR);
    }
    match awaited {
        Awaited::Body if fits(core, course, n, last) => None,
        _ => Some(PROTOCOL_ERROR),
    }
}

// Whether a body may have these octets by the length that was declared.
fn fits(core: &mut WireCore, course: Course, n: usize, last: bool) -> bool
    requires sound { IsSound core.old }
    ensures sound { IsSound core.new }
    ensures go { to_go core.new ≤ to_go core.old }
    ensures rest { core.new ≡ record core.old { lengths = core.new.lengths } }
    ensures octets { Keeps core.old core.new }
{
    match core.lengths.get_mut(&course.flow.exchange) {
        Some(lengths) if course.flow.back => lengths.response.grows(n, last),
        Some(lengths) => lengths.request.grows(n, last),
        None => true,
    }
}

// The octets enter the receive buffer, and the padding is owed.
#[inline(always)]
fn enter(
    core: &mut WireCore,
    number: u32,
    course: Course,
    content: Content,
    stream: u32,
    notes: &mut Notes,
) -> Result<(), NoMemory>
    requires sound { IsSound core.old }
    requires goes_on { option_map_or (λ f. not f.message.ended) (flow_in core.old.flows course.flow) false ≡ true }
    requires headed { option_map_or (λ f. head_came f.message) (flow_in core.old.flows course.flow) false ≡ true }
    ensures sound { OnOk result (IsSound core.new) }
    ensures go { OnOk result (to_go core.new ≤ to_go core.old + 220 * length content.octets) }
    ensures notes { Appends notes.old notes.new }
    ensures octets { Goes result core.old notes.old core.new notes.new }
{
    let Content { octets, padded, .. } = content;
    arrive(core, course, octets, notes)?;
    pad(core, number, course, stream, padded, notes)
}

// The octets enter the receive buffer.
#[inline(always)]
fn arrive(
    core: &mut WireCore,
    course: Course,
    octets: Octets,
    notes: &mut Notes,
) -> Result<(), NoMemory>
    requires sound { IsSound core.old }
    requires goes_on { option_map_or (λ f. not f.message.ended) (flow_in core.old.flows course.flow) false ≡ true }
    requires headed { option_map_or (λ f. head_came f.message) (flow_in core.old.flows course.flow) false ≡ true }
    ensures sound { OnOk result (IsSound core.new) }
    ensures go { OnOk result (to_go core.new ≤ to_go core.old + 220 * length octets) }
    ensures notes { Appends notes.old notes.new }
    ensures octets { Goes result core.old notes.old core.new notes.new }
{
    if octets.is_empty() {
        return Ok(());
    }
    let flow = course.flow;
    let Received::Arrived = core.flows.receive(flow, &octets) else {
        return Ok(());
    };
    core.touch(flow.exchange)?;
    note(notes, Note::Arrive { flow, octets })
}

// Padding is owed to its stream and to the connection at once.
fn pad(
    core: &mut WireCore,
    number: u32,
    course: Course,
    stream: u32,
    padded: u32,
    notes: &mut Notes,
) -> Result<(), NoMemory>
    requires sound { IsSound core.old }
    ensures sound { OnOk result (IsSound core.new) }
    ensures go { OnOk result (to_go core.new ≤ to_go core.old) }
    ensures notes { Appends notes.old notes.new }
    ensures octets { Goes result core.old notes.old core.new notes.new }
{
    if padded == 0 {
        return Ok(());
    }
    owe_padding(core, number, course.flow.exchange, padded)?;
    note(
        notes,
        Note::Waste {
            conn: number,
            stream,
            n: padded,
        },
    )
}

fn owe_padding(core: &mut WireCore, number: u32, exchange: u64, n: u32) -> Result<(), NoMemory>
    requires sound { IsSound core.old }
    ensures sound { OnOk result (IsSound core.new) }
    ensures go { to_go core.new ≤ to_go core.old }
    ensures octets { KeepsOk result core.old core.new }
{
    match core.conns.get_mut(&number) {
        Some(conn) => conn.moved(exchange, n),
        None => Ok(()),
    }
}

/// Content of a stream that is closed.
pub(crate) fn late(
    core: &mut WireCore,
    number: u32,
    stream: u32,
    n: u32,
    notes: &mut Notes,
) -> Result<(), NoMemory>
    requires sound { IsSound core.old }
    ensures sound { OnOk result (IsSound core.new) }
    ensures go { OnOk result (to_go core.new ≤ to_go core.old + 1 + 4 * n) }
    ensures notes { Appends notes.old notes.new }
    ensures octets { Goes result core.old notes.old core.new notes.new }
{
    if !counts_late(core, number, n) {
        return close_with(core, number, FLOW_CONTROL_ERROR, notes);
    }
    owe(core, number, stream, n, notes)
}
