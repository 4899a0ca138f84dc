// Heads and trailers are framed.
ghost use Rattle.exchange_core.specs.Units.{IsFrameable};
ghost use Rattle.flow_rules.specs.declared.unit.Unit.TheVariants.{Head};
ghost use Rattle.std.specs.Prelude.{None, ◌≡◌, ◌≤◌, ◌+◌, ◌++◌, IfNone, IfOk, IfSome, MatchOption, OnOk, true};
ghost use Rattle.wire_flows.specs.Flows.{IsThere, flow_in, is_live_in};
ghost use Rattle.wire_flows.specs.Writes.{watchers_on};
ghost use Rattle.wire_links.specs.Links.{exchange_at};
ghost use Rattle.wire_out.specs.Opening.{IsUnframed};
ghost use Rattle.wire_state.specs.Agenda.{stirred_at, top_go};
ghost use Rattle.wire_state.specs.Noting.{Appends, heads_of, risen_of};
ghost use Rattle.wire_state.specs.Progress.{conn_go, to_go};
ghost use Rattle.wire_state.specs.Sound.{IsSound};
ghost use Rattle.wire_state.specs.Worlds.{Goes, Keeps, KeepsOk, Owes};

use crate::drains::unit_framed;
use crate::units::{Going, end_where, unready};
use flow_notes::{Cause, Notes};
use io_ports::{NoMemory, Octets};
use wire_ends::{Origin, doom};
use wire_state::{Conn, WireCore, note_head};

/// The head of a flow, or its trailers. A request's head opens its stream; where no number is left for one, the exchange is
/// lost.
#[inline(always)]
pub(crate) fn frame_list(
    core: &mut WireCore,
    going: Going,
    last: bool,
    notes: &mut Notes,
) -> Result<(), NoMemory>
    requires sound { IsSound core.old }
    requires top { top_go core.old.agenda ≡ 1 }
    requires live { is_live_in core.old.flows going.course.flow.exchange ≡ true }
    requires there { IsThere core.old.flows going.course.flow }
    requires unframed { IfNone going.stream (IsUnframed going.conn going.course.flow.exchange core.old.links) }
    requires unit { IfSome (flow_in core.old.flows going.course.flow) (IsFrameable (Head last)) }
    ensures sound { OnOk result (IsSound core.new) }
    ensures go { OnOk result (to_go core.new + (1 + stirred_at going.conn core.old.stirred.conns.items) ≤ to_go core.old) }
    ensures notes { Appends notes.old notes.new }
    ensures octets { Goes result core.old notes.old core.new notes.new }
{
    match going.stream {
        Some(stream) => frame_fields(core, going, stream, last, notes),
        None => frame_first(core, going, last, notes),
    }
}

// The head of a request opens its stream. Where no number is left for one, the exchange is lost.
fn frame_first(
    core: &mut WireCore,
    going: Going,
    last: bool,
    notes: &mut Notes,
) -> Result<(), NoMemory>
    requires sound { IsSound core.old }
    requires top { top_go core.old.agenda ≡ 1 }
    requires live { is_live_in core.old.flows going.course.flow.exchange ≡ true }
    requires there { IsThere core.old.flows going.course.flow }
    requires unframed { IsUnframed going.conn going.course.flow.exchange core.old.links }
    requires unit { IfSome (flow_in core.old.flows going.course.flow) (IsFrameable (Head last)) }
    ensures sound { OnOk result (IsSound core.new) }
    ensures go { OnOk result (to_go core.new + (1 + stirred_at going.conn core.old.stirred.conns.items) ≤ to_go core.old) }
    ensures notes { Appends notes.old notes.new }
    ensures octets { Goes result core.old notes.old core.new notes.new }
{
    let exchange = going.course.flow.exchange;
    match open_stream(core, going)? {
        Some(stream) => frame_fields(core, going, stream, last, notes),
        None => {
            let cause = Cause::ConnLost { conn: going.conn };
            doom(core, exchange, cause, Origin::Neither, notes)
        }
    }
}

// A request gets its stream at the connection to its cluster.
#[inline(always)]
fn open_stream(core: &mut WireCore, going: Going) -> Result<Option<u32>, NoMemory>
    requires sound { IsSound core.old }
    requires live { is_live_in core.old.flows going.course.flow.exchange ≡ true }
    requires unframed { IsUnframed going.conn going.course.flow.exchange core.old.links }
    ensures sound { OnOk result (IsSound core.new) }
    ensures go { OnOk result (to_go core.new ≤ to_go core.old) }
    ensures rest { core.new ≡ record core.old { conns = core.new.conns; links = core.new.links } }
    ensures octets { KeepsOk result core.old core.new }
{
    let Some(stream) = next_stream(core, going.conn)? else {
        return Ok(None);
    };
    match core.links.exchange_at(going.conn, stream) {
        Some(_) => Ok(None),
        None => place(core, going, stream),
    }
}

// A request is on this stream of the connection to its cluster, which no exchange is on, from now on.
#[tactic(auto, using(crate::proofs::Opened::to_frame, crate::proofs::Opened::still_linked))]
fn place(core: &mut WireCore, going: Going, stream: u32) -> Result<Option<u32>, NoMemory>
    requires sound { IsSound core.old }
    requires live { is_live_in core.old.flows going.course.flow.exchange ≡ true }
    requires unframed { IsUnframed going.conn going.course.flow.exchange core.old.links }
    requires unused { exchange_at going.conn stream core.old.links ≡ None }
    ensures sound { OnOk result (IsSound core.new) }
    ensures go { OnOk result (to_go core.new ≤ to_go core.old) }
    ensures rest { core.new ≡ record core.old { conns = core.new.conns; links = core.new.links } }
    ensures octets { KeepsOk result core.old core.new }
{
    let exchange = going.course.flow.exchange;
    begin_stream(core, going.conn, exchange)?;
    core.links.framed_to(exchange, stream)?;
    Ok(Some(stream))
}

// The next stream that this side opens on a connection, if a number is left.
fn next_stream(core: &mut WireCore, number: u32) -> Result<Option<u32>, NoMemory>
    requires sound { IsSound core.old }
    ensures sound { OnOk result (IsSound core.new) }
    ensures go { OnOk result (to_go core.new ≤ to_go core.old) }
    ensures rest { core.new ≡ record core.old { conns = core.new.conns } }
    ensures octets { KeepsOk result core.old core.new }
{
    match core.conns.get_mut(&number) {
        Some(conn) => next_number(conn),
        None => Ok(None),
    }
}

#[tactic(auto, unfolding(wire_state::specs::Progress::conn_go))]
fn next_number(conn: &mut Conn) -> Result<Option<u32>, NoMemory>
    ensures rest { conn.new ≡ record conn.old { inlet = conn.new.inlet } }
    ensures go { conn_go conn.new ≤ conn_go conn.old }
{
    conn.inlet.open_stream()
}

fn begin_stream(core: &mut WireCore, number: u32, exchange: u64) -> Result<(), NoMemory>
    requires sound { IsSound core.old }
    ensures sound { OnOk result (IsSound core.new) }
    ensures go { OnOk result (to_go core.new ≤ to_go core.old) }
    ensures rest { core.new ≡ record core.old { conns = core.new.conns } }
    ensures octets { KeepsOk result core.old core.new }
{
    match core.conns.get_mut(&number) {
        Some(conn) => conn.begin(exchange),
        None => Ok(()),
    }
}

// The list of a flow that waits is framed on its stream, with what that begins.
fn frame_fields(
    core: &mut WireCore,
    going: Going,
    stream: u32,
    last: bool,
    notes: &mut Notes,
) -> Result<(), NoMemory>
    requires sound { IsSound core.old }
    requires top { top_go core.old.agenda ≡ 1 }
    requires there { IsThere core.old.flows going.course.flow }
    requires unit { IfSome (flow_in core.old.flows going.course.flow) (IsFrameable (Head last)) }
    ensures sound { OnOk result (IsSound core.new) }
    ensures go { OnOk result (to_go core.new + (1 + stirred_at going.conn core.old.stirred.conns.items) ≤ to_go core.old) }
    ensures notes { Appends notes.old notes.new }
    ensures octets { Goes result core.old notes.old core.new notes.new }
{
    let exchange = going.course.flow.exchange;
    let Some((octets, rose)) = write_list(core, going, stream, last)? else {
        unready(core, going.conn, exchange);
        return Ok(());
    };
    core.stir_some(going.course.from)?;
    core.touch(exchange)?;
    note_head(notes, going.conn, stream, octets)?;
    unit_framed(core, going.conn, rose, notes)?;
    end_where(core, exchange, last, notes)
}

// The frames of the list go into the write buffer. None where no list waits, or it can't be framed.
#[inline(always)]
fn write_list(
    core: &mut WireCore,
    going: Going,
    stream: u32,
    last: bool,
) -> Result<Option<(Octets, bool)>, NoMemory>
    requires sound { IsSound core.old }
    requires there { IsThere core.old.flows going.course.flow }
    requires unit { IfSome (flow_in core.old.flows going.course.flow) (IsFrameable (Head last)) }
    ensures sound { OnOk result (IsSound core.new) }
    ensures go { IfOk result (λ framed. MatchOption framed (to_go core.new ≤ to_go core.old) (λ f. to_go core.new + 40 ≤ to_go core.old)) }
    ensures rest { core.new ≡ record core.old { conns = core.new.conns; flows = core.new.flows } }
    ensures octets { IfOk result (λ framed. MatchOption framed (Keeps core.old core.new) (λ f. Owes (heads_of going.conn stream f.0 ++ risen_of f.1 going.conn (watchers_on going.conn core.new.flows)) core.old core.new)) }
{
    let number = going.conn;
    match core.conns.get_mut(&number) {
        Some(conn) => {
            let flow = going.course.flow;
            conn.write_list(&mut core.flows, number, flow, stream, last)
        }
        None => Ok(None),
    }
}
