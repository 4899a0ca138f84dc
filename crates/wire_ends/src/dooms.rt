// Dooms: an exchange is given up, its peers are told, and it is gone at the end of the dispatch.
ghost use Rattle.flow_notes.specs.declared.notes.Note.TheVariants as note;
ghost use Rattle.std.specs.Prelude.{◌≡◌, ◌≤◌, ◌<◌, ◌+◌, ◌++◌, ◌∷◌, [], IfSome, IsSome, MatchOption, OnOk, Some, if◌then◌else◌, true};
ghost use Rattle.wire_flows.specs.Flows.{is_live_in};
ghost use Rattle.wire_state.specs.Agenda.{top_go};
ghost use Rattle.wire_state.specs.Noting.{Appends};
ghost use Rattle.wire_state.specs.Progress.{to_go};
ghost use Rattle.wire_state.specs.Sound.{IsSound};
ghost use Rattle.wire_state.specs.Worlds.{EndsOne, Goes, Keeps, KeepsOk, Owes, Pays, Settles};

use crate::closes::start_draining;
use crate::lists::{append, append_reset, flood};
use exchange_core::{Doomed, Reply};
use flow_gate::FlowId;
use flow_notes::{Cause, FireKind, Note, Notes};
use h2_frames::codes::NO_ERROR;
use io_ports::NoMemory;
use wire_links::Ends;
use wire_load::Action;
use wire_outlet::Waiting;
use wire_state::{WireCore, is_stream};

/// Who gave the cause of a doom.
#[derive(Clone, Copy, PartialEq, Eq)]
pub enum Origin {
    /// The client, or the request.
    Request,
    /// The cluster, or the response.
    Response,
    /// Neither of them: an end, a timer, a lost connection, a job, or what a worker bears.
    Neither,
}

impl Origin {
    /// That of what a flow gave.
    pub fn of(flow: FlowId) -> Self {
        if flow.back {
            Origin::Response
        } else {
            Origin::Request
        }
    }

    fn is_response(self) -> bool {
        matches!(self, Origin::Response)
    }
}

/// The task Doom: the exchange is doomed, unless it is, for a cause that neither of its flows gave.
pub fn doom_task(
    core: &mut WireCore,
    exchange: u64,
    cause: Cause,
    notes: &mut Notes,
) -> Result<(), NoMemory>
    requires sound { IsSound core.old }
    requires top { top_go core.old.agenda ≡ 1 }
    ensures sound { OnOk result (IsSound core.new) }
    ensures go { OnOk result (to_go core.new < to_go core.old) }
    ensures notes { Appends notes.old notes.new }
    ensures octets { Goes result core.old notes.old core.new notes.new }
{
    core.end_task();
    doom(core, exchange, cause, Origin::Neither, notes)
}

/// The task End: an end of the exchange was framed. It is done where both are, and ends early where the response's is.
pub fn end(core: &mut WireCore, exchange: u64, notes: &mut Notes) -> Result<(), NoMemory>
    requires sound { IsSound core.old }
    requires top { top_go core.old.agenda ≡ 1 }
    ensures sound { OnOk result (IsSound core.new) }
    ensures go { OnOk result (to_go core.new < to_go core.old) }
    ensures notes { Appends notes.old notes.new }
    ensures octets { Goes result core.old notes.old core.new notes.new }
{
    core.end_task();
    end_framed(core, exchange, notes)
}

/// An end of the exchange was framed, and nothing comes before it is looked at: as the task End.
#[inline(always)]
pub fn end_framed(core: &mut WireCore, exchange: u64, notes: &mut Notes) -> Result<(), NoMemory>
    requires sound { IsSound core.old }
    ensures sound { OnOk result (IsSound core.new) }
    ensures go { OnOk result (to_go core.new ≤ to_go core.old) }
    ensures notes { Appends notes.old notes.new }
    ensures octets { Goes result core.old notes.old core.new notes.new }
{
    if !core.flows.is_live(exchange) {
        return Ok(());
    }
    let ends = core.flows.ends(exchange);
    if !ends.response {
        return Ok(());
    }
    let cause = if ends.request {
        Cause::Done
    } else {
        Cause::EarlyEnd
    };
    doom(core, exchange, cause, Origin::Neither, notes)
}

/// Dooms an exchange, unless it is doomed. All units that its peers are told by are put at once; then the connections whose list
/// was full are to be closed, the client's first.
pub fn doom(
    core: &mut WireCore,
    exchange: u64,
    cause: Cause,
    origin: Origin,
    notes: &mut Notes,
) -> Result<(), NoMemory>
    requires sound { IsSound core.old }
    ensures sound { OnOk result (IsSound core.new) }
    ensures go { OnOk result (to_go core.new ≤ to_go core.old) }
    ensures less { is_live_in core.old.flows exchange ≡ true → OnOk result (to_go core.new + 8 ≤ to_go core.old) }
    ensures notes { Appends notes.old notes.new }
    ensures told { OnOk result (notes.new ≡ (if is_live_in core.old.flows exchange then notes.old ++ note.Doom exchange cause ∷ [] else notes.old)) }
    ensures octets { Goes result core.old notes.old core.new notes.new }
    ensures late { Settles (Some exchange) result core.old notes.old core.new notes.new }
{
    let Some((ends, doomed)) = unlink(core, exchange, cause, origin) else {
        return Ok(());
    };
    note_doom(notes, exchange, cause)?;
    core.stir(ends.client)?;
    core.stir_some(ends.cluster)?;
    let hear = Hear {
        client: leave_client(core, exchange, ends, doomed, cause == Cause::Done)?,
        cluster: leave(
            core,
            ends.cluster,
            exchange,
            ends.cluster_stream,
            doomed.response_left,
            false,
        ),
    };
    tell(core, ends, doomed, hear)
}

// Writes that an exchange is doomed.
fn note_doom(notes: &mut Notes, exchange: u64, cause: Cause) -> Result<(), NoMemory>
    ensures appends { Appends notes.old notes.new }
    ensures ok { OnOk result (notes.new ≡ notes.old ++ note.Doom exchange cause ∷ []) }
    ensures paid { Pays result (note.Doom exchange cause ∷ []) notes.old notes.new }
{
    notes.push(Note::Doom { exchange, cause })
}

// A live exchange isn't live any more: it is linked to no connection, and has no octets, timers and class. The answer has the
// ends that it had, and what its peers are told. None where it isn't live.
fn unlink(
    core: &mut WireCore,
    exchange: u64,
    cause: Cause,
    origin: Origin,
) -> Option<(Ends, Doomed)>
    requires sound { IsSound core.old }
    ensures sound { IsSound core.new }
    ensures go { to_go core.new ≤ to_go core.old }
    ensures less { IfSome result (λ ends. to_go core.new + 64 ≤ to_go core.old) }
    ensures linked { is_live_in core.old.flows exchange ≡ true → IsSome result }
    ensures live { IfSome result (λ ends. is_live_in core.old.flows exchange ≡ true) }
    ensures octets { MatchOption result (Keeps core.old core.new) (λ r. Owes (note.Doom exchange cause ∷ []) core.old core.new) }
    ensures late { MatchOption result (EndsOne exchange [] core.old core.new) (λ r. EndsOne exchange (note.Doom exchange cause ∷ []) core.old core.new) }
{
    let Some(ends) = core.links.ends_of(exchange) else {
        return None;
    };
    core.links.are_sound();
    let _ = core.links.doom(exchange);
    let doomed = core.flows.doom(exchange, cause, origin.is_response());
    let _ = core.lengths.remove(&exchange);
    core.load.drop_one(exchange);
    core.timers.drop_exchange(exchange);
    Some((ends, doomed))
}

/// Which peers of a doomed exchange hear of it: those whose stream was open.
#[derive(Clone, Copy)]
struct Hear {
    client: bool,
    cluster: bool,
}

// The exchange leaves its client's connection, which is idle where it was the last one. The answer is whether its stream there
// was open.
fn leave_client(
    core: &mut WireCore,
    exchange: u64,
    ends: Ends,
    doomed: Doomed,
    done: bool,
) -> Result<bool, NoMemory>
    requires sound { IsSound core.old }
    ensures sound { OnOk result (IsSound core.new) }
    ensures go { OnOk result (to_go core.new ≤ to_go core.old + 1) }
    ensures octets { KeepsOk result core.old core.new }
{
    let (client, stream) = (Some(ends.client), Some(ends.stream));
    let was_open = leave(core, client, exchange, stream, doomed.request_left, done);
    idle(core, ends.client)?;
    Ok(was_open)
}

// A client's connection is idle, where it is open and has no exchange.
fn idle(core: &mut WireCore, client: u32) -> Result<(), NoMemory>
    requires sound { IsSound core.old }
    ensures sound { OnOk result (IsSound core.new) }
    ensures go { OnOk result (to_go core.new ≤ to_go core.old + 1) }
    ensures octets { KeepsOk result core.old core.new }
{
    if core.links.exchanges_of(client) > 0 || !core.is_open(client) {
        return Ok(());
    }
    core.arm(FireKind::ConnectionIdle, u64::from(client))
}

// The exchange leaves a connection, if there is one. The answer is whether its stream there was open.
#[inline(always)]
fn leave(
    core: &mut WireCore,
    conn: Option<u32>,
    exchange: u64,
    stream: Option<u32>,
    left: u32,
    done: bool,
) -> bool
    requires sound { IsSound core.old }
    ensures sound { IsSound core.new }
    ensures go { to_go core.new ≤ to_go core.old }
    ensures octets { Keeps core.old core.new }
{
    match conn {
        Some(number) => leave_at(core, number, exchange, stream, left, done),
        None => false,
    }
}

#[inline(always)]
fn leave_at(
    core: &mut WireCore,
    number: u32,
    exchange: u64,
    stream: Option<u32>,
    left: u32,
    done: bool,
) -> bool
    requires sound { IsSound core.old }
    ensures sound { IsSound core.new }
    ensures go { to_go core.new ≤ to_go core.old }
    ensures octets { Keeps core.old core.new }
{
    match core.conns.get_mut(&number) {
        Some(conn) => conn.leave(exchange, stream, left, done),
        None => false,
    }
}

// What the peers are told of a doom, and the GOAWAY that a connection gets which isn't kept alive; then the connections whose
// list was full are to be closed.
#[inline(always)]
fn tell(core: &mut WireCore, ends: Ends, doomed: Doomed, hear: Hear) -> Result<(), NoMemory>
    requires sound { IsSound core.old }
    ensures sound { OnOk result (IsSound core.new) }
    ensures go { OnOk result (to_go core.new ≤ to_go core.old + 27) }
    ensures octets { KeepsOk result core.old core.new }
{
    let (client, stream) = (Some(ends.client), Some(ends.stream));
    let client_fits = append_heard(core, hear.client, client, stream, doomed.down)?;
    let cluster_fits = append_heard(
        core,
        hear.cluster,
        ends.cluster,
        ends.cluster_stream,
        doomed.up,
    )?;
    let client_fits = stop_keepalive(core, ends.client, client_fits)?;
    flood_unless(core, ends.cluster, cluster_fits)?;
    flood_unless(core, client, client_fits)
}

// Appends what a peer is told that hears of a doom. The answer is false where the list was full.
fn append_heard(
    core: &mut WireCore,
    hears: bool,
    conn: Option<u32>,
    stream: Option<u32>,
    reply: Reply,
) -> Result<bool, NoMemory>
    requires sound { IsSound core.old }
    ensures sound { OnOk result (IsSound core.new) }
    ensures go { OnOk result (to_go core.new ≤ to_go core.old + 10) }
    ensures octets { KeepsOk result core.old core.new }
{
    match (conn, stream) {
        (Some(conn), Some(stream)) if hears => append_reply(core, conn, stream, reply),
        _ => Ok(true),
    }
}

// Where no connection is kept alive, the client's begins to drain, unless its list was full. The answer is false where it was or
// is.
fn stop_keepalive(core: &mut WireCore, client: u32, fits: bool) -> Result<bool, NoMemory>
    requires sound { IsSound core.old }
    ensures sound { OnOk result (IsSound core.new) }
    ensures go { OnOk result (to_go core.new ≤ to_go core.old + 5) }
    ensures octets { KeepsOk result core.old core.new }
{
    if !fits || !core.load.is_saturated(Action::NoKeepalive) {
        return Ok(fits);
    }
    start_draining(core, client)
}

// A connection, if there is one, is to be closed, unless what was put fitted into its list.
#[inline(always)]
fn flood_unless(core: &mut WireCore, conn: Option<u32>, fits: bool) -> Result<(), NoMemory>
    requires sound { IsSound core.old }
    ensures sound { OnOk result (IsSound core.new) }
    ensures go { OnOk result (to_go core.new ≤ to_go core.old + 1) }
    ensures octets { KeepsOk result core.old core.new }
{
    match conn {
        Some(conn) if !fits => flood(core, conn),
        _ => Ok(()),
    }
}

// Appends what a peer is told. The answer is false where the list was full.
fn append_reply(core: &mut WireCore, conn: u32, stream: u32, reply: Reply) -> Result<bool, NoMemory>
    requires sound { IsSound core.old }
    ensures sound { OnOk result (IsSound core.new) }
    ensures go { OnOk result (to_go core.new ≤ to_go core.old + 10) }
    ensures octets { KeepsOk result core.old core.new }
{
    match reply {
        Reply::Nothing => Ok(true),
        Reply::Reset { code } => append_reset(core, conn, stream, code),
        Reply::Answer { status, reset } => {
            let fits = append_status(core, conn, stream, status)?;
            if fits && reset {
                return append_reset(core, conn, stream, NO_ERROR);
            }
            Ok(fits)
        }
    }
}

// Appends a response of this core's own.
fn append_status(core: &mut WireCore, conn: u32, stream: u32, status: u16) -> Result<bool, NoMemory>
    requires sound { IsSound core.old }
    ensures sound { OnOk result (IsSound core.new) }
    ensures go { OnOk result (to_go core.new ≤ to_go core.old + 5) }
    ensures octets { KeepsOk result core.old core.new }
{
    if !is_stream(stream) {
        return Ok(true);
    }
    append(core, conn, Waiting::Reply { stream, status })
}
