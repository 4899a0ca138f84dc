// Closes: a connection is given up, with a GOAWAY where one goes, and its exchanges are lost; and the GOAWAY before, by
// which a connection begins to drain (RFC 9113 section 6.8).
ghost use Rattle.flow_notes.specs.declared.notes.CloseCause.{CloseCause};
ghost use Rattle.std.specs.Prelude.{◌≡◌, ◌≢◌, ◌≤◌, ◌<◌, ◌+◌, ◌++◌, ◌^◌, IfSome, OnOk, true, ◌∷◌, [], IfOk, MatchOption, ℕ, false};
ghost use Rattle.wire_flows.specs.Writes.{watchers_on};
ghost use Rattle.wire_state.specs.Counts.{Frees};
ghost use Rattle.wire_state.specs.Agenda.{top_go};
ghost use Rattle.wire_state.specs.Noting.{Appends, answers_of, risen_of};
ghost use Rattle.wire_state.specs.Progress.{to_go};
ghost use Rattle.wire_state.specs.Sound.{IsKept, IsSound, is_open_at};
ghost use Rattle.wire_state.specs.Worlds.{Eases, Goes, Keeps, KeepsOk, Owes, Turns};
ghost use Rattle.flow_notes.specs.declared.notes.Note.TheVariants as note;
ghost use Rattle.flow_notes.specs.declared.events.Event.TheVariants as event;
ghost use Rattle.proxy_config.specs.declared.config.LimitKeys.{LimitKeys as Limits};

use crate::dooms::{Origin, doom};
use crate::lists::{append, flood};
use flow_notes::{Cause, CloseCause, FireKind, Note, Notes};
use h2_frames::codes::NO_ERROR;
use io_ports::{NoMemory, Octets};
use wire_flows::WireFlows;
use wire_outlet::{Control, Waiting};
use wire_state::{Conn, Task, WireCore, note, note_answer, note_pauses};

/// The task Close: the connection is closed, unless it is. That it was lost is no cause of such a task: see `lose`.
#[cold]
#[inline(never)]
pub fn close_task(
    core: &mut WireCore,
    conn: u32,
    code: u32,
    cause: CloseCause,
    notes: &mut Notes,
) -> Result<(), NoMemory>
    requires sound { IsSound core.old }
    requires top { top_go core.old.agenda ≡ 1 }
    ensures sound { OnOk result (IsSound core.new) }
    ensures go { OnOk result (to_go core.new < to_go core.old) }
    ensures notes { Appends notes.old notes.new }
    ensures octets { Goes result core.old notes.old core.new notes.new }
{
    core.end_task();
    if let CloseCause::Lost = cause {
        return Ok(());
    }
    close(core, conn, code, cause, notes)
}

/// Closes a connection, unless it is closed, for another cause than that it was lost; its exchanges are lost next.
#[cold]
#[inline(never)]
pub fn close(
    core: &mut WireCore,
    number: u32,
    code: u32,
    cause: CloseCause,
    notes: &mut Notes,
) -> Result<(), NoMemory>
    requires sound { IsSound core.old }
    requires cause { cause ≢ CloseCause.Lost }
    ensures sound { OnOk result (IsSound core.new) }
    ensures go { OnOk result (to_go core.new ≤ to_go core.old) }
    ensures less { is_open_at number core.old ≡ true → OnOk result (to_go core.new < to_go core.old) }
    ensures notes { Appends notes.old notes.new }
    ensures octets { Goes result core.old notes.old core.new notes.new }
{
    if !core.is_open(number) {
        return Ok(());
    }
    say_farewell(core, number, code, cause, notes)?;
    shut(core, number, cause);
    end_conn(core, number)?;
    note(
        notes,
        Note::Close {
            conn: number,
            code,
            cause,
        },
    )
}

// What a close begins: its exchanges are lost next.
fn end_conn(core: &mut WireCore, number: u32) -> Result<(), NoMemory>
    requires sound { IsSound core.old }
    ensures sound { OnOk result (IsSound core.new) }
    ensures go { OnOk result (to_go core.new ≤ to_go core.old + 2) }
    ensures octets { KeepsOk result core.old core.new }
{
    core.stir(number)?;
    core.disarm(FireKind::ConnectionIdle, u64::from(number));
    core.begin(Task::Losses {
        conn: number,
        last: None,
    })
}

// Whether the peer is told of a close by a GOAWAY.
fn is_told(cause: CloseCause) -> bool {
    matches!(
        cause,
        CloseCause::Protocol | CloseCause::Idle | CloseCause::Flood
    )
}

// The GOAWAY of a close, where the peer is told and the write buffer isn't above. It names the last stream of the first GOAWAY, where the connection is
// draining, and 0 towards a cluster.
fn say_farewell(
    core: &mut WireCore,
    number: u32,
    code: u32,
    cause: CloseCause,
    notes: &mut Notes,
) -> Result<(), NoMemory>
    requires sound { IsSound core.old }
    ensures sound { OnOk result (IsSound core.new) }
    ensures go { OnOk result (to_go core.new ≤ to_go core.old) }
    ensures notes { Appends notes.old notes.new }
    ensures octets { Goes result core.old notes.old core.new notes.new }
    ensures stays { OnOk result (is_open_at number core.new ≡ is_open_at number core.old) }
{
    if !is_told(cause) {
        return Ok(());
    }
    let Some((octets, rose)) = write_farewell(core, number, code)? else {
        return Ok(());
    };
    note_answer(notes, number, octets)?;
    if rose {
        return note_pauses(&core.flows, number, notes);
    }
    Ok(())
}

// The GOAWAY goes into the write buffer, unless that is above.
fn write_farewell(
    core: &mut WireCore,
    number: u32,
    code: u32,
) -> Result<Option<(Octets, bool)>, NoMemory>
    requires sound { IsSound core.old }
    ensures sound { OnOk result (IsSound core.new) }
    ensures go { OnOk result (to_go core.new ≤ to_go core.old) }
    ensures octets { IfOk result (λ framed. MatchOption framed (Keeps core.old core.new) (λ f. Owes (answers_of number f.0 ++ risen_of f.1 number (watchers_on number core.new.flows)) core.old core.new)) }
    ensures stays { is_open_at number core.new ≡ is_open_at number core.old }
{
    match core.conns.get_mut(&number) {
        Some(conn) => conn.farewell(&mut core.flows, number, code),
        None => Ok(None),
    }
}

// From now on the connection isn't open, and nothing waits.
fn shut(core: &mut WireCore, number: u32, cause: CloseCause)
    requires sound { IsSound core.old }
    requires open { is_open_at number core.old ≡ true }
    requires cause { cause ≢ CloseCause.Lost }
    ensures sound { IsSound core.new }
    ensures go { to_go core.new + 4 ≤ to_go core.old }
    ensures octets { (code : ℕ) → Owes (note.Close number code cause ∷ []) core.old core.new }
{
    core.links.close(number);
    match core.conns.get_mut(&number) {
        Some(conn) => conn.shut(),
        None => {}
    }
}

/// A connection is lost: it is closed, unless it is, and its octets go nowhere, also where it was closed before. Where they held
/// flows back, these are to be told once nothing else is under way: by then their exchanges are lost too.
#[cold]
#[inline(never)]
pub fn lose(core: &mut WireCore, number: u32, notes: &mut Notes) -> Result<(), NoMemory>
    requires sound { IsSound core.old }
    ensures sound { OnOk result (IsSound core.new) }
    ensures notes { Appends notes.old notes.new }
    ensures octets { Turns result (event.Gone number) core.old notes.old core.new notes.new }
{
    if core.is_open(number) {
        return lose_open(core, number, notes);
    }
    lose_rest(core, number);
    core.stir(number)
}

// An open connection is lost.
fn lose_open(core: &mut WireCore, number: u32, notes: &mut Notes) -> Result<(), NoMemory>
    requires sound { IsSound core.old }
    requires open { is_open_at number core.old ≡ true }
    ensures sound { OnOk result (IsSound core.new) }
    ensures notes { Appends notes.old notes.new }
    ensures octets { Turns result (event.Gone number) core.old notes.old core.new notes.new }
{
    shut_lost(core, number);
    end_conn(core, number)?;
    note(
        notes,
        Note::Close {
            conn: number,
            code: 0,
            cause: CloseCause::Lost,
        },
    )
}

// From now on the connection isn't open, and what waited for it goes nowhere.
fn shut_lost(core: &mut WireCore, number: u32)
    requires sound { IsSound core.old }
    requires open { is_open_at number core.old ≡ true }
    ensures sound { IsSound core.new }
    ensures octets { Eases number (note.Close number 0 CloseCause.Lost ∷ []) core.old core.new }
{
    core.links.close(number);
    match core.conns.get_mut(&number) {
        Some(conn) => shut_conn(conn, &mut core.flows, number),
        None => {}
    }
}

fn shut_conn(conn: &mut Conn, flows: &mut WireFlows, number: u32)
    ensures kept { (limits : Limits) → IsKept limits conn.old.outlet → IsKept limits conn.new.outlet }
    ensures closed { conn.new.open ≡ false }
    ensures empty { conn.new.outlet.write.octets ≡ [] }
    ensures frees { Frees number true conn.old.outlet.write conn.new.outlet.write flows.old flows.new }
{
    conn.shut();
    conn.drop_octets(flows, number);
}

// What was left of a connection that is closed goes nowhere.
fn lose_rest(core: &mut WireCore, number: u32)
    requires sound { IsSound core.old }
    requires closed { is_open_at number core.old ≡ false }
    ensures sound { IsSound core.new }
    ensures octets { (k : ℕ) → Eases number (note.Turn k (event.Gone number) ∷ []) core.old core.new }
{
    match core.conns.get_mut(&number) {
        Some(conn) => conn.drop_octets(&mut core.flows, number),
        None => {}
    }
}

/// The task Losses: the next exchange of the connection that is lost.
#[cold]
#[inline(never)]
pub fn losses(
    core: &mut WireCore,
    conn: u32,
    last: Option<u32>,
    notes: &mut Notes,
) -> Result<(), NoMemory>
    requires sound { IsSound core.old }
    requires top { top_go core.old.agenda ≡ 1 }
    ensures sound { OnOk result (IsSound core.new) }
    ensures go { OnOk result (to_go core.new < to_go core.old) }
    ensures notes { Appends notes.old notes.new }
    ensures octets { Goes result core.old notes.old core.new notes.new }
{
    match next_lost(core, conn, last) {
        Some(exchange) if core.flows.is_live(exchange) => {
            doom(
                core,
                exchange,
                Cause::ConnLost { conn },
                Origin::Neither,
                notes,
            )
        }
        _ => {
            core.end_task();
            Ok(())
        }
    }
}

// The least live exchange of a connection; by a GOAWAY of a cluster the least that isn't on a stream up to `last`.
fn next_lost(core: &WireCore, conn: u32, last: Option<u32>) -> Option<u64> {
    let Some(last) = last else {
        return core.links.least_of(conn);
    };
    let mut after = 0;
    for _exchange in 0..core.links.exchanges_of(conn) {
        let exchange = core.links.next_of(conn, after)?;
        if is_left_out(core, exchange, last) {
            return Some(exchange);
        }
        after = exchange;
    }
    None
}

// Whether the peer hasn't taken up the request of an exchange.
fn is_left_out(core: &WireCore, exchange: u64, last: u32) -> bool {
    match core.links.ends_of(exchange) {
        Some(ends) => match ends.cluster_stream {
            Some(stream) => stream > last,
            None => true,
        },
        None => false,
    }
}

/// A client connection takes no later streams: it gets one GOAWAY, and is closed once nothing is left to do.
#[cold]
#[inline(never)]
pub fn begin_draining(core: &mut WireCore, conn: u32) -> Result<(), NoMemory>
    requires sound { IsSound core.old }
    ensures sound { OnOk result (IsSound core.new) }
    ensures go { OnOk result (to_go core.new ≤ to_go core.old + 6) }
    ensures octets { KeepsOk result core.old core.new }
{
    if start_draining(core, conn)? {
        return Ok(());
    }
    flood(core, conn)
}

/// As `begin_draining`; the answer is false where the list was full.
#[cold]
#[inline(never)]
pub(crate) fn start_draining(core: &mut WireCore, number: u32) -> Result<bool, NoMemory>
    requires sound { IsSound core.old }
    ensures sound { OnOk result (IsSound core.new) }
    ensures go { OnOk result (to_go core.new ≤ to_go core.old + 5) }
    ensures octets { KeepsOk result core.old core.new }
{
    let Some(last) = drain_link(core, number) else {
        return Ok(true);
    };
    let goaway = Control::goaway(core.alloc, last, NO_ERROR)?;
    append(core, number, Waiting::Answer(goaway))
}

// An open connection that isn't draining begins to. The answer is the last stream that its GOAWAY names.
fn drain_link(core: &mut WireCore, number: u32) -> Option<u32>
    requires sound { IsSound core.old }
    ensures sound { IsSound core.new }
    ensures go { to_go core.new ≤ to_go core.old }
    ensures last { IfSome result (λ last. last < 2 ^ 31) }
    ensures octets { Keeps core.old core.new }
{
    let last = begin_at(core, number)?;
    core.links.drain(number, last);
    Some(last)
}

fn begin_at(core: &mut WireCore, number: u32) -> Option<u32>
    requires sound { IsSound core.old }
    ensures sound { IsSound core.new }
    ensures go { to_go core.new ≤ to_go core.old }
    ensures last { IfSome result (λ last. last < 2 ^ 31) }
    ensures octets { Keeps core.old core.new }
{
    match core.conns.get_mut(&number) {
        Some(conn) => conn.begin_draining(),
        None => None,
    }
}
