// Units that belong to no flow: what waits, and WINDOW_UPDATE frames (RFC 9113 section 6.9).
ghost use Rattle.std.specs.Prelude.{◌≡◌, ◌≤◌, ◌<◌, ◌+◌, ◌*◌, ◌^◌, ◌++◌, IfOk, IfSome, MatchOption, OnOk, ◌∷◌};
ghost use Rattle.wire_flows.specs.Writes.{watchers_on};
ghost use Rattle.wire_state.specs.Agenda.{stirred_at, top_go};
ghost use Rattle.wire_state.specs.Noting.{Appends, risen_of};
ghost use Rattle.wire_state.specs.Progress.{to_go};
ghost use Rattle.wire_state.specs.Sound.{IsSound};
ghost use Rattle.wire_state.specs.Worlds.{Goes, Keeps, Owes, Pays, waited_of};
ghost use Rattle.flow_notes.specs.declared.notes.Note.TheVariants as note;

use crate::drains::unit_framed;
use flow_notes::{Note, Notes};
use io_ports::NoMemory;
use wire_links::Ends;
use wire_outlet::Framed;
use wire_state::{WireCore, note, note_answer, note_head};

/// The first unit of the waiting list of a connection that is drained.
pub(crate) fn frame_waiting(
    core: &mut WireCore,
    number: u32,
    notes: &mut Notes,
) -> Result<(), NoMemory>
    requires sound { IsSound core.old }
    requires top { top_go core.old.agenda ≡ 1 }
    ensures sound { OnOk result (IsSound core.new) }
    ensures go { OnOk result (to_go core.new + (1 + stirred_at number core.old.stirred.conns.items) ≤ to_go core.old) }
    ensures notes { Appends notes.old notes.new }
    ensures octets { Goes result core.old notes.old core.new notes.new }
{
    let Some((framed, rose)) = write_waiting(core, number)? else {
        core.give_up(number);
        return Ok(());
    };
    note_waiting(notes, number, framed)?;
    unit_framed(core, number, rose, notes)
}

// The unit goes into the write buffer. None where nothing waits, or the connection may not write.
fn write_waiting(core: &mut WireCore, number: u32) -> Result<Option<(Framed, bool)>, NoMemory>
    requires sound { IsSound core.old }
    ensures sound { OnOk result (IsSound core.new) }
    ensures go { IfOk result (λ framed. MatchOption framed (to_go core.new ≤ to_go core.old) (λ f. to_go core.new + 4 ≤ to_go core.old)) }
    ensures rest { core.new ≡ record core.old { conns = core.new.conns; flows = core.new.flows } }
    ensures octets { IfOk result (λ framed. MatchOption framed (Keeps core.old core.new) (λ f. Owes (waited_of number f.0 ++ risen_of f.1 number (watchers_on number core.new.flows)) core.old core.new)) }
{
    match core.conns.get_mut(&number) {
        Some(conn) => conn.write_waiting(&mut core.flows, number),
        None => Ok(None),
    }
}

// The note of a unit that waited.
fn note_waiting(notes: &mut Notes, conn: u32, framed: Framed) -> Result<(), NoMemory>
    ensures notes { Appends notes.old notes.new }
    ensures paid { Pays result (waited_of conn framed) notes.old notes.new }
{
    match framed {
        Framed::Answer(octets) => note_answer(notes, conn, octets),
        Framed::Reply { stream, octets } => note_head(notes, conn, stream, octets),
    }
}

/// The first credit of a connection that is drained: the exact difference to its window.
pub(crate) fn frame_first_credit(
    core: &mut WireCore,
    number: u32,
    notes: &mut Notes,
) -> Result<(), NoMemory>
    requires sound { IsSound core.old }
    requires top { top_go core.old.agenda ≡ 1 }
    ensures sound { OnOk result (IsSound core.new) }
    ensures go { OnOk result (to_go core.new + (1 + stirred_at number core.old.stirred.conns.items) ≤ to_go core.old) }
    ensures notes { Appends notes.old notes.new }
    ensures octets { Goes result core.old notes.old core.new notes.new }
{
    let n = grant_first(core, number);
    frame_update(core, number, 0, n, notes)
}

fn grant_first(core: &mut WireCore, number: u32) -> u32
    requires sound { IsSound core.old }
    ensures sound { IsSound core.new }
    ensures go { to_go core.new + 4 * result ≤ to_go core.old }
    ensures fits { result < 2 ^ 31 }
    ensures rest { core.new ≡ record core.old { conns = core.new.conns } }
    ensures octets { Keeps core.old core.new }
{
    match core.conns.get_mut(&number) {
        Some(conn) => conn.grant_first(),
        None => 0,
    }
}

/// The credit of a connection that is drained.
pub(crate) fn frame_credit(
    core: &mut WireCore,
    number: u32,
    notes: &mut Notes,
) -> Result<(), NoMemory>
    requires sound { IsSound core.old }
    requires top { top_go core.old.agenda ≡ 1 }
    ensures sound { OnOk result (IsSound core.new) }
    ensures go { OnOk result (to_go core.new + (1 + stirred_at number core.old.stirred.conns.items) ≤ to_go core.old) }
    ensures notes { Appends notes.old notes.new }
    ensures octets { Goes result core.old notes.old core.new notes.new }
{
    let n = grant_conn(core, number);
    frame_update(core, number, 0, n, notes)
}

fn grant_conn(core: &mut WireCore, number: u32) -> u32
    requires sound { IsSound core.old }
    ensures sound { IsSound core.new }
    ensures go { to_go core.new + 4 * result ≤ to_go core.old }
    ensures fits { result < 2 ^ 31 }
    ensures rest { core.new ≡ record core.old { conns = core.new.conns } }
    ensures octets { Keeps core.old core.new }
{
    match core.conns.get_mut(&number) {
        Some(conn) => conn.grant_conn(),
        None => 0,
    }
}

/// The credit of the stream of an exchange, at a connection that is drained.
pub(crate) fn frame_stream_credit(
    core: &mut WireCore,
    number: u32,
    exchange: u64,
    notes: &mut Notes,
) -> Result<(), NoMemory>
    requires sound { IsSound core.old }
    requires top { top_go core.old.agenda ≡ 1 }
    ensures sound { OnOk result (IsSound core.new) }
    ensures go { OnOk result (to_go core.new + (1 + stirred_at number core.old.stirred.conns.items) ≤ to_go core.old) }
    ensures notes { Appends notes.old notes.new }
    ensures octets { Goes result core.old notes.old core.new notes.new }
{
    let n = grant(core, number, exchange);
    match core.links.ends_of(exchange) {
        Some(ends) => frame_update(core, number, stream_at(ends, number), n, notes),
        None => {
            core.give_up(number);
            Ok(())
        }
    }
}

fn grant(core: &mut WireCore, number: u32, exchange: u64) -> u32
    requires sound { IsSound core.old }
    ensures sound { IsSound core.new }
    ensures go { to_go core.new + 4 * result ≤ to_go core.old }
    ensures fits { result < 2 ^ 31 }
    ensures rest { core.new ≡ record core.old { conns = core.new.conns } }
    ensures octets { Keeps core.old core.new }
{
    match core.conns.get_mut(&number) {
        Some(conn) => conn.grant(exchange),
        None => 0,
    }
}

// The stream of an exchange at one of its connections.
fn stream_at(ends: Ends, conn: u32) -> u32 {
    if ends.client == conn {
        return ends.stream;
    }
    ends.cluster_stream.unwrap_or(0)
}

// A WINDOW_UPDATE frame on a stream, or with 0 on the connection.
fn frame_update(
    core: &mut WireCore,
    number: u32,
    stream: u32,
    n: u32,
    notes: &mut Notes,
) -> Result<(), NoMemory>
    requires sound { IsSound core.old }
    requires top { top_go core.old.agenda ≡ 1 }
    requires fits { n < 2 ^ 31 }
    ensures sound { OnOk result (IsSound core.new) }
    ensures go { OnOk result (to_go core.new + (1 + stirred_at number core.old.stirred.conns.items) ≤ to_go core.old + 4 * n) }
    ensures notes { Appends notes.old notes.new }
    ensures octets { Goes result core.old notes.old core.new notes.new }
{
    let Some(rose) = write_update(core, number, stream, n)? else {
        core.give_up(number);
        return Ok(());
    };
    note(
        notes,
        Note::Credit {
            conn: number,
            stream,
            n,
        },
    )?;
    unit_framed(core, number, rose, notes)
}

// The frame goes into the write buffer. None where it would grant nothing, no frame can name the stream, or the connection may
// not write.
fn write_update(
    core: &mut WireCore,
    number: u32,
    stream: u32,
    n: u32,
) -> Result<Option<bool>, NoMemory>
    requires sound { IsSound core.old }
    requires fits { n < 2 ^ 31 }
    ensures sound { OnOk result (IsSound core.new) }
    ensures go { OnOk result (to_go core.new ≤ to_go core.old) }
    ensures some { IfOk result (λ rose. IfSome rose (λ c. 0 < n)) }
    ensures rest { core.new ≡ record core.old { conns = core.new.conns; flows = core.new.flows } }
    ensures octets { IfOk result (λ rose. MatchOption rose (Keeps core.old core.new) (λ c. Owes (note.Credit number stream n ∷ risen_of c number (watchers_on number core.new.flows)) core.old core.new)) }
{
    match core.conns.get_mut(&number) {
        Some(conn) => conn.write_update(&mut core.flows, number, stream, n),
        None => Ok(None),
    }
}
