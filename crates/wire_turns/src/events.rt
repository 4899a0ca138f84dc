// Events: what each does before anything is run.
ghost use Rattle.flow_notes.specs.declared.events.Event.TheVariants as event;
ghost use Rattle.std.specs.Option.{option_and_then, option_map_or};
ghost use Rattle.std.specs.Prelude.{◌≡◌, ◌≤◌, ◌*◌, ◌||◌, if◌then◌else◌, IfOk, IsOk, OnOk, length, MatchOption, None, Some, false, is_some, true};
ghost use Rattle.wire_links.specs.Links.{is_known};
ghost use Rattle.wire_state.specs.Noting.{Appends};
ghost use Rattle.wire_state.specs.Sound.{IsSound};
ghost use Rattle.wire_state.specs.Worlds.{Comes, Goes, Keeps, KeepsOk, Leaves, Pays, Turns, TurnsTo, has_conn, outs_of};

use flow_notes::{Cause, CloseCause, Event, FireKind, Job, Note, Notes};
use io_ports::{NoMemory, Octets, PressureList};
use proxy_config::LimitKeys;
use std::alloc::Global;
use wire_ends::{Origin, close, doom, lose, put};
use wire_inlet::Peer;
use wire_load::Action;
use wire_outlet::Control;
use wire_state::{Conn, Task, WireCore, note};

/// The settings that are named beside those of the session (RFC 9113 section 6.5.2).
const ENABLE_PUSH: u16 = 2;

const MAX_CONCURRENT_STREAMS: u16 = 3;

const INITIAL_WINDOW_SIZE: u16 = 4;

const MAX_FRAME_SIZE: u16 = 5;

const MAX_HEADER_LIST_SIZE: u16 = 6;

/// The greatest payload of a frame that needs no setting.
const LEAST_FRAME_SIZE: u32 = 16_384;

/// Moments are at most this, in ms.
const LAST_MOMENT: u64 = (1 << 60) - 1;

/// How many exchanges a published state resets at most.
const RESETS: u32 = 50;

/// The event's own effect, with its notes; the turn note stands already. The answer is the connection whose write buffer the event
/// may have eased, if there is one: the flows that go there are to be told next.
pub fn take_event(
    core: &mut WireCore,
    event: &Event,
    notes: &mut Notes,
) -> Result<Option<u32>, NoMemory>
    requires sound { IsSound core.old }
    ensures sound { OnOk result (IsSound core.new) }
    ensures notes { Appends notes.old notes.new }
    ensures octets { TurnsTo result event.now core.old notes.old core.new notes.new }
{
    match event {
        Event::Accept { conn } => eases_none(accept(core, *conn, notes)),
        Event::Join { conn, cluster } => eases_none(join(core, *conn, *cluster)),
        Event::Read { conn, octets } => eases_none(read(core, *conn, octets)),
        Event::Gone { conn } => gone(core, *conn, notes),
        Event::Room { conn, n } => room(core, *conn, *n, notes),
        Event::Tick { now } => eases_none(tick(core, *now)),
        Event::Post {
            poster,
            number,
            job,
        } => eases_none(post(core, *poster, *number, *job, notes)),
        Event::Obey { version, pressures } => eases_none(obey(core, *version, pressures)),
        Event::Plain(_) => Ok(None),
    }
}

// What was done eases no write buffer.
#[inline(always)]
fn eases_none(done: Result<(), NoMemory>) -> Result<Option<u32>, NoMemory>
    ensures done { OnOk result (IsOk done) }
    ensures none { IfOk result (λ eased. eased ≡ None) }
{
    done?;
    Ok(None)
}

// A connection is lost, and its write buffer eased by that.
fn gone(core: &mut WireCore, number: u32, notes: &mut Notes) -> Result<Option<u32>, NoMemory>
    requires sound { IsSound core.old }
    ensures sound { OnOk result (IsSound core.new) }
    ensures notes { Appends notes.old notes.new }
    ensures octets { TurnsTo result (event.Gone number) core.old notes.old core.new notes.new }
{
    lose(core, number, notes)?;
    Ok(Some(number))
}

// A client connection came, unless its number is taken.
fn accept(core: &mut WireCore, number: u32, notes: &mut Notes) -> Result<(), NoMemory>
    requires sound { IsSound core.old }
    ensures sound { OnOk result (IsSound core.new) }
    ensures notes { Appends notes.old notes.new }
    ensures octets { Turns result (event.Accept number) core.old notes.old core.new notes.new }
{
    if core.links.is_known(number) {
        return Ok(());
    }
    take_client(core, number)?;
    greet_client(core, number, notes)
}

// A client's connection is linked.
fn take_client(core: &mut WireCore, number: u32) -> Result<(), NoMemory>
    requires sound { IsSound core.old }
    requires unknown { is_known number core.old.links ≡ false }
    ensures sound { OnOk result (IsSound core.new) }
    ensures octets { Comes result number core.old core.new }
{
    core.links.accept(number)?;
    open(core, number, Peer::Client)
}

// A new client connection is told the settings, or closed where none is taken.
fn greet_client(core: &mut WireCore, number: u32, notes: &mut Notes) -> Result<(), NoMemory>
    requires sound { IsSound core.old }
    ensures sound { OnOk result (IsSound core.new) }
    ensures notes { Appends notes.old notes.new }
    ensures octets { Goes result core.old notes.old core.new notes.new }
{
    if core.load.is_saturated(Action::RejectIncoming) {
        return close(core, number, 0, CloseCause::Overload, notes);
    }
    core.arm(FireKind::ConnectionIdle, u64::from(number))?;
    core.begin(Task::AskDrain(number))?;
    let limits = &core.config.limits;
    let first = (MAX_CONCURRENT_STREAMS, limits.max_streams);
    let settings = settings_of(core.alloc, first, limits)?;
    let control = Control::settings(core.alloc, settings.as_slice())?;
    put(core, number, control)
}

// A connection to a cluster came, unless its number is taken.
fn join(core: &mut WireCore, number: u32, cluster: u32) -> Result<(), NoMemory>
    requires sound { IsSound core.old }
    ensures sound { OnOk result (IsSound core.new) }
    ensures octets { Comes result number core.old core.new }
{
    if core.links.is_known(number) {
        return Ok(());
    }
    take_cluster(core, number, cluster)?;
    greet_cluster(core, number)
}

// A connection to a cluster is linked.
fn take_cluster(core: &mut WireCore, number: u32, cluster: u32) -> Result<(), NoMemory>
    requires sound { IsSound core.old }
    requires unknown { is_known number core.old.links ≡ false }
    ensures sound { OnOk result (IsSound core.new) }
    ensures octets { Comes result number core.old core.new }
{
    core.links.join(number, cluster)?;
    open(core, number, Peer::Cluster)
}

// The peer of a new connection to a cluster is told the settings.
fn greet_cluster(core: &mut WireCore, number: u32) -> Result<(), NoMemory>
    requires sound { IsSound core.old }
    ensures sound { OnOk result (IsSound core.new) }
    ensures octets { KeepsOk result core.old core.new }
{
    core.begin(Task::AskDrain(number))?;
    let settings = settings_of(core.alloc, (ENABLE_PUSH, 0), &core.config.limits)?;
    let control = Control::preface_settings(core.alloc, settings.as_slice())?;
    put(core, number, control)
}

// The settings of this side: the first, and those that both kinds of connections are told.
fn settings_of(
    alloc: Global,
    first: (u16, u32),
    limits: &LimitKeys,
) -> Result<Vec<(u16, u32)>, NoMemory>
    ensures { IfOk result (λ list. 6 * length list.items ≤ 16384) }
{
    let mut settings = Vec::with_capacity(alloc, 4)?;
    settings.push(first)?;
    settings.push((INITIAL_WINDOW_SIZE, limits.stream_window))?;
    if limits.frame_size > LEAST_FRAME_SIZE {
        settings.push((MAX_FRAME_SIZE, limits.frame_size))?;
    }
    settings.push((MAX_HEADER_LIST_SIZE, limits.field_list))?;
    Ok(settings)
}

// The octets and windows of a new connection.
fn open(core: &mut WireCore, number: u32, peer: Peer) -> Result<(), NoMemory>
    requires sound { IsSound core.old }
    ensures sound { OnOk result (IsSound core.new) }
    ensures octets { is_known number core.old.links ≡ true → has_conn number core.old.conns ≡ false → Comes result number core.old core.new }
{
    core.flows.open_write(number)?;
    let conn = Conn::new(core.alloc, peer, &core.config.limits)?;
    drop(core.conns.insert(number, conn)?);
    core.stir(number)
}

// Octets came.
fn read(core: &mut WireCore, number: u32, octets: &Octets) -> Result<(), NoMemory>
    requires sound { IsSound core.old }
    ensures sound { OnOk result (IsSound core.new) }
    ensures octets { KeepsOk result core.old core.new }
{
    if read_at(core, number, octets)? {
        return core.begin(Task::Read(number));
    }
    Ok(())
}

// The octets are kept, unless the connection is closed. The answer is whether they are.
fn read_at(core: &mut WireCore, number: u32, octets: &Octets) -> Result<bool, NoMemory>
    requires sound { IsSound core.old }
    ensures sound { OnOk result (IsSound core.new) }
    ensures octets { KeepsOk result core.old core.new }
{
    match core.conns.get_mut(&number) {
        Some(conn) => conn.read(octets),
        None => Ok(false),
    }
}

// Up to n octets leave the write buffer. Where that eases it, who is to be told that it drained, and what may be framed then, comes
// next.
fn room(
    core: &mut WireCore,
    number: u32,
    n: u32,
    notes: &mut Notes,
) -> Result<Option<u32>, NoMemory>
    requires sound { IsSound core.old }
    ensures sound { OnOk result (IsSound core.new) }
    ensures notes { Appends notes.old notes.new }
    ensures octets { TurnsTo result (event.Room number n) core.old notes.old core.new notes.new }
{
    let Some((n, eased)) = leave_at(core, number, n) else {
        return Ok(None);
    };
    stir_left(core, number, eased)?;
    note_out(notes, number, n)?;
    Ok(eased)
}

// How many octets left, and the connection, where its write buffer was eased by that.
fn leave_at(core: &mut WireCore, number: u32, n: u32) -> Option<(u32, Option<u32>)>
    requires sound { IsSound core.old }
    ensures sound { IsSound core.new }
    ensures octets { Leaves number n (option_map_or (λ left. left.0) result 0) (option_and_then (λ left. left.1) result) core.old core.new }
{
    match core.conns.get_mut(&number) {
        Some(conn) => {
            let (n, drained) = conn.leave_write(&mut core.flows, number, n);
            Some((n, eased_at(conn, number, drained)))
        }
        None => None,
    }
}

// The connection, where octets that left its write buffer eased it: it drained, or the connection is draining, and may be closed.
#[inline(always)]
fn eased_at(conn: &Conn, number: u32, drained: bool) -> Option<u32>
    ensures { result ≡ (if drained || is_some conn.now.draining then Some number else None) }
{
    if drained || conn.draining.is_some() {
        return Some(number);
    }
    None
}

// Octets left the write buffer of a connection. Before the event nothing could be framed there: where the buffer wasn't eased,
// nothing can be now.
#[inline(always)]
fn stir_left(core: &mut WireCore, number: u32, eased: Option<u32>) -> Result<(), NoMemory>
    requires sound { IsSound core.old }
    ensures sound { OnOk result (IsSound core.new) }
    ensures octets { Keeps core.old core.new }
{
    match eased {
        Some(_) => core.stir(number),
        None => core.stir_calm(number),
    }
}

// The note of octets that went to the socket. Without octets there is nothing to say.
fn note_out(notes: &mut Notes, conn: u32, n: u32) -> Result<(), NoMemory>
    ensures notes { Appends notes.old notes.new }
    ensures octets { Pays result (outs_of conn n) notes.old notes.new }
{
    if n == 0 {
        return Ok(());
    }
    note(notes, Note::Out { conn, n })
}

// The clock goes on: timers may be due, and octets in Meters may be released.
fn tick(core: &mut WireCore, now: u64) -> Result<(), NoMemory>
    requires sound { IsSound core.old }
    ensures sound { OnOk result (IsSound core.new) }
    ensures octets { KeepsOk result core.old core.new }
{
    set_clock(core, now);
    core.begin(Task::Fires)?;
    core.begin(Task::Ticks {
        exchange: 0,
        back: true,
    })
}

// The clock doesn't go back, and not beyond the last moment.
fn set_clock(core: &mut WireCore, now: u64)
    requires sound { IsSound core.old }
    ensures sound { IsSound core.new }
    ensures octets { Keeps core.old core.new }
{
    core.now = core.now.max(now).min(LAST_MOMENT);
    core.flows.tick(core.now);
}

// A posted job.
fn post(
    core: &mut WireCore,
    poster: u32,
    number: u64,
    job: Job,
    notes: &mut Notes,
) -> Result<(), NoMemory>
    requires sound { IsSound core.old }
    ensures sound { OnOk result (IsSound core.new) }
    ensures notes { Appends notes.old notes.new }
    ensures octets { Goes result core.old notes.old core.new notes.new }
{
    match job {
        Job::Drain => core.begin(Task::Drains(0)),
        Job::Cancel { exchange } => {
            doom(
                core,
                exchange,
                Cause::Posted { poster, number },
                Origin::Neither,
                notes,
            )
        }
        Job::Look => Ok(()),
    }
}

// A published state is obeyed.
fn obey(core: &mut WireCore, version: u64, pressures: &PressureList) -> Result<(), NoMemory>
    requires sound { IsSound core.old }
    ensures sound { OnOk result (IsSound core.new) }
    ensures octets { KeepsOk result core.old core.new }
{
    core.obeyed = version;
    core.load.obey(&core.config, pressures.as_slice());
    core.timers.set_state(core.load.timeouts_state());
    core.begin(Task::Resets(RESETS))
}
