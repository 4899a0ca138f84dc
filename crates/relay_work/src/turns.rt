// The turns of a live relay.
ghost use Rattle.std.specs.Prelude.{◌≡◌, ◌⊎◌, ◌<◌, ◌≤◌, Err, length};
ghost use Rattle.io_ports.specs.Faults.{Rose};
ghost use Rattle.relay_work.specs.Belonging.{Belongs};
ghost use Rattle.relay_work.specs.Carrying.{CarriesFrom, IsReady, PartsFrom};
ghost use Rattle.relay_work.specs.Live.{live_of};
ghost use Rattle.relay_work.specs.Offering.{OffersAllFrom, OffersOneFrom, Waits};
ghost use Rattle.relay_work.specs.Turning.{AnswersFrom, TurnsFrom};
ghost use Rattle.relay_work.specs.Works.{WorksFrom};
ghost use Rattle.tcp_relay.specs.Seen.{IsFront};

use crate::events::{dispatch, event_of, is_stop};
use crate::settle::settle;
use flow_notes::{Event, Names};
use io_ports::{Failed, Octets};
use relay_ports::{Journal, Taps};
use std::alloc::Global;
use tcp_relay::{Interests, Relay};
use worker_ports::WireRefusal;

/// How the work of a relay ended.
#[derive(Clone, Copy, PartialEq, Eq)]
pub enum RelayEnded {
    /// After all its turns, in none of which it was to stop.
    Turns,
    /// At the end of a turn in which it was to stop.
    Stopped,
    /// The connections failed.
    TapsFault,
    /// The journal failed. The event whose line wasn't written wasn't dispatched.
    JournalFault,
    /// Out of memory.
    Memory,
}

/// How many octets leave at once at most, as an event of room tells it.
const MOST_ROOM: usize = 2_147_483_647;

/// Runs so many turns. In each the connections are asked once what came; its event's line is written to the journal, and it is
/// dispatched; then, by their numbers, each connection for which octets wait is offered a front of them once, and what it
/// took is dispatched as room. Connections that the relay has closed are closed, and of the live ones those are held that
/// don't read. After a turn in which the work is to stop it ends.
///
/// The relay and the connections are new, or come together from earlier work that ended by `Turns` or `Stopped`. The names are
/// those of the clusters.
#[tactic(none)]
pub fn relay_work<T: Taps, J: Journal>(
    alloc: Global,
    relay: &mut Relay,
    taps: &mut T,
    journal: &mut J,
    names: &Names,
    turns: u64,
) -> RelayEnded
    requires { Belongs names.now relay.old (T.seen taps.old) }
    ensures works { WorksFrom names.now turns (live_of relay.old (T.seen taps.old) (J.contents journal.old)) result (live_of relay.new (T.seen taps.new) (J.contents journal.new)) }
    ensures taps_fault { result ≡ RelayEnded.TapsFault → Rose (T.faults taps.old) (T.faults taps.new) }
    ensures journal_fault { result ≡ RelayEnded.JournalFault → Rose (J.faults journal.old) (J.faults journal.new) }
    ensures again { (result ≡ RelayEnded.Turns) ⊎ (result ≡ RelayEnded.Stopped) → Belongs names.now relay.new (T.seen taps.new) }
{
    let mut line = Octets::new(alloc);
    'turns: for _turn in 0..turns {
        match turn(relay, taps, journal, names, &mut line) {
            Ok(false) => {}
            Ok(true) => return RelayEnded::Stopped,
            Err(end) => return end,
        }
    }
    RelayEnded::Turns
}

// One turn. Answers whether the work is to stop.
#[tactic(none)]
fn turn<T: Taps, J: Journal>(
    relay: &mut Relay,
    taps: &mut T,
    journal: &mut J,
    names: &Names,
    line: &mut Octets,
) -> Result<bool, RelayEnded>
    requires { Belongs names.now relay.old (T.seen taps.old) }
    ensures turns { TurnsFrom names.now (live_of relay.old (T.seen taps.old) (J.contents journal.old)) result (live_of relay.new (T.seen taps.new) (J.contents journal.new)) }
    ensures taps_fault { result ≡ Err RelayEnded.TapsFault → Rose (T.faults taps.old) (T.faults taps.new) }
    ensures journal_fault { result ≡ Err RelayEnded.JournalFault → Rose (J.faults journal.old) (J.faults journal.new) }
    ensures taps_rise { T.faults taps.old ≤ T.faults taps.new }
    ensures journal_rises { J.faults journal.old ≤ J.faults journal.new }
{
    let stops = answer(relay, taps, journal, names, line)?;
    offer_all(relay, taps, journal, names, line)?;
    Ok(stops)
}

// Asks the connections what came, and carries it out. Answers whether the work is to stop.
#[tactic(none)]
fn answer<T: Taps, J: Journal>(
    relay: &mut Relay,
    taps: &mut T,
    journal: &mut J,
    names: &Names,
    line: &mut Octets,
) -> Result<bool, RelayEnded>
    requires { Belongs names.now relay.old (T.seen taps.old) }
    ensures answers { AnswersFrom names.now (live_of relay.old (T.seen taps.old) (J.contents journal.old)) result (live_of relay.new (T.seen taps.new) (J.contents journal.new)) }
    ensures taps_fault { result ≡ Err RelayEnded.TapsFault → Rose (T.faults taps.old) (T.faults taps.new) }
    ensures journal_fault { result ≡ Err RelayEnded.JournalFault → Rose (J.faults journal.old) (J.faults journal.new) }
    ensures taps_rise { T.faults taps.old ≤ T.faults taps.new }
    ensures journal_rises { J.faults journal.old ≤ J.faults journal.new }
{
    let wired = match taps.next() {
        Ok(wired) => wired,
        Err(WireRefusal::Failed) => return Err(RelayEnded::TapsFault),
        Err(WireRefusal::NoMemory) => return Err(RelayEnded::Memory),
    };
    let stops = is_stop(&wired);
    let Some((conn, event)) = event_of(wired) else {
        return Ok(stops);
    };
    carry_out(relay, taps, journal, names, line, conn, &event)?;
    Ok(stops)
}

// Dispatches an event of a connection, and tells the connections what that changed.
#[tactic(none)]
fn carry_out<T: Taps, J: Journal>(
    relay: &mut Relay,
    taps: &mut T,
    journal: &mut J,
    names: &Names,
    line: &mut Octets,
    conn: u32,
    event: &Event,
) -> Result<(), RelayEnded>
    requires { IsReady names.now relay.old (T.seen taps.old) conn event.now }
    ensures carries { CarriesFrom names.now conn event.now (live_of relay.old (T.seen taps.old) (J.contents journal.old)) result (live_of relay.new (T.seen taps.new) (J.contents journal.new)) }
    ensures journal_fault { result ≡ Err RelayEnded.JournalFault → Rose (J.faults journal.old) (J.faults journal.new) }
    ensures taps_rise { T.faults taps.old ≤ T.faults taps.new }
    ensures journal_rises { J.faults journal.old ≤ J.faults journal.new }
{
    let was = parting(relay, event);
    match dispatch(relay, journal, names, line, event)? {
        Interests::Kept => Ok(()),
        Interests::Changed => {
            settle(relay, taps, conn, was);
            Ok(())
        }
    }
}

// The other connection of the pair of one that is lost: the relay doesn't know it any more once that is dispatched.
fn parting(relay: &Relay, event: &Event) -> Option<u32>
    ensures { PartsFrom relay.now event.now result }
{
    match event {
        Event::Gone { conn } => relay.peer(*conn),
        _ => None,
    }
}

// Offers what waits, once to each connection, by their numbers.
#[tactic(none)]
fn offer_all<T: Taps, J: Journal>(
    relay: &mut Relay,
    taps: &mut T,
    journal: &mut J,
    names: &Names,
    line: &mut Octets,
) -> Result<(), RelayEnded>
    requires { Belongs names.now relay.old (T.seen taps.old) }
    ensures offers { OffersAllFrom names.now (live_of relay.old (T.seen taps.old) (J.contents journal.old)) result (live_of relay.new (T.seen taps.new) (J.contents journal.new)) }
    ensures taps_fault { result ≡ Err RelayEnded.TapsFault → Rose (T.faults taps.old) (T.faults taps.new) }
    ensures journal_fault { result ≡ Err RelayEnded.JournalFault → Rose (J.faults journal.old) (J.faults journal.new) }
    ensures taps_rise { T.faults taps.old ≤ T.faults taps.new }
    ensures journal_rises { J.faults journal.old ≤ J.faults journal.new }
{
    let mut last = 0;
    while let Some(conn) = relay.out_after(last) {
        offer_one(relay, taps, journal, names, line, conn)?;
        last = conn;
    }
    Ok(())
}

// Offers a front of what waits for a connection, and dispatches what it took.
#[tactic(none)]
fn offer_one<T: Taps, J: Journal>(
    relay: &mut Relay,
    taps: &mut T,
    journal: &mut J,
    names: &Names,
    line: &mut Octets,
    conn: u32,
) -> Result<(), RelayEnded>
    requires { Waits names.now relay.old (T.seen taps.old) conn }
    ensures fits { conn < 4294967296 }
    ensures offers { OffersOneFrom names.now conn (live_of relay.old (T.seen taps.old) (J.contents journal.old)) result (live_of relay.new (T.seen taps.new) (J.contents journal.new)) }
    ensures taps_fault { result ≡ Err RelayEnded.TapsFault → Rose (T.faults taps.old) (T.faults taps.new) }
    ensures journal_fault { result ≡ Err RelayEnded.JournalFault → Rose (J.faults journal.old) (J.faults journal.new) }
    ensures taps_rise { T.faults taps.old ≤ T.faults taps.new }
    ensures journal_rises { J.faults journal.old ≤ J.faults journal.new }
{
    let took = match taps.offer(conn, first_of(relay.out_front(conn))) {
        Ok(took) => took,
        Err(Failed) => return Err(RelayEnded::TapsFault),
    };
    if took == 0 {
        return Ok(());
    }
    let event = Event::Room {
        conn,
        n: took as u32,
    };
    carry_out(relay, taps, journal, names, line, conn, &event)
}

// As much of a front as may leave at once.
fn first_of(front: &[u8]) -> &[u8]
    ensures front { IsFront front.now result.now }
    ensures most { length result.now ≤ 2147483647 }
{
    &front[..front.len().min(MOST_ROOM)]
}
