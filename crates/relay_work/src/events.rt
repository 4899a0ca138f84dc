// Events of a live relay: each has its line in the journal before it is dispatched.
ghost use Rattle.std.specs.Prelude.{◌≡◌, ◌<◌, ◌≤◌, Err, IfSome, slice_index, ℕ};
ghost use Rattle.flow_notes.specs.Event.{IsEvent};
ghost use Rattle.flow_notes.specs.Fields.{FitsEvent};
ghost use Rattle.io_ports.specs.Faults.{Rose};
ghost use Rattle.relay_work.specs.Dispatching.{CanTake, KeepsLine, TakesFrom, line_of};
ghost use Rattle.relay_work.specs.Turning.{event_at};
ghost use Rattle.relay_work.specs.Turns.{tells_stop};

use crate::turns::RelayEnded;
use flow_notes::{Event, Names, event_text};
use io_ports::{Failed, Octets};
use relay_ports::Journal;
use session_run::write_all;
use tcp_relay::{Interests, Relay, RelayFault};
use worker_ports::Wired;

/// Writes an event's line to the journal, and dispatches it. The line is spelled in `line`. Answers whether the relay's interests
/// are as before.
#[tactic(none)]
pub fn dispatch<J: Journal>(
    relay: &mut Relay,
    journal: &mut J,
    names: &Names,
    line: &mut Octets,
    event: &Event,
) -> Result<Interests, RelayEnded>
    requires { CanTake names.now relay.old event.now }
    ensures takes { TakesFrom names.now relay.old (J.contents journal.old) event.now result relay.new (J.contents journal.new) }
    ensures cause { result ≡ Err RelayEnded.JournalFault → Rose (J.faults journal.old) (J.faults journal.new) }
    ensures no_fall { J.faults journal.old ≤ J.faults journal.new }
{
    keep_line(journal, names, line, event)?;
    match relay.carry_out(event) {
        Ok(interests) => Ok(interests),
        Err(RelayFault::NoMemory) => Err(RelayEnded::Memory),
        Err(RelayFault::Paused { .. }) => unreachable!(),
        Err(RelayFault::Failed) => unreachable!(),
    }
}

// Writes an event's line, if lines are kept.
fn keep_line<J: Journal>(
    journal: &mut J,
    names: &Names,
    line: &mut Octets,
    event: &Event,
) -> Result<(), RelayEnded>
    requires { IsEvent names.now event.now }
    ensures keeps { KeepsLine (line_of names.now event.now) (J.contents journal.old) result (J.contents journal.new) }
    ensures cause { result ≡ Err RelayEnded.JournalFault → Rose (J.faults journal.old) (J.faults journal.new) }
    ensures no_fall { J.faults journal.old ≤ J.faults journal.new }
{
    if !journal.is_kept() {
        return Ok(());
    }
    line.clear();
    let Ok(()) = event_text(event, names, line) else {
        return Err(RelayEnded::Memory);
    };
    match write_all(journal, line.as_slice()) {
        Ok(()) => Ok(()),
        Err(Failed) => Err(RelayEnded::JournalFault),
    }
}

/// Whether the work is to stop.
pub fn is_stop(wired: &Wired) -> bool
    ensures { result ≡ tells_stop wired.now }
{
    matches!(wired, Wired::Stop)
}

/// The event of what was told, and its connection, if it has one.
pub fn event_of(wired: Wired) -> Option<(u32, Event)>
    ensures is { result ≡ event_at wired }
    ensures fits { IfSome result (λ told. FitsEvent told.1) }
{
    match wired {
        Wired::Accept(conn) => Some((conn, Event::Accept { conn })),
        Wired::Join(conn, cluster) => Some((conn, Event::Join { conn, cluster })),
        Wired::Read(conn, octets) => {
            fit(octets.as_slice());
            Some((conn, Event::Read { conn, octets }))
        }
        Wired::Lost(conn) => Some((conn, Event::Gone { conn })),
        Wired::Idle | Wired::Stop => None,
    }
}

// Says that each octet is below 256.
fn fit(octets: &[u8])
    ensures { (i : ℕ) → slice_index octets.now i < 256 }
{
    let _ = octets.len();
}
