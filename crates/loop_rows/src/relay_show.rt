// How a case ends.
ghost use Rattle.relay_ports.specs.Memory.{seen_of};
ghost use Rattle.relay_work.specs.Belonging.{Belongs};

use crate::relay_case::Case;
use crate::relay_faults::say_faults;
use crate::said::Said;
use crate::show::{say_two, say_wired};
use flow_notes::Names;
use io_ports::MemSink;
use mem_ports::{Kept, Room};
use relay_ports::MemTaps;
use relay_work::{RelayEnded, relay_work};
use std::alloc::Global;
use tcp_relay::Relay;

/// For how many offers of a turn the record has room.
const ROOM: Room = Room {
    offers: 1_000,
    octets: 100_000,
};

/// How many octets the journal has room for.
const JOURNAL: usize = 100_000;

/// The greatest connection whose state is printed.
const CONNECTIONS: u32 = 6;

/// Reads the lines of a case, runs it, and says how it ends.
pub fn say_relay(alloc: Global, lines: &str, said: &mut Said) {
    let mut case = Case::new(alloc);
    for line in lines.lines() {
        if case.line(alloc, line).is_err() {
            said.lack();
        }
    }
    if case.dispatches {
        say_faults(alloc, case, said);
    } else {
        say_case(alloc, case, said);
    }
}

// Runs a case, and says how it ends. A great value is dropped by a call, since the check follows a drop without one field by field.
fn say_case(alloc: Global, case: Case, said: &mut Said) {
    let mut names = Names::new(alloc);
    let Ok(()) = names.push(b"a") else {
        said.lack();
        return;
    };
    let Ok(mut journal) = MemSink::new(alloc, JOURNAL, case.journal) else {
        said.lack();
        return;
    };
    let mut taps = MemTaps::new(alloc, 1, case.answers, ROOM, case.taps);
    taps.take_at_most(case.most);
    let mut relay = Relay::new(alloc, case.limit);
    let (turns, runs) = (case.turns, case.runs);
    run(
        alloc,
        &mut relay,
        &mut taps,
        &mut journal,
        &names,
        turns,
        runs,
        said,
    );
    drop(relay);
    said.say(std::str::from_utf8(journal.octets()).unwrap_or("no text\n"));
    drop(journal);
    say_record(&taps, said);
    say_connections(&taps, said);
    drop(taps);
}

// Runs the turns so many times, one after the other, as long as they are whole.
fn run(
    alloc: Global,
    relay: &mut Relay,
    taps: &mut MemTaps,
    journal: &mut MemSink,
    names: &Names,
    turns: u64,
    runs: u32,
    said: &mut Said,
)
    requires { Belongs names.now relay.old (seen_of taps.old) }
{
    for _run in 0..runs {
        let ended = relay_work(alloc, relay, taps, journal, names, turns);
        said.say("ended by ");
        said.line(ended_word(ended));
        match ended {
            RelayEnded::Turns | RelayEnded::Stopped => {}
            RelayEnded::TapsFault | RelayEnded::JournalFault | RelayEnded::Memory => break,
        }
    }
}

fn ended_word(ended: RelayEnded) -> &'static str {
    match ended {
        RelayEnded::Turns => "turns",
        RelayEnded::Stopped => "stop",
        RelayEnded::TapsFault => "a fault of the connections",
        RelayEnded::JournalFault => "a fault of the journal",
        RelayEnded::Memory => "out of memory",
    }
}

fn say_record(taps: &MemTaps, said: &mut Said) {
    let (steps, mut rest) = taps.record();
    for step in steps {
        match step {
            Kept::Gave(wired) => say_wired(wired, said),
            Kept::Offered { conn, len, taken } => {
                let (piece, after) = rest.split_at((*len).min(rest.len()));
                rest = after;
                say_offer(*conn, piece, *len, *taken, said);
            }
            Kept::Closed(conn) => said.line_with("> close ", u64::from(*conn)),
        }
    }
}

fn say_offer(conn: u32, piece: &[u8], len: usize, taken: usize, said: &mut Said) {
    let first = piece.first().copied().unwrap_or(0);
    say_two("> offer ", conn, u64::from(first), said);
    said.say_with(" ", len as u64);
    said.line_with(" taken ", taken as u64);
}

fn say_connections(taps: &MemTaps, said: &mut Said) {
    for conn in 1..CONNECTIONS {
        if taps.is_live(conn) {
            said.say_with("", u64::from(conn));
            said.line(if taps.is_held(conn) {
                " live, held"
            } else {
                " live"
            });
        }
    }
    said.line_with("faults ", taps.faults());
}
