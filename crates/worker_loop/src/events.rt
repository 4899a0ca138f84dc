// Events of a live worker: each has its line in the journal before it is dispatched.
ghost use Rattle.flow_notes.specs.Event.{IsEvent};
ghost use Rattle.io_ports.specs.Faults.{Rose};
ghost use Rattle.std.specs.Option.{ForSome};
ghost use Rattle.std.specs.Prelude.{◌≡◌, ◌<◌, ◌≤◌, ◌^◌, Err, OnOk};
ghost use Rattle.worker_core.specs.Sessions.{RestsWire};
ghost use Rattle.worker_loop.specs.Clauses.{DispatchesAs, KeepsLine, KeepsText};
ghost use Rattle.worker_loop.specs.Places.{tick_line};
ghost use Rattle.worker_loop.specs.declared.turns.Ended.TheVariants as ended;

use crate::turns::Ended;
use flow_notes::{Event, Names, Notes, event_text};
use io_ports::{Failed, NoMemory, Octets};
use std::alloc::Global;
use wire_state::CarryOut;
use worker_core::Core;
use worker_parts::Journal;

/// The line of the tick that was spelled last. The turns of one millisecond have the same.
#[derive(Drop)]
struct TickLine {
    now: Option<u64>,
    text: Octets,
    ghost spelled: { ForSome now (λ n. text ≡ tick_line n) },
}

impl TickLine {
    // Spells the line of a tick, unless it stands there.
    fn spell(&mut self, now: u64, names: &Names) -> Result<(), NoMemory>
        requires { now < 2 ^ 60 }
        ensures { OnOk result (self.new.text ≡ tick_line now) }
    {
        if self.now == Some(now) {
            return Ok(());
        }
        self.now = None;
        self.text.clear();
        event_text(&Event::Tick { now }, names, &mut self.text)?;
        self.now = Some(now);
        Ok(())
    }
}

/// What is written at once, and the notes of a dispatch.
#[derive(Drop)]
pub(crate) struct Pad {
    tick: TickLine,
    line: Octets,
    pub(crate) notes: Notes,
}

impl Pad {
    /// Takes no memory.
    pub(crate) fn new(alloc: Global) -> Self {
        Pad {
            tick: TickLine {
                now: None,
                text: Octets::new(alloc),
            },
            line: Octets::new(alloc),
            notes: Notes::new(alloc),
        }
    }
}

/// Writes an event's line to the journal, if lines are kept, and dispatches it. Its notes are on the pad.
#[tactic(none)]
pub(crate) fn dispatch<J: Journal, D: CarryOut>(
    carry: &D,
    core: &mut Core,
    journal: &mut J,
    names: &Names,
    pad: &mut Pad,
    event: &Event,
) -> Result<(), Ended>
    requires core { RestsWire core.old.kind }
    requires event { IsEvent names.now event.now }
    ensures dispatches { DispatchesAs names.now event.now core.old.kind (J.contents journal.old) result core.new.kind pad.new.notes (J.contents journal.new) }
    ensures told { J.told journal.new ≡ J.told journal.old }
    ensures cause { result ≡ Err ended.JournalFault → Rose (J.faults journal.old) (J.faults journal.new) }
    ensures no_fall { J.faults journal.old ≤ J.faults journal.new }
{
    keep_line(journal, names, &mut pad.tick, &mut pad.line, event)?;
    pad.notes.clear();
    match core.dispatch(carry, event, &mut pad.notes) {
        Ok(()) => Ok(()),
        Err(_) => Err(Ended::Memory),
    }
}

// Writes an event's line, if lines are kept.
#[tactic(none)]
fn keep_line<J: Journal>(
    journal: &mut J,
    names: &Names,
    tick: &mut TickLine,
    line: &mut Octets,
    event: &Event,
) -> Result<(), Ended>
    requires { IsEvent names.now event.now }
    ensures keeps { KeepsLine names.now event.now (J.contents journal.old) result (J.contents journal.new) }
    ensures told { J.told journal.new ≡ J.told journal.old }
    ensures cause { result ≡ Err ended.JournalFault → Rose (J.faults journal.old) (J.faults journal.new) }
    ensures no_fall { J.faults journal.old ≤ J.faults journal.new }
{
    if !journal.is_kept() {
        return Ok(());
    }
    if let Event::Tick { now } = event {
        let Ok(()) = tick.spell(*now, names) else {
            return Err(Ended::Memory);
        };
        return put(journal, tick.text.as_slice());
    }
    line.clear();
    let Ok(()) = event_text(event, names, line) else {
        return Err(Ended::Memory);
    };
    put(journal, line.as_slice())
}

// Writes a line.
#[tactic(none)]
fn put<J: Journal>(journal: &mut J, line: &[u8]) -> Result<(), Ended>
    ensures keeps { KeepsText line.now (J.contents journal.old) result (J.contents journal.new) }
    ensures told { J.told journal.new ≡ J.told journal.old }
    ensures cause { result ≡ Err ended.JournalFault → Rose (J.faults journal.old) (J.faults journal.new) }
    ensures no_fall { J.faults journal.old ≤ J.faults journal.new }
{
    match journal.line(line) {
        Ok(()) => Ok(()),
        Err(Failed) => Err(Ended::JournalFault),
    }
}
