// The whole of a drill.
ghost use Rattle.std.specs.Prelude.{◌≡◌, ◌<◌, ◌≤◌, [], IfOk, OnOk};
ghost use Rattle.io_ports.specs.Faults.{Rose};
ghost use Rattle.replay_run.specs.ReplayDrill.{CountsEvent, DrillsAs, IsDrillSummary, TalliesDrill};
ghost use Rattle.plain_core.specs.Stands.{CanTake, Rests};
ghost use Rattle.replay_run.specs.DrillEvents.{drill_limits};

use crate::drill::Drill;
use crate::tally::{Tally, put_short};
use flow_notes::{Event, Notes};
use io_ports::{Failed, NoMemory, Octets, Sink};
use plain_core::PlainCore;
use session_run::{Status, write_all};
use std::alloc::Global;
use tape_laws::PlainLimits;

/// The limits of a drill, in octets.
const LIMITS: PlainLimits = PlainLimits {
    recv: 65_535,
    send: 4_096,
    write: 16_384,
    quantum: 16_384,
};

/// Runs the drill of so many streams, 1 to 1,000, and writes its short summary.
pub fn replay_drill<K: Sink>(alloc: Global, streams: u32, out: &mut K) -> Status
    requires some { 0 < streams }
    requires few { streams ≤ 1000 }
    ensures drills { DrillsAs streams (K.contents out.old) (K.contents out.new) result }
    ensures cause { result ≡ Status.WriteFault → Rose (K.faults out.old) (K.faults out.new) }
{
    let Ok(text) = drill_summary(alloc, streams) else {
        return Status::Memory;
    };
    match write_all(out, text.as_slice()) {
        Ok(()) => Status::Done,
        Err(Failed) => Status::WriteFault,
    }
}

fn drill_summary(alloc: Global, streams: u32) -> Result<Octets, NoMemory>
    requires some { 0 < streams }
    requires few { streams ≤ 1000 }
    ensures { IfOk result (IsDrillSummary streams) }
{
    let tally = run_drill(alloc, streams)?;
    let mut text = Octets::new(alloc);
    put_short(&mut text, tally)?;
    Ok(text)
}

fn run_drill(alloc: Global, streams: u32) -> Result<Tally, NoMemory>
    requires some { 0 < streams }
    requires few { streams ≤ 1000 }
    ensures { IfOk result (TalliesDrill streams) }
{
    let mut core = PlainCore::new(alloc, LIMITS)?;
    let mut notes = Notes::new(alloc);
    let tally = run_all(alloc, streams, &mut core, &mut notes);
    drop(core);
    drop(notes);
    tally
}

// Dispatches each event to a core that has had none, and keeps of its notes what the short summary tells.
fn run_all(
    alloc: Global,
    streams: u32,
    core: &mut PlainCore,
    notes: &mut Notes,
) -> Result<Tally, NoMemory>
    requires some { 0 < streams }
    requires few { streams ≤ 1000 }
    requires rests { Rests drill_limits core.old [] }
    ensures { IfOk result (TalliesDrill streams) }
{
    let mut drill = Drill::new(streams);
    let mut tally = Tally::new();
    'events: while let Some(event) = drill.next(alloc)? {
        count_event(core, event, notes, &mut tally)?;
    }
    Ok(tally)
}

// Dispatches an event, and counts its notes, which replace those that were there.
#[tactic(auto, using(crate::proofs::DrillRuns::event_counted))]
fn count_event(
    core: &mut PlainCore,
    event: Event,
    notes: &mut Notes,
    tally: &mut Tally,
) -> Result<(), NoMemory>
    requires { CanTake core.old event [] }
    ensures { OnOk result (CountsEvent core.old tally.old event core.new tally.new) }
{
    notes.clear();
    let Ok(()) = core.dispatch(&event, notes) else {
        return Err(NoMemory);
    };
    tally.note_all(notes)
}
