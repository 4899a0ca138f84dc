// Events that are dispatched through the load shed points.
ghost use Rattle.proxy_config.specs.Ranges.{IsInRange};
ghost use Rattle.std.specs.Prelude.{◌≡◌, OnOk, false};
ghost use Rattle.worker_core.specs.Sessions.{RestsWire};

use crate::case::Case;
use crate::said::Said;
use flow_notes::{Event, Names, Notes, read_event};
use io_ports::NoMemory;
use proxy_config::Config;
use shed_points::{Point, Shedder, Verdict};
use std::alloc::Global;
use wire_steps::WireSteps;
use worker_core::{Core, CoreFault};

/// Takes up the lines of a case under its configuration, and says of each event what became of it and how many notes there were, and
/// at the end the states of the points.
pub fn say_shed(alloc: Global, lines: &str, said: &mut Said) {
    let mut case = Case::new(alloc);
    if case.read(lines).is_err() {
        said.lack();
    }
    match case.configuration(alloc) {
        Some(config) => say_under(alloc, config, case.lines.as_slice(), said),
        None => said.line("no configuration"),
    }
}

// A configuration, a shedder and a core are dropped by a call, since the check follows a drop without one field by field.
fn say_under(alloc: Global, config: Config, lines: &[String], said: &mut Said)
    requires { IsInRange config }
{
    match Shedder::new(alloc, &config) {
        Ok(mut shedder) => {
            say_shedder(alloc, config, &mut shedder, lines, said);
            drop(shedder);
        }
        Err(NoMemory) => {
            drop(config);
            said.lack();
        }
    }
}

fn say_shedder(
    alloc: Global,
    config: Config,
    shedder: &mut Shedder,
    lines: &[String],
    said: &mut Said,
)
    requires range { IsInRange config }
    requires well { shedder.old.failed ≡ false }
{
    match Core::new(alloc, config) {
        Ok(mut core) => {
            if say_lines(shedder, &mut core, lines, said).is_err() {
                said.lack();
            }
            drop(core);
        }
        Err(NoMemory) => said.lack(),
    }
    say_states(shedder, said);
}

fn say_lines(
    shedder: &mut Shedder,
    core: &mut Core,
    lines: &[String],
    said: &mut Said,
) -> Result<(), CoreFault>
    requires { (shedder.old.failed ≡ false) × RestsWire core.old.kind }
{
    let mut notes = Notes::new(said.alloc());
    for line in lines {
        say_line(shedder, core, line.as_str(), &mut notes, said)?;
    }
    Ok(())
}

// An event is dispatched. `forget C` says that a connection is gone. Any other line says nothing.
fn say_line(
    shedder: &mut Shedder,
    core: &mut Core,
    line: &str,
    notes: &mut Notes,
    said: &mut Said,
) -> Result<(), CoreFault>
    requires { (shedder.old.failed ≡ false) × RestsWire core.old.kind }
    ensures { OnOk result ((shedder.new.failed ≡ false) × RestsWire core.new.kind) }
{
    if let Some(conn) = line.strip_prefix("forget ") {
        shedder.forget(conn.parse::<u32>().unwrap_or(0));
        return Ok(());
    }
    let names = Names::new(said.alloc());
    match read_event(said.alloc(), line.as_bytes(), &names, false) {
        Ok(Some(event)) => say_event(shedder, core, &event, notes, said),
        Ok(None) => Ok(()),
        Err(NoMemory) => {
            said.lack();
            Ok(())
        }
    }
}

// Dispatches an event, and says what became of it and how many notes there were.
fn say_event(
    shedder: &mut Shedder,
    core: &mut Core,
    event: &Event,
    notes: &mut Notes,
    said: &mut Said,
) -> Result<(), CoreFault>
    requires { (shedder.old.failed ≡ false) × RestsWire core.old.kind }
    ensures { OnOk result ((shedder.new.failed ≡ false) × RestsWire core.new.kind) }
{
    notes.clear();
    let verdict = shedder.dispatch(&WireSteps, core, event, notes)?;
    say_verdict(verdict, said);
    said.line_with(" ", notes.len() as u64);
    Ok(())
}

fn say_verdict(verdict: Verdict, said: &mut Said) {
    match verdict {
        Verdict::Pass => said.say("pass"),
        Verdict::Silent => said.say("silent"),
        Verdict::Shed { point, state } => said.say_with(point_words(point), u64::from(state)),
    }
}

fn point_words(point: Point) -> &'static str {
    match point {
        Point::Accept => "shed accept ",
        Point::Read => "shed read ",
        Point::Drain => "shed drain ",
    }
}

fn say_states(shedder: &Shedder, said: &mut Said) {
    said.say_with("accept ", u64::from(shedder.state(Point::Accept)));
    said.say_with(" read ", u64::from(shedder.state(Point::Read)));
    said.line_with(" drain ", u64::from(shedder.state(Point::Drain)));
}
