// The whole of a wire session.
ghost use Rattle.std.specs.Prelude.{◌≡◌, List, Ok, ℕ};
ghost use Rattle.io_ports.specs.Faults.{Rose};
ghost use Rattle.proxy_config.specs.Ranges.{IsInRange};
ghost use Rattle.config_tables.specs.Reading.{config_of};
ghost use Rattle.wire_run.specs.Allowed.{Completes};
ghost use Rattle.wire_run.specs.Tapes.{RunsWire};
ghost use Rattle.flow_notes.specs.Name.{AreNames};
ghost use Rattle.session_lines.specs.WireLines.{IsWireSeen, WireSeen, wire_text};

use crate::play::WirePlay;
use io_ports::{Sink, Source};
use line_faults::{LineFault, explain_wire};
use proxy_config::Config;
use session_run::{Lines, Run, Status};
use std::alloc::Global;

/// How a session ended, and what is wrong with the line at which it was refused, if it was.
#[derive(Drop)]
pub struct WireEnd {
    pub status: Status,
    pub fault: Option<LineFault>,
}

/// Reads a session under this configuration, which was read from some text, and writes its tape with its summary.
pub fn run_wire<S: Source, K: Sink>(
    alloc: Global,
    config: Config,
    session: &mut S,
    out: &mut K,
) -> WireEnd
    requires in_range { IsInRange config }
    requires configured { (text : List ℕ) × (config_of text ≡ Ok config) }
    ensures tape { (text : List ℕ) → config_of text ≡ Ok config → RunsWire text (S.left session.old) (S.left session.new) (K.contents out.old) (K.contents out.new) result.status }
    ensures completes { (text : List ℕ) → config_of text ≡ Ok config → Completes config (S.left session.old) result.status }
    ensures usage { result.status ≡ Status.Usage → ⊥ }
    ensures refused { result.status ≡ Status.Config → ⊥ }
    ensures read_fault { result.status ≡ Status.ReadFault → Rose (S.faults session.old) (S.faults session.new) }
    ensures write_fault { result.status ≡ Status.WriteFault → Rose (K.faults out.old) (K.faults out.new) }
{
    let Ok(lines) = Lines::new(alloc) else {
        return out_of_memory();
    };
    let Ok(play) = WirePlay::new(alloc, config) else {
        return out_of_memory();
    };
    let mut run = Run::new(alloc, lines, play);
    let status = run.play_all(session, out);
    let fault = explain(alloc, status, &run);
    let status = run.finish(status, out);
    WireEnd { status, fault }
}

fn out_of_memory() -> WireEnd
    ensures { result.status ≡ Status.Memory }
{
    WireEnd {
        status: Status::Memory,
        fault: None,
    }
}

// What is wrong with the line at which the session was refused, if it was, and if there is memory to say so.
fn explain(alloc: Global, status: Status, run: &Run<WirePlay>) -> Option<LineFault> {
    if status != Status::Session {
        return None;
    }
    match explain_wire(alloc, run.player.lines(), run.number, run.refused_line()) {
        Ok(fault) => Some(fault),
        Err(_) => None,
    }
}

/// A text spells at most one wire session: its events are given by its octets. So which of its lines is the first that is
/// refused is given by them too.
pub fn one_wire_session()
    ensures { (names : List (List ℕ)) (resources : ℕ) (s t : WireSeen) → AreNames names → IsWireSeen names resources s → IsWireSeen names resources t → wire_text names s ≡ wire_text names t → s ≡ t }
{}
