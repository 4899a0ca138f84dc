// The whole of a session whose arrivals pass the load shed points.
ghost use Rattle.config_tables.specs.Reading.{config_of};
ghost use Rattle.io_ports.specs.Faults.{Rose};
ghost use Rattle.proxy_config.specs.Ranges.{IsInRange};
ghost use Rattle.shed_run.specs.Allowed.{Completes};
ghost use Rattle.shed_run.specs.ShedTapes.{RunsShed};
ghost use Rattle.std.specs.Prelude.{◌≡◌, List, Ok, ℕ};

use crate::play::ShedPlay;
use io_ports::{Sink, Source};
use line_faults::{LineFault, explain_shed};
use proxy_config::Config;
use session_run::{Lines, Run, Status};
use shed_points::SHED_POSTER;
use std::alloc::Global;

/// How a session ended, and what is wrong with the line at which it was refused, if it was, and if there was memory to say so.
#[derive(Drop)]
pub struct ShedEnd {
    pub status: Status,
    pub fault: Option<LineFault>,
}

/// Reads a session under this configuration, which was read from some text, and writes the tape of what its events come to at the load
/// shed points, with a line for each that was shed, and its summary.
pub fn run_shed<S: Source, K: Sink>(
    alloc: Global,
    config: Config,
    session: &mut S,
    out: &mut K,
) -> ShedEnd
    requires in_range { IsInRange config }
    requires configured { (text : List ℕ) × (config_of text ≡ Ok config) }
    ensures tape { (text : List ℕ) → config_of text ≡ Ok config → RunsShed text (S.left session.old) (S.left session.new) (K.contents out.old) (K.contents out.new) result.status }
    ensures completes { (text : List ℕ) → config_of text ≡ Ok config → Completes config (S.left session.old) result.status }
    ensures usage { result.status ≡ Status.Usage → ⊥ }
    ensures refused { result.status ≡ Status.Config → ⊥ }
    ensures read_fault { result.status ≡ Status.ReadFault → Rose (S.faults session.old) (S.faults session.new) }
    ensures write_fault { result.status ≡ Status.WriteFault → Rose (K.faults out.old) (K.faults out.new) }
{
    let Ok(lines) = Lines::new(alloc) else {
        return out_of_memory();
    };
    let Ok(play) = ShedPlay::new(alloc, config) else {
        return out_of_memory();
    };
    let mut run = Run::new(alloc, lines, play);
    let status = run.play_all(session, out);
    let fault = explain(alloc, status, &run);
    let status = run.finish(status, out);
    ShedEnd { status, fault }
}

fn out_of_memory() -> ShedEnd
    ensures { result.status ≡ Status.Memory }
{
    ShedEnd {
        status: Status::Memory,
        fault: None,
    }
}

// What is wrong with the line at which the session was refused, if it was, and if there is memory to say so.
fn explain(alloc: Global, status: Status, run: &Run<ShedPlay>) -> Option<LineFault> {
    if status != Status::Session {
        return None;
    }
    let refused = run.refused_line();
    match explain_shed(alloc, run.player.lines(), SHED_POSTER, run.number, refused) {
        Ok(fault) => Some(fault),
        Err(_) => None,
    }
}
