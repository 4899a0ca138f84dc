// The whole of a relay's session.
ghost use Rattle.std.specs.Prelude.{◌≡◌, List, Ok, ℕ};
ghost use Rattle.io_ports.specs.Faults.{Rose};
ghost use Rattle.config_tables.specs.Reading.{config_of};
ghost use Rattle.relay_run.specs.Replays.{ReplaysRelay};

use crate::play::RelayPlay;
use io_ports::{Sink, Source};
use line_faults::{LineFault, explain_wire};
use proxy_config::Config;
use session_run::{Lines, Run, Status};
use std::alloc::Global;

/// How the replay of a relay's session ended.
#[derive(Drop)]
pub struct RelayEnd {
    pub status: Status,
    /// What is wrong with the line at which the session was refused, if it was, and if there was memory to say so.
    pub fault: Option<LineFault>,
}

/// Reads a session of a relay under this configuration, which was read from some text, relays the octets of its events, and
/// writes the tape with its summary.
pub fn run_relay<S: Source, K: Sink>(
    alloc: Global,
    config: &Config,
    session: &mut S,
    out: &mut K,
) -> RelayEnd
    requires { (text : List ℕ) × (config_of text ≡ Ok config.now) }
    ensures tape { (text : List ℕ) → config_of text ≡ Ok config.now → ReplaysRelay text (S.left session.old) (S.left session.new) (K.contents out.old) (K.contents out.new) result.status }
    ensures read_fault { result.status ≡ Status.ReadFault → Rose (S.faults session.old) (S.faults session.new) }
    ensures write_fault { result.status ≡ Status.WriteFault → Rose (K.faults out.old) (K.faults out.new) }
{
    let Ok(lines) = Lines::new(alloc) else {
        return RelayEnd {
            status: Status::Memory,
            fault: None,
        };
    };
    let Ok(play) = RelayPlay::new(alloc, config) else {
        return RelayEnd {
            status: Status::Memory,
            fault: None,
        };
    };
    let mut run = Run::new(alloc, lines, play);
    let status = run.play_all(session, out);
    let fault = explain(alloc, status, &run);
    let status = run.finish(status, out);
    RelayEnd { status, fault }
}

// What is wrong with the line at which the session was refused, if it was, and if there is memory to say so.
fn explain(alloc: Global, status: Status, run: &Run<RelayPlay>) -> Option<LineFault> {
    if status != Status::Session {
        return None;
    }
    match explain_wire(alloc, &run.player.lines, run.number, run.refused_line()) {
        Ok(fault) => Some(fault),
        Err(_) => None,
    }
}
