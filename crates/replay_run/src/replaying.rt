// The whole of a replay.
ghost use Rattle.std.specs.Prelude.{◌≡◌, ◌↔◌, ◌⊎◌, map};
ghost use Rattle.std.specs.String.{string_bytes};
ghost use Rattle.io_ports.specs.Faults.{Rose};
ghost use Rattle.replay_run.specs.Allowed.{Completes};
ghost use Rattle.replay_run.specs.Forms.{HasNoForm, ReadsConfig, SpellsForm};
ghost use Rattle.relay_run.specs.Replays.{ReplaysRelay};
ghost use Rattle.replay_run.specs.ReplayUnder.{ReplaysUnder, ShedCompletes, WireCompletes};
ghost use Rattle.replay_run.specs.Replays.{Replays};
ghost use Rattle.replay_run.specs.ReplayForm.{ReplaysForm};
ghost use Rattle.shed_run.specs.ShedTapes.{RunsShed};
ghost use Rattle.wire_run.specs.Tapes.{RunsWire};

use crate::drill_run::replay_drill;
use crate::form::{Form, read_form};
use crate::play::Play;
use crate::reason::{Outcome, Reason};
use crate::relay::replay_relay;
use crate::shed::replay_shed;
use crate::wire::replay_wire;
use io_ports::{Sink, Source};
use line_faults::{LineFault, explain_plain};
use session_run::{Lines, Run, Status};
use std::alloc::Global;

/// Replays what the words ask for: `plain` reads the session and writes its tape with its summary; `wire CONFIG` and
/// `relay CONFIG` read the configuration first, and do the same for a session of HTTP/2 connections and for a relay's; `shed CONFIG`
/// does as `wire CONFIG`, but what arrives passes the load shed points, and each event that is shed has a line in the tape; `drill N`
/// reads nothing and writes the short summary of that drill. Other words read and write nothing. `config` is read for `wire`, `shed`
/// and `relay` alone.
pub fn replay<C: Source, S: Source, K: Sink>(
    alloc: Global,
    words: &[String],
    config: &mut C,
    session: &mut S,
    out: &mut K,
) -> Status
    ensures tape { (f : Form) → SpellsForm (map string_bytes words.now) f → ReplaysForm f (S.left session.old) (S.left session.new) (K.contents out.old) (K.contents out.new) result }
    ensures completes { SpellsForm (map string_bytes words.now) Form.Plain → Completes (S.left session.old) result }
    ensures usage { (result ≡ Status.Usage) ↔ HasNoForm (map string_bytes words.now) }
    ensures nothing { result ≡ Status.Usage → (session.new ≡ session.old) × (out.new ≡ out.old) }
    ensures wire { SpellsForm (map string_bytes words.now) Form.Wire → ReplaysUnder (λ text status. RunsWire text (S.left session.old) (S.left session.new) (K.contents out.old) (K.contents out.new) status) (C.left config.old) (C.left config.new) (S.left session.old) (S.left session.new) (K.contents out.old) (K.contents out.new) result }
    ensures wire_completes { SpellsForm (map string_bytes words.now) Form.Wire → WireCompletes (C.left config.old) (S.left session.old) result }
    ensures shed { SpellsForm (map string_bytes words.now) Form.Shed → ReplaysUnder (λ text status. RunsShed text (S.left session.old) (S.left session.new) (K.contents out.old) (K.contents out.new) status) (C.left config.old) (C.left config.new) (S.left session.old) (S.left session.new) (K.contents out.old) (K.contents out.new) result }
    ensures shed_completes { SpellsForm (map string_bytes words.now) Form.Shed → ShedCompletes (C.left config.old) (S.left session.old) result }
    ensures relay { SpellsForm (map string_bytes words.now) Form.Relay → ReplaysUnder (λ text status. ReplaysRelay text (S.left session.old) (S.left session.new) (K.contents out.old) (K.contents out.new) status) (C.left config.old) (C.left config.new) (S.left session.old) (S.left session.new) (K.contents out.old) (K.contents out.new) result }
    ensures read_fault { result ≡ Status.ReadFault → Rose (S.faults session.old) (S.faults session.new) ⊎ (ReadsConfig (map string_bytes words.now) × Rose (C.faults config.old) (C.faults config.new)) }
    ensures write_fault { result ≡ Status.WriteFault → Rose (K.faults out.old) (K.faults out.new) }
    ensures config { (ReadsConfig (map string_bytes words.now) → ⊥) → config.new ≡ config.old }
{
    replay_with_reason(alloc, words, config, session, out).status
}

/// The same, and why it ended so. That the reason is the right one is in no clause.
pub fn replay_with_reason<C: Source, S: Source, K: Sink>(
    alloc: Global,
    words: &[String],
    config: &mut C,
    session: &mut S,
    out: &mut K,
) -> Outcome
    ensures tape { (f : Form) → SpellsForm (map string_bytes words.now) f → ReplaysForm f (S.left session.old) (S.left session.new) (K.contents out.old) (K.contents out.new) result.status }
    ensures completes { SpellsForm (map string_bytes words.now) Form.Plain → Completes (S.left session.old) result.status }
    ensures usage { (result.status ≡ Status.Usage) ↔ HasNoForm (map string_bytes words.now) }
    ensures nothing { result.status ≡ Status.Usage → (session.new ≡ session.old) × (out.new ≡ out.old) }
    ensures wire { SpellsForm (map string_bytes words.now) Form.Wire → ReplaysUnder (λ text status. RunsWire text (S.left session.old) (S.left session.new) (K.contents out.old) (K.contents out.new) status) (C.left config.old) (C.left config.new) (S.left session.old) (S.left session.new) (K.contents out.old) (K.contents out.new) result.status }
    ensures wire_completes { SpellsForm (map string_bytes words.now) Form.Wire → WireCompletes (C.left config.old) (S.left session.old) result.status }
    ensures shed { SpellsForm (map string_bytes words.now) Form.Shed → ReplaysUnder (λ text status. RunsShed text (S.left session.old) (S.left session.new) (K.contents out.old) (K.contents out.new) status) (C.left config.old) (C.left config.new) (S.left session.old) (S.left session.new) (K.contents out.old) (K.contents out.new) result.status }
    ensures shed_completes { SpellsForm (map string_bytes words.now) Form.Shed → ShedCompletes (C.left config.old) (S.left session.old) result.status }
    ensures relay { SpellsForm (map string_bytes words.now) Form.Relay → ReplaysUnder (λ text status. ReplaysRelay text (S.left session.old) (S.left session.new) (K.contents out.old) (K.contents out.new) status) (C.left config.old) (C.left config.new) (S.left session.old) (S.left session.new) (K.contents out.old) (K.contents out.new) result.status }
    ensures read_fault { result.status ≡ Status.ReadFault → Rose (S.faults session.old) (S.faults session.new) ⊎ (ReadsConfig (map string_bytes words.now) × Rose (C.faults config.old) (C.faults config.new)) }
    ensures write_fault { result.status ≡ Status.WriteFault → Rose (K.faults out.old) (K.faults out.new) }
    ensures config { (ReadsConfig (map string_bytes words.now) → ⊥) → config.new ≡ config.old }
{
    match read_form(words) {
        Some(Form::Plain) => replay_plain(alloc, session, out),
        Some(Form::Wire) => replay_wire(alloc, config, session, out),
        Some(Form::Shed) => replay_shed(alloc, config, session, out),
        Some(Form::Relay) => replay_relay(alloc, config, session, out),
        Some(Form::Drill { streams }) => {
            let status = replay_drill(alloc, streams, out);
            Outcome {
                status,
                reason: Reason::of_status(status),
            }
        }
        None => Outcome {
            status: Status::Usage,
            reason: Reason::Words,
        },
    }
}

fn replay_plain<S: Source, K: Sink>(alloc: Global, session: &mut S, out: &mut K) -> Outcome
    ensures tape { Replays (S.left session.old) (S.left session.new) (K.contents out.old) (K.contents out.new) result.status }
    ensures completes { Completes (S.left session.old) result.status }
    ensures some { result.status ≡ Status.Usage → ⊥ }
    ensures read_fault { result.status ≡ Status.ReadFault → Rose (S.faults session.old) (S.faults session.new) }
    ensures write_fault { result.status ≡ Status.WriteFault → Rose (K.faults out.old) (K.faults out.new) }
{
    let Ok(lines) = Lines::new(alloc) else {
        return out_of_memory();
    };
    let Ok(play) = Play::new(alloc) else {
        return out_of_memory();
    };
    let mut run = Run::new(alloc, lines, play);
    let status = run.play_all(session, out);
    let fault = explain(alloc, status, &run);
    let status = run.finish(status, out);
    Outcome {
        status,
        reason: Reason::of_line(status, fault),
    }
}

fn out_of_memory() -> Outcome
    ensures { result.status ≡ Status.Memory }
{
    Outcome {
        status: Status::Memory,
        reason: Reason::Memory,
    }
}

// What is wrong with the line at which the session was refused, if it was, and if there is memory to say so.
fn explain(alloc: Global, status: Status, run: &Run<Play>) -> Option<LineFault> {
    if status != Status::Session {
        return None;
    }
    match explain_plain(alloc, &run.player.order, run.number, run.refused_line()) {
        Ok(fault) => Some(fault),
        Err(_) => None,
    }
}
