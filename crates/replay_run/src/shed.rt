// A session whose arrivals pass the load shed points, under the configuration that is read first.
ghost use Rattle.std.specs.Prelude.{◌≡◌, ◌⊎◌};
ghost use Rattle.io_ports.specs.Faults.{Rose};
ghost use Rattle.replay_run.specs.ReplayUnder.{ReplaysUnder, ShedCompletes};
ghost use Rattle.shed_run.specs.ShedTapes.{RunsShed};

use crate::config_end::end_at_config;
use crate::reason::{Outcome, Reason};
use io_ports::{Sink, Source};
use session_config::load_config;
use session_run::Status;
use shed_run::run_shed;
use std::alloc::Global;

/// Reads the configuration and then the session, dispatches what its events come to at the load shed points, and writes the tape with a
/// line for each event that was shed, and its summary.
pub fn replay_shed<C: Source, S: Source, K: Sink>(
    alloc: Global,
    config: &mut C,
    session: &mut S,
    out: &mut K,
) -> Outcome
    ensures tape { ReplaysUnder (λ text status. RunsShed text (S.left session.old) (S.left session.new) (K.contents out.old) (K.contents out.new) status) (C.left config.old) (C.left config.new) (S.left session.old) (S.left session.new) (K.contents out.old) (K.contents out.new) result.status }
    ensures completes { ShedCompletes (C.left config.old) (S.left session.old) result.status }
    ensures some { result.status ≡ Status.Usage → ⊥ }
    ensures read_fault { result.status ≡ Status.ReadFault → Rose (C.faults config.old) (C.faults config.new) ⊎ Rose (S.faults session.old) (S.faults session.new) }
    ensures write_fault { result.status ≡ Status.WriteFault → Rose (K.faults out.old) (K.faults out.new) }
{
    match load_config(alloc, config) {
        Ok(keys) => {
            let end = run_shed(alloc, keys, session, out);
            Outcome {
                status: end.status,
                reason: Reason::of_line(end.status, end.fault),
            }
        }
        Err(end) => end_at_config(alloc, end, out),
    }
}
