// A relay's session under the configuration that is read first.
ghost use Rattle.std.specs.Prelude.{◌≡◌, ◌⊎◌};
ghost use Rattle.io_ports.specs.Faults.{Rose};
ghost use Rattle.relay_run.specs.Replays.{ReplaysRelay};
ghost use Rattle.replay_run.specs.ReplayUnder.{ReplaysUnder};

use crate::config_end::end_at_config;
use crate::reason::{Outcome, Reason};
use io_ports::{Sink, Source};
use relay_run::run_relay;
use session_config::load_config;
use session_run::Status;
use std::alloc::Global;

/// Reads the configuration and then the session, relays the octets of its events, and writes the tape with its summary.
pub fn replay_relay<C: Source, S: Source, K: Sink>(
    alloc: Global,
    config: &mut C,
    session: &mut S,
    out: &mut K,
) -> Outcome
    ensures tape { ReplaysUnder (λ text status. ReplaysRelay text (S.left session.old) (S.left session.new) (K.contents out.old) (K.contents out.new) status) (C.left config.old) (C.left config.new) (S.left session.old) (S.left session.new) (K.contents out.old) (K.contents out.new) result.status }
    ensures some { result.status ≡ Status.Usage → ⊥ }
    ensures read_fault { result.status ≡ Status.ReadFault → Rose (C.faults config.old) (C.faults config.new) ⊎ Rose (S.faults session.old) (S.faults session.new) }
    ensures write_fault { result.status ≡ Status.WriteFault → Rose (K.faults out.old) (K.faults out.new) }
{
    match load_config(alloc, config) {
        Ok(keys) => {
            let end = run_relay(alloc, &keys, session, out);
            Outcome {
                status: end.status,
                reason: Reason::of_line(end.status, end.fault),
            }
        }
        Err(end) => end_at_config(alloc, end, out),
    }
}
