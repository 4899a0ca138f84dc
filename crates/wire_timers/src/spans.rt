//! The kinds of timers, and how long each runs.
ghost use Rattle.std.specs.Prelude.{◌≡◌, ◌<◌};
ghost use Rattle.proxy_config.specs.Ranges.{AreTimeouts};
ghost use Rattle.wire_timers.specs.Kinds.{number_of, HasSpans};

use flow_rules::FireKind;
use proxy_config::TimeoutKeys;
use scaled_timer::TimerKind;

/// The kind's place among the kinds of `scaled_timer`.
pub(crate) fn number(kind: FireKind) -> u32
    ensures number { result ≡ number_of kind }
    ensures few { result < 3 }
{
    match kind {
        FireKind::Route => 0,
        FireKind::StreamIdle => 1,
        FireKind::ConnectionIdle => 2,
    }
}

/// The kinds by number.
pub(crate) fn spans(timeouts: &TimeoutKeys) -> [TimerKind; 3]
    requires { AreTimeouts timeouts.now }
    ensures { HasSpans timeouts.now result }
{
    [
        TimerKind {
            min: timeouts.route,
            max: timeouts.route,
        },
        TimerKind {
            min: timeouts.stream_idle_min,
            max: timeouts.stream_idle,
        },
        TimerKind {
            min: timeouts.connection_idle_min,
            max: timeouts.connection_idle,
        },
    ]
}
