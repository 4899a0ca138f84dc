//! The states of the overload actions.
ghost use Rattle.std.specs.Prelude.{◌≡◌, ◌≤◌, slice_index};
ghost use Rattle.overload_core.specs.ActionStates.{action_state, actions_at, all_off, is_saturated, AreStates};

use crate::trigger::trigger_state;
use proxy_config::{Config, Trigger};

/// The states of the six overload actions, in parts per million: 0 is off, 1,000,000 saturated.
#[derive(Clone, Copy, Debug, PartialEq, Eq)]
pub struct Actions {
    /// Requests are refused where saturated.
    pub stop_requests: u32,
    /// No connection is taken where saturated.
    pub stop_accepting: u32,
    /// Connections are closed as they come where saturated.
    pub reject_incoming: u32,
    /// Connections of clients are drained where saturated.
    pub no_keepalive: u32,
    /// Timers are scaled.
    pub reduce_timeouts: u32,
    /// Exchanges are reset, those that hold most first.
    pub reset_streams: u32,
}

impl Actions {
    /// Each action off: its state is 0. So they stand until a first state is published.
    pub fn off() -> Actions
        ensures off { result ≡ all_off }
        ensures most { AreStates result }
    {
        Actions {
            stop_requests: 0,
            stop_accepting: 0,
            reject_incoming: 0,
            no_keepalive: 0,
            reduce_timeouts: 0,
            reset_streams: 0,
        }
    }
}

/// Whether an action with this state, in parts per million, is saturated.
pub fn is_saturated(state: u32) -> bool
    ensures { result ≡ is_saturated state }
{
    state == 1_000_000
}

/// The states of the actions, each the greatest state of its triggers, and 0 where it has none.
///
/// There is one pressure for each resource of the configuration. A trigger of a resource with no pressure sees 0.
pub fn action_states(config: &Config, pressures: &[u32]) -> Actions
    ensures states { result ≡ actions_at config.now.overload.triggers pressures.now }
    ensures most { AreStates result }
{
    let triggers = config.overload.triggers.as_slice();
    Actions {
        stop_requests: greatest(triggers, pressures, 0),
        stop_accepting: greatest(triggers, pressures, 1),
        reject_incoming: greatest(triggers, pressures, 2),
        no_keepalive: greatest(triggers, pressures, 3),
        reduce_timeouts: greatest(triggers, pressures, 4),
        reset_streams: greatest(triggers, pressures, 5),
    }
}

/// The greatest state of the action's triggers.
fn greatest(triggers: &[Trigger], pressures: &[u32], action: u32) -> u32
    ensures state { result ≡ action_state triggers.now pressures.now action }
    ensures most { result ≤ 1000000 }
{
    let mut most: u32 = 0;
    for trigger in triggers {
        if trigger.action == action {
            most = most.max(trigger_state(trigger, pressure_of(pressures, trigger.resource)));
        }
    }
    most
}

fn pressure_of(pressures: &[u32], resource: u32) -> u32
    ensures { result ≡ slice_index pressures.now resource }
{
    if (resource as usize) < pressures.len() {
        pressures[resource as usize]
    } else {
        0
    }
}
