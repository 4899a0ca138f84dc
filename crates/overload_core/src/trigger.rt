//! The state of one trigger.
ghost use Rattle.std.specs.Prelude.{◌≡◌, ◌*◌, ◌/◌, ◌<◌, ◌≤◌};
ghost use Rattle.overload_core.specs.States.{state_of, threshold_state, scaled_state, RisesAtOnce};

use proxy_config::{Form, Trigger};

/// The state of a trigger at a pressure, from 0 to 1,000,000. Both are in parts per million.
///
/// A scaled trigger with scaling 800,000 and saturation 900,000 has the state 0 at 800,000, 10 at 800,001, 500,000 at
/// 850,000 and 1,000,000 from 900,000 on.
pub fn trigger_state(trigger: &Trigger, pressure: u32) -> u32
    ensures state { result ≡ state_of trigger.now.form pressure }
    ensures most { result ≤ 1000000 }
    // Just above its scaling the state is at least 1.
    ensures rises { RisesAtOnce trigger.now.form pressure result }
{
    match trigger.form {
        Form::Threshold { value } => threshold(value, pressure),
        Form::Scaled {
            scaling,
            saturation,
        } => scaled(scaling, saturation, pressure),
    }
}

fn threshold(value: u32, pressure: u32) -> u32
    ensures state { result ≡ threshold_state value pressure }
    ensures most { result ≤ 1000000 }
{
    if pressure >= value {
        return 1_000_000;
    }
    0
}

fn scaled(scaling: u32, saturation: u32, pressure: u32) -> u32
    ensures state { result ≡ scaled_state scaling saturation pressure }
    ensures most { result ≤ 1000000 }
    ensures rises { scaling < pressure → saturation ≤ 1000000 → 0 < result }
{
    if pressure <= scaling {
        return 0;
    }
    if pressure >= saturation {
        return 1_000_000;
    }
    share(pressure - scaling, saturation - scaling)
}

/// `part` of `whole` in parts per million.
fn share(part: u32, whole: u32) -> u32
    requires { part < whole }
    ensures share { result ≡ part * 1000000 / whole }
    ensures most { result ≤ 1000000 }
    ensures some { 0 < part → whole ≤ 1000000 → 0 < result }
{
    (u64::from(part) * 1_000_000 / u64::from(whole)) as u32
}
