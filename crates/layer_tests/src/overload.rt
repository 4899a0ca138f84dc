//! Tables whose answers come from outside.
ghost use Rattle.std.specs.Prelude.{◌≡◌, ◌<◌};

use crate::said::{holds, same, same_in};
use config_tables::read_config;
use link_lists::Steps;
use overload_core::{Actions, Classes, action_states, class_of, trigger_state};
use proxy_config::{Form, Trigger};
use std::alloc::Global;
use std::marker::Brand;
use std::sync::ledger::{Blank, Ledger};

#[test]
fn states_of_triggers(rt: HostRuntime) {
    let scaled = Form::Scaled {
        scaling: 800_000,
        saturation: 900_000,
    };
    let threshold = Form::Threshold { value: 950_000 };
    let rows = [
        (scaled, 0, 0),
        (scaled, 800_000, 0),
        (scaled, 800_001, 10),
        (scaled, 850_000, 500_000),
        (scaled, 899_999, 999_990),
        (scaled, 900_000, 1_000_000),
        (scaled, 1_000_000, 1_000_000),
        (threshold, 949_999, 0),
        (threshold, 950_000, 1_000_000),
    ];
    for (form, pressure, state) in rows {
        let trigger = Trigger {
            action: 0,
            resource: 0,
            form,
        };
        same_in(&rt, &pressure, &trigger_state(&trigger, pressure), &state);
    }
}

fn class_at(bytes: u64, start: u32) -> Option<u32> {
    if start > 40 {
        return None;
    }
    Some(class_of(bytes, start))
}

#[test]
fn classes_of_sizes(rt: HostRuntime) {
    let rows = [
        (0, 20, 0),
        (1_048_575, 20, 0),
        (1_048_576, 20, 1),
        (2_097_151, 20, 1),
        (2_097_152, 20, 2),
        (134_217_727, 20, 7),
        (134_217_728, 20, 8),
        (u64::MAX, 40, 8),
        (1, 0, 1),
        (131_072, 10, 8),
    ];
    for (bytes, start, class) in rows {
        same_in(&rt, &bytes, &class_at(bytes, start), &Some(class));
    }
}

const CONFIG: &str = "[overload]
resources = [\"mem\", \"cpu\"]
[[overload.triggers]]
action = \"stop_requests\"
resource = \"mem\"
value = 950000
[[overload.triggers]]
action = \"reset_streams\"
resource = \"mem\"
scaling = 800000
saturation = 900000
[[overload.triggers]]
action = \"reset_streams\"
resource = \"cpu\"
scaling = 0
saturation = 1000000
";

fn states_at(alloc: Global, mem: u32, cpu: u32) -> Option<Actions> {
    let text = CONFIG.as_bytes();
    if text.len() > 1000 {
        return None;
    }
    let config = read_config(alloc, text).ok()?;
    Some(action_states(&config, &[mem, cpu]))
}

#[test]
fn the_greatest_trigger_counts(rt: HostRuntime) {
    for (mem, cpu, stop_requests, reset_streams) in [
        (0, 0, 0, 0),
        (850_000, 100_000, 0, 500_000),
        (850_000, 700_000, 0, 700_000),
        (950_000, 0, 1_000_000, 1_000_000),
    ] {
        let wanted = Actions {
            stop_requests,
            stop_accepting: 0,
            reject_incoming: 0,
            no_keepalive: 0,
            reduce_timeouts: 0,
            reset_streams,
        };
        same_in(&rt, &cpu, &states_at(rt.alloc(), mem, cpu), &Some(wanted));
    }
}

/// What a state resets where classes start at 2^10 and exchange number k is alone in class k, for each k from 1 to 8.
fn reset_of_each<L: Ledger>(alloc: Global, state: u32, blank: Blank) -> Option<[Option<u64>; 8]>
    requires { (blank.name ≡ L.name) × (blank.parts ≡ L.parts) × (0 < L.parts) }
{
    let mut steps = Steps::<L>::open(blank);
    let mut next = [None; 8];
    for class in 0..8 {
        let mut classes = Classes::new(alloc, 10).ok()?;
        classes
            .set(class as u64 + 1, 1024 << class, &mut steps)
            .ok()?;
        next[class] = reset_at(&classes, state);
    }
    Some(next)
}

fn reset_at(classes: &Classes, state: u32) -> Option<u64> {
    if state > 1_000_000 {
        return None;
    }
    classes.to_reset(state)
}

#[test]
fn a_state_clears_the_greatest_classes(rt: HostRuntime) {
    for (state, least) in [
        (0, 9),
        (1, 8),
        (124_999, 8),
        (125_000, 7),
        (500_000, 4),
        (874_999, 2),
        (875_000, 1),
        (1_000_000, 1),
    ] {
        let next = reset_of_each::<Brand>(rt.alloc(), state, Blank::new(1));
        holds(&rt, next.is_some());
        if let Some(next) = next {
            for (exchange, reset) in (1..9).zip(next) {
                let wanted = if exchange < least {
                    None
                } else {
                    Some(exchange)
                };
                same_in(&rt, &state, &reset, &wanted);
            }
        }
    }
}

/// An exchange, the octets that it holds from now on, or None where it is gone, and what is reset next then.
type Change = (u64, Option<u64>, Option<u64>);

/// What is reset next after each change, where classes start at 2^10.
fn resets<L: Ledger>(alloc: Global, changes: &[Change], blank: Blank) -> Option<Vec<Option<u64>>>
    requires { (blank.name ≡ L.name) × (blank.parts ≡ L.parts) × (0 < L.parts) }
{
    let mut steps = Steps::<L>::open(blank);
    let mut classes = Classes::new(alloc, 10).ok()?;
    let mut next = Vec::new(alloc);
    for (exchange, bytes, _) in changes {
        match bytes {
            Some(bytes) => classes.set(*exchange, *bytes, &mut steps).ok()?,
            None => classes.drop_one(*exchange),
        }
        next.push(reset_at(&classes, 1_000_000)).ok()?;
    }
    Some(next)
}

#[test]
fn a_change_of_class_puts_an_exchange_last(rt: HostRuntime) {
    let changes = [
        (1, Some(131_072), Some(1)),
        (2, Some(200_000), Some(1)),
        (3, Some(65_536), Some(1)),
        (1, Some(300_000), Some(1)),
        (1, Some(131_071), Some(2)),
        (1, Some(131_072), Some(2)),
        (9, None, Some(2)),
        (2, None, Some(1)),
        (3, Some(131_072), Some(1)),
        (1, Some(1_023), Some(3)),
        (3, Some(0), None),
        (1, Some(1_024), Some(1)),
    ];
    let got = resets::<Brand>(rt.alloc(), &changes, Blank::new(1));
    holds(&rt, got.is_some());
    if let Some(got) = got {
        for ((exchange, _, wanted), next) in changes.into_iter().zip(got) {
            same_in(&rt, &exchange, &next, &wanted);
        }
    }
}
