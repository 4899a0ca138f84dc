// What a follower answers on the publisher's own thread.
ghost use Rattle.std.specs.Prelude.{◌≡◌};

use super::{one_follower, shared};
use crate::said::{holds, same, same_in};
use config_tables::read_config;
use io_ports::NoMemory;
use overload_core::action_states;
use proxy_config::Config;
use shared_state::{Follower, Publisher, Snapshot, Told};
use std::alloc::AllocGlobal;
use std::process::Abort;
use std::sync::Wait;
use std::test::*;

const CONFIG: &str = "[overload]
resources = [\"mem\"]
[[overload.triggers]]
action = \"stop_requests\"
resource = \"mem\"
value = 900000
";

/// What a follower answers after a publish of one pressure. It learns the publisher's word of it, or doesn't, and the
/// publisher has ended by then, or hasn't.
fn followed<R: AllocGlobal + Wait + Abort>(
    rt: &R,
    pressure: u32,
    learns: bool,
    ends: bool,
) -> Result<Snapshot, Fail> {
    let (mut publisher, mut followers) = shared(rt, CONFIG, 1, 1)?;
    let mut follower = one_follower(rt, &publisher, &mut followers);
    let Ok(told) = publisher.publish(rt, &[pressure]) else {
        panic!(rt; "there is memory")
    };
    same(rt, &told.version(), &1);
    if learns {
        follower.learn(told);
    }
    Ok(answered(rt, publisher, &mut follower, ends)?)
}

/// What a follower answers before its publisher of one version ends, or after.
fn answered<R: AllocGlobal + Wait + Abort>(
    rt: &R,
    publisher: Publisher,
    follower: &mut Follower,
    ends: bool,
) -> Result<Snapshot, NoMemory> {
    if ends {
        same(rt, &publisher.end(rt), &1);
        return follower.current(rt, rt.alloc());
    }
    let snapshot = follower.current(rt, rt.alloc());
    publisher.end(rt);
    snapshot
}

/// The actions of a snapshot are those of its pressure.
fn actions_follow<R: AllocGlobal + Abort>(
    rt: &R,
    pressure: u32,
    snapshot: &Snapshot,
) -> Result<(), Fail> {
    let config = read_config(rt.alloc(), CONFIG.as_bytes())?;
    actions_follow_under(rt, &config, pressure, snapshot);
    drop(config);
    Ok(())
}

fn actions_follow_under(rt: &impl Abort, config: &Config, pressure: u32, snapshot: &Snapshot) {
    assert!(rt; config.overload.resources.len() == 1);
    same(rt, &action_states(config, &[pressure]), &snapshot.actions);
}

#[test]
fn a_follower_answers_what_was_published(rt: HostRuntime) -> Result<(), Fail> {
    let rows = [
        (900_000, true, false, 1_000_000),
        (900_000, false, false, 1_000_000),
        (900_000, true, true, 1_000_000),
        (899_999, true, false, 0),
        (899_999, false, false, 0),
    ];
    for (pressure, learns, ends, state) in rows {
        let snapshot = followed(&rt, pressure, learns, ends)?;
        actions_follow(&rt, pressure, &snapshot)?;
        same_in(&rt, &pressure, &snapshot.version, &1);
        same(&rt, &snapshot.pressures.as_slice(), &[pressure].as_slice());
        same(&rt, &snapshot.actions.stop_requests, &state);
    }
    Ok(())
}

#[test]
fn the_opening_version_has_no_pressure(rt: HostRuntime) -> Result<(), Fail> {
    let (mut publisher, mut followers) = shared(&rt, CONFIG, 1, 2)?;
    let first = one_follower(&rt, &publisher, &mut followers);
    let told = publisher.tell();
    publisher.end(&rt);
    same(&rt, &told.version(), &0);
    holds(&rt, followers.take_one().is_some());
    holds(&rt, followers.take_one().is_none());
    drop(followers);
    Ok(opens(&rt, first, told)?)
}

fn opens<R: AllocGlobal + Wait + Abort>(
    rt: &R,
    mut follower: Follower,
    told: Told,
) -> Result<(), NoMemory>
    requires { told.seat.table_id ≡ follower.seat.table_id }
{
    follower.learn(told);
    let snapshot = follower.current(rt, rt.alloc())?;
    same(rt, &snapshot.version, &0);
    same(rt, &snapshot.pressures.as_slice(), &[0].as_slice());
    Ok(())
}
