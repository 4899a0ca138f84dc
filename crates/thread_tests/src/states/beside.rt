// Followers in threads of their own, beside a publisher.
ghost use Rattle.std.specs.Prelude.{◌≡◌, IfOk};
ghost use Rattle.std.specs.Thread.{IsSync};
ghost use Rattle.shared_state.specs.States.{resources_of};

use super::{one_follower, shared};
use crate::said::{holds, same};
use io_ports::NoMemory;
use shared_state::{Follower, Publisher, Snapshot, Told};
use std::alloc::Global;
use std::process::Abort;
use std::sync::Wait;
use std::test::*;
use std::thread;
use std::thread::Threads;

const CONFIG: &str = "[overload]
resources = [\"mem\", \"cpu\"]
";

const VERSIONS: u32 = 1_000;

/// The pressures that are published under a version.
fn pressures_of(version: u32) -> [u32; 2] {
    [version, 1_000_000u32.saturating_sub(version)]
}

/// The snapshot has the pressures of its version.
fn is_whole(snapshot: &Snapshot) -> bool {
    if snapshot.version == 0 {
        return snapshot.pressures.as_slice() == [0, 0].as_slice();
    }
    match u32::try_from(snapshot.version) {
        Ok(version) => snapshot.pressures.as_slice() == pressures_of(version).as_slice(),
        Err(_) => false,
    }
}

/// What the last publish told, and what the publisher tells after it.
fn publish_all<R: Wait>(rt: &R, publisher: &mut Publisher) -> Result<(Told, Told), NoMemory>
    requires { resources_of publisher.old ≡ 2 }
    ensures { IfOk result (λ t. (t.0.seat.table_id ≡ publisher.old.seat.table_id) × (t.1.seat.table_id ≡ publisher.old.seat.table_id)) }
{
    let mut last = publisher.tell();
    for version in 1..=VERSIONS {
        last = publisher.publish(rt, &pressures_of(version))?;
    }
    Ok((last, publisher.tell()))
}

/// Asks a thousand times. No version is older than the one before, and each has its own pressures.
fn watch<R: Wait>(
    rt: &R,
    alloc: Global,
    mut follower: Follower,
) -> (Follower, Result<bool, NoMemory>)
    ensures { result.0.seat.table_id ≡ follower.seat.table_id }
{
    let mut last = 0;
    for _ in 0..VERSIONS {
        match follower.current(rt, alloc) {
            Ok(snapshot) => {
                if snapshot.version < last || !is_whole(&snapshot) {
                    return (follower, Ok(false));
                }
                last = snapshot.version;
            }
            Err(refusal) => return (follower, Err(refusal)),
        }
    }
    (follower, Ok(true))
}

type Watched = (Follower, Result<bool, NoMemory>);

fn watch_both<R: Threads + Wait + Sync>(
    rt: &R,
    alloc: Global,
    a: Follower,
    b: Follower,
) -> (Watched, Watched)
    ensures { (result.0.0.seat.table_id ≡ a.seat.table_id) × (result.1.0.seat.table_id ≡ b.seat.table_id) }
{
    thread::join(
        rt,
        move || -> Watched
            ensures { result.0.seat.table_id ≡ a.seat.table_id }
        { watch(rt, alloc, a) },
        move || -> Watched
            ensures { result.0.seat.table_id ≡ b.seat.table_id }
        { watch(rt, alloc, b) },
    )
}

type Published = Result<(Told, Told), NoMemory>;

fn beside<R: Threads + Wait + Sync>(
    rt: &R,
    alloc: Global,
    publisher: &mut Publisher,
    a: Follower,
    b: Follower,
) -> (Published, (Watched, Watched))
    requires { resources_of publisher.old ≡ 2 }
    ensures told { IfOk result.0 (λ t. (t.0.seat.table_id ≡ publisher.old.seat.table_id) × (t.1.seat.table_id ≡ publisher.old.seat.table_id)) }
    ensures followers { (result.1.0.0.seat.table_id ≡ a.seat.table_id) × (result.1.1.0.seat.table_id ≡ b.seat.table_id) }
{
    thread::join(
        rt,
        move || -> Published
            requires { resources_of publisher.now ≡ 2 }
            ensures { IfOk result (λ t. (t.0.seat.table_id ≡ publisher.entry.now.seat.table_id) × (t.1.seat.table_id ≡ publisher.entry.now.seat.table_id)) }
        { publish_all(rt, publisher) },
        move || -> (Watched, Watched)
            requires { IsSync R.row }
            ensures { (result.0.0.seat.table_id ≡ a.seat.table_id) × (result.1.0.seat.table_id ≡ b.seat.table_id) }
        { watch_both(rt, alloc, a, b) },
    )
}

/// A follower learns what was told last, and answers that version. Each that it saw before was whole.
fn judge<R: Wait + Abort>(
    rt: &R,
    alloc: Global,
    watched: Watched,
    told: Told,
) -> Result<(), NoMemory>
    requires { told.seat.table_id ≡ watched.0.seat.table_id }
{
    let (mut follower, whole) = watched;
    follower.learn(told);
    let last = follower.current(rt, alloc)?;
    holds(rt, whole?);
    same(rt, &last.version, &1_000);
    holds(rt, is_whole(&last));
    Ok(())
}

fn judge_both<R: Wait + Abort>(
    rt: &R,
    alloc: Global,
    published: Published,
    watched: (Watched, Watched),
) -> Result<(), NoMemory>
    requires { IfOk published (λ t. (t.0.seat.table_id ≡ watched.0.0.seat.table_id) × (t.1.seat.table_id ≡ watched.1.0.seat.table_id)) }
{
    let (first, second) = published?;
    judge(rt, alloc, watched.0, first)?;
    judge(rt, alloc, watched.1, second)
}

#[test]
fn two_followers_beside_a_publisher(rt: HostRuntime) -> Result<(), Fail> {
    let (mut publisher, mut followers) = shared(&rt, CONFIG, 2, 2)?;
    let a = one_follower(&rt, &publisher, &mut followers);
    let b = one_follower(&rt, &publisher, &mut followers);
    let (published, watched) = beside(&rt, rt.alloc(), &mut publisher, a, b);
    let judged = judge_both(&rt, rt.alloc(), published, watched);
    let versions = publisher.end(&rt);
    judged?;
    same(&rt, &versions, &1_000);
    Ok(())
}
