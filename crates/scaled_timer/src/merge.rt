//! Firing the timers that are due: a merge of the lists by their fronts.
ghost use Rattle.std.specs.Prelude.{◌≡◌, ◌⊎◌, ℕ, ◌+◌, ◌^◌, ◌<◌, ◌≤◌, ◌++◌, ⊤, [], map, length, vec_len, MatchOption, IfOk};
ghost use Rattle.std.specs.Vec.{vec_capacity};
ghost use Rattle.link_lists.specs.Lists.{front_of};
ghost use Rattle.scaled_timer.specs.Due.{due_timers, waiting_timers};
ghost use Rattle.scaled_timer.specs.Timing.{FiresFirst, firing, names_of};
ghost use Rattle.scaled_timer.specs.Entries.{armed_of};
ghost use Rattle.scaled_timer.specs.Merge.{HasFronts, AreKept, FewerKept, timing_of};

use crate::fired::Fired;
use crate::fronts::front_at;
use crate::queue::FrontQueue;
use crate::timers::{Entry, TimerKind};
use io_ports::NoMemory;
use link_lists::Lists;
use std::alloc::Global;

/// The fronts that are due, one of each list at most.
pub(crate) fn due_fronts(
    alloc: Global,
    kinds: &[TimerKind],
    lists: &Lists<Entry>,
    ppm: u32,
    now: u64,
) -> Result<FrontQueue, NoMemory>
    requires same { length lists.now.lists ≡ length kinds.now }
    requires few { length kinds.now < 2 ^ 32 }
    requires ppm { ppm ≤ 1000000 }
    requires early { (k : ℕ) → MatchOption (front_of k lists.now.lists) ⊤ (λ n. n.1.at < 2 ^ 60) }
    ensures { IfOk result (λ queue. HasFronts kinds.now ppm now lists.now.lists (length kinds.now) queue.fronts) }
{
    let mut queue = FrontQueue::new(alloc);
    for kind in 0..kinds.len() as u32 {
        if let Some(front) = front_at(kinds, lists, kind, ppm, now) {
            queue.insert(front)?;
        }
    }
    Ok(queue)
}

/// Fires the timer that is due first. The front behind it takes its place in the queue, if that is due too.
fn fire_first(
    queue: &mut FrontQueue,
    kinds: &[TimerKind],
    lists: &mut Lists<Entry>,
    ppm: u32,
    now: u64,
) -> Option<Fired>
    requires kept { AreKept (length kinds.now) ppm lists.old.lists }
    requires fronts { HasFronts kinds.now ppm now lists.old.lists (length kinds.now) queue.old.fronts }
    ensures none { MatchOption result (due_timers kinds.now ppm now (armed_of lists.old.lists) ≡ []) (λ _. ⊤) }
    ensures stay { MatchOption result (lists.new ≡ lists.old) (λ _. ⊤) }
    ensures some { MatchOption result ⊤ (λ f. FiresFirst f now (timing_of kinds.now ppm lists.old) (timing_of kinds.now ppm lists.new)) }
    ensures kept { MatchOption result ⊤ (λ _. FewerKept 1 (length kinds.now) ppm lists.old.lists lists.new.lists) }
    ensures fronts { MatchOption result ⊤ (λ _. HasFronts kinds.now ppm now lists.new.lists (length kinds.now) queue.new.fronts) }
{
    let front = queue.pop()?;
    let entry = lists.take_front(front.kind).unwrap();
    if let Some(next) = front_at(kinds, lists, front.kind, ppm, now) {
        if queue.insert(next).is_err() {
            unreachable!();
        }
    }
    Some(Fired {
        kind: front.kind,
        id: entry.id,
    })
}

/// Fires the timers that are due, by due moment and then by arming, into a vector with room for all that are armed.
///
/// Asks that the queue has the fronts that are due.
pub(crate) fn fire_all(
    mut queue: FrontQueue,
    kinds: &[TimerKind],
    lists: &mut Lists<Entry>,
    ppm: u32,
    now: u64,
    mut fired: Vec<Fired>,
) -> Vec<Fired>
    requires kept { AreKept (length kinds.now) ppm lists.old.lists }
    requires fronts { HasFronts kinds.now ppm now lists.old.lists (length kinds.now) queue.fronts }
    requires empty { (fired.items ≡ []) × (vec_len fired ≡ 0) }
    requires room { (due_timers kinds.now ppm now (armed_of lists.old.lists) ≡ []) ⊎ (length (armed_of lists.old.lists) ≤ vec_capacity fired) }
    ensures fired { result.items ≡ map firing (due_timers kinds.now ppm now (armed_of lists.old.lists)) }
    ensures armed { armed_of lists.new.lists ≡ waiting_timers kinds.now ppm now (armed_of lists.old.lists) }
    ensures retired { lists.new.retired ≡ lists.old.retired ++ names_of (due_timers kinds.now ppm now (armed_of lists.old.lists)) }
    ensures left { vec_len result + length (armed_of lists.new.lists) ≡ length (armed_of lists.old.lists) }
    ensures kept { FewerKept (vec_len result) (length kinds.now) ppm lists.old.lists lists.new.lists }
{
    while let Some(next) = fire_first(&mut queue, kinds, lists, ppm, now) {
        if fired.push(next).is_err() {
            unreachable!();
        }
    }
    fired
}
