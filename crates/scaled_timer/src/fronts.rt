//! The fronts of the lists.
ghost use Rattle.std.specs.Prelude.{◌≡◌, ◌+◌, ◌^◌, ◌<◌, ◌≤◌, ⊤, length, MatchOption};
ghost use Rattle.link_lists.specs.Lists.{front_of};
ghost use Rattle.scaled_timer.specs.Fronts.{due_front};

use crate::timers::{Entry, TimerKind};
use link_lists::Lists;

/// The front of a kind's list: when it is due, and how many timers were armed before it. Ordered as the fronts fire.
#[derive(Clone, Copy, PartialEq, Eq, PartialOrd, Ord)]
pub(crate) struct Front {
    pub due: u64,
    pub age: u64,
    pub kind: u32,
}

/// The front of a kind's list, if it is due.
pub(crate) fn front_at(
    kinds: &[TimerKind],
    lists: &Lists<Entry>,
    kind: u32,
    ppm: u32,
    now: u64,
) -> Option<Front>
    requires kind { kind < length kinds.now }
    requires list { kind < length lists.now.lists }
    requires ppm { ppm ≤ 1000000 }
    requires early { MatchOption (front_of kind lists.now.lists) ⊤ (λ n. n.1.at < 2 ^ 60) }
    ensures { result ≡ due_front kinds.now ppm now lists.now.lists kind }
{
    let entry = lists.front(kind)?;
    let due = entry.at + kinds[kind as usize].delay(ppm);
    if due <= now {
        Some(Front {
            due,
            age: entry.age,
            kind,
        })
    } else {
        None
    }
}
