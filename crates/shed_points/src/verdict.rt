// What becomes of an event.
ghost use Rattle.std.specs.Prelude.{◌≡◌};
ghost use Rattle.shed_points.specs.ShedList as list;

use flow_notes::{Event, Job};
use proxy_config::Point;

/// The poster of the drains that stand for what is shed at `Point::Drain`. No other poster has this number.
pub const SHED_POSTER: u32 = u32::MAX;

/// What becomes of an event.
#[derive(Clone, Copy)]
pub enum Verdict {
    /// It is dispatched.
    Pass,
    /// Its connection was shed before, so nothing is dispatched.
    Silent,
    /// It is shed at a point that has this state, in parts per million.
    Shed { point: Point, state: u32 },
}

/// Whether the event itself is dispatched: where it passes, and at `Point::Drain`.
pub fn keeps(verdict: Verdict) -> bool
    ensures { result ≡ list.keeps verdict }
{
    match verdict {
        Verdict::Pass => true,
        Verdict::Silent => false,
        Verdict::Shed { point, .. } => point == Point::Drain,
    }
}

/// What is dispatched for an event that was shed, behind so many posts of the shedder's: the loss of its connection for a read, a post
/// to drain for an obey, and nothing for an accept. Nothing for an event that wasn't shed.
pub fn instead(event: &Event, verdict: Verdict, posts: u64) -> Option<Event>
    ensures { result ≡ list.instead event.now verdict posts }
{
    let Verdict::Shed { .. } = verdict else {
        return None;
    };
    match event {
        Event::Read { conn, .. } => Some(Event::Gone { conn: *conn }),
        Event::Obey { .. } => Some(Event::Post {
            poster: SHED_POSTER,
            number: posts,
            job: Job::Drain,
        }),
        _ => None,
    }
}
