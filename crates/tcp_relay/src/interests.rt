// What an event means to those who serve the connections.
ghost use Rattle.std.specs.Prelude.{◌≡◌};
ghost use Rattle.tcp_relay.specs.Interests.{changes, comes, interests_of};

use crate::effect::Effect;
use flow_notes::Event;

/// Which connections there are, and which of them are to be read, after an event.
#[derive(Clone, Copy, PartialEq, Eq)]
pub enum Interests {
    /// As before: none has come or was closed, and each is to be read, or isn't, as it was.
    Kept,
    /// A connection has come, or was closed, or is to be read from now on, or isn't any more.
    Changed,
}

/// What an event with this effect means.
pub(crate) fn interests_of(event: &Event, effect: Effect) -> Interests
    ensures { result ≡ interests_of event.now effect }
{
    if comes(event) || changes(effect) {
        Interests::Changed
    } else {
        Interests::Kept
    }
}

// Whether the event is of a connection that comes.
fn comes(event: &Event) -> bool
    ensures { result ≡ comes event.now }
{
    matches!(event, Event::Accept { .. } | Event::Join { .. })
}

// Whether a connection was opened or closed, or a flow was paused or goes on.
fn changes(effect: Effect) -> bool
    ensures { result ≡ changes effect }
{
    match effect {
        Effect::Nothing => false,
        Effect::Carried { rose, .. } => rose,
        Effect::Left(left) => left.closed || left.resumed.is_some(),
        Effect::Paired { .. } | Effect::Refused { .. } | Effect::Lost { .. } => true,
    }
}
