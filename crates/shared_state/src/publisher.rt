// The publisher, and what it tells.
ghost use Rattle.std.specs.Prelude.{◌≡◌, [], true, is_some, drop};
ghost use Rattle.std.specs.Arc.{arc_value};
ghost use Rattle.std.specs.Option.{ForSome};
ghost use Rattle.shared_state.specs.Published.{IsLast};
ghost use Rattle.shared_state.specs.Seen.{published_by};

use crate::entries::Entry;
use crate::one_list::Press;
use crate::version_word::{Board, VersionView};
use atomic_table::Seat;
use std::alloc::Global;
use std::sync::Arc;

/// The one that publishes. It can't be dropped: `end` ends it.
pub struct Publisher {
    pub(crate) press: Option<Press>,
    pub(crate) seat: Seat<(), VersionView>,
    pub(crate) board: Arc<Board, Global>,
    pub(crate) last: Entry,
    ghost there: { is_some press ≡ true },
    ghost shows: { ForSome press (λ w. w.desk.shown.value ≡ last) },
    ghost none_pending: { ForSome press (λ w. drop w.behind w.log.items ≡ []) },
    ghost last_is: { IsLast last (published_by press) },
    ghost seated: { seat.table_id ≡ (arc_value board).word.shared.table_id },
    ghost publishes: { seat.me.0.publishes ≡ true },
    ghost total_is: { seat.me.0.total ≡ last.version },
}

/// What was published under one version, for a follower to learn.
#[derive(Drop)]
pub struct Told {
    pub(crate) entry: Entry,
    pub(crate) seat: Seat<(), VersionView>,
}
