// A follower of what is published, and what it answers.
ghost use Rattle.std.specs.Prelude.{◌≡◌, true, is_some};
ghost use Rattle.std.specs.Arc.{arc_value};

use crate::entries::Entry;
use crate::one_list::Eye;
use crate::version_word::{Board, VersionView};
use atomic_table::Seat;
use io_ports::PressureList;
use overload_core::Actions;
use std::alloc::Global;
use std::sync::Arc;

/// One that follows what is published, for one thread.
#[derive(Drop)]
pub struct Follower {
    pub(crate) eye: Option<Eye>,
    pub(crate) seat: Seat<(), VersionView>,
    pub(crate) board: Arc<Board, Global>,
    // The newest entry that it has read or learnt.
    pub(crate) kept: Entry,
    ghost there: { is_some eye ≡ true },
    ghost seated: { seat.table_id ≡ (arc_value board).word.shared.table_id },
}

/// The followers that aren't given out.
#[derive(Drop)]
pub struct Followers {
    pub(crate) list: Vec<Follower>,
}

/// A version, with its pressures, in parts per million, and the states of the overload actions at these pressures.
#[derive(Debug, Drop)]
pub struct Snapshot {
    /// How many versions were published up to this one; 0 is the opening one, of which all pressures are 0.
    pub version: u64,
    /// One for each resource.
    pub pressures: PressureList,
    pub actions: Actions,
}
