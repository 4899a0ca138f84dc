// The version word: what a seat knows of it, its rule, each kind of step, and what is shared beside it.
ghost use Rattle.std.specs.Prelude.{◌≡◌, ◌≤◌};

use atomic_table::{Play, Split, Table, TableRule};
use proxy_config::Config;
use std::alloc::Global;

/// What a seat knows. No value of it is made.
pub struct VersionView {
    /// It is the publisher's.
    pub publishes: bool,
    /// How often it raised the word.
    pub total: u64,
    /// How often it looked, and what its last look found.
    pub asks: u64,
    pub found: u64,
}

/// The rule of the version word: one seat raises it, and it is the number of its raises.
pub struct Counted;

impl TableRule<(), VersionView, ()> for Counted {
    ghost use Rattle.shared_state.specs.Version.{IsCounted, first_seat};

    ghost holds = { λ _. IsCounted };

    ghost first = { λ _. first_seat };
}

/// A fetch that adds 1, by the publisher.
pub(crate) struct Raises;

impl Play<(), VersionView> for Raises {
    ghost use Rattle.std.specs.Prelude.{◌≡◌};
    ghost use Rattle.shared_state.specs.Version.{raised};

    ghost then = { λ _ me found me'. (found ≡ me.0.total) × (me'.0 ≡ raised me.0) };
}

/// A load.
pub(crate) struct Looks;

impl Play<(), VersionView> for Looks {
    ghost use Rattle.std.specs.Prelude.{◌≡◌, ◌≤◌};
    ghost use Rattle.shared_state.specs.Version.{looked};

    ghost then = { λ _ me found me'. (me.0.found ≤ found) × (me'.0 ≡ looked me.0 found) };
}

/// A load that makes a new seat, which isn't the publisher's.
pub(crate) struct Deals;

impl Split<VersionView> for Deals {
    ghost use Rattle.shared_state.specs.Version.{newcomer};

    ghost left = { λ v. v };

    ghost right = { λ _. newcomer };
}

pub(crate) type VersionTable = Table<(), VersionView, (), Counted, Global>;

/// The version word, the number of resources, and a configuration with the triggers of the overload actions.
#[derive(Drop)]
pub(crate) struct Board {
    pub word: VersionTable,
    pub resources: usize,
    pub config: Config,
    ghost words: { word.shared.table_id.words ≡ 1 },
    ghost few: { resources ≤ 16 },
}
