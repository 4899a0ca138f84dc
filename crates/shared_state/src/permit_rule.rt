// What a seat at the permits' word knows, the rule over the word and all seats, and each kind of step.
use atomic_table::{Play, Split, TableRule};

/// What a seat knows. No value of it is made.
pub struct PermitView {
    /// The most permits that may be held over all seats.
    pub max: u64,
    /// How many permits the seat was given and hasn't left.
    pub held: u64,
    /// 1 from a refused fetch to its giving back, else 0.
    pub owing: u64,
    /// What the fetch of the seat's last `enter` found.
    pub find: u64,
    /// How many permits it was refused.
    pub refusals: u64,
    /// How many seats may still be split off.
    pub splits: u64,
}

/// The rule of the permits' word: it is all that is held and all that is owed, and at most `max` permits are held.
pub struct AtMostMax;

impl TableRule<(), PermitView, u64> for AtMostMax {
    ghost use Rattle.shared_state.specs.PermitRule.{IsAtMostMax, newcomer, most};

    ghost holds = { IsAtMostMax };

    ghost first = { λ max. newcomer max most };
}

/// A fetch that adds 1. It is granted exactly where it found less than `max`, and refused else.
pub(crate) struct Enters;

impl Play<(), PermitView> for Enters {
    ghost use Rattle.shared_state.specs.PermitRule.{Entered};

    ghost then = { λ _ me found me'. Entered me.0 found me'.0 };
}

/// A fetch that takes the 1 of a refusal back.
pub(crate) struct GivesBack;

impl Play<(), PermitView> for GivesBack {
    ghost use Rattle.std.specs.Prelude.{◌≡◌};
    ghost use Rattle.shared_state.specs.PermitRule.{gave_back};

    ghost then = { λ _ me _ me'. me'.0 ≡ gave_back me.0 };
}

/// A fetch that takes 1: a permit is left.
pub(crate) struct Leaves;

impl Play<(), PermitView> for Leaves {
    ghost use Rattle.std.specs.Prelude.{◌≡◌};
    ghost use Rattle.shared_state.specs.PermitRule.{left};

    ghost then = { λ _ me _ me'. me'.0 ≡ left me.0 };
}

/// A load that makes a new seat.
pub(crate) struct Seats;

impl Split<PermitView> for Seats {
    ghost use Rattle.shared_state.specs.PermitRule.{dealt, newcomer};

    ghost left = { dealt };

    ghost right = { λ v. newcomer v.max 0 };
}
