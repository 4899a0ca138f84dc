// What a seat knows, the rule over the words and all seats, and the kinds of step.
use atomic_table::{Join, Play, Split, TableRule};

/// What a seat knows, its view in the table. No value of it is made.
pub struct Token {
    /// The seat puts tokens; else it takes them.
    pub puts: bool,
    /// How many seats that take it stands for: 1 where it takes, and 0 once it was settled. Where it puts, those that
    /// were settled with it.
    pub seats: u64,
    /// How many seats it may still split off.
    pub splits: u64,
    /// How many tokens it was given.
    pub granted: u64,
    /// 1 from a refused fetch until this was given back, else 0.
    pub owing: u64,
    /// How many tokens it put.
    pub total: u64,
    /// What its last look found: the taken word where it puts, else the put word.
    pub seen: u64,
    /// What its last take found.
    pub find: u64,
    /// How many looks it made.
    pub looks: u64,
    /// How large the bucket is, where it puts.
    pub burst: u64,
    pub all_seats: u64,
}

/// How large a bucket is. Fixed when it is made.
#[derive(Drop)]
pub struct Size {
    pub burst: u64,
    pub seats: u64,
}

/// The rule of a bucket.
pub struct Filled;

impl TableRule<(), Token, Size> for Filled {
    ghost use Rattle.shared_tokens.specs.Rule.{IsFilled};
    ghost use Rattle.shared_tokens.specs.Steps.{putter};

    ghost holds = { λ size. IsFilled size.burst size.seats };

    ghost first = { λ size. record (putter size.burst size.seats) { splits = size.seats } };
}

/// A look at the put word by a seat that takes.
pub(crate) struct SeesPut;

impl Play<(), Token> for SeesPut {
    ghost use Rattle.std.specs.Prelude.{◌≡◌};
    ghost use Rattle.shared_tokens.specs.Steps.{saw};

    ghost then = { λ _ me found me'. (me'.0 ≡ saw me.0 found) × (me'.1 ≡ me.1) };
}

/// A fetch that adds 1 to the taken word.
pub(crate) struct Takes;

impl Play<(), Token> for Takes {
    ghost use Rattle.std.specs.Prelude.{◌≡◌};
    ghost use Rattle.shared_tokens.specs.Steps.{Taken};

    ghost then = { λ _ me found me'. Taken me.0 found me'.0 × (me'.1 ≡ me.1) };
}

/// A fetch that takes 1 back from the taken word.
pub(crate) struct GivesBack;

impl Play<(), Token> for GivesBack {
    ghost use Rattle.std.specs.Prelude.{◌≡◌};
    ghost use Rattle.shared_tokens.specs.Steps.{gave_back};

    ghost then = { λ _ me _ me'. (me'.0 ≡ gave_back me.0) × (me'.1 ≡ me.1) };
}

/// A look at the taken word by the seat that puts.
pub(crate) struct SeesTaken;

impl Play<(), Token> for SeesTaken {
    ghost use Rattle.shared_tokens.specs.Steps.{SawTaken};

    ghost then = { λ _ me found me'. SawTaken me.0 found me'.0 };
}

/// A fetch that adds to the put word.
pub(crate) struct Puts;

impl Play<(), Token> for Puts {
    ghost use Rattle.std.specs.Prelude.{◌≡◌};
    ghost use Rattle.shared_tokens.specs.Steps.{put_more};

    ghost then = { λ step me _ me'. me'.0 ≡ put_more me.0 step.first };
}

/// The seat that puts splits off a seat that takes.
pub(crate) struct Deals;

impl Split<Token> for Deals {
    ghost use Rattle.shared_tokens.specs.Steps.{dealt, taker};

    ghost left = { dealt };

    ghost right = { λ _. taker };
}

/// The seat that puts takes in a seat that takes, and this one is ended.
pub(crate) struct Settles;

impl Join<Token> for Settles {
    ghost use Rattle.shared_tokens.specs.Steps.{both, ended};

    ghost both = { both };

    ghost spent = { ended };
}
