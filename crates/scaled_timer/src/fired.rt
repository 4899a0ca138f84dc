//! What a turn gives.
ghost use Rattle.std.specs.Prelude.{◌≡◌, ◌==◌, length};

use std::marker::Model;

/// A timer that has fired: its kind, and the number that it was armed with.
#[derive(Clone, Copy, Debug, PartialEq, Eq)]
pub struct Fired {
    pub kind: u32,
    pub id: u64,
}

/// Timers in the order in which they fired.
#[derive(Debug, Drop)]
pub struct FiredList {
    fired: Vec<Fired>,
}

impl Model for FiredList {
    ghost use Rattle.std.specs.Prelude.{List};
    ghost use Rattle.scaled_timer.specs.declared.fired.Fired.{Fired};

    ghost Value = { List Fired };

    ghost view = { λ a. a.fired.items };
}

impl FiredList {
    /// The timers of a vector. Takes no memory.
    pub fn from_vec(fired: Vec<Fired>) -> Self
        ensures { result ≡ fired.items }
    {
        FiredList { fired }
    }

    /// The timers, in the order in which they fired.
    pub fn as_slice(&self) -> &[Fired]
        ensures { result.now ≡ self.now }
    {
        self.fired.as_slice()
    }

    /// How many timers fired.
    pub fn len(&self) -> usize
        ensures { result ≡ length self.now }
    {
        self.fired.len()
    }

    /// Whether no timer fired.
    pub fn is_empty(&self) -> bool
        ensures { result ≡ (length self.now == 0) }
    {
        self.fired.is_empty()
    }
}
