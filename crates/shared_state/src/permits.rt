// Permits, and the seats of the threads that ask for them.
ghost use Rattle.std.specs.Prelude.{◌≡◌};

use crate::permit_rule::{AtMostMax, PermitView};
use atomic_table::{Seat, Table};
use std::alloc::Global;
use std::error::Error;
use std::fmt;

// The first word is what is held and owed, the second is `max`, and no step changes it.
pub(crate) type PermitTable = Table<(), PermitView, u64, AtMostMax, Global>;

/// Permits, of which at most `max` are held at once over all threads.
#[derive(Drop)]
pub struct Permits {
    pub(crate) max: u64,
    pub(crate) table: PermitTable,
    ghost max_is: { table.shared.key ≡ max },
    ghost words: { table.shared.table_id.words ≡ 2 },
}

/// The right of one thread to ask for permits. It has no bytes.
#[derive(Drop)]
pub struct PermitSeat {
    pub(crate) seat: Seat<(), PermitView>,
}

/// The seats that aren't given out.
#[derive(Drop)]
pub struct PermitSeats {
    pub(crate) seats: Vec<PermitSeat>,
}

/// A permit. It can't be dropped: `Permits::leave` ends it.
#[derive(Debug)]
pub struct Permit;

/// No permit was given.
#[derive(Clone, Copy, Debug, PartialEq, Eq)]
pub struct Refused {
    /// What the fetch found, at least `max`.
    pub found: u64,
}

impl fmt::Display for Refused {
    fn fmt<W: fmt::Write>(&self, f: &mut fmt::Formatter<W>) -> fmt::Result {
        write!(f, "{} permits are held already", self.found)
    }
}

impl Error for Refused {}

impl PermitSeat {
    /// The seat at the permits' word. Its view has the permits that are held by it, what its last fetch found, and how
    /// often it was refused.
    pub fn seat(&self) -> &Seat<(), PermitView>
        ensures { result.now ≡ self.now.seat }
    {
        &self.seat
    }
}
