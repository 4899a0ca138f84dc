// How permits are made, given and left.
ghost use Rattle.std.specs.Prelude.{◌≡◌, ◌+◌, ◌-◌, ◌<◌, ◌≤◌, ◌++◌, ◌∷◌, [], All, length, IfOk, MatchResult, MatchOption, vec_len};
ghost use Rattle.shared_state.specs.PermitRule.{newcomer, granted, left, most};
ghost use Rattle.shared_state.specs.PermitSeats.{view, IsSeatOf, IsNewSeat, seats_in, refused_and_paid};

use crate::permit_rule::{Enters, GivesBack, Leaves, PermitView, Seats};
use crate::permits::{Permit, PermitSeat, PermitSeats, PermitTable, Permits, Refused};
use atomic_table::Seat;
use io_ports::NoMemory;
use std::alloc::{AllocError, Global};

impl Permits {
    /// Permits for so many seats, from 1 to 2^20. At most `max` of them, which is at most 2^20, are held at once over all
    /// threads. No seat holds one yet. Refused only for lack of memory.
    pub fn new(alloc: Global, max: u64, seats: u32) -> Result<(Permits, PermitSeats), NoMemory>
        requires max { max ≤ most }
        requires seats { (1 ≤ seats) × (seats ≤ most) }
        ensures max { IfOk result (λ made. made.0.max ≡ max) }
        ensures seats { IfOk result (λ made. length (seats_in made.1) ≡ seats) }
        ensures each { IfOk result (λ made. All (IsNewSeat made.0) (seats_in made.1)) }
    {
        let (table, first) = PermitTable::of_words(alloc, &[0, max], &max)?;
        let permits = Permits { max, table };
        let seats = seat_all(alloc, &permits, first, seats)?;
        Ok((permits, PermitSeats { seats }))
    }

    /// Asks for a permit by one fetch that adds 1, which gives it exactly where it found less than `max`. Else a second
    /// fetch takes the 1 back, and the refusal has the number that the first one found. Neither waits nor takes memory.
    pub fn enter(&self, seat: &mut PermitSeat) -> Result<Permit, Refused>
        requires { IsSeatOf self.now seat.old }
        ensures seat { IsSeatOf self.now seat.new }
        ensures found { MatchResult result
            (λ _. ((view seat.new).find < self.now.max) × (view seat.new ≡ granted (view seat.old) (view seat.new).find))
            (λ r. (self.now.max ≤ r.found) × (view seat.new ≡ refused_and_paid (view seat.old) r.found)) }
    {
        let shared = &self.table.shared;
        let found = shared.fetch_add::<Enters>(&mut seat.seat, 0, 1);
        if found < self.max {
            return Ok(Permit);
        }
        shared.fetch_sub::<GivesBack>(&mut seat.seat, 0, 1);
        Err(Refused { found })
    }

    /// Ends a permit that this seat was given, by one fetch. It neither waits nor takes memory.
    pub fn leave(&self, seat: &mut PermitSeat, permit: Permit)
        requires seat { IsSeatOf self.now seat.old }
        requires given { 0 < (view seat.old).held }
        ensures seat { IsSeatOf self.now seat.new }
        ensures left { view seat.new ≡ left (view seat.old) }
    {
        let Permit = permit;
        self.table.shared.fetch_sub::<Leaves>(&mut seat.seat, 0, 1);
    }
}

// As many new seats. The first one, from which they are split off, stays behind.
fn seat_all(
    alloc: Global,
    permits: &Permits,
    mut first: Seat<(), PermitView>,
    seats: u32,
) -> Result<Vec<PermitSeat>, AllocError>
    requires seats { seats ≤ most }
    requires first { (first.table_id ≡ permits.now.table.shared.table_id) × (first.me.0 ≡ newcomer permits.now.max most) }
    ensures len { IfOk result (λ v. vec_len v ≡ seats) }
    ensures each { IfOk result (λ v. All (IsNewSeat permits.now) v.items) }
{
    let mut list = Vec::with_capacity(alloc, seats as usize)?;
    for _ in 0..seats {
        let seat = permits.table.shared.split_seat::<Seats>(&mut first);
        list.push_reserved(PermitSeat { seat });
    }
    Ok(list)
}

impl PermitSeats {
    /// A seat. None exactly where all were given out.
    pub fn take_one(&mut self) -> Option<PermitSeat>
        ensures { MatchOption result
            ((seats_in self.old ≡ []) × (seats_in self.new ≡ []))
            (λ s. seats_in self.old ≡ seats_in self.new ++ s ∷ []) }
    {
        self.seats.pop()
    }
}
