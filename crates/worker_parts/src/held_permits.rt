// The permits of a worker's connections.
ghost use Rattle.number_set.specs.NumberSet.{has, marked};
ghost use Rattle.shared_state.specs.PermitSeats.{IsSeatOf, view};
ghost use Rattle.std.specs.Prelude.{◌≡◌, ◌+◌, ◌≤◌, ◌⊎◌, [], IfOk, OnErr, false, length, true, ℕ};
ghost use Rattle.worker_parts.specs.Held.{Asked, with_fewer};

use io_ports::NoMemory;
use number_set::NumberSet;
use shared_state::{Permit, PermitSeat, Permits};
use std::alloc::Global;
use std::marker::Model;

/// The permits that one seat was given for connections, each with the connection that has it. It can't be dropped: `give_back`
/// ends it.
pub struct HeldPermits {
    conns: NumberSet,
    permits: Vec<Permit>,
}

impl Model for HeldPermits {
    ghost use Rattle.std.specs.Prelude.{List, length, ℕ, ◌≡◌};

    ghost Value = { List ℕ };

    ghost view = { λ h. h.conns.items };

    ghost invariant = { λ h. length h.permits.items ≡ length h.conns.items };
}

impl HeldPermits {
    /// None is kept. Takes no memory.
    pub fn new(alloc: Global) -> Self
        ensures { result ≡ [] }
    {
        HeldPermits {
            conns: NumberSet::new(alloc),
            permits: Vec::new(alloc),
        }
    }

    /// How many connections have one.
    pub fn len(&self) -> usize
        ensures { result ≡ length self.now }
    {
        self.conns.len()
    }

    /// Asks for a permit for a connection, and keeps it. The answer is whether one was given. Its memory is taken first, so after
    /// `NoMemory` nothing was asked for.
    pub fn enter(
        &mut self,
        permits: &Permits,
        seat: &mut PermitSeat,
        conn: u32,
    ) -> Result<bool, NoMemory>
        requires seat { IsSeatOf permits.now seat.old }
        requires none { has self.old conn ≡ false }
        ensures seat { IsSeatOf permits.now seat.new }
        ensures asked { IfOk result (λ given. Asked conn permits.now (view seat.old) self.old given (view seat.new) self.new) }
        ensures balance { (view seat.new).held + length self.old ≡ (view seat.old).held + length self.new }
        ensures more { (c : ℕ) → has self.new c ≡ true → (c ≡ conn) ⊎ (has self.old c ≡ true) }
        ensures err { OnErr result ((seat.new ≡ seat.old) × (self.new ≡ self.old)) }
    {
        self.conns.reserve_one()?;
        self.permits.reserve(1)?;
        match permits.enter(seat) {
            Ok(permit) => {
                self.permits.push_reserved(permit);
                self.conns.insert(u64::from(conn));
                Ok(true)
            }
            Err(_) => Ok(false),
        }
    }

    /// Leaves the permit of a connection, if it has one.
    #[tactic(auto, using(crate::proofs::Leaving::fewer_one, crate::proofs::Leaving::fewer_none))]
    pub fn leave(&mut self, permits: &Permits, seat: &mut PermitSeat, conn: u32)
        requires seat { IsSeatOf permits.now seat.old }
        requires given { length self.old ≤ (view seat.old).held }
        ensures seat { IsSeatOf permits.now seat.new }
        ensures held { self.new ≡ marked conn false self.old }
        ensures left { view seat.new ≡ with_fewer (length self.old) (length self.new) (view seat.old) }
        ensures given { length self.new ≤ (view seat.new).held }
        ensures others { (c : ℕ) → has self.new c ≡ true → has self.old c ≡ true }
        ensures balance { (view seat.new).held + length self.old ≡ (view seat.old).held + length self.new }
    {
        self.conns.remove(u64::from(conn));
        if self.conns.len() < self.permits.len() {
            let Some(permit) = self.permits.pop() else {
                unreachable!()
            };
            permits.leave(seat, permit);
        }
    }

    /// Leaves every permit that is kept.
    pub fn give_back(self, permits: &Permits, seat: &mut PermitSeat)
        requires seat { IsSeatOf permits.now seat.old }
        requires given { length self ≤ (view seat.old).held }
        ensures seat { IsSeatOf permits.now seat.new }
        ensures left { view seat.new ≡ with_fewer (length self) 0 (view seat.old) }
    {
        let HeldPermits {
            conns: _,
            permits: kept,
        } = self;
        leave_all(permits, seat, kept);
    }
}

#[tactic(auto, using(crate::proofs::Leaving::fewer_more, crate::proofs::Leaving::fewer_none))]
fn leave_all(permits: &Permits, seat: &mut PermitSeat, mut kept: Vec<Permit>)
    requires seat { IsSeatOf permits.now seat.old }
    requires given { length kept.items ≤ (view seat.old).held }
    ensures seat { IsSeatOf permits.now seat.new }
    ensures left { view seat.new ≡ with_fewer (length kept.items) 0 (view seat.old) }
{
    while let Some(permit) = kept.pop() {
        permits.leave(seat, permit);
    }
    kept.destroy_empty();
}
