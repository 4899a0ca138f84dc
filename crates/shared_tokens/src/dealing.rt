// How the seats are split off, and given out.
ghost use Rattle.std.specs.Prelude.{◌≡◌, ◌<◌, ◌++◌, ◌∷◌, [], MatchOption, All, IfOk, length};
ghost use Rattle.shared_tokens.specs.Steps.{dealt, putter};
ghost use Rattle.shared_tokens.specs.Seats.{IsNewSeat, IsPutSeatOf, burst_of, put_known_of, seats_in};

use crate::seats::{Bucket, PutSeat, TokenSeat, TokenSeats};
use crate::token::Deals;
use io_ports::NoMemory;
use std::alloc::Global;

// One more seat that takes.
fn deal_one(bucket: &Bucket, put: &mut PutSeat) -> TokenSeat
    requires put { IsPutSeatOf bucket.now put.old }
    requires left { 0 < (put_known_of put.old).splits }
    ensures put { IsPutSeatOf bucket.now put.new }
    ensures known { put_known_of put.new ≡ dealt (put_known_of put.old) }
    ensures new { IsNewSeat bucket.now result }
{
    let seat = bucket.table.shared.split_seat::<Deals>(&mut put.seat);
    TokenSeat { seat, given: 0 }
}

// All seats that take.
pub(crate) fn deal(
    alloc: Global,
    bucket: &Bucket,
    put: &mut PutSeat,
    seats: u32,
) -> Result<TokenSeats, NoMemory>
    requires put { IsPutSeatOf bucket.now put.old }
    requires known { put_known_of put.old ≡ record (putter (burst_of bucket.now) seats) { splits = seats } }
    ensures put { IfOk result (λ _. IsPutSeatOf bucket.now put.new × (put_known_of put.new ≡ putter (burst_of bucket.now) seats)) }
    ensures len { IfOk result (λ dealt. length (seats_in dealt) ≡ seats) }
    ensures each { IfOk result (λ dealt. All (IsNewSeat bucket.now) (seats_in dealt)) }
{
    let mut list = Vec::with_capacity(alloc, seats as usize)?;
    for _ in 0..seats {
        let seat = deal_one(bucket, put);
        list.push_reserved(seat);
    }
    Ok(TokenSeats { seats: list })
}

impl TokenSeats {
    /// A seat that was not given out yet. None exactly where all were.
    pub fn take_one(&mut self) -> Option<TokenSeat>
        ensures { MatchOption result
            ((seats_in self.old ≡ []) × (seats_in self.new ≡ []))
            (λ seat. seats_in self.old ≡ seats_in self.new ++ seat ∷ []) }
    {
        self.seats.pop()
    }
}
