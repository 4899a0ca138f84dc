// The bucket of tokens for clients' connections. The types have a file of their own, since their ghost fields import its words.
ghost use Rattle.std.specs.Prelude.{All};
ghost use Rattle.shared_tokens.specs.Seats.{IsPutSeatOf, IsSeatOf, seats_in};

use shared_tokens::{Bucket, PutSeat, TokenSeat, TokenSeats};

/// A bucket of tokens, of which each client's connection takes one.
#[derive(Drop)]
pub(crate) struct Metering<'a> {
    pub bucket: &'a Bucket,
    pub seats: TokenSeats,
    pub put: PutSeat,
    ghost seats_of: { All (IsSeatOf bucket.now) (seats_in seats) },
    ghost put_of: { IsPutSeatOf bucket.now put },
}

/// The right of one worker to take tokens.
#[derive(Drop)]
pub(crate) struct Ticket<'a> {
    pub bucket: &'a Bucket,
    pub seat: TokenSeat,
    ghost seat_of: { IsSeatOf bucket.now seat },
}

impl<'a> Metering<'a> {
    /// A seat that wasn't given out yet.
    #[tactic(auto, using(crate::proofs::Sharing::takers_left, crate::proofs::Sharing::taker_taken))]
    pub fn ticket(&mut self) -> Option<Ticket<'a>> {
        let seat = self.seats.take_one()?;
        Some(Ticket {
            bucket: self.bucket,
            seat,
        })
    }

    /// Puts so many tokens, if there is room for them.
    pub fn put_tokens(&mut self, more: u64) {
        self.bucket.put(&mut self.put, more);
    }
}
