// The types of seats and the bucket. They have a file of their own, since the words of the calls name them.
ghost use Rattle.std.specs.Prelude.{◌≡◌, ◌≤◌, ◌^◌, [], true, false};

use crate::token::{Filled, Size, Token};
use atomic_table::{Seat, Table};
use std::alloc::Global;

pub(crate) type Words = Table<(), Token, Size, Filled, Global>;

/// A bucket of tokens, which threads share. At most `burst` tokens, and one more for each seat, are put and not taken.
#[derive(Drop)]
pub struct Bucket {
    pub(crate) burst: u64,
    pub(crate) table: Words,
    ghost burst_is: { table.shared.key.burst ≡ burst },
    ghost small: { burst ≤ 2 ^ 40 },
    ghost words: { table.shared.table_id.words ≡ 4 },
}

/// A thread's seat at a bucket, with which it takes tokens.
#[derive(Drop)]
pub struct TokenSeat {
    pub(crate) seat: Seat<(), Token>,
    pub(crate) given: u64,
    ghost takes: { (seat.me.0.puts ≡ false) × (seat.me.0.seats ≡ 1) },
    ghost paid: { seat.me.0.owing ≡ 0 },
    ghost given_is: { seat.me.0.granted ≡ given },
    ghost no_slots: { seat.me.1 ≡ [] },
}

/// The seats that were not given out yet.
#[derive(Drop)]
pub struct TokenSeats {
    pub(crate) seats: Vec<TokenSeat>,
}

/// The one seat at a bucket that puts tokens.
#[derive(Drop)]
pub struct PutSeat {
    pub(crate) seat: Seat<(), Token>,
    pub(crate) total: u64,
    ghost puts: { seat.me.0.puts ≡ true },
    ghost total_is: { seat.me.0.total ≡ total },
    ghost small: { total ≤ 2 ^ 62 },
}
