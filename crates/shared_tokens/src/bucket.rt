// Taking tokens and putting them.
ghost use Rattle.std.specs.Prelude.{◌≡◌, ◌+◌, ◌^◌, ◌≤◌, MatchResult, All, IfOk, length};
ghost use Rattle.shared_tokens.specs.Steps.{both, put_more, putter, saw};
ghost use Rattle.shared_tokens.specs.Seats.{Granted, IsNewSeat, IsPutSeatOf, IsSeatOf, Refused, burst_of, known_of, put_known_of, put_now, seats_in};

use crate::dealing::deal;
use crate::seats::{Bucket, PutSeat, TokenSeat, TokenSeats, Words};
use crate::token::{GivesBack, Puts, SeesPut, SeesTaken, Settles, Size, Takes};
use io_ports::NoMemory;
use std::alloc::Global;
use std::error::Error;
use std::fmt;

/// No token was there: so many were found taken, where so many had been seen put.
#[derive(Clone, Copy, Debug, PartialEq, Eq)]
pub struct NoToken {
    pub found: u64,
    pub put: u64,
}

impl fmt::Display for NoToken {
    fn fmt<W: fmt::Write>(&self, f: &mut fmt::Formatter<W>) -> fmt::Result {
        write!(f, "{} tokens are taken, of {}", self.found, self.put)
    }
}

impl Error for NoToken {}

// The word of the tokens taken, with those of refused takes that were not given back yet.
const TAKEN: usize = 0;

// The word of the tokens put.
const PUT: usize = 1;

// The most tokens that are ever put.
const MAX_PUT: u64 = 1 << 62;

impl Bucket {
    /// A bucket without tokens, `seats` seats that take them, from 1 to 2^20, and the one that puts them. `burst` is from 1 to
    /// 2^40. Refused only for lack of memory.
    pub fn new(
        alloc: Global,
        burst: u64,
        seats: u32,
    ) -> Result<(Bucket, TokenSeats, PutSeat), NoMemory>
        requires burst { (1 ≤ burst) × (burst ≤ 2 ^ 40) }
        requires seats { (1 ≤ seats) × (seats ≤ 2 ^ 20) }
        ensures burst { IfOk result (λ made. burst_of made.0 ≡ burst) }
        ensures seats { IfOk result (λ made. length (seats_in made.1) ≡ seats) }
        ensures each { IfOk result (λ made. All (IsNewSeat made.0) (seats_in made.1)) }
        ensures put { IfOk result (λ made. IsPutSeatOf made.0 made.2 × (put_known_of made.2 ≡ putter burst seats)) }
    {
        let size = Size {
            burst,
            seats: u64::from(seats),
        };
        let (table, first) = Words::of_words(alloc, &[0, 0, burst, u64::from(seats)], &size)?;
        let bucket = Bucket { burst, table };
        let mut put = PutSeat {
            seat: first,
            total: 0,
        };
        let seats = deal(alloc, &bucket, &mut put, seats)?;
        Ok((bucket, seats, put))
    }

    /// Takes a token. It looks how many were put, and then adds 1 to those that were taken: the token is its own exactly
    /// where it found fewer taken than put, and else the 1 is given back. It never waits.
    pub fn take(&self, seat: &mut TokenSeat) -> Result<(), NoToken>
        requires seat { IsSeatOf self.now seat.old }
        ensures seat { IsSeatOf self.now seat.new }
        ensures taken { MatchResult result
            (λ _. Granted (known_of seat.old) (known_of seat.new))
            (λ none. Refused (known_of seat.old) none.put none.found (known_of seat.new)) }
    {
        let shared = &self.table.shared;
        let put = shared.load::<SeesPut>(&mut seat.seat, PUT);
        let found = shared.fetch_add::<Takes>(&mut seat.seat, TAKEN, 1);
        if found < put {
            seat.given += 1;
            return Ok(());
        }
        shared.fetch_sub::<GivesBack>(&mut seat.seat, TAKEN, 1);
        Err(NoToken { found, put })
    }

    /// Puts up to `n` tokens, and says how many it put: as many as there is room for beside those that it finds not taken,
    /// and at most 2^62 in all. It never waits.
    pub fn put(&self, seat: &mut PutSeat, n: u64) -> u64
        requires seat { IsPutSeatOf self.now seat.old }
        ensures seat { IsPutSeatOf self.now seat.new }
        ensures put { result ≡ put_now (burst_of self.now) (put_known_of seat.new).seen (put_known_of seat.old).total n }
        ensures known { put_known_of seat.new ≡ put_more (saw (put_known_of seat.old) (put_known_of seat.new).seen) result }
    {
        let shared = &self.table.shared;
        let found = shared.load::<SeesTaken>(&mut seat.seat, TAKEN);
        let room = (found + self.burst).saturating_sub(seat.total);
        let more = n.min(room.min(MAX_PUT - seat.total));
        shared.fetch_add::<Puts>(&mut seat.seat, PUT, more);
        seat.total += more;
        more
    }

    /// How many tokens the seat was given.
    pub fn taken(&self, seat: &TokenSeat) -> u64
        ensures { result ≡ (known_of seat.now).granted }
    {
        seat.given
    }

    /// Ends a seat that takes: the seat that puts knows from now on what this one was given too. It never was given more
    /// than it put; and once all seats are settled, at most `burst` and one for each seat were put and not taken.
    pub fn settle(&self, put: &mut PutSeat, seat: TokenSeat)
        requires put { IsPutSeatOf self.now put.old }
        requires seat { IsSeatOf self.now seat }
        ensures put { IsPutSeatOf self.now put.new }
        ensures known { put_known_of put.new ≡ saw (both (put_known_of put.old) (known_of seat)) (put_known_of put.new).seen }
        ensures enough { (put_known_of put.new).granted ≤ (put_known_of put.new).total }
        ensures level { let all = put_known_of put.new in (all.seats ≡ all.all_seats) → all.total ≤ all.granted + (all.burst + all.all_seats) }
    {
        let TokenSeat {
            seat: gone,
            given: _,
        } = seat;
        let shared = &self.table.shared;
        shared.join_seat::<Settles>(&mut put.seat, gone);
        shared.load::<SeesTaken>(&mut put.seat, TAKEN);
    }
}
