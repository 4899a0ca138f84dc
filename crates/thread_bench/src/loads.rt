// The calls whose time is measured on several threads.
ghost use Rattle.std.specs.Arc.{arc_value};
ghost use Rattle.shared_state.specs.PermitSeats.{IsSeatOf};
ghost use Rattle.shared_tokens.specs.Seats.{IsSeatOf as IsTaker};

use shared_state::{Follower, PermitSeat, Permits};
use shared_tokens::{Bucket, TokenSeat};
use std::alloc::Global;
use std::sync::atomic::{AtomicU64, Ordering};
use std::sync::{Arc, Wait};

/// Something to call over and over.
pub trait Load {
    /// One call. False where it failed.
    fn call<R: Wait + AllocGlobal>(&mut self, rt: &R) -> bool;
}

/// A bare fetch.
#[derive(Drop)]
pub struct Fetches {
    pub word: Arc<AtomicU64, Global>,
}

impl Load for Fetches {
    fn call<R: Wait + AllocGlobal>(&mut self, _rt: &R) -> bool {
        self.word.fetch_add(1, Ordering::SeqCst);
        true
    }
}

/// Two bare fetches.
#[derive(Drop)]
pub struct FetchPairs {
    pub word: Arc<AtomicU64, Global>,
}

impl Load for FetchPairs {
    fn call<R: Wait + AllocGlobal>(&mut self, _rt: &R) -> bool {
        self.word.fetch_add(1, Ordering::SeqCst);
        self.word.fetch_sub(1, Ordering::SeqCst);
        true
    }
}

/// An `enter` with its `leave`.
#[derive(Drop)]
pub struct Enters {
    pub permits: Arc<Permits, Global>,
    pub seat: PermitSeat,
    ghost fits: { IsSeatOf (arc_value permits) seat },
}

impl Load for Enters {
    fn call<R: Wait + AllocGlobal>(&mut self, _rt: &R) -> bool {
        match self.permits.enter(&mut self.seat) {
            Ok(permit) => {
                self.permits.leave(&mut self.seat, permit);
                true
            }
            Err(_) => false,
        }
    }
}

/// A `take` of a token, of a bucket that has enough for all or none.
#[derive(Drop)]
pub struct Takes {
    pub bucket: Arc<Bucket, Global>,
    pub seat: TokenSeat,
    pub has_tokens: bool,
    ghost fits: { IsTaker (arc_value bucket) seat },
}

impl Load for Takes {
    fn call<R: Wait + AllocGlobal>(&mut self, _rt: &R) -> bool {
        self.bucket.take(&mut self.seat).is_ok() == self.has_tokens
    }
}

/// A `current`.
#[derive(Drop)]
pub struct Follows {
    pub follower: Follower,
}

impl Load for Follows {
    fn call<R: Wait + AllocGlobal>(&mut self, rt: &R) -> bool {
        self.follower.current(rt, rt.alloc()).is_ok()
    }
}
