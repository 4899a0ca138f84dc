//! One bucket of tokens for the workers of a process: who takes a token may accept a connection.
#![tactic(auto)]

mod bucket;
mod dealing;
mod seats;
mod token;

pub use bucket::NoToken;
pub use seats::{Bucket, PutSeat, TokenSeat, TokenSeats};
pub use token::{Filled, Size, Token};
