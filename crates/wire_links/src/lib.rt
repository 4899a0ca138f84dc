//! Who is linked to whom: the connections of a worker, and between which of them each live exchange stands.
#![tactic(auto)]

mod conn;
mod links;
mod seat;

pub use conn::Conn;
pub use links::{Ends, Links};
