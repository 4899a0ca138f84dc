//! Clients that one thread accepts and hands to workers in others, over mio.
#![tactic(auto)]

mod acceptor;
mod lane;
mod queue;

pub use acceptor::Acceptor;
pub use queue::{AcceptQueue, MOST_WAITING, QueueInlet};
