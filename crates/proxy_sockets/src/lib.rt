//! The site of `h2proxy` over sockets: where it listens, what its relay and its workers work over, and how many clients there are.
#![tactic(auto)]

mod counts;
mod journal;
mod socket_site;
mod unused;
mod warn;
mod wire_sockets;

pub use counts::{ClientCounts, ClientGauge};
pub use journal::FileJournal;
pub use socket_site::SocketSite;
