//! The life of exchanges: a request and its response, from their start to their doom, with the octets that are on
//! their way, and the heads and trailers that wait to be framed.
#![tactic(auto)]

mod causes;
mod exchange;
mod exchanges;
mod flow;
mod flow_box;
mod laws;
mod message;
mod spares;
mod start;
mod step;

pub use causes::{Doomed, Reply};
pub use exchange::Ends;
pub use exchanges::Exchanges;
pub use flow_rules::Unit;
pub use laws::{plain_streams, units_narrow};
pub use message::Awaited;
pub use start::StartSpec;
pub use step::{Advance, Piece, Received, Step};
