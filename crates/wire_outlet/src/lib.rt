//! What goes out on one connection of HTTP/2: octets for the socket, units that wait to be framed,
//! and the encoder of field blocks.
#![tactic(auto)]

mod control;
mod heads;
mod laws;
mod outlet;
mod waiting;

pub use control::Control;
pub use laws::{heads_fit, room_for_a_unit, units_stay_ready};
pub use outlet::{Framed, Outlet};
pub use waiting::Waiting;
