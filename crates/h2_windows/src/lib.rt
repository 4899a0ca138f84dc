//! The windows of HTTP/2's flow control, one for each direction (RFC 9113 sections 5.2 and 6.9).
#![tactic(auto)]

mod recv_window;
mod send_window;

pub use recv_window::{Overrun, RecvWindow};
pub use send_window::{MAX_WINDOW, Overflow, SendWindow, greatest_then_last, room_adds_up};
