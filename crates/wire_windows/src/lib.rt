//! The flow-control windows of one connection and of its streams, both ways (RFC 9113 sections 5.2 and 6.9).
#![tactic(auto)]

mod by_exchange;
mod conn_windows;
mod recv_stream;
mod recv_windows;
mod send_windows;

pub use conn_windows::ConnWindows;
pub use recv_stream::{Came, RecvStream};
pub use recv_windows::{RecvWindows, buffers_fit};
pub use send_windows::{SendWindows, one_more_initial};
