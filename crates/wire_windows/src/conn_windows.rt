// The windows of a connection, both ways.
ghost use Rattle.std.specs.Prelude.{◌≡◌, ◌≤◌};
ghost use Rattle.wire_windows.specs.RecvWindows.{granting};
ghost use Rattle.wire_windows.specs.SendWindows.{granted_first};

use crate::recv_windows::RecvWindows;
use crate::send_windows::SendWindows;
use std::alloc::Global;

/// The flow-control windows of one connection and of its streams. A stream is known by the number of its exchange, since
/// towards a cluster its own number is given only when its request head is framed.
#[derive(Drop)]
pub struct ConnWindows {
    /// What this side lets the peer send.
    pub recv: RecvWindows,
    /// What the peer lets this side send.
    pub send: SendWindows,
}

impl ConnWindows {
    /// The windows of a new connection, of which this side grants `connection_window` octets in all and `stream_window`
    /// octets on each stream. Takes no memory.
    pub fn new(alloc: Global, connection_window: u32, stream_window: u32) -> Self
        requires { 65535 ≤ connection_window }
        ensures { result ≡ record { recv = granting connection_window stream_window; send = granted_first } }
    {
        ConnWindows {
            recv: RecvWindows::new(alloc, connection_window, stream_window),
            send: SendWindows::new(alloc),
        }
    }
}
