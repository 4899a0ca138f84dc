// One stream that the peer sends on, and what came on it.
ghost use Rattle.std.specs.Prelude.{◌≡◌};

use h2_windows::RecvWindow;

/// Whether the octets of a DATA frame fit into the windows.
#[derive(Clone, Copy, PartialEq, Eq)]
pub enum Came {
    /// They fit into both.
    Fits,
    /// They are more than the stream's window had left.
    StreamOver,
    /// They are more than the connection's window had left.
    ConnOver,
}

/// The window of a stream, and whether END_STREAM came on it.
#[derive(Clone, Copy)]
pub struct RecvStream {
    pub window: RecvWindow,
    pub ended: bool,
}

impl RecvStream {
    ghost use Rattle.wire_windows.specs.RecvWindows.{is_due_stream};

    /// Whether a WINDOW_UPDATE of the stream is due: END_STREAM hasn't come, and at least half of the window is owed.
    pub fn is_due(&self) -> bool
        ensures { result ≡ is_due_stream self.now }
    {
        !self.ended && self.window.is_due()
    }
}
