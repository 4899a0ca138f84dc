// The window that this side grants to its peer.
ghost use Rattle.std.specs.Prelude.{◌≡◌, ◌≤◌, ◌+◌, ◌-◌, ◌↔◌, IsOk, OnOk, OnErr};

use std::error::Error;
use std::fmt;
use std::marker::Model;

/// More octets came than the window had left.
#[derive(Clone, Copy, Debug, PartialEq, Eq)]
pub struct Overrun;

impl fmt::Display for Overrun {
    fn fmt<W: fmt::Write>(&self, f: &mut fmt::Formatter<W>) -> fmt::Result {
        f.write_str("more octets came than the window had left")
    }
}

impl Error for Overrun {}

/// What a peer may send on a stream or on a whole connection, in octets (RFC 9113 section 5.2).
///
/// Of its octets some are left to the peer, some are held by this side, and some are owed to the
/// peer: they are held no more, and no window update has granted them again.
#[derive(Clone, Copy, Debug)]
pub struct RecvWindow {
    window: u32,
    held: u32,
    owed: u32,
}

impl Model for RecvWindow {
    ghost use Rattle.std.specs.Prelude.{◌+◌, ◌-◌, ◌≤◌};
    ghost use Rattle.h2_windows.specs.RecvWindow.{Receiving};

    ghost Value = { Receiving };

    ghost view = { λ a. record { window = a.window; left = a.window - (a.held + a.owed); held = a.held; owed = a.owed } };

    ghost invariant = { λ a. a.held + a.owed ≤ a.window };

    ghost inverse = { λ w. record { window = w.window; held = w.held; owed = w.owed } };
}

impl RecvWindow {
    ghost use Rattle.h2_windows.specs.RecvWindow.{AddsUp, Owes, is_due};

    /// A window of so many octets, all of them left to the peer.
    pub fn new(window: u32) -> Self
        ensures { result ≡ record { window = window; left = window; held = 0; owed = 0 } }
    {
        RecvWindow {
            window,
            held: 0,
            owed: 0,
        }
    }

    /// The octets that the peer may still send.
    pub fn left(&self) -> u32
        ensures left { result ≡ self.now.left }
        ensures whole { AddsUp self.now }
    {
        self.window - self.held - self.owed
    }

    /// The octets that came and are still held here.
    pub fn held(&self) -> u32
        ensures held { result ≡ self.now.held }
        ensures whole { AddsUp self.now }
    {
        self.held
    }

    /// Takes note of octets that came. Where they are more than were left, nothing changes.
    pub fn received(&mut self, n: u32) -> Result<(), Overrun>
        ensures fits { IsOk result ↔ (n ≤ self.old.left) }
        ensures ok { OnOk result (self.new ≡ record self.old { left = self.old.left - n; held = self.old.held + n }) }
        ensures err { OnErr result (self.new ≡ self.old) }
        ensures whole { AddsUp self.new }
    {
        if n > self.left() {
            return Err(Overrun);
        }
        self.held += n;
        Ok(())
    }

    /// Takes note of held octets that left the buffer where they came.
    pub fn moved(&mut self, n: u32)
        requires { n ≤ self.old.held }
        ensures owes { Owes self.old self.new n }
        ensures whole { AddsUp self.new }
    {
        self.held -= n;
        self.owed += n;
    }

    /// Takes note of held octets that go nowhere: padding, late content, and what is dropped.
    pub fn discarded(&mut self, n: u32)
        requires { n ≤ self.old.held }
        ensures owes { Owes self.old self.new n }
        ensures whole { AddsUp self.new }
    {
        self.moved(n);
    }

    /// The octets that the next window update would grant again.
    pub fn owed(&self) -> u32
        ensures owed { result ≡ self.now.owed }
        ensures whole { AddsUp self.now }
    {
        self.owed
    }

    /// Whether a window update is due: something is owed, and at least half of the window.
    pub fn is_due(&self) -> bool
        ensures due { result ≡ is_due self.now.window self.now.owed }
        ensures whole { AddsUp self.now }
    {
        self.owed > 0 && 2 * u64::from(self.owed) >= u64::from(self.window)
    }

    /// Grants all that is owed, and says how many octets that is.
    pub fn grant(&mut self) -> u32
        ensures granted { result ≡ self.old.owed }
        ensures left { self.new ≡ record self.old { left = self.old.left + self.old.owed; owed = 0 } }
        ensures whole { AddsUp self.new }
    {
        let granted = self.owed;
        self.owed = 0;
        granted
    }
}
