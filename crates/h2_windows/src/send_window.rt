// The window that the peer grants to this side.
ghost use Rattle.std.specs.Prelude.{◌≡◌, ◌≤◌, ◌+ℤ◌, ◌-ℤ◌, ◌≤ℤ◌, ◌↔◌, ◌∷◌, [], List, ℕ, pos, IsOk, MatchResult, None, OnOk, OnErr, Some};
ghost use Rattle.h2_windows.specs.InitialWindows.{greatest, last, moved_through, moved_to};
ghost use Rattle.h2_windows.specs.SendWindow.{Change, Sending, Spend, Widen, Shift, after, begun, changed, shifts, spent, widened};

use std::error::Error;
use std::fmt;
use std::marker::Model;

/// The largest window, in octets (RFC 9113 section 6.9.1).
pub const MAX_WINDOW: u32 = 2_147_483_647;

/// The room would have passed the largest window.
#[derive(Clone, Copy, Debug, PartialEq, Eq)]
pub struct Overflow;

impl fmt::Display for Overflow {
    fn fmt<W: fmt::Write>(&self, f: &mut fmt::Formatter<W>) -> fmt::Result {
        f.write_str("the window would pass 2,147,483,647 octets")
    }
}

impl Error for Overflow {}

/// What this side may send on a stream or on a whole connection, in octets (RFC 9113 section 6.9).
///
/// Its room is the initial window, with what window updates added, less what was sent. Where the
/// peer lowers its initial window the room may fall below 0 (RFC 9113 section 6.9.2).
#[derive(Clone, Copy, Debug)]
pub struct SendWindow {
    initial: u32,
    room: i64,
}

impl Model for SendWindow {
    ghost use Rattle.std.specs.Prelude.{◌+ℤ◌, ◌≤ℤ◌, ◌^◌, pos};
    ghost use Rattle.h2_windows.specs.SendWindow.{Sending};

    ghost Value = { Sending };

    ghost view = { λ a. record { initial = a.initial; room = a.room } };

    ghost invariant = { λ a. (pos a.initial ≤ℤ (a.room +ℤ pos (2 ^ 32))) × (a.room ≤ℤ pos (2 ^ 32)) };

    ghost inverse = { λ w. record { initial = w.initial; room = w.room } };
}

impl SendWindow {
    /// A window with the room that the peer's initial window gives.
    pub fn new(initial: u32) -> Self
        ensures { result ≡ begun initial }
    {
        SendWindow {
            initial,
            room: i64::from(initial),
        }
    }

    /// The octets that may be sent now; below 0 where more were sent than the window is now.
    pub fn room(&self) -> i64
        ensures { result ≡ self.now.room }
    {
        self.room
    }

    /// The peer's initial window that the room goes by.
    pub fn initial(&self) -> u32
        ensures { result ≡ self.now.initial }
    {
        self.initial
    }

    /// Takes note of octets that were sent.
    pub fn spend(&mut self, n: u32)
        requires { pos n ≤ℤ self.old.room }
        ensures { self.new ≡ changed (Spend n) self.old }
    {
        self.room -= i64::from(n);
    }

    /// Adds what a window update grants. Where the room would pass the largest window, nothing changes.
    pub fn widen(&mut self, n: u32) -> Result<(), Overflow>
        ensures fits { IsOk result ↔ ((self.old.room +ℤ pos n) ≤ℤ pos MAX_WINDOW) }
        ensures ok { OnOk result (self.new ≡ changed (Widen n) self.old) }
        ensures err { OnErr result (self.new ≡ self.old) }
    {
        let widened = self.room + i64::from(n);
        if widened > i64::from(MAX_WINDOW) {
            return Err(Overflow);
        }
        self.room = widened;
        Ok(())
    }

    /// Goes over to a new initial window of the peer. Where the room would pass the largest
    /// window, nothing changes.
    pub fn shift_initial(&mut self, old: u32, new: u32) -> Result<(), Overflow>
        requires in_force { old ≡ self.old.initial }
        requires old_fits { old ≤ MAX_WINDOW }
        requires new_fits { new ≤ MAX_WINDOW }
        ensures fits { IsOk result ↔ ((self.old.room +ℤ (pos new -ℤ pos old)) ≤ℤ pos MAX_WINDOW) }
        ensures moves { MatchResult result (λ _. moved_to new self.old ≡ Some self.new) (λ _. moved_to new self.old ≡ None) }
        ensures ok { OnOk result (self.new ≡ changed (Shift old new) self.old) }
        ensures err { OnErr result (self.new ≡ self.old) }
    {
        let shifted = self.room + (i64::from(new) - i64::from(old));
        if shifted > i64::from(MAX_WINDOW) {
            return Err(Overflow);
        }
        self.initial = new;
        self.room = shifted;
        Ok(())
    }
}

/// The law of the room: after any changes it is the first initial window, with what was widened
/// and shifted, less what was spent.
pub fn room_adds_up()
    ensures { (initial : ℕ) (changes : List Change)
        → (after initial changes).room
        ≡ (((pos initial +ℤ pos (widened changes)) +ℤ shifts changes) -ℤ pos (spent changes)) }
{}

/// The law of several new initial windows, one after another: the greatest of them decides whether
/// the room passes the largest window, and the last one what it is then. So a shift to the greatest
/// and one to the last do what all of them do.
pub fn greatest_then_last()
    ensures { (first : ℕ) (later : List ℕ) (w : Sending)
        → moved_through (first ∷ later) w
        ≡ moved_through (greatest first later ∷ last first later ∷ []) w }
{}
