// The windows that the peer grants.
ghost use Rattle.std.specs.Prelude.{◌≡◌, ◌↔◌, ◌<◌, ◌≤◌, ◌≤ℤ◌, ◌+ℤ◌, List, ℕ, IsOk, OnErr, OnOk, false, option_map, pos, ◌++◌, ◌∷◌, [], max};
ghost use Rattle.std.specs.FinMap.{get};
ghost use Rattle.wire_windows.specs.SendWindows.{AreGreatestAndLast};

use crate::by_exchange::ByExchange;
use h2_windows::{MAX_WINDOW, Overflow, SendWindow, greatest_then_last};
use io_ports::NoMemory;
use std::alloc::Global;
use std::marker::Model;

// What this side may send, on the connection and on each stream, and the greatest payload of a frame, before the peer's
// SETTINGS came.
const FIRST_WINDOW: u32 = 65_535;

const FIRST_PAYLOAD: u32 = 16_384;

/// The windows that one peer grants to this side: that of the connection, and one for each exchange whose stream to this
/// peer is open. A call looks at one stream alone, but for `set_initial`, which goes through all that are open. Only `open`
/// takes memory.
#[derive(Drop)]
pub struct SendWindows {
    conn: SendWindow,
    initial: u32,
    payload: u32,
    streams: ByExchange<SendWindow>,
}

impl Model for SendWindows {
    ghost use Rattle.wire_windows.specs.Codes.{send_windows_code};
    ghost use Rattle.wire_windows.specs.SendWindows.{IsSound, SendWindows};

    ghost Value = { SendWindows };

    ghost coded = { send_windows_code };

    ghost view = { λ a. record { conn = a.conn; initial = a.initial; payload = a.payload; streams = a.streams } };

    ghost invariant = { λ a. IsSound (record { conn = a.conn; initial = a.initial; payload = a.payload; streams = a.streams }) };
}

impl SendWindows {
    ghost use Rattle.wire_windows.specs.SendWindows.{GoesThrough, HasRoom, IsSound, Overflows, Widens, closes, granted_first, is_open, opens, spends, widens, widens_conn};

    /// The windows of a new connection: 65,535 octets on the connection and on each stream, in frames of at most 16,384
    /// octets of payload, until the peer says otherwise.
    pub(crate) fn new(alloc: Global) -> Self
        ensures { result ≡ granted_first }
    {
        SendWindows {
            conn: SendWindow::new(FIRST_WINDOW),
            initial: FIRST_WINDOW,
            payload: FIRST_PAYLOAD,
            streams: ByExchange::new(alloc),
        }
    }

    /// The stream of an exchange opens, with the room that the peer's initial window gives now. After running out of memory
    /// nothing has changed.
    pub fn open(&mut self, x: u64) -> Result<(), NoMemory>
        requires { is_open x self.old ≡ false }
        ensures ok { OnOk result (self.new ≡ opens x self.old) }
        ensures err { OnErr result (self.new ≡ self.old) }
        ensures sound { IsSound self.new }
    {
        self.streams.put(x, SendWindow::new(self.initial))?;
        Ok(())
    }

    /// Both sides of the stream have ended, or it was reset: its window goes, and no later initial window reaches it.
    pub fn close(&mut self, x: u64)
        ensures closes { self.new ≡ closes x self.old }
        ensures sound { IsSound self.new }
    {
        self.streams.remove(x);
    }

    /// The octets that the stream's window lets this side send now, below 0 where more were sent than it is now. None where
    /// the stream isn't open.
    pub fn room(&self, x: u64) -> Option<i64>
        ensures { result ≡ option_map (λ s. s.room) (get self.now.streams x) }
    {
        match self.streams.get(x) {
            Some(window) => Some(window.room()),
            None => None,
        }
    }

    /// The octets that the connection's window lets this side send now.
    pub fn conn_room(&self) -> i64
        ensures { result ≡ self.now.conn.room }
    {
        self.conn.room()
    }

    /// The peer's initial window of a stream, at most 2^31 - 1.
    pub fn initial(&self) -> u32
        ensures initial { result ≡ self.now.initial }
        ensures sound { IsSound self.now }
    {
        self.initial
    }

    /// The greatest payload of a frame that the peer takes.
    pub fn payload(&self) -> u32
        ensures { result ≡ self.now.payload }
    {
        self.payload
    }

    /// DATA of n octets is framed on the stream: both windows have so much less room. With no octets nothing changes, also
    /// where a room is below 0 or the stream isn't open.
    pub fn spend(&mut self, x: u64, n: u32)
        requires { 0 < n → HasRoom x n self.old }
        ensures spends { self.new ≡ spends x n self.old }
        ensures sound { IsSound self.new }
    {
        let Some(mut window) = self.streams.get(x) else {
            return;
        };
        if n > 0 {
            window.spend(n);
            self.conn.spend(n);
            self.streams.set(x, window);
        }
    }

    /// The peer grants n octets more on the stream, which nothing changes where it isn't open. Where its room would pass the
    /// largest window, nothing changes.
    pub fn widen(&mut self, x: u64, n: u32) -> Result<(), Overflow>
        ensures fits { IsOk result ↔ Widens x n self.old }
        ensures ok { OnOk result (self.new ≡ widens x n self.old) }
        ensures err { OnErr result (self.new ≡ self.old) }
        ensures sound { IsSound self.new }
    {
        let Some(mut window) = self.streams.get(x) else {
            return Ok(());
        };
        window.widen(n)?;
        self.streams.set(x, window);
        Ok(())
    }

    /// The peer grants n octets more on the connection. Where its room would pass the largest window, nothing changes.
    pub fn widen_conn(&mut self, n: u32) -> Result<(), Overflow>
        ensures fits { IsOk result ↔ ((self.old.conn.room +ℤ pos n) ≤ℤ pos MAX_WINDOW) }
        ensures ok { OnOk result (self.new ≡ widens_conn n self.old) }
        ensures err { OnErr result (self.new ≡ self.old) }
        ensures sound { IsSound self.new }
    {
        self.conn.widen(n)
    }

    /// A SETTINGS frame names initial windows, of which these are the greatest and the last. Each open stream goes over to
    /// them one after another: what that comes to needs no more than these two. Where the room of one stream would pass the
    /// largest window under one of them, nothing changes: the connection is to be closed.
    pub fn set_initial(&mut self, greatest: u32, last: u32) -> Result<(), Overflow>
        requires order { last ≤ greatest }
        requires most { greatest ≤ MAX_WINDOW }
        ensures ok { (first : ℕ) (later : List ℕ) → AreGreatestAndLast greatest last first later → OnOk result (GoesThrough first later self.old self.new) }
        ensures overflow { (first : ℕ) (later : List ℕ) → AreGreatestAndLast greatest last first later → OnErr result (Overflows first later self.old) }
        ensures err { OnErr result (self.new ≡ self.old) }
        ensures sound { IsSound self.new }
    {
        greatest_then_last();
        if !self.streams.may_shift(greatest) {
            return Err(Overflow);
        }
        self.streams.shift(last);
        self.initial = last;
        Ok(())
    }

    /// From now on the peer takes frames with so much payload.
    pub fn set_payload(&mut self, n: u32)
        ensures payload { self.new ≡ record self.old { payload = n } }
        ensures sound { IsSound self.new }
    {
        self.payload = n;
    }
}

/// Of one initial window it is the greatest and the last; of some and one more behind them the greatest is the greater of
/// theirs and the new one, and the last is the new one.
pub fn one_more_initial()
    ensures first { (v : ℕ) → AreGreatestAndLast v v v [] }
    ensures next { (most end first : ℕ) (later : List ℕ) (v : ℕ) → AreGreatestAndLast most end first later → AreGreatestAndLast (max most v) v first (later ++ v ∷ []) }
{}
