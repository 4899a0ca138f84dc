// The windows that this side grants.
ghost use Rattle.std.specs.FinMap.{get};
ghost use Rattle.std.specs.Prelude.{◌≡◌, ◌↔◌, ◌≤◌, IsOk, OnErr, OnOk, false, min, nat_le, true, List, nat_eq, sum_by, ℕ};
ghost use Rattle.h2_windows.specs.RecvWindow.{is_due};
ghost use Rattle.wire_windows.specs.RecvWindows.{changed_at, left_in, on_window, received, IsSound, RecvWindows, held_at};
ghost use Rattle.std.specs.List.{IsDistinct};

use crate::by_exchange::ByExchange;
use crate::recv_stream::{Came, RecvStream};
use h2_windows::{Overrun, RecvWindow};
use io_ports::NoMemory;
use number_set::NumberSet;
use std::alloc::Global;
use std::marker::Model;

// What a peer may send on a connection before any WINDOW_UPDATE.
const FIRST_WINDOW: u32 = 65_535;

/// The windows that this side grants to one peer: that of the connection, and one for each exchange whose stream the peer
/// sends on. All counts are of flow-controlled octets: content and padding of DATA.
///
/// What the connection holds is what its streams hold and what is still to be wasted, so all its receive buffers together
/// hold at most the connection's window, and each of them at most that of a stream. A call looks at one stream alone. Only
/// `begin` takes memory.
#[derive(Drop)]
pub struct RecvWindows {
    conn: RecvWindow,
    first: u32,
    stray: u32,
    stream_window: u32,
    streams: ByExchange<RecvStream>,
    due: NumberSet,
}

impl Model for RecvWindows {
    ghost use Rattle.wire_windows.specs.Codes.{recv_windows_code};
    ghost use Rattle.wire_windows.specs.RecvWindows.{RecvWindows};

    ghost Value = { RecvWindows };

    ghost coded = { recv_windows_code };

    ghost use Rattle.wire_windows.specs.Kept.{AreKept, windows_of};

    ghost view = { windows_of };

    ghost invariant = { AreKept };
}

impl RecvWindows {
    ghost use Rattle.wire_windows.specs.RecvWindows.{IsNextDue, IsSound, arrival, begins, comes_late, counted, drops, ends, granting, grants, grants_conn, grants_first, held_at, is_begun, is_due_at, moves, owed_at, wastes};

    /// The windows of a new connection. The peer begins with 65,535 octets, and the first WINDOW_UPDATE of the connection
    /// is to grant the exact difference to `connection_window`; the peer is held to `connection_window` from the start.
    pub(crate) fn new(alloc: Global, connection_window: u32, stream_window: u32) -> Self
        requires { 65535 ≤ connection_window }
        ensures { result ≡ granting connection_window stream_window }
    {
        RecvWindows {
            conn: RecvWindow::new(connection_window),
            first: connection_window - FIRST_WINDOW,
            stray: 0,
            stream_window,
            streams: ByExchange::new(alloc),
            due: NumberSet::new(alloc),
        }
    }

    /// The window of the connection.
    pub fn conn(&self) -> RecvWindow
        ensures conn { result ≡ self.now.conn }
        ensures sound { IsSound self.now }
    {
        self.conn
    }

    /// The window of an exchange's stream, if it is there.
    pub fn stream(&self, x: u64) -> Option<RecvStream>
        ensures stream { result ≡ get self.now.streams x }
        ensures sound { IsSound self.now }
    {
        self.streams.get(x)
    }

    /// The octets that the connection counted, that no stream holds, and that are still to be wasted.
    pub fn stray(&self) -> u32
        ensures { result ≡ self.now.stray }
    {
        self.stray
    }

    /// The stream of an exchange begins, with all of its window left. After running out of memory nothing has changed.
    pub fn begin(&mut self, x: u64) -> Result<(), NoMemory>
        requires { is_begun x self.old ≡ false }
        ensures ok { OnOk result (self.new ≡ begins x self.old) }
        ensures err { OnErr result (self.new ≡ self.old) }
        ensures sound { IsSound self.new }
    {
        self.due.reserve(self.streams.len() + 1)?;
        let stream = RecvStream {
            window: RecvWindow::new(self.stream_window),
            ended: false,
        };
        self.streams.put(x, stream)?;
        Ok(())
    }

    /// DATA of n octets came on the stream of an exchange, which has nothing left where it isn't there. Where they are more
    /// than the connection has left, nothing changes; where they are more than the stream has left, the connection has
    /// counted them, and they are still to be wasted.
    pub fn came(&mut self, x: u64, n: u32) -> Came
        ensures answer { result ≡ arrival x n self.old }
        ensures counts { self.new ≡ counted result x n self.old }
        ensures sound { IsSound self.new }
    {
        if self.conn.received(n).is_err() {
            return Came::ConnOver;
        }
        if receive(&mut self.streams, x, n) {
            return Came::Fits;
        }
        self.stray += n;
        Came::StreamOver
    }

    /// n octets came that belong to no live stream: the connection alone counts them, and they are still to be wasted.
    /// Where they are more than it has left, nothing changes.
    pub fn late(&mut self, n: u32) -> Result<(), Overrun>
        ensures fits { IsOk result ↔ (n ≤ self.old.conn.left) }
        ensures ok { OnOk result (self.new ≡ comes_late n self.old) }
        ensures err { OnErr result (self.new ≡ self.old) }
        ensures sound { IsSound self.new }
    {
        self.conn.received(n)?;
        self.stray += n;
        Ok(())
    }

    /// n octets left the receive buffer of the stream: they are owed to it and to the connection.
    pub fn moved(&mut self, x: u64, n: u32)
        requires { n ≤ held_at x self.old }
        ensures moves { self.new ≡ moves x n self.old }
        ensures sound { IsSound self.new }
    {
        let Some(mut stream) = self.streams.get(x) else {
            return;
        };
        stream.window.moved(n);
        self.conn.moved(n);
        self.streams.set(x, stream);
        self.due.mark(x, stream.is_due());
    }

    /// n octets left the receive buffer of the stream, of which at most those that it holds count: they are owed to it and to
    /// the connection. Answers whether a WINDOW_UPDATE of the stream is due then. The stream is looked up once.
    #[inline(always)]
    pub fn owe(&mut self, x: u64, n: u32) -> bool
        ensures moves { self.new ≡ moves x (min n (held_at x self.old)) self.old }
        ensures due { result ≡ is_due_at x self.new }
        ensures before { IsSound self.old }
        ensures sound { IsSound self.new }
    {
        let Some((stream, n)) = self.streams.owe(x, n) else {
            return false;
        };
        self.conn.moved(n);
        let due = stream.is_due();
        self.due.mark(x, due);
        due
    }

    /// n octets that came on the stream are padding: they enter no buffer, and are owed to it and to the connection.
    pub fn padded(&mut self, x: u64, n: u32)
        requires { n ≤ held_at x self.old }
        ensures moves { self.new ≡ moves x n self.old }
        ensures sound { IsSound self.new }
    {
        self.moved(x, n);
    }

    /// n octets that the connection alone counts go nowhere: they are owed to it.
    pub fn wasted(&mut self, n: u32)
        requires { n ≤ self.old.stray }
        ensures wastes { self.new ≡ wastes n self.old }
        ensures sound { IsSound self.new }
    {
        self.conn.discarded(n);
        self.stray -= n;
    }

    /// END_STREAM came on the stream: the peer sends no more, so it is due no WINDOW_UPDATE any more.
    pub fn ended(&mut self, x: u64)
        ensures ends { self.new ≡ ends x self.old }
        ensures sound { IsSound self.new }
    {
        let Some(mut stream) = self.streams.get(x) else {
            return;
        };
        stream.ended = true;
        self.streams.set(x, stream);
        self.due.remove(x);
    }

    /// The exchange is doomed: its stream's window goes, and the `buffered` octets of its receive buffer are owed to the connection.
    /// What else the stream held is still to be wasted.
    pub fn dropped(&mut self, x: u64, buffered: u32)
        requires { buffered ≤ held_at x self.old }
        ensures drops { self.new ≡ drops x buffered self.old }
        ensures sound { IsSound self.new }
    {
        let Some(stream) = self.streams.get(x) else {
            return;
        };
        self.conn.discarded(buffered);
        self.stray += stream.window.held() - buffered;
        self.streams.remove(x);
        self.due.remove(x);
    }

    /// What the first WINDOW_UPDATE of the connection is to grant: 0 where none is due, or it was framed.
    pub fn first_credit(&self) -> u32
        ensures { result ≡ self.now.first }
    {
        self.first
    }

    /// Whether a later WINDOW_UPDATE of the connection is due: at least half of its window is owed.
    pub fn is_conn_due(&self) -> bool
        ensures { result ≡ is_due self.now.conn.window self.now.conn.owed }
    {
        self.conn.is_due()
    }

    /// The least exchange above another whose stream is due a WINDOW_UPDATE: END_STREAM hasn't come on it, and at least half
    /// of its window is owed.
    pub fn next_due(&self, after: u64) -> Option<u64>
        ensures { IsNextDue after result self.now }
    {
        self.due.next_above(after)
    }

    /// The first WINDOW_UPDATE of the connection is framed. Answers what it grants.
    pub fn grant_first(&mut self) -> u32
        ensures granted { result ≡ self.old.first }
        ensures grants { self.new ≡ grants_first self.old }
        ensures sound { IsSound self.new }
    {
        let granted = self.first;
        self.first = 0;
        granted
    }

    /// A WINDOW_UPDATE of the connection is framed. Answers what it grants: all that is owed.
    pub fn grant_conn(&mut self) -> u32
        ensures granted { result ≡ self.old.conn.owed }
        ensures grants { self.new ≡ grants_conn self.old }
        ensures sound { IsSound self.new }
    {
        self.conn.grant()
    }

    /// A WINDOW_UPDATE of the stream is framed. Answers what it grants: all that is owed, 0 where the stream isn't there.
    pub fn grant(&mut self, x: u64) -> u32
        ensures granted { result ≡ owed_at x self.old }
        ensures grants { self.new ≡ grants x self.old }
        ensures sound { IsSound self.new }
    {
        let Some(mut stream) = self.streams.get(x) else {
            return 0;
        };
        let granted = stream.window.grant();
        self.streams.set(x, stream);
        self.due.remove(x);
        granted
    }
}

// Octets came on a stream. Answers whether its window had so many left; where it hadn't, nothing changes.
fn receive(streams: &mut ByExchange<RecvStream>, x: u64, n: u32) -> bool
    ensures fits { result ≡ nat_le n (left_in x streams.old) }
    ensures ok { result ≡ true → streams.new ≡ changed_at x (on_window (received n)) streams.old }
    ensures over { result ≡ false → streams.new ≡ streams.old }
{
    let Some(mut stream) = streams.get(x) else {
        return n == 0;
    };
    if stream.window.received(n).is_err() {
        return false;
    }
    streams.set(x, stream);
    true
}

/// What receive buffers hold together, none of them more than its stream holds here, is at most the window of the connection;
/// and what a stream holds is at most the window of a stream.
pub fn buffers_fit()
    ensures together { (w : RecvWindows) (buffered : ℕ → ℕ) (xs : List ℕ) → IsSound w → ((x : ℕ) → buffered x ≤ held_at x w) → IsDistinct nat_eq xs → sum_by buffered xs ≤ w.conn.window }
    ensures each { (w : RecvWindows) (x : ℕ) → IsSound w → held_at x w ≤ w.stream_window }
{}
