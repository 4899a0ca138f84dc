// One connection.
ghost use Rattle.proxy_config.specs.Ranges.{AreLimits};
ghost use Rattle.std.specs.Prelude.{◌≡◌, ◌&&◌, ◌<◌, ◌≤◌, ◌≤ℤ◌, ◌+◌, ◌*◌, ◌^◌, [], ℕ, IfOk, false, min, not, pos, true};
ghost use Rattle.wire_inlet.specs.Incoming.{is_cluster};
ghost use Rattle.wire_state.specs.Progress.{conn_go};
ghost use Rattle.wire_state.specs.Sound.{IsKept};
ghost use Rattle.wire_windows.specs.RecvWindows.{IsSound as AreSoundWindows, arrival, drops, held_at};
ghost use Rattle.wire_windows.specs.SendWindows.{HasRoom, closes};

use crate::ready::Ready;
use exchange_core::Unit;
use h2_windows::Overrun;
use io_ports::NoMemory;
use number_set::NumberSet;
use proxy_config::LimitKeys;
use std::alloc::Global;
use wire_inlet::{Inlet, Peer};
use wire_outlet::Outlet;
use wire_windows::{Came, ConnWindows};

/// A unit is at most so many octets, or a DATA frame of a quantum.
const LEAST_UNIT: u32 = 65_536;

/// The greatest number of a stream.
const LAST_STREAM: u32 = (1 << 31) - 1;

/// The octets of a frame's head.
const FRAME_HEAD: u32 = 9;

/// A connection: its octets in and out, its windows, and what of its exchanges goes next.
#[derive(Drop)]
pub struct Conn {
    /// Who is at the other end.
    pub peer: Peer,
    /// Whether it hasn't been closed.
    pub open: bool,
    /// Where it is draining: the last stream that its first GOAWAY names.
    pub draining: Option<u32>,
    pub inlet: Inlet,
    pub outlet: Outlet,
    pub windows: ConnWindows,
    pub ready: Ready,
    /// Exchanges whose stream may be due a WINDOW_UPDATE, and whose flow from here nothing may hold back.
    pub credits: NumberSet,
    /// The exchange of which a unit was framed last, 0 before the first.
    pub framed_last: u64,
    /// How many streams the client reset, and how many of its exchanges were done.
    pub peer_resets: u32,
    pub done: u32,
}

impl Conn {
    /// A new connection of a client, or to a cluster.
    pub fn new(alloc: Global, peer: Peer, limits: &LimitKeys) -> Result<Self, NoMemory>
        requires { AreLimits limits.now }
        ensures kept { IfOk result (λ conn. IsKept limits.now conn.outlet) }
        ensures opened { IfOk result (λ conn. conn.open ≡ true) }
        ensures empty { IfOk result (λ conn. conn.outlet.write.octets ≡ []) }
        ensures low { IfOk result (λ conn. conn.outlet.write.above ≡ false) }
    {
        let unit = LEAST_UNIT.max(limits.quantum + FRAME_HEAD);
        Ok(Conn {
            peer,
            open: true,
            draining: None,
            inlet: Inlet::new(
                alloc,
                peer,
                limits.max_streams,
                limits.empty_frames,
                limits.field_list,
            ),
            outlet: Outlet::new(alloc, limits.write_buffer, unit)?,
            windows: ConnWindows::new(alloc, limits.connection_window, limits.stream_window),
            ready: Ready::new(alloc),
            credits: NumberSet::new(alloc),
            framed_last: 0,
            peer_resets: 0,
            done: 0,
        })
    }

    /// Whether a client is at the other end.
    pub fn is_client(&self) -> bool
        ensures { result ≡ not (is_cluster self.now.peer) }
    {
        match self.peer {
            Peer::Client => true,
            Peer::Cluster => false,
        }
    }

    /// Whether a unit may be framed: it is open, and its write buffer isn't above.
    pub fn may_write(&self) -> bool
        ensures { result ≡ (self.now.open && not self.now.outlet.write.above) }
    {
        self.open && !self.outlet.is_above()
    }

    /// Whether a stream of a client came after the GOAWAY: such streams are ignored as closed.
    pub fn is_later(&self, stream: u32) -> bool {
        match self.draining {
            Some(last) => self.is_client() && stream > last,
            None => false,
        }
    }

    /// The last stream that a GOAWAY names: that of the first one where it is draining, and 0 towards a cluster.
    pub fn goaway_last(&self) -> u32
        ensures { result < 2 ^ 31 }
    {
        if !self.is_client() {
            return 0;
        }
        let last = match self.draining {
            Some(last) => last,
            None => self.inlet.greatest(),
        };
        last.min(LAST_STREAM)
    }

    /// The octets of an exchange that may be framed now, under the window of its stream and that of the connection.
    pub fn room(&self, exchange: u64) -> i64
        ensures { (n : ℕ) → 0 < n → pos n ≤ℤ result → HasRoom exchange n self.now.windows.send }
    {
        let send = &self.windows.send;
        match send.room(exchange) {
            Some(room) => room.min(send.conn_room()),
            None => 0,
        }
    }

    // n, or what the stream of an exchange holds where that is less.
    fn at_most_held(&self, exchange: u64, n: u32) -> u32
        ensures held { result ≤ held_at exchange self.now.windows.recv }
        ensures least { result ≡ min n (held_at exchange self.now.windows.recv) }
        ensures sound { AreSoundWindows self.now.windows.recv }
    {
        match self.windows.recv.stream(exchange) {
            Some(stream) => n.min(stream.window.held()),
            None => 0,
        }
    }

    /// The stream of an exchange opens: both sides get its window.
    #[inline(always)]
    pub fn begin(&mut self, exchange: u64) -> Result<(), NoMemory>
        ensures rest { self.new ≡ record self.old { windows = self.new.windows } }
        ensures go { conn_go self.new ≤ conn_go self.old }
    {
        self.begin_recv(exchange)?;
        self.begin_send(exchange)
    }

    fn begin_recv(&mut self, exchange: u64) -> Result<(), NoMemory>
        ensures rest { self.new ≡ record self.old { windows = self.new.windows } }
        ensures go { conn_go self.new ≤ conn_go self.old }
    {
        match self.windows.recv.stream(exchange) {
            Some(_) => Ok(()),
            None => self.windows.recv.begin(exchange),
        }
    }

    fn begin_send(&mut self, exchange: u64) -> Result<(), NoMemory>
        ensures rest { self.new ≡ record self.old { windows = self.new.windows } }
        ensures go { conn_go self.new ≤ conn_go self.old }
    {
        match self.windows.send.room(exchange) {
            Some(_) => Ok(()),
            None => self.windows.send.open(exchange),
        }
    }

    /// Content of n octets came on the stream of an exchange: what it does to the windows is said by `came` of these.
    pub fn came(&mut self, exchange: u64, n: u32) -> Came
        ensures answer { result ≡ arrival exchange n self.old.windows.recv }
        ensures rest { self.new ≡ record self.old { windows = self.new.windows } }
        ensures go { conn_go self.new ≤ conn_go self.old + 8 * n }
    {
        self.windows.recv.came(exchange, n)
    }

    /// Content of n octets came that belongs to no live stream. An error where it is more than the connection has left.
    pub fn late(&mut self, n: u32) -> Result<(), Overrun>
        ensures rest { self.new ≡ record self.old { windows = self.new.windows } }
        ensures go { conn_go self.new ≤ conn_go self.old + 4 * n }
    {
        self.windows.recv.late(n)
    }

    /// n octets left the receive buffer of the exchange, or were padding: they are owed to its stream and to the connection. At
    /// most those that the stream holds are.
    #[inline(always)]
    pub fn moved(&mut self, exchange: u64, n: u32) -> Result<(), NoMemory>
        ensures rest { self.new ≡ record self.old { windows = self.new.windows; credits = self.new.credits } }
        ensures go { conn_go self.new ≤ conn_go self.old }
    {
        let due = self.windows.recv.owe(exchange, n);
        self.due_where(due, exchange)
    }

    /// Nothing may hold back the flow of the exchange from here: where its stream is due a WINDOW_UPDATE, that may be framed.
    #[inline(always)]
    pub fn look_due(&mut self, exchange: u64) -> Result<(), NoMemory>
        ensures rest { self.new ≡ record self.old { credits = self.new.credits } }
        ensures go { conn_go self.new ≡ conn_go self.old }
    {
        let due = self.is_due(exchange);
        self.due_where(due, exchange)
    }

    // The stream of an exchange may be due a WINDOW_UPDATE, where `due` holds.
    #[inline(always)]
    fn due_where(&mut self, due: bool, exchange: u64) -> Result<(), NoMemory>
        ensures rest { self.new ≡ record self.old { credits = self.new.credits } }
        ensures go { conn_go self.new ≡ conn_go self.old }
    {
        if due {
            self.credits.reserve_one()?;
            self.credits.insert(exchange);
        }
        Ok(())
    }

    /// Whether the stream of an exchange is due a WINDOW_UPDATE.
    pub(crate) fn is_due(&self, exchange: u64) -> bool {
        match self.windows.recv.stream(exchange) {
            Some(stream) => stream.is_due(),
            None => false,
        }
    }

    /// n octets that the connection alone counted go nowhere: they are owed to it. At most those that it counted are.
    pub fn wasted(&mut self, n: u32)
        ensures rest { self.new ≡ record self.old { windows = self.new.windows } }
        ensures go { conn_go self.new ≤ conn_go self.old }
    {
        let n = self.at_most_stray(n);
        self.windows.recv.wasted(n);
    }

    // n, or what the connection alone counted where that is less.
    fn at_most_stray(&self, n: u32) -> u32
        ensures stray { result ≤ self.now.windows.recv.stray }
        ensures sound { AreSoundWindows self.now.windows.recv }
    {
        // That the windows are sound is told by what reads them.
        let _conn = self.windows.recv.conn();
        n.min(self.windows.recv.stray())
    }

    /// The peer's side of a stream ended.
    #[inline(always)]
    pub fn peer_ended(&mut self, exchange: u64, stream: u32)
        ensures rest { self.new ≡ record self.old { windows = self.new.windows; credits = self.new.credits } }
        ensures go { conn_go self.new ≤ conn_go self.old }
    {
        self.credits.remove(exchange);
        self.windows.recv.ended(exchange);
        self.stream_ended(exchange, stream);
    }

    /// The first WINDOW_UPDATE of the connection is framed. Answers what it grants, below 2^31.
    pub fn grant_first(&mut self) -> u32
        ensures rest { self.new ≡ record self.old { windows = self.new.windows } }
        ensures go { conn_go self.new + 4 * result ≤ conn_go self.old }
        ensures fits { result < 2 ^ 31 }
    {
        self.windows.recv.grant_first().min(LAST_STREAM)
    }

    /// A WINDOW_UPDATE of the connection is framed. Answers what it grants, below 2^31.
    pub fn grant_conn(&mut self) -> u32
        ensures rest { self.new ≡ record self.old { windows = self.new.windows } }
        ensures go { conn_go self.new + 4 * result ≤ conn_go self.old }
        ensures fits { result < 2 ^ 31 }
    {
        self.windows.recv.grant_conn().min(LAST_STREAM)
    }

    /// A WINDOW_UPDATE of the stream of an exchange is framed. Answers what it grants, below 2^31.
    pub fn grant(&mut self, exchange: u64) -> u32
        ensures rest { self.new ≡ record self.old { windows = self.new.windows; credits = self.new.credits } }
        ensures go { conn_go self.new + 4 * result ≤ conn_go self.old }
        ensures fits { result < 2 ^ 31 }
    {
        self.credits.remove(exchange);
        self.windows.recv.grant(exchange).min(LAST_STREAM)
    }

    /// A unit of a flow of the exchange was framed, which ended its stream here where `last` holds; `next` goes next of it, where
    /// its stream's window has so much left.
    #[inline(always)]
    pub fn framed(
        &mut self,
        exchange: u64,
        stream: u32,
        last: bool,
        next: Unit,
        left: i64,
    ) -> Result<(), NoMemory>
        ensures rest { self.new ≡ record self.old { inlet = self.new.inlet; windows = self.new.windows; ready = self.new.ready; framed_last = exchange } }
        ensures room { self.new.windows.send.conn ≡ self.old.windows.send.conn }
        ensures go { conn_go self.new ≤ conn_go self.old }
    {
        self.framed_last = exchange;
        self.ended_where(last, exchange, stream);
        self.ready.set(exchange, next, left)
    }

    // This side of a stream ended, where `last` holds.
    #[inline(always)]
    fn ended_where(&mut self, last: bool, exchange: u64, stream: u32)
        ensures rest { self.new ≡ record self.old { inlet = self.new.inlet; windows = self.new.windows } }
        ensures room { self.new.windows.send.conn ≡ self.old.windows.send.conn }
        ensures go { conn_go self.new ≤ conn_go self.old }
    {
        if !last || self.inlet.end_local(stream) {
            return;
        }
        self.windows.send.close(exchange);
    }

    /// One side of a stream ended: once both have, it has no send window any more.
    #[inline(always)]
    pub fn stream_ended(&mut self, exchange: u64, stream: u32)
        ensures rest { self.new ≡ record self.old { windows = self.new.windows } }
        ensures recv { self.new.windows.recv ≡ self.old.windows.recv }
        ensures room { self.new.windows.send.conn ≡ self.old.windows.send.conn }
        ensures go { conn_go self.new ≤ conn_go self.old }
    {
        if self.inlet.is_open(stream) {
            return;
        }
        self.windows.send.close(exchange);
    }

    /// The exchange is doomed, with `left` octets in the receive buffer of the flow that comes from here; it counts as done where
    /// `done` holds. Both its windows go: of the octets that its stream holds, at most `left` are owed to the connection, and the
    /// others are still to be wasted. The answer is whether its stream, if it has one, was open.
    pub fn leave(&mut self, exchange: u64, stream: Option<u32>, left: u32, done: bool) -> bool
        ensures recv { self.new.windows.recv ≡ drops exchange (min left (held_at exchange self.old.windows.recv)) self.old.windows.recv }
        ensures send { self.new.windows.send ≡ closes exchange self.old.windows.send }
        ensures rest { self.new ≡ record self.old { inlet = self.new.inlet; windows = self.new.windows; ready = self.new.ready; credits = self.new.credits; done = self.new.done } }
        ensures go { conn_go self.new ≤ conn_go self.old }
    {
        let was_open = self.leave_stream(stream);
        let left = self.at_most_held(exchange, left);
        self.windows.recv.dropped(exchange, left);
        self.windows.send.close(exchange);
        self.ready.remove(exchange);
        self.credits.remove(exchange);
        if !done {
            return was_open;
        }
        self.done = self.done.saturating_add(1);
        was_open
    }

    // The stream, if there is one, is closed. The answer is whether it was open.
    fn leave_stream(&mut self, stream: Option<u32>) -> bool
        ensures rest { self.new ≡ record self.old { inlet = self.new.inlet } }
        ensures go { conn_go self.new ≡ conn_go self.old }
    {
        let Some(stream) = stream else {
            return false;
        };
        let was_open = self.inlet.is_open(stream);
        self.inlet.close_stream(stream);
        was_open
    }
}

/// Whether a frame can name this stream (RFC 9113 section 5.1.1).
pub fn is_stream(number: u32) -> bool
    ensures { result ≡ true → (0 < number) × (number < 2 ^ 31) }
{
    0 < number && number <= LAST_STREAM
}
