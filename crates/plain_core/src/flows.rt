// The flows of a session, with the buffers that their octets lie in and the counts that hold them back.
ghost use Rattle.std.specs.Prelude.{◌≡◌, ◌<◌, ◌≤◌, ◌+◌, ◌*◌, ◌∷◌, [], ℕ, All, length, take, IfOk, OnOk, Some, true, false};
ghost use Rattle.exchange_core.specs.Plain.{plain_spec};
ghost use Rattle.exchange_core.specs.Exchanges.{IsLiveFlow};
ghost use Rattle.std.specs.BTreeMap.{get};
ghost use Rattle.std.specs.BTreeSet.{contains};
ghost use Rattle.std.specs.Ordering.{nat_cmp};
ghost use Rattle.std.specs.Prelude.{if◌then◌else◌, nat_lt, not, ◌==◌, ◌&&◌, ◌||◌};
ghost use Rattle.plain_core.specs.Crossings.{MarksCrossed};
ghost use Rattle.plain_core.specs.Measure.{LessByStep, left_in, of_frame};
ghost use Rattle.plain_core.specs.UnitsOf.{is_emptied, piece_at, unit_at};
ghost use Rattle.flow_gate.specs.Board.{IsSound as AreSoundGates, is_known, is_marked, pending_on, watchers_of};
ghost use Rattle.proxy_config.specs.Ranges.{IsRoute};
ghost use Rattle.tape_laws.specs.Flows.{request as flow_of};
ghost use Rattle.plain_core.specs.Carries.{Begins, Dooms, Ends, Frames, GoesOn, IsNextFrame, Leaves, Lives, Receives, Steps, Sweeps, Tells};
ghost use Rattle.plain_core.specs.Flows.{AreLimits, IsSettled, Settled, piece_of};

use crate::conn::Connection;
use exchange_core::{Advance, Exchanges, Piece, Received, StartSpec, Step, Unit};
use flow_gate::{BufferId, FlowId, Gates, Watchers};
use flow_notes::Cause;
use h2_frames::data_head;
use io_ports::{NoMemory, Octets};
use proxy_config::Config;
use std::alloc::Global;
use std::collections::BTreeSet;
use tape_laws::PlainLimits;
use wm_buffer::{Crossed, Shifted};

/// A move of octets from a flow's receive buffer to its send buffer.
#[derive(Clone, Copy, PartialEq, Eq)]
pub struct Moved {
    pub n: u32,
    /// The send buffer became above.
    pub rose: bool,
}

/// What a step of an exchange did.
#[derive(Clone, Copy, PartialEq, Eq)]
pub enum Outcome {
    /// It isn't live.
    NotLive,
    /// Nothing of it may move.
    Still,
    /// Octets moved from its receive buffer to its send buffer: as many as one move carries, or all that were there.
    Moved(Moved),
}

/// A DATA frame that goes next.
#[derive(Clone, Copy, PartialEq, Eq)]
pub struct NextFrame {
    pub exchange: u64,
    pub n: u32,
    pub last: bool,
}

/// What a frame did to the buffers.
#[derive(Clone, Copy, PartialEq, Eq)]
pub struct Framed {
    /// The write buffer became above.
    pub rose: bool,
    /// The send buffer was above and has drained.
    pub drained: bool,
}

/// The state of all flows.
#[derive(Drop)]
pub struct Flows {
    pub(crate) limits: PlainLimits,
    pub(crate) exchanges: Exchanges,
    pub(crate) gates: Gates,
    pub(crate) conn: Connection,
    /// The exchanges whose receive buffer holds octets.
    pub(crate) holding: BTreeSet<u64>,
}

impl Flows {
    /// No flows, and one connection.
    pub(crate) fn new(alloc: Global, limits: PlainLimits) -> Result<Self, NoMemory>
        requires { AreLimits limits }
        ensures { IfOk result (λ flows. Settled limits flows []) }
    {
        let mut gates = Gates::new(alloc);
        gates.open_buffer(BufferId::Write(0))?;
        Ok(Flows {
            limits,
            exchanges: Exchanges::new(alloc),
            gates,
            conn: Connection::new(alloc, limits.write),
            holding: BTreeSet::new(alloc),
        })
    }

    pub(crate) fn is_live(&self, exchange: u64) -> bool
        ensures { Lives self.now exchange result }
    {
        self.exchanges.is_live(exchange)
    }

    /// A stream begins: its flow watches its send buffer and the write buffer. The answer is whether
    /// the write buffer holds it back.
    pub(crate) fn begin(&mut self, stream: u32, config: &Config) -> Result<bool, NoMemory>
        requires routes { All IsRoute config.now.routes }
        requires settled { IsSettled self.old }
        requires rises { self.old.exchanges.last < stream }
        ensures { IfOk result (λ held. Begins stream held self.old self.new) }
    {
        let spec = self.spec(stream);
        let exchange = self.exchanges.start(&spec, config)?;
        let flow = request(exchange);
        self.gates.open_flow(flow)?;
        self.gates.open_buffer(BufferId::Send(flow))?;
        let _low = self.gates.watch(flow, BufferId::Send(flow))?;
        self.gates.watch(flow, BufferId::Write(0))
    }

    fn spec(&self, stream: u32) -> StartSpec
        ensures { result ≡ plain_spec stream self.now.limits.recv self.now.limits.send self.now.limits.quantum 0 }
    {
        StartSpec {
            plain: true,
            from_conn: 0,
            from_stream: stream,
            to_conn: Some(0),
            row: None,
            recv: self.limits.recv,
            send: self.limits.send,
            quantum: self.limits.quantum,
            now: 0,
        }
    }

    /// Whether the write buffer is above.
    pub(crate) fn is_above(&self) -> bool
        ensures { result ≡ self.now.conn.write.above }
    {
        self.conn.write.is_above()
    }

    /// Octets come for an exchange, and are in its receive buffer where it is live and has room for them.
    pub(crate) fn receive(&mut self, exchange: u64, octets: &Octets) -> Result<Received, NoMemory>
        requires settled { IsSettled self.old }
        requires goes_on { GoesOn self.old exchange }
        ensures { IfOk result (λ received. Receives exchange octets.now received self.old self.new) }
    {
        let received = self.exchanges.receive(request(exchange), octets);
        if received == Received::Arrived && !octets.is_empty() {
            self.hold(exchange)?;
        }
        Ok(received)
    }

    /// The end of a live exchange came.
    pub(crate) fn finish(&mut self, exchange: u64) -> Result<(), NoMemory>
        requires settled { IsSettled self.old }
        requires live { Lives self.old exchange true }
        requires goes_on { GoesOn self.old exchange }
        ensures { OnOk result (Ends exchange self.old self.new) }
    {
        self.exchanges.finish(request(exchange), None)?;
        self.refresh(exchange)
    }

    /// Octets of an exchange move, where it is live and any may.
    pub(crate) fn step(&mut self, exchange: u64) -> Result<Outcome, NoMemory>
        requires { IsSettled self.old }
        ensures steps { IfOk result (λ outcome. Steps exchange outcome self.old self.new) }
        ensures less { IfOk result (λ outcome. LessByStep outcome self.old self.new) }
    {
        let flow = request(exchange);
        let most = self.limits.quantum;
        let Some(Advance { step, unit }) = self
            .exchanges
            .advance(flow, &self.gates, i64::from(most), most)?
        else {
            return Ok(Outcome::NotLive);
        };
        let Step::Moved { n, shifted, .. } = step else {
            return Ok(Outcome::Still);
        };
        self.record_left(exchange, n);
        let rose = shifted.to == Crossed::High;
        if rose {
            self.gates.high(BufferId::Send(flow));
        }
        self.record_unit(exchange, unit)?;
        Ok(Outcome::Moved(Moved { n, rose }))
    }

    /// The frame that goes next, where the write buffer may take one.
    pub(crate) fn next_frame(&self) -> Option<NextFrame>
        requires { IsSettled self.now }
        ensures { IsNextFrame self.now result }
    {
        if self.conn.write.is_above() {
            return None;
        }
        self.conn.next()
    }

    /// Frames it: the write buffer may rise, and the send buffer may drain, which its flow is told.
    pub(crate) fn frame(&mut self, next: NextFrame) -> Result<Framed, NoMemory>
        requires settled { IsSettled self.old }
        requires next { IsNextFrame self.old (Some next) }
        ensures frames { IfOk result (λ framed. Frames next framed self.old self.new) }
        ensures less { OnOk result (left_in self.new + of_frame next ≤ left_in self.old) }
    {
        let NextFrame { exchange, n, last } = next;
        let flow = request(exchange);
        let head = data_head(exchange as u32, n, last);
        let most = self.limits.quantum;
        let (shifted, unit) = self.exchanges.frame_unit(
            flow,
            &mut self.conn.write,
            &head,
            Piece { n, last },
            i64::from(most),
            most,
        )?;
        self.conn.framed_last = exchange;
        self.record_unit(exchange, unit)?;
        Ok(self.mark_crossed(flow, shifted))
    }

    // Marks what a frame crossed: the write buffer's rise, and the send buffer's low, which is told at
    // once.
    fn mark_crossed(&mut self, flow: FlowId, shifted: Shifted) -> Framed
        requires rises { shifted.to ≡ Crossed.High → (is_known self.old.gates (BufferId.Write 0) ≡ true) × (is_marked self.old.gates (BufferId.Write 0) ≡ false) }
        requires drains { shifted.from ≡ Crossed.Low → (is_marked self.old.gates (BufferId.Send flow) ≡ true) × (pending_on self.old.gates (BufferId.Send flow) ≡ []) × (watchers_of self.old.gates (BufferId.Send flow) ≡ flow ∷ []) }
        ensures marks { MarksCrossed flow shifted self.old.gates result self.new.gates }
        ensures sound { AreSoundGates self.old.gates → AreSoundGates self.new.gates }
        ensures rest { self.new ≡ record self.old { gates = self.new.gates } }
    {
        let rose = shifted.to == Crossed::High;
        let drained = shifted.from == Crossed::Low;
        if rose {
            self.gates.high(BufferId::Write(0));
        }
        if drained {
            self.gates.begin_low(BufferId::Send(flow));
            let _flow = self.gates.next_low(BufferId::Send(flow));
        }
        Framed { rose, drained }
    }

    /// The first n octets leave the write buffer. The answer is whether it was above and has drained.
    pub(crate) fn leave(&mut self, n: u32) -> bool
        requires settled { IsSettled self.old }
        requires told { pending_on self.old.gates (BufferId.Write 0) ≡ [] }
        requires there { n ≤ length self.old.conn.write.octets }
        ensures { Leaves n result self.old self.new }
    {
        let drained = self.conn.write.take(n) == Crossed::Low;
        if drained {
            self.gates.begin_low(BufferId::Write(0));
        }
        drained
    }

    /// The flows that are still to be told that the write buffer drained, in order.
    pub(crate) fn lows(&self) -> Watchers<'_>
        ensures { result ≡ pending_on self.now.gates (BufferId.Write 0) }
    {
        self.gates.lows(BufferId::Write(0))
    }

    /// The first n of those flows are told, or all where there are fewer.
    pub(crate) fn tell(&mut self, n: usize)
        ensures tells { Tells n self.old self.new }
        ensures less { left_in self.new + 4 * length (take n (pending_on self.old.gates (BufferId.Write 0))) ≤ left_in self.old }
    {
        self.gates.take_lows(BufferId::Write(0), n);
    }

    /// A live exchange is doomed.
    pub(crate) fn doom(&mut self, exchange: u64, cause: Cause)
        requires settled { IsSettled self.old }
        requires live { Lives self.old exchange true }
        ensures dooms { Dooms exchange cause self.old self.new }
        ensures less { left_in self.new ≤ left_in self.old }
    {
        let _replies = self.exchanges.doom(exchange, cause, false, &mut self.gates);
        self.conn.unready(exchange);
        self.unhold(exchange);
    }

    /// The first of the doomed exchanges is gone.
    pub(crate) fn sweep(&mut self) -> Option<u64>
        ensures { Sweeps result self.old self.new }
    {
        self.exchanges.sweep()
    }

    // From now on the receive buffer of the exchange holds octets.
    fn hold(&mut self, exchange: u64) -> Result<(), NoMemory>
        ensures holding { OnOk result ((x : ℕ) → contains nat_cmp self.new.holding x ≡ ((exchange == x) || contains nat_cmp self.old.holding x)) }
        ensures rest { self.new ≡ record self.old { holding = self.new.holding } }
    {
        self.holding.insert(exchange)?;
        Ok(())
    }

    // From now on it holds none.
    fn unhold(&mut self, exchange: u64)
        ensures holding { (x : ℕ) → contains nat_cmp self.new.holding x ≡ (not (exchange == x) && contains nat_cmp self.old.holding x) }
        ensures rest { self.new ≡ record self.old { holding = self.new.holding } }
    {
        self.holding.remove(&exchange);
    }

    // Records whether a move of n octets left any in the receive buffer of a live exchange: less than a quantum is all
    // that was there.
    fn record_left(&mut self, exchange: u64, n: u32)
        requires { IsLiveFlow self.old.exchanges (flow_of exchange) }
        ensures holding { (x : ℕ) → contains nat_cmp self.new.holding x ≡ (not ((exchange == x) && (nat_lt n self.old.limits.quantum || is_emptied self.old exchange)) && contains nat_cmp self.old.holding x) }
        ensures rest { self.new ≡ record self.old { holding = self.new.holding } }
    {
        if n < self.limits.quantum || self.exchanges.received(request(exchange)) == 0 {
            self.unhold(exchange);
        }
    }

    // Records what unit the flow of a live exchange has now.
    fn refresh(&mut self, exchange: u64) -> Result<(), NoMemory>
        requires { IsLiveFlow self.old.exchanges (flow_of exchange) }
        ensures ready { OnOk result ((x : ℕ) → get nat_cmp self.new.conn.ready x ≡ (if exchange == x then piece_at self.old exchange else get nat_cmp self.old.conn.ready x)) }
        ensures rest { self.new ≡ record self.old { conn = record self.old.conn { ready = self.new.conn.ready } } }
    {
        let unit = self.unit(exchange);
        self.record_unit(exchange, unit)
    }

    // Records the unit of an exchange that goes next, if it is a DATA frame.
    fn record_unit(&mut self, exchange: u64, unit: Unit) -> Result<(), NoMemory>
        ensures ready { OnOk result ((x : ℕ) → get nat_cmp self.new.conn.ready x ≡ (if exchange == x then piece_of unit else get nat_cmp self.old.conn.ready x)) }
        ensures rest { self.new ≡ record self.old { conn = record self.old.conn { ready = self.new.conn.ready } } }
    {
        if let Unit::Body { n, last } = unit {
            return self.conn.make_ready(exchange, Piece { n, last });
        }
        self.conn.unready(exchange);
        Ok(())
    }

    // The next unit of a live exchange.
    fn unit(&self, exchange: u64) -> Unit
        requires { IsLiveFlow self.now.exchanges (flow_of exchange) }
        ensures { Some result ≡ unit_at self.now exchange }
    {
        let most = self.limits.quantum;
        self.exchanges
            .next_unit(request(exchange), i64::from(most), most)
    }
}

/// The request flow of an exchange.
pub(crate) fn request(exchange: u64) -> FlowId
    ensures { result ≡ flow_of exchange }
{
    FlowId {
        exchange,
        back: false,
    }
}
