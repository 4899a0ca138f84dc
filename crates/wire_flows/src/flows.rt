// The exchanges and the gates, and what comes for them.
ghost use Rattle.std.specs.Prelude.{◌≡◌, ◌↔◌, ◌+◌, ◌*◌, ◌<◌, ◌≤◌, [], IfSome, IsNone, None, OnErr, OnOk, Some, false, if◌then◌else◌, length, not, option_map, slice_get, true, ◌&&◌, ◌==◌, ℕ};
ghost use Rattle.exchange_core.specs.Changes.{ChangesFlow, Dooms, Sweeps, Ticks};
ghost use Rattle.exchange_core.specs.Effects.{finished, headed, received, received_by};
ghost use Rattle.exchange_core.specs.Exchange.{flow_id};
ghost use Rattle.exchange_core.specs.Exchanges.{exchange_at};
ghost use Rattle.exchange_core.specs.Message.{head_came};
ghost use Rattle.exchange_core.specs.Replies.{reckoning};
ghost use Rattle.flow_gate.specs.Board.{IsSound as AreSoundGates, is_known, is_marked};
ghost use Rattle.flow_rules.specs.declared.ids.FlowId.{FlowId as Flow};
ghost use Rattle.wire_flows.specs.Begins.{RisesIf};
ghost use Rattle.wire_flows.specs.Flows.{ChangesLeft, IsThere, KeepsLeft, KeepsLive, flow_in, goes_to, is_live_in, left_in, time_of};
ghost use Rattle.wire_flows.specs.Measure.{to_go};
ghost use Rattle.wire_flows.specs.Sound.{IsEmpty, IsSound, IsUnused};
ghost use Rattle.wire_flows.specs.Writes.{ChangesWrite, Keeps, KeepsLows, KeepsOtherLows, KeepsWrites, LeavesLows, LeavesWrites, lowered, lows_on, new_write, raised, told, watchers_on, write_at};

use exchange_core::{Doomed, Exchanges, Received};
use flow_gate::{BufferId, FlowId, Gates};
use flow_rules::Cause;
use hpack_codec::FieldList;
use io_ports::{NoMemory, Octets};
use std::alloc::Global;
use std::marker::Model;

/// The exchanges of a worker with the buffers that their octets lie in, and the counts that hold their flows back. Each
/// exchange has a request and a response, and each flow watches its Meters in order, its send buffer, and the write buffer
/// of the connection that it goes to.
#[derive(Drop)]
pub struct WireFlows {
    pub(crate) exchanges: Exchanges,
    pub(crate) gates: Gates,
}

impl Model for WireFlows {
    ghost use Rattle.wire_flows.specs.Flows.{Flows, flows_of};
    ghost use Rattle.wire_flows.specs.Sound.{IsKept};

    ghost Value = { Flows };

    ghost view = { flows_of };

    ghost invariant = { IsKept };
}

impl WireFlows {
    /// No exchanges, and no connection. Takes no memory.
    pub fn new(alloc: Global) -> Self
        ensures empty { IsEmpty result }
        ensures sound { IsSound result }
    {
        WireFlows {
            exchanges: Exchanges::new(alloc),
            gates: Gates::new(alloc),
        }
    }

    /// From now on the write buffer of a connection, which isn't above, may hold flows back. Nothing has changed where it is
    /// known, and after running out of memory.
    pub fn open_write(&mut self, conn: u32) -> Result<(), NoMemory>
        ensures ok { OnOk result (write_at conn self.old ≡ None → ChangesWrite conn (Some new_write) self.old self.new) }
        ensures known { (write_at conn self.old ≡ None → ⊥) → self.new ≡ self.old }
        ensures lows { KeepsLows self.old self.new }
        ensures rest { self.new.exchanges ≡ self.old.exchanges }
        ensures go { to_go self.new ≡ to_go self.old }
        ensures sound { IsSound self.new }
        ensures err { OnErr result (self.new ≡ self.old) }
    {
        let buffer = BufferId::Write(conn);
        if self.gates.is_known(buffer) {
            return Ok(());
        }
        self.gates.open_buffer(buffer)
    }

    /// The write buffer of a connection is no longer known. The answer is false, and nothing has changed, exactly where some
    /// flow still goes to it.
    pub fn close_write(&mut self, conn: u32) -> bool
        ensures answer { (result ≡ true) ↔ IsUnused conn self.old }
        ensures closed { result ≡ true → ChangesWrite conn None self.old self.new }
        ensures same { result ≡ false → self.new ≡ self.old }
        ensures lows { KeepsLows self.old self.new }
        ensures rest { self.new.exchanges ≡ self.old.exchanges }
        ensures go { to_go self.new ≡ to_go self.old }
        ensures sound { IsSound self.new }
    {
        let buffer = BufferId::Write(conn);
        if self.gates.is_watched(buffer) {
            return false;
        }
        if self.gates.is_known(buffer) {
            self.gates.close_buffer(buffer);
        }
        true
    }

    /// The write buffer of a connection rose above its high watermark: its flows are held back once more. Nothing has changed
    /// where it was above, or isn't known.
    pub fn write_rose(&mut self, conn: u32)
        ensures rises { ChangesWrite conn (option_map (raised true) (write_at conn self.old)) self.old self.new }
        ensures lows { KeepsLows self.old self.new }
        ensures rest { self.new.exchanges ≡ self.old.exchanges }
        ensures go { to_go self.new ≡ to_go self.old }
        ensures sound { IsSound self.new }
    {
        rise(&mut self.gates, conn);
    }

    /// The write buffer of a connection drained to its low watermark: the flows that go to it are told one after the other, by
    /// `next_told`. Nothing has changed where it wasn't above, where flows are still to be told of its last drain, and where it
    /// isn't known.
    pub fn write_drained(&mut self, conn: u32)
        ensures drains { ChangesWrite conn (option_map (lowered (watchers_on conn self.old)) (write_at conn self.old)) self.old self.new }
        ensures lows { KeepsOtherLows (BufferId.Write conn) self.old self.new }
        ensures rest { self.new.exchanges ≡ self.old.exchanges }
        ensures sound { IsSound self.new }
    {
        let buffer = BufferId::Write(conn);
        if self.gates.is_marked(buffer) && !self.gates.has_pending(buffer) {
            self.gates.begin_low(buffer);
        }
    }

    /// The next flow that is told that the write buffer of a connection drained, in the order in which they began to watch it.
    /// None exactly where none is to be told.
    pub fn next_told(&mut self, conn: u32) -> Option<FlowId>
        ensures first { result ≡ slice_get (lows_on conn self.old) 0 }
        ensures tells { ChangesWrite conn (option_map told (write_at conn self.old)) self.old self.new }
        ensures lows { KeepsOtherLows (BufferId.Write conn) self.old self.new }
        ensures live { IfSome result (λ f. is_live_in self.old f.exchange ≡ true) }
        ensures goes { IfSome result (λ f. goes_to self.old f ≡ Some conn) }
        ensures rest { self.new.exchanges ≡ self.old.exchanges }
        ensures less { IfSome result (λ f. to_go self.new + 16 ≤ to_go self.old) }
        ensures go { to_go self.new ≤ to_go self.old }
        ensures sound { IsSound self.new }
    {
        self.gates.next_low(BufferId::Write(conn))
    }

    /// The head of a flow came, whose head and whose end hadn't come, and with it the flow's end where `last` holds. It takes
    /// no memory, and is never refused.
    pub fn head(&mut self, flow: FlowId, fields: FieldList, last: bool) -> Result<(), NoMemory>
        requires live { IsThere self.old flow }
        requires goes_on { IfSome (flow_in self.old flow) (λ f. f.message.ended ≡ false) }
        requires first { IfSome (flow_in self.old flow) (λ f. head_came f.message ≡ false) }
        ensures ok { OnOk result (ChangesFlow flow (headed fields last) self.old.exchanges self.new.exchanges) }
        ensures rest { self.new.gates ≡ self.old.gates }
        ensures keeps { Keeps self.old self.new }
        ensures go { to_go self.new ≤ to_go self.old + 40 }
        ensures sound { IsSound self.new }
        ensures err { OnErr result (self.new ≡ self.old) }
    {
        self.exchanges.head(flow, fields, last)
    }

    /// Octets came for a flow, whose head came and whose end hasn't come where it is live. Where it is, and they fit into its
    /// receive buffer within its window, they are there; else nothing has changed. Takes no memory.
    pub fn receive(&mut self, flow: FlowId, octets: &Octets) -> Received
        requires goes_on { IfSome (flow_in self.old flow) (λ f. f.message.ended ≡ false) }
        requires headed { IfSome (flow_in self.old flow) (λ f. head_came f.message ≡ true) }
        ensures answer { result ≡ received_by (length octets.now) (flow_in self.old flow) }
        ensures flow { IsThere self.old flow → ChangesFlow flow (received octets.now) self.old.exchanges self.new.exchanges }
        ensures same { (result ≡ Received.Arrived → ⊥) → self.new ≡ self.old }
        ensures rest { self.new.gates ≡ self.old.gates }
        ensures live { KeepsLive self.old self.new }
        ensures left { result ≡ Received.Arrived → ChangesLeft flow (left_in self.old flow + length octets.now) self.old self.new }
        ensures time { time_of self.new ≡ time_of self.old }
        ensures writes { KeepsWrites self.old self.new }
        ensures go { to_go self.new ≤ to_go self.old + 220 * length octets.now }
        ensures sound { IsSound self.new }
    {
        self.exchanges.receive(flow, octets)
    }

    /// The end of a flow came, which hadn't come, with trailers or none. It takes no memory, and is never refused.
    pub fn finish(&mut self, flow: FlowId, trailers: Option<FieldList>) -> Result<(), NoMemory>
        requires live { IsThere self.old flow }
        requires goes_on { IfSome (flow_in self.old flow) (λ f. f.message.ended ≡ false) }
        ensures ok { OnOk result (ChangesFlow flow (finished trailers) self.old.exchanges self.new.exchanges) }
        ensures rest { self.new.gates ≡ self.old.gates }
        ensures keeps { Keeps self.old self.new }
        ensures go { to_go self.new ≤ to_go self.old + 40 }
        ensures sound { IsSound self.new }
        ensures err { OnErr result (self.new ≡ self.old) }
    {
        self.exchanges.finish(flow, trailers)
    }

    /// The Meters of all live flows go on to the moment `now`, in ms. Takes the same time however many there are.
    pub fn tick(&mut self, now: u64)
        requires { time_of self.old ≤ now }
        ensures ticks { Ticks now self.old.exchanges self.new.exchanges }
        ensures rest { self.new.gates ≡ self.old.gates }
        ensures live { KeepsLive self.old self.new }
        ensures left { KeepsLeft self.old self.new }
        ensures time { time_of self.new ≡ now }
        ensures writes { KeepsWrites self.old self.new }
        ensures sound { IsSound self.new }
    {
        self.exchanges.tick(now);
    }

    /// Dooms a live exchange: its octets are dropped, and the counts forget its flows. Answers the octets dropped from its
    /// receive buffers, and what the client and the cluster are told. Takes no memory.
    ///
    /// Of a reset by a peer, a fault of a stream and a body that is too large, `back` says that the cluster or the response
    /// gave the cause.
    pub fn doom(&mut self, exchange: u64, cause: Cause, back: bool) -> Doomed
        requires { is_live_in self.old exchange ≡ true }
        ensures answer { Some result ≡ option_map (reckoning cause back) (exchange_at self.old.exchanges exchange) }
        ensures request { result.request_left ≡ left_in self.old (flow_id exchange false) }
        ensures response { result.response_left ≡ left_in self.old (flow_id exchange true) }
        ensures dooms { Dooms exchange self.old.exchanges self.new.exchanges }
        ensures live { (x : ℕ) → is_live_in self.new x ≡ (not (exchange == x) && is_live_in self.old x) }
        ensures left { (f : Flow) → left_in self.new f ≡ (if exchange == f.exchange then 0 else left_in self.old f) }
        ensures time { time_of self.new ≡ time_of self.old }
        ensures writes { LeavesWrites exchange self.old self.new }
        ensures lows { LeavesLows exchange self.old self.new }
        ensures less { to_go self.new + 64 ≤ to_go self.old }
        ensures sound { IsSound self.new }
    {
        self.exchanges.doom(exchange, cause, back, &mut self.gates)
    }

    /// Destroys the first of the doomed exchanges, and answers its number. None exactly where there is none.
    pub fn sweep(&mut self) -> Option<u64>
        ensures none { IsNone result ↔ (self.old.exchanges.doomed ≡ []) }
        ensures sweeps { Sweeps result self.old.exchanges self.new.exchanges }
        ensures rest { self.new.gates ≡ self.old.gates }
        ensures keeps { Keeps self.old self.new }
        ensures fewer { IfSome result (λ x. length self.new.exchanges.doomed < length self.old.exchanges.doomed) }
        ensures sound { IsSound self.new }
    {
        self.exchanges.sweep()
    }
}

/// The write buffer of a connection is above from now on, where it is known.
pub(crate) fn rise(gates: &mut Gates, conn: u32)
    requires { AreSoundGates gates.old }
    ensures rises { RisesIf (is_known gates.old (BufferId.Write conn) && not (is_marked gates.old (BufferId.Write conn))) (BufferId.Write conn) gates.old gates.new }
    ensures sound { AreSoundGates gates.new }
{
    let buffer = BufferId::Write(conn);
    if gates.is_known(buffer) && !gates.is_marked(buffer) {
        gates.high(buffer);
    }
}
