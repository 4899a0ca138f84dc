// What the flows answer.
ghost use Rattle.std.specs.Prelude.{◌≡◌, ◌==◌, ◌&&◌, Some, is_some, false, nat_lt, option_map, not, true};
ghost use Rattle.std.specs.Option.{option_map_or};
ghost use Rattle.exchange_core.specs.Exchange.{ends_of, held_in};
ghost use Rattle.exchange_core.specs.Exchanges.{IsNextMetered, exchange_at};
ghost use Rattle.exchange_core.specs.Flow.{held_by};
ghost use Rattle.exchange_core.specs.Message.{awaited, head_came};
ghost use Rattle.flow_gate.specs.Board.{count, watchers_of};
ghost use Rattle.flow_rules.specs.declared.ids.FlowId.{FlowId as Flow};
ghost use Rattle.wire_flows.specs.Flows.{IsThere, flow_in, is_live_in, is_there, time_of};
ghost use Rattle.wire_flows.specs.Sound.{AreBounded, IsSound};
ghost use Rattle.wire_flows.specs.Writes.{write_at};

use crate::flows::WireFlows;
use exchange_core::{Awaited, Ends};
use flow_gate::{BufferId, FlowId, Watchers};

impl WireFlows {
    /// What is true at all times: the gates know exactly the live flows, each watches its Meters, its send buffer and the write
    /// buffer that it goes to, and its own buffers are marked where they are above. Does nothing.
    pub fn are_sound(&self)
        ensures { IsSound self.now }
    {
        let _ = &self.gates;
    }

    /// A receive buffer holds at most its window, a stage or send buffer with a limit at most that and a quantum, and a Hold at
    /// most its limit. Does nothing.
    pub fn are_bounded(&self)
        ensures { AreBounded self.now }
    {
        let _ = &self.exchanges;
    }

    /// The greatest number of an exchange so far, 0 before the first.
    pub fn last(&self) -> u64
        ensures { result ≡ self.now.exchanges.last }
    {
        self.exchanges.last()
    }

    /// The last moment that was told, in ms.
    pub fn time(&self) -> u64
        ensures { result ≡ time_of self.now }
    {
        self.exchanges.time()
    }

    /// Whether an exchange is live. Both of its flows are then.
    pub fn is_live(&self, exchange: u64) -> bool
        ensures live { result ≡ is_live_in self.now exchange }
        ensures there { (f : Flow) → f.exchange ≡ exchange → result ≡ true → IsThere self.now f }
        ensures request { result ≡ is_there self.now (record { exchange = exchange; back = false }) }
        ensures response { result ≡ is_there self.now (record { exchange = exchange; back = true }) }
    {
        self.exchanges.is_live(exchange)
    }

    /// Whether the write buffer of a connection is known.
    pub fn knows_write(&self, conn: u32) -> bool
        ensures { result ≡ is_some (write_at conn self.now) }
    {
        self.gates.is_known(BufferId::Write(conn))
    }

    /// Whether a flow is live and nothing holds it back.
    pub fn is_readable(&self, flow: FlowId) -> bool
        ensures { result ≡ (is_there self.now flow && (count self.now.gates flow == 0)) }
    {
        self.gates.is_open(flow) && self.gates.count(flow) == 0
    }

    /// Whether the head of a flow came. False where the flow isn't live.
    pub fn head_came(&self, flow: FlowId) -> bool
        ensures { result ≡ option_map_or (λ f. head_came f.message) (flow_in self.now flow) false }
    {
        self.exchanges.head_came(flow)
    }

    /// What of a flow's message is still to come: nothing where the flow isn't live.
    pub fn awaits(&self, flow: FlowId) -> Awaited
        ensures awaited { result ≡ option_map_or (λ f. awaited f.message) (flow_in self.now flow) Awaited.Nothing }
        ensures head { result ≡ Awaited.Head → (option_map_or (λ f. not f.message.ended) (flow_in self.now flow) false ≡ true) × (option_map_or (λ f. head_came f.message) (flow_in self.now flow) false ≡ false) }
        ensures body { result ≡ Awaited.Body → (option_map_or (λ f. not f.message.ended) (flow_in self.now flow) false ≡ true) × (option_map_or (λ f. head_came f.message) (flow_in self.now flow) false ≡ true) }
    {
        self.exchanges.awaits(flow)
    }

    /// Whether the end of a live flow came.
    pub fn has_ended(&self, flow: FlowId) -> bool
        requires { IsThere self.now flow }
        ensures { Some result ≡ option_map (λ f. f.message.ended) (flow_in self.now flow) }
    {
        self.exchanges.has_ended(flow)
    }

    /// Whether a flow is live and its end hasn't come.
    pub fn goes_on(&self, flow: FlowId) -> bool
        ensures { result ≡ option_map_or (λ f. not f.message.ended) (flow_in self.now flow) false }
    {
        self.exchanges.goes_on(flow)
    }

    /// Whether a flow holds octets in some place. False where the flow isn't live.
    #[inline(always)]
    pub fn holds(&self, flow: FlowId) -> bool
        ensures { result ≡ option_map_or (λ f. nat_lt 0 (held_by f)) (flow_in self.now flow) false }
    {
        self.exchanges.holds(flow)
    }

    /// Which ends of a live exchange are framed.
    pub fn ends(&self, exchange: u64) -> Ends
        requires { is_live_in self.now exchange ≡ true }
        ensures { Some result ≡ option_map ends_of (exchange_at self.now.exchanges exchange) }
    {
        self.exchanges.ends(exchange)
    }

    /// The octets in all places of both flows of a live exchange.
    pub fn held(&self, exchange: u64) -> u64
        requires { is_live_in self.now exchange ≡ true }
        ensures { Some result ≡ option_map held_in (exchange_at self.now.exchanges exchange) }
    {
        self.exchanges.held(exchange)
    }

    /// The least exchange above `after` of which some Meter holds octets. None exactly where there is none.
    pub fn metered(&self, after: u64) -> Option<u64>
        ensures { IsNextMetered after result self.now.exchanges }
    {
        self.exchanges.metered(after)
    }

    /// The flows that a buffer holds back while it is above, in the order in which they began to watch it.
    pub fn watchers(&self, buffer: BufferId) -> Watchers<'_>
        ensures { result ≡ watchers_of self.now.gates buffer }
    {
        self.gates.watchers(buffer)
    }
}
