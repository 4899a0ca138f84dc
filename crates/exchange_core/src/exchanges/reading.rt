// What exchanges answer, and leave as they are.
ghost use Rattle.std.specs.Prelude.{◌≡◌, ◌↔◌, ◌-◌, IsTrue, Some, false, length, nat_lt, not, option_map, true};
ghost use Rattle.std.specs.Option.{option_map_or};
ghost use Rattle.exchange_core.specs.Exchange.{ends_of, held_in};
ghost use Rattle.exchange_core.specs.Exchanges.{IsLiveFlow, IsNextMetered, IsSound, exchange_at, flow_at, is_live};
ghost use Rattle.exchange_core.specs.Flow.{held_by, stages_of};
ghost use Rattle.exchange_core.specs.Message.{awaited, head_came};
ghost use Rattle.filter_chain.specs.Release.{is_source_at};

use super::Exchanges;
use crate::exchange::Ends;
use crate::message::Awaited;
use flow_gate::FlowId;

impl Exchanges {
    /// The greatest number given so far, 0 before the first.
    pub fn last(&self) -> u64
        ensures { result ≡ self.now.last }
    {
        self.last
    }

    /// The last moment that it was told, in ms.
    pub fn time(&self) -> u64
        ensures { result ≡ self.now.time }
    {
        self.time
    }

    /// Whether an exchange is live.
    pub fn is_live(&self, exchange: u64) -> bool
        ensures { result ≡ is_live self.now exchange }
    {
        self.live.contains_key(&exchange)
    }

    /// Whether a flow is one of a live exchange: in a plain session there is no response.
    pub fn has_flow(&self, flow: FlowId) -> bool
        ensures { IsTrue result ↔ IsLiveFlow self.now flow }
    {
        match self.live.get(&flow.exchange) {
            Some(exchange) => exchange.has_flow(flow.back),
            None => false,
        }
    }

    /// How many octets the receive buffer of a flow holds.
    pub fn received(&self, flow: FlowId) -> u32
        requires { IsLiveFlow self.now flow }
        ensures { Some result ≡ option_map (λ f. length f.recv) (flow_at self.now flow) }
    {
        self.flow(flow).left()
    }

    /// How many octets more fit into the receive buffer of a flow within its window, 0 where it is full. None exactly
    /// where the flow isn't live.
    pub fn space(&self, flow: FlowId) -> Option<u32>
        ensures { result ≡ option_map (λ f. f.window - length f.recv) (flow_at self.now flow) }
    {
        match self.live.get(&flow.exchange) {
            Some(exchange) => exchange.space(flow.back),
            None => None,
        }
    }

    /// Whether the end of a flow came.
    pub fn has_ended(&self, flow: FlowId) -> bool
        requires { IsLiveFlow self.now flow }
        ensures { Some result ≡ option_map (λ f. f.message.ended) (flow_at self.now flow) }
    {
        self.flow(flow).message().ended
    }

    /// Whether a flow is live and its end hasn't come.
    pub fn goes_on(&self, flow: FlowId) -> bool
        ensures { result ≡ option_map_or (λ f. not f.message.ended) (flow_at self.now flow) false }
    {
        match self.find(flow) {
            Some(flow) => !flow.message().ended,
            None => false,
        }
    }

    /// Whether the head of a flow came: it waits to be framed, or was framed. False where the flow isn't live.
    pub fn head_came(&self, flow: FlowId) -> bool
        ensures { result ≡ option_map_or (λ f. head_came f.message) (flow_at self.now flow) false }
    {
        match self.find(flow) {
            Some(flow) => flow.message().head_came(),
            None => false,
        }
    }

    /// What of a flow's message is still to come: nothing where the flow isn't live.
    pub fn awaits(&self, flow: FlowId) -> Awaited
        ensures { result ≡ option_map_or (λ f. awaited f.message) (flow_at self.now flow) Awaited.Nothing }
    {
        match self.find(flow) {
            Some(flow) => flow.message().awaits(),
            None => Awaited::Nothing,
        }
    }

    /// Whether a flow holds octets in some place. False where the flow isn't live.
    #[inline(always)]
    pub fn holds(&self, flow: FlowId) -> bool
        ensures { result ≡ option_map_or (λ f. nat_lt 0 (held_by f)) (flow_at self.now flow) false }
    {
        match self.find(flow) {
            Some(flow) => flow.holds(),
            None => false,
        }
    }

    /// How many stages a flow has, 0 to 8: its places 1 to that number, and the send buffer is the next one. None exactly
    /// where the flow isn't live.
    pub fn stages(&self, flow: FlowId) -> Option<u32>
        ensures { result ≡ option_map stages_of (flow_at self.now flow) }
    {
        match self.find(flow) {
            Some(flow) => Some(flow.stages()),
            None => None,
        }
    }

    /// Whether a place pauses its flow while it is above: a Meter and the send buffer do. False where the flow isn't live or
    /// has no such place, and for the receive buffer, which is place 0.
    pub fn is_source(&self, flow: FlowId, place: u32) -> bool
        ensures { result ≡ option_map_or (λ f. is_source_at f.chain place) (flow_at self.now flow) false }
    {
        match self.find(flow) {
            Some(flow) => flow.is_source(place),
            None => false,
        }
    }

    /// Which ends of an exchange are framed.
    pub fn ends(&self, exchange: u64) -> Ends
        requires { is_live self.now exchange ≡ true }
        ensures ends { Some result ≡ option_map ends_of (exchange_at self.now exchange) }
        ensures sound { IsSound self.now }
    {
        self.exchange(exchange).ends()
    }

    /// The octets in all places of both flows of an exchange.
    pub fn held(&self, exchange: u64) -> u64
        requires { is_live self.now exchange ≡ true }
        ensures { Some result ≡ option_map held_in (exchange_at self.now exchange) }
    {
        self.exchange(exchange).held()
    }

    /// The least number above `after` of a live exchange of which some Meter holds octets: after a tick only these may
    /// have more to let go. None exactly where there is none.
    pub fn metered(&self, after: u64) -> Option<u64>
        ensures { IsNextMetered after result self.now }
    {
        self.metered.next_above(after)
    }
}
