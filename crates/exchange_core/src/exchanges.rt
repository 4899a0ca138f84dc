// The exchanges of a worker.
ghost use Rattle.std.specs.Prelude.{◌≡◌, ◌↔◌, ◌+◌, ◌<◌, ◌≤◌, [], All, IfOk, IfSome, IsNone, IsOk, OnErr, OnOk, Some, false, length, option_map, true};
ghost use Rattle.exchange_core.specs.Changes.{ChangesFlow, Dooms, ForgetsFlows, KnowsFlows, Starts, Sweeps, Ticks, number_for};
ghost use Rattle.exchange_core.specs.Effects.{arrived, finished, headed, received, received_by};
ghost use Rattle.exchange_core.specs.Exchanges.{IsLiveFlow, IsSound, exchange_at, flow_at, is_live};
ghost use Rattle.exchange_core.specs.Flow.{held_by};
ghost use Rattle.exchange_core.specs.Replies.{reckoning};
ghost use Rattle.exchange_core.specs.Seen.{IsFlowSeenAs, IsFoundAs, IsSeenAs};
ghost use Rattle.std.specs.Option.{option_copied};
ghost use Rattle.flow_gate.specs.Board.{IsSound as AreSoundGates};
ghost use Rattle.proxy_config.specs.Ranges.{IsBetween, IsRoute, most_octets};

mod moves;
mod reading;

use crate::causes::Doomed;
use crate::exchange::{Exchange, forget_flows};
use crate::flow::Flow;
use crate::spares::Spares;
use crate::start::StartSpec;
use crate::step::Received;
use filter_chain::ticks_add_up;
use flow_gate::{FlowId, Gates};
use flow_rules::Cause;
use hpack_codec::FieldList;
use io_ports::{NoMemory, Octets};
use number_set::NumberSet;
use paged_map::PagedMap;
use proxy_config::Config;
use std::alloc::Global;
use std::collections::VecDeque;
use std::marker::Model;

/// The exchanges of a worker.
///
/// An exchange and its flows are live from `start` to `doom`. A doomed one waits until it is swept. Each call that names
/// an exchange or a flow looks at that exchange alone.
#[derive(Drop)]
pub struct Exchanges {
    alloc: Global,
    live: PagedMap<u64, Exchange>,
    doomed: VecDeque<u64>,
    metered: NumberSet,
    spares: Spares,
    last: u64,
    ticked: u64,
    time: u64,
}

impl Model for Exchanges {
    ghost use Rattle.exchange_core.specs.Exchanges.{Exchanges};

    ghost Value = { Exchanges };

    ghost use Rattle.exchange_core.specs.View.{exchanges_of, IsKept};

    ghost view = { exchanges_of };

    ghost invariant = { IsKept };
}

impl Exchanges {
    /// No exchanges. Takes no memory.
    pub fn new(alloc: Global) -> Self
        ensures live { result.live ≡ [] }
        ensures doomed { result.doomed ≡ [] }
        ensures last { result.last ≡ 0 }
        ensures time { result.time ≡ 0 }
        ensures sound { IsSound result }
    {
        Exchanges {
            alloc,
            live: PagedMap::new(alloc),
            doomed: VecDeque::new(alloc),
            metered: NumberSet::new(alloc),
            spares: Spares::new(alloc),
            last: 0,
            ticked: 0,
            time: 0,
        }
    }

    /// Begins an exchange, and answers its number: `from_stream` in a plain session, else one more than the last number,
    /// from 1. Its flows pass the filters of the route row, and are empty. After running out of memory, to which the number 2^63
    /// counts too, nothing has changed.
    ///
    /// Here each receive buffer gets the room for its window, and each buffer with a limit that for its limit and, but
    /// for a Hold, for one move more; and the exchange gets its place on the deferred list.
    #[inline(always)]
    pub fn start(&mut self, spec: &StartSpec, config: &Config) -> Result<u64, NoMemory>
        requires recv { spec.now.recv ≤ most_octets }
        requires send { spec.now.send ≤ most_octets }
        requires quantum { IsBetween 16384 1048576 spec.now.quantum }
        requires routes { All IsRoute config.now.routes }
        requires row { IfSome spec.now.row (λ row. row < length config.now.routes) }
        requires clock { self.old.time ≤ spec.now.now }
        requires rises { spec.now.plain ≡ true → self.old.last < spec.now.from_stream }
        ensures number { IfOk result (λ x. x ≡ number_for spec.entry.now self.old) }
        ensures starts { IfOk result (λ x. Starts x spec.entry.now config.now self.old self.new) }
        ensures sound { IsSound self.new }
        ensures err { OnErr result (self.new ≡ self.old) }
    {
        let number = spec.number(self.last)?;
        self.doomed.reserve(self.live.len() + 1)?;
        self.metered.reserve(self.live.len() + 1)?;
        self.spares.ready()?;
        let exchange = Exchange::new(self.alloc, &mut self.spares, number, spec, config)?;
        drop(self.live.insert(number, exchange)?);
        self.last = number;
        self.time = spec.now;
        Ok(number)
    }

    /// The head of a flow whose end hasn't come, and with it the flow's end where `last` holds: then nothing of a body came
    /// before it. It waits to be framed. It takes no memory, and is never refused.
    #[inline(always)]
    pub fn head(&mut self, flow: FlowId, fields: FieldList, last: bool) -> Result<(), NoMemory>
        requires live { IsLiveFlow self.old flow }
        requires goes_on { IfSome (flow_at self.old flow) (λ f. f.message.ended ≡ false) }
        requires alone { IfSome (flow_at self.old flow) (λ f. last ≡ true → held_by f ≡ 0) }
        ensures ok { OnOk result (ChangesFlow flow (headed fields last) self.old self.new) }
        ensures sound { IsSound self.new }
        ensures err { OnErr result (self.new ≡ self.old) }
    {
        let Some(exchange) = self.live.get_mut(&flow.exchange) else {
            unreachable!()
        };
        let Some(flow) = exchange.touch(flow.back, self.ticked) else {
            unreachable!()
        };
        flow.head(fields, last);
        Ok(())
    }

    /// Octets came into the receive buffer of a flow, whose end hasn't come. Within its window they aren't refused. After
    /// running out of memory nothing has changed.
    pub fn arrive(&mut self, flow: FlowId, octets: &Octets) -> Result<(), NoMemory>
        requires live { IsLiveFlow self.old flow }
        requires goes_on { IfSome (flow_at self.old flow) (λ f. f.message.ended ≡ false) }
        ensures ok { OnOk result (ChangesFlow flow (arrived octets.now) self.old self.new) }
        ensures covered { IfSome (flow_at self.old flow) (λ f. length f.recv + length octets.now ≤ f.window → IsOk result) }
        ensures sound { IsSound self.new }
        ensures err { OnErr result (self.new ≡ self.old) }
    {
        let Some(exchange) = self.live.get_mut(&flow.exchange) else {
            unreachable!()
        };
        let Some(flow) = exchange.touch(flow.back, self.ticked) else {
            unreachable!()
        };
        flow.arrive(octets)
    }

    /// Octets came for a flow, whose end hasn't come where it is live. Where it is, and they fit into its receive buffer
    /// within its window, they are there, as by `arrive`; else nothing has changed. The exchange is looked up once. Takes no
    /// memory.
    #[inline(always)]
    pub fn receive(&mut self, flow: FlowId, octets: &Octets) -> Received
        requires goes_on { IfSome (flow_at self.old flow) (λ f. f.message.ended ≡ false) }
        ensures answer { result ≡ received_by (length octets.now) (flow_at self.old flow) }
        ensures flow { IsLiveFlow self.old flow → ChangesFlow flow (received octets.now) self.old self.new }
        ensures same { (result ≡ Received.Arrived → ⊥) → self.new ≡ self.old }
        ensures sound { IsSound self.new }
    {
        let Some(exchange) = self.live.get_mut(&flow.exchange) else {
            return Received::NotLive;
        };
        let Some(flow) = exchange.touch(flow.back, self.ticked) else {
            return Received::NotLive;
        };
        flow.receive(octets)
    }

    /// The end of a flow came, with trailers or none. They wait to be framed. It takes no memory, and is never refused.
    #[inline(always)]
    pub fn finish(&mut self, flow: FlowId, trailers: Option<FieldList>) -> Result<(), NoMemory>
        requires live { IsLiveFlow self.old flow }
        requires goes_on { IfSome (flow_at self.old flow) (λ f. f.message.ended ≡ false) }
        ensures ok { OnOk result (ChangesFlow flow (finished trailers) self.old self.new) }
        ensures sound { IsSound self.new }
        ensures err { OnErr result (self.new ≡ self.old) }
    {
        let Some(exchange) = self.live.get_mut(&flow.exchange) else {
            unreachable!()
        };
        let Some(flow) = exchange.touch(flow.back, self.ticked) else {
            unreachable!()
        };
        flow.finish(trailers);
        Ok(())
    }

    /// The Meters of all live flows go on to the moment `now`, in ms. A flow is told of it once it is touched, so this
    /// takes the same time however many there are.
    pub fn tick(&mut self, now: u64)
        requires { self.old.time ≤ now }
        ensures ticks { Ticks now self.old self.new }
        ensures sound { IsSound self.new }
    {
        ticks_add_up();
        self.ticked = now;
        self.time = now;
    }

    /// Dooms an exchange: its octets are dropped, the gates forget its flows, and it waits behind those doomed before.
    /// Answers the octets dropped from its receive buffers, and what the client and the cluster are told. Takes no memory.
    ///
    /// Of a reset by a peer, a fault of a stream and a body that is too large, `back` says that the cluster or the
    /// response gave the cause.
    #[inline(always)]
    pub fn doom(&mut self, exchange: u64, cause: Cause, back: bool, gates: &mut Gates) -> Doomed
        requires live { is_live self.old exchange ≡ true }
        requires known { IfSome (exchange_at self.old exchange) (λ x. KnowsFlows exchange x gates.old) }
        ensures answer { Some result ≡ option_map (reckoning cause back) (exchange_at self.old exchange) }
        ensures dooms { Dooms exchange self.old self.new }
        ensures gates { IfSome (exchange_at self.old exchange) (λ x. ForgetsFlows exchange x gates.old gates.new) }
        ensures counted { AreSoundGates gates.new }
        ensures sound { IsSound self.new }
    {
        let Some(ended) = self.live.remove(&exchange) else {
            unreachable!()
        };
        self.doomed.push_back_reserved(exchange);
        self.metered.remove(exchange);
        forget_flows(gates, exchange, ended.response.is_some());
        let doomed = ended.reckoning(cause, back);
        self.spares.keep(ended);
        doomed
    }

    /// Destroys the first of the doomed exchanges, and answers its number. None exactly where there is none.
    pub fn sweep(&mut self) -> Option<u64>
        ensures none { IsNone result ↔ (self.old.doomed ≡ []) }
        ensures sweeps { Sweeps result self.old self.new }
        ensures sound { IsSound self.new }
    {
        self.doomed.pop_front()
    }

    /// A live exchange.
    fn exchange(&self, exchange: u64) -> &Exchange
        requires { is_live self.now exchange ≡ true }
        ensures seen { IsSeenAs result.now (exchange_at self.now exchange) }
        ensures sound { IsSound self.now }
    {
        let Some(found) = self.live.get(&exchange) else {
            unreachable!()
        };
        found
    }

    /// A flow of a live exchange.
    fn flow(&self, flow: FlowId) -> &Flow
        requires { IsLiveFlow self.now flow }
        ensures { IsFlowSeenAs result.now (flow_at self.now flow) }
    {
        self.exchange(flow.exchange).flow(flow.back)
    }

    /// A flow, if it is live.
    fn find(&self, flow: FlowId) -> Option<&Flow>
        ensures { IsFoundAs (option_copied result) (flow_at self.now flow) }
    {
        let Some(exchange) = self.live.get(&flow.exchange) else {
            return None;
        };
        exchange.find(flow.back)
    }
}
