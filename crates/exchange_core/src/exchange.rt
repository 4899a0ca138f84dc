// One exchange: a request and its response.
ghost use Rattle.std.specs.Prelude.{◌≡◌, ◌-◌, ◌<◌, ◌≤◌, [], All, IfOk, IfSome, IsNone, IsOk, IsSome, IsTrue, OnErr, OnOk, Some, false, is_some, length, option_map, true};
ghost use Rattle.exchange_core.specs.Exchange.{IsSoundExchange, begun, begun_response, filters_of, multiple_of, side_filters, ends_of, flow_changed, flow_id, flow_in, goes_to, held_in, is_metered, seen_at};
ghost use Rattle.exchange_core.specs.Moves.{has_room_ahead, next_step, stepped};
ghost use Rattle.exchange_core.specs.Flow.{IsSound as IsSoundFlow};
ghost use Rattle.exchange_core.specs.Changes.{ForgetsSides};
ghost use Rattle.flow_gate.specs.Board.{IsSound as AreSoundGates, is_open};
ghost use Rattle.exchange_core.specs.Replies.{head_framed};
ghost use Rattle.exchange_core.specs.Units.{IsFrameable, next_unit};
ghost use Rattle.exchange_core.specs.Lending.{LendsFlow, LendsTouched};
ghost use Rattle.std.specs.Borrow.{sem};
ghost use Rattle.std.specs.Option.{option_copied, option_copied_mut};
ghost use Rattle.proxy_config.specs.Ranges.{AreFilters, IsBetween, IsRoute, most_octets};

use crate::flow::Flow;
use crate::flow_box::FlowBox;
use crate::message::Message;
use crate::spares::Spares;
use crate::start::StartSpec;
use crate::step::{Advance, Step};
use flow_gate::{FlowId, Gates};
use io_ports::NoMemory;
use proxy_config::{Config, FilterList};
use std::alloc::Global;

/// Which ends of an exchange are framed.
#[derive(Clone, Copy, PartialEq, Eq)]
pub struct Ends {
    pub request: bool,
    pub response: bool,
}

/// A request flow, and but for a plain session a response flow, which goes back to where the request comes from.
#[derive(Drop)]
pub(crate) struct Exchange {
    pub(crate) from_conn: u32,
    pub(crate) to_conn: Option<u32>,
    pub(crate) request: FlowBox,
    pub(crate) response: Option<FlowBox>,
}

impl Exchange {
    /// An exchange with empty flows through the filters of its route row.
    #[inline(always)]
    pub(crate) fn new(
        alloc: Global,
        spares: &mut Spares,
        number: u64,
        spec: &StartSpec,
        config: &Config,
    ) -> Result<Self, NoMemory>
        requires recv { spec.now.recv ≤ most_octets }
        requires send { spec.now.send ≤ most_octets }
        requires quantum { IsBetween 16384 1048576 spec.now.quantum }
        requires routes { All IsRoute config.now.routes }
        ensures begun { IfOk result (λ exchange. exchange ≡ begun number spec.entry.now config.now) }
        ensures sound { IfOk result (IsSoundExchange number spec.entry.now.now) }
    {
        let none = FilterList::new(alloc);
        let id = FlowId::request(number);
        let filters = filters_of(&none, &*config, spec.row, id);
        let request = spares.begun(id, filters, spec, multiple_of(spec, config))?;
        let response = Self::response(spares, number, spec, config, &none)?;
        Ok(Exchange {
            from_conn: spec.from_conn,
            to_conn: spec.to_conn,
            request,
            response,
        })
    }

    /// The response flow of a new exchange, none in a plain session.
    fn response(
        spares: &mut Spares,
        number: u64,
        spec: &StartSpec,
        config: &Config,
        none: &FilterList,
    ) -> Result<Option<FlowBox>, NoMemory>
        requires recv { spec.now.recv ≤ most_octets }
        requires send { spec.now.send ≤ most_octets }
        requires quantum { IsBetween 16384 1048576 spec.now.quantum }
        requires routes { All IsRoute config.now.routes }
        requires none { none.now ≡ [] }
        ensures begun { IfOk result (λ response. response ≡ begun_response number spec.entry.now config.now) }
        ensures sound { IfOk result (λ response. IfSome response IsSoundFlow) }
    {
        if spec.plain {
            return Ok(None);
        }
        let id = FlowId::response(number);
        let filters = filters_of(none, config, spec.row, id);
        let multiple = config.limits.overflow_multiple;
        Ok(Some(spares.begun(id, filters, spec, multiple)?))
    }

    /// The Meters of both flows go on to the moment `now`.
    #[inline(always)]
    pub(crate) fn go_on(&mut self, now: u64)
        ensures { self.new ≡ seen_at now self.old }
    {
        self.request.flow_mut().go_on(now);
        if let Some(response) = &mut self.response {
            response.flow_mut().go_on(now);
        }
    }

    /// Whether it has this flow: in a plain session there is no response.
    pub(crate) fn has_flow(&self, back: bool) -> bool
        ensures { result ≡ is_some (flow_in back self.now) }
    {
        !back || self.response.is_some()
    }

    /// The request flow, or the response flow.
    pub(crate) fn flow(&self, back: bool) -> &Flow
        requires { IsSome (flow_in back self.now) }
        ensures { Some result.now ≡ flow_in back self.now }
    {
        if !back {
            return self.request.flow();
        }
        let Some(response) = &self.response else {
            unreachable!()
        };
        response.flow()
    }

    /// The request flow, or the response flow, if it is there.
    #[inline(always)]
    pub(crate) fn find(&self, back: bool) -> Option<&Flow>
        ensures { option_copied result ≡ flow_in back self.now }
    {
        if !back {
            return Some(self.request.flow());
        }
        match &self.response {
            Some(response) => Some(response.flow()),
            None => None,
        }
    }

    /// How many octets more the receive buffer of a flow takes, if it is there.
    pub(crate) fn space(&self, back: bool) -> Option<u32>
        ensures { result ≡ option_map (λ f. f.window - length f.recv) (flow_in back self.now) }
    {
        if !back {
            return Some(self.request.flow().space());
        }
        match &self.response {
            Some(response) => Some(response.flow().space()),
            None => None,
        }
    }

    /// A flow to change, if it is there.
    #[inline(always)]
    pub(crate) fn flow_mut(&mut self, back: bool) -> Option<&mut Flow>
        ensures* writes_back { sem 𝓛 (LendsFlow back self.entry result) }
        ensures value { option_copied_mut result ≡ flow_in back self.old }
    {
        if !back {
            return Some(self.request.flow_mut());
        }
        match &mut self.response {
            Some(response) => Some(response.flow_mut()),
            None => None,
        }
    }

    /// A flow to change, if it is there, with the Meters of the exchange at the moment `now`.
    #[inline(always)]
    pub(crate) fn touch(&mut self, back: bool, now: u64) -> Option<&mut Flow>
        ensures* writes_back { sem 𝓛 (LendsTouched back now self.entry result) }
        ensures value { option_copied_mut result ≡ flow_in back (seen_at now self.old) }
    {
        self.go_on(now);
        self.flow_mut(back)
    }

    /// One step of a flow, if it is there, with the Meters of the exchange at the moment `now`.
    pub(crate) fn step(&mut self, back: bool, gates: &Gates, now: u64) -> Result<Step, NoMemory>
        requires there { IsSome (flow_in back self.old) }
        requires open { IfSome (flow_in back self.old) (λ f. is_open gates.now f.chain.flow ≡ true) }
        ensures step { IfOk result (λ step. Some step ≡ option_map (next_step gates.now (goes_to back self.old)) (flow_in back (seen_at now self.old))) }
        ensures exchange { OnOk result (self.new ≡ flow_changed (stepped gates.now (goes_to back self.old)) back (seen_at now self.old)) }
        ensures covered { IfSome (flow_in back (seen_at now self.old)) (λ f. IsTrue (has_room_ahead gates.now (goes_to back self.old) f) → IsOk result) }
        ensures sound { IfSome (flow_in back self.new) IsSoundFlow }
        ensures err { OnErr result (self.new ≡ seen_at now self.old) }
    {
        let to = self.goes_to(back);
        let Some(flow) = self.touch(back, now) else {
            unreachable!()
        };
        flow.step(to, gates)
    }

    /// As `step`, and then what of the flow goes next, or None if it isn't there.
    pub(crate) fn advance(
        &mut self,
        back: bool,
        gates: &Gates,
        now: u64,
        room: i64,
        frame: u32,
    ) -> Result<Option<Advance>, NoMemory>
        requires open { IfSome (flow_in back self.old) (λ f. is_open gates.now f.chain.flow ≡ true) }
        ensures gone { IsNone (flow_in back self.old) → result ≡ Ok None }
        ensures step { IfOk result (λ advance. option_map (λ a. a.step) advance ≡ option_map (next_step gates.now (goes_to back self.old)) (flow_in back (seen_at now self.old))) }
        ensures unit { IfOk result (λ advance. option_map (λ a. a.unit) advance ≡ option_map (next_unit room frame) (flow_in back self.new)) }
        ensures frameable { IfOk result (λ advance. IfSome advance (λ a. IfSome (flow_in back self.new) (λ f. IsFrameable a.unit f))) }
        ensures exchange { OnOk result (self.new ≡ flow_changed (stepped gates.now (goes_to back self.old)) back (seen_at now self.old)) }
        ensures covered { IfSome (flow_in back (seen_at now self.old)) (λ f. IsTrue (has_room_ahead gates.now (goes_to back self.old) f) → IsOk result) }
        ensures sound { IfSome (flow_in back self.new) IsSoundFlow }
        ensures err { OnErr result (self.new ≡ seen_at now self.old) }
    {
        let to = self.goes_to(back);
        let Some(flow) = self.touch(back, now) else {
            return Ok(None);
        };
        Ok(Some(flow.advance(to, gates, room, frame)?))
    }

    /// Whether some Meter of a flow holds octets.
    #[inline(always)]
    pub(crate) fn is_metered(&self) -> bool
        ensures { result ≡ is_metered self.now }
    {
        match &self.response {
            Some(response) => self.request.flow().meters_hold() || response.flow().meters_hold(),
            None => self.request.flow().meters_hold(),
        }
    }

    /// The connection that a flow goes to, if any.
    pub(crate) fn goes_to(&self, back: bool) -> Option<u32>
        ensures { result ≡ goes_to back self.now }
    {
        if back {
            Some(self.from_conn)
        } else {
            self.to_conn
        }
    }

    pub(crate) fn ends(&self) -> Ends
        ensures { result ≡ ends_of self.now }
    {
        let response = match &self.response {
            Some(response) => response.flow().message().end_framed,
            None => false,
        };
        Ends {
            request: self.request.flow().message().end_framed,
            response,
        }
    }

    /// The octets in all places of both flows.
    pub(crate) fn held(&self) -> u64
        ensures { result ≡ held_in self.now }
    {
        match &self.response {
            Some(response) => self.request.flow().held() + response.flow().held(),
            None => self.request.flow().held(),
        }
    }

    /// Whether a response head was framed.
    pub(crate) fn head_framed(&self) -> bool
        ensures { result ≡ head_framed self.now }
    {
        match &self.response {
            Some(response) => response.flow().message().head_framed,
            None => false,
        }
    }

    /// Whether the request's end came.
    pub(crate) fn request_ended(&self) -> bool
        ensures { result ≡ self.now.request.message.ended }
    {
        self.request.flow().message().ended
    }
}

// The filters that a route row has for the flow, `none` where there is no row.
fn filters_of<'a>(
    none: &'a FilterList,
    config: &'a Config,
    row: Option<u32>,
    flow: FlowId,
) -> &'a FilterList
    ensures filters { none.now ≡ [] → result.now ≡ filters_of (side_filters flow.back) row config.now }
    ensures few { none.now ≡ [] → All IsRoute config.now.routes → AreFilters result.now }
{
    let Some(row) = row else {
        return none;
    };
    match config.routes.as_slice().get(row as usize) {
        Some(route) if flow.back => &route.response,
        Some(route) => &route.request,
        None => none,
    }
}

// How many times its limit a buffer of a request may hold: that isn't asked in a plain session.
fn multiple_of(spec: &StartSpec, config: &Config) -> u32
    ensures { result ≡ multiple_of spec.entry.now config.now }
{
    if spec.plain {
        0
    } else {
        config.limits.overflow_multiple
    }
}

// The gates forget the request flow of an exchange, and its response flow if it has both.
pub(crate) fn forget_flows(gates: &mut Gates, exchange: u64, both: bool)
    requires request { is_open gates.old (flow_id exchange false) ≡ true }
    requires response { both ≡ true → is_open gates.old (flow_id exchange true) ≡ true }
    ensures gone { ForgetsSides exchange both gates.old gates.new }
    ensures sound { AreSoundGates gates.new }
{
    gates.forget(FlowId::request(exchange));
    if both {
        gates.forget(FlowId::response(exchange));
    }
}
