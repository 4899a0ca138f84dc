// How an exchange begins.
ghost use Rattle.std.specs.Prelude.{◌≡◌, ◌+◌, ◌<◌, ◌≤◌, ◌==◌, ◌||◌, ℕ, All, IfOk, IfSome, IsSome, OnErr, OnOk, Some, [], ◌∷◌, Bool, false, length, true};
ghost use Rattle.std.specs.Option.{option_map_or};
ghost use Rattle.exchange_core.specs.Changes.{Starts};
ghost use Rattle.proxy_config.specs.Ranges.{IsBetween, IsRoute, most_octets};
ghost use Rattle.exchange_core.specs.Exchange.{filters_of as route_filters, flow_id as flow_number, side_filters};
ghost use Rattle.flow_gate.specs.Board.{IsSound as AreSoundGates, is_known, is_marked, is_open, times, watchers_of};
ghost use Rattle.flow_gate.specs.Ids.{is_own};
ghost use Rattle.wire_flows.specs.Begins.{BeginsBoth, BeginsFlow, Grows, IsFresh, IsSame, WatchesAll, WatchesOwn, is_held_by, meters, watches_from, write_of};
ghost use Rattle.wire_flows.specs.Flows.{KeepsLeft, goes_to, is_live_in, time_of};
ghost use Rattle.wire_flows.specs.Measure.{to_go};
ghost use Rattle.wire_flows.specs.Sound.{IsSound};
ghost use Rattle.wire_flows.specs.Writes.{KeepsLows, KeepsWrites, is_above, write_at};

use crate::flows::WireFlows;
use exchange_core::StartSpec;
use flow_gate::{BufferId, FlowId, Gates};
use io_ports::NoMemory;
use proxy_config::{Config, Filter};

/// An exchange that began.
#[derive(Clone, Copy, PartialEq, Eq)]
pub struct Started {
    pub exchange: u64,
    /// Whether the write buffer that the request goes to holds it back, and the one that the response goes to that.
    pub request_held: bool,
    pub response_held: bool,
}

impl WireFlows {
    /// Begins an exchange of a wire session between two connections that are known, and answers its number, one more than
    /// the last. Its flows pass the filters of the route row, and are empty; each watches its Meters in order, its send
    /// buffer, and then the write buffer that it goes to. After running out of memory nothing has changed.
    pub fn start(&mut self, spec: &StartSpec, config: &Config) -> Result<Started, NoMemory>
        requires wire { spec.now.plain ≡ false }
        requires recv { spec.now.recv ≤ most_octets }
        requires send { spec.now.send ≤ most_octets }
        requires quantum { IsBetween 16384 1048576 spec.now.quantum }
        requires routes { All IsRoute config.now.routes }
        requires row { IfSome spec.now.row (λ row. row < length config.now.routes) }
        requires clock { self.old.exchanges.time ≤ spec.now.now }
        requires from { IsSome (write_at spec.now.from_conn self.old) }
        requires to { IfSome spec.now.to_conn (λ c. IsSome (write_at c self.old)) }
        ensures number { IfOk result (λ s. s.exchange ≡ self.old.exchanges.last + 1) }
        ensures starts { IfOk result (λ s. Starts s.exchange spec.entry.now config.now self.old.exchanges self.new.exchanges) }
        ensures request { IfOk result (λ s. s.request_held ≡ option_map_or (λ c. is_above c self.old) spec.entry.now.to_conn false) }
        ensures response { IfOk result (λ s. s.response_held ≡ is_above spec.entry.now.from_conn self.old) }
        ensures fresh { IfOk result (λ s. is_live_in self.old s.exchange ≡ false) }
        ensures live { IfOk result (λ s. (x : ℕ) → is_live_in self.new x ≡ ((s.exchange == x) || is_live_in self.old x)) }
        ensures request_goes { IfOk result (λ s. goes_to self.new (flow_number s.exchange false) ≡ spec.entry.now.to_conn) }
        ensures response_goes { IfOk result (λ s. goes_to self.new (flow_number s.exchange true) ≡ Some spec.entry.now.from_conn) }
        ensures left { KeepsLeft self.old self.new }
        ensures time { OnOk result (time_of self.new ≡ spec.entry.now.now) }
        ensures writes { KeepsWrites self.old self.new }
        ensures lows { KeepsLows self.old self.new }
        ensures go { OnOk result (to_go self.new ≤ to_go self.old + 144) }
        ensures sound { IsSound self.new }
        ensures err { OnErr result (self.new.exchanges ≡ self.old.exchanges) }
        ensures gates { OnErr result (IsSame self.old.gates self.new.gates) }
    {
        let Some(exchange) = self.exchanges.last().checked_add(1) else {
            return Err(NoMemory);
        };
        let (request_held, response_held) = begin_both(&mut self.gates, exchange, spec, config)?;
        if let Err(NoMemory) = self.exchanges.start(spec, config) {
            self.gates.forget(FlowId::response(exchange));
            self.gates.forget(FlowId::request(exchange));
            return Err(NoMemory);
        }
        Ok(Started {
            exchange,
            request_held,
            response_held,
        })
    }
}

// Both flows of an exchange begin to be held back. The answers are whether their write buffers do so at once.
fn begin_both(
    gates: &mut Gates,
    exchange: u64,
    spec: &StartSpec,
    config: &Config,
) -> Result<(bool, bool), NoMemory>
    requires sound { AreSoundGates gates.old }
    requires routes { All IsRoute config.now.routes }
    requires new { (back : Bool) → is_open gates.old (flow_number exchange back) ≡ false }
    requires fresh { (back : Bool) → IsFresh (flow_number exchange back) gates.old }
    requires from { is_known gates.old (BufferId.Write spec.now.from_conn) ≡ true }
    requires to { IfSome spec.now.to_conn (λ c. is_known gates.old (BufferId.Write c) ≡ true) }
    ensures request { IfOk result (λ held. held.0 ≡ is_held_by spec.entry.now.to_conn gates.old) }
    ensures response { IfOk result (λ held. held.1 ≡ is_marked gates.old (BufferId.Write spec.entry.now.from_conn)) }
    ensures ok { OnOk result (BeginsBoth exchange (watches_from (flow_number exchange false) (route_filters (side_filters false) spec.entry.now.row config.now) spec.entry.now.to_conn) (watches_from (flow_number exchange true) (route_filters (side_filters true) spec.entry.now.row config.now) (Some spec.entry.now.from_conn)) spec.entry.now.to_conn spec.entry.now.from_conn gates.old gates.new) }
    ensures sound { AreSoundGates gates.new }
    ensures err { OnErr result (IsSame gates.old gates.new) }
{
    let request = FlowId::request(exchange);
    let filters = filters_of(config, spec.row, request);
    let request_held = begin(gates, request, filters, spec.to_conn)?;
    let response = FlowId::response(exchange);
    let filters = filters_of(config, spec.row, response);
    match begin(gates, response, filters, Some(spec.from_conn)) {
        Ok(response_held) => Ok((request_held, response_held)),
        Err(NoMemory) => {
            gates.forget(request);
            Err(NoMemory)
        }
    }
}

// A flow begins to be held back by its buffers. The answer is whether the write buffer does so at once.
fn begin(
    gates: &mut Gates,
    flow: FlowId,
    filters: &[Filter],
    to: Option<u32>,
) -> Result<bool, NoMemory>
    requires sound { AreSoundGates gates.old }
    requires new { is_open gates.old flow ≡ false }
    requires fresh { IsFresh flow gates.old }
    requires few { length filters.now ≤ 8 }
    requires to { IfSome to (λ c. is_known gates.old (BufferId.Write c) ≡ true) }
    ensures answer { IfOk result (λ held. held ≡ is_held_by to gates.old) }
    ensures ok { OnOk result (BeginsFlow flow (watches_from flow filters.now to) to gates.old gates.new) }
    ensures sound { AreSoundGates gates.new }
    ensures err { OnErr result (IsSame gates.old gates.new) }
{
    match to {
        Some(conn) if filters.is_empty() => gates.open_sender(flow, conn),
        _ => begin_slowly(gates, flow, filters, to),
    }
}

// As `begin`, where the flow may have Meters or goes nowhere. Few do, so it isn't inlined.
#[inline(never)]
fn begin_slowly(
    gates: &mut Gates,
    flow: FlowId,
    filters: &[Filter],
    to: Option<u32>,
) -> Result<bool, NoMemory>
    requires sound { AreSoundGates gates.old }
    requires new { is_open gates.old flow ≡ false }
    requires fresh { IsFresh flow gates.old }
    requires few { length filters.now ≤ 8 }
    requires to { IfSome to (λ c. is_known gates.old (BufferId.Write c) ≡ true) }
    ensures answer { IfOk result (λ held. held ≡ is_held_by to gates.old) }
    ensures ok { OnOk result (BeginsFlow flow (watches_from flow filters.now to) to gates.old gates.new) }
    ensures sound { AreSoundGates gates.new }
    ensures err { OnErr result (IsSame gates.old gates.new) }
{
    gates.open_flow(flow)?;
    match watch_all(gates, flow, filters, to) {
        Ok(held) => Ok(held),
        Err(NoMemory) => {
            gates.forget(flow);
            Err(NoMemory)
        }
    }
}

// A flow watches its Meters, its send buffer and the write buffer that it goes to, if any.
fn watch_all(
    gates: &mut Gates,
    flow: FlowId,
    filters: &[Filter],
    to: Option<u32>,
) -> Result<bool, NoMemory>
    requires sound { AreSoundGates gates.old }
    requires open { is_open gates.old flow ≡ true }
    requires fresh { IsFresh flow gates.old }
    requires few { length filters.now ≤ 8 }
    requires to { IfSome to (λ c. is_known gates.old (BufferId.Write c) ≡ true) }
    requires apart { IfSome to (λ c. times flow (watchers_of gates.old (BufferId.Write c)) ≡ 0) }
    ensures answer { IfOk result (λ held. held ≡ is_held_by to gates.old) }
    ensures grows { Grows flow gates.old gates.new }
    ensures ok { OnOk result (WatchesAll flow (watches_from flow filters.now to) to gates.old gates.new) }
    ensures sound { AreSoundGates gates.new }
{
    watch_meters(gates, flow, filters)?;
    watch_own(gates, flow, BufferId::Send(flow))?;
    let held = watch_write(gates, flow, to)?;
    Ok(held)
}

// The Meters among the stages of a flow.
fn watch_meters(gates: &mut Gates, flow: FlowId, filters: &[Filter]) -> Result<(), NoMemory>
    requires sound { AreSoundGates gates.old }
    requires open { is_open gates.old flow ≡ true }
    requires fresh { IsFresh flow gates.old }
    requires few { length filters.now ≤ 8 }
    ensures grows { Grows flow gates.old gates.new }
    ensures ok { OnOk result (WatchesOwn flow (meters flow 1 filters.now) gates.old gates.new) }
    ensures sound { AreSoundGates gates.new }
{
    let mut place = 1;
    for filter in filters {
        match filter {
            Filter::Pass => {}
            Filter::Hold { .. } => place += 1,
            Filter::Meter { .. } => {
                watch_own(gates, flow, BufferId::Stage(flow, place))?;
                place += 1;
            }
        }
    }
    Ok(())
}

// A buffer of its own, which is empty.
fn watch_own(gates: &mut Gates, flow: FlowId, buffer: BufferId) -> Result<(), NoMemory>
    requires sound { AreSoundGates gates.old }
    requires open { is_open gates.old flow ≡ true }
    requires own { is_own flow buffer ≡ true }
    requires unknown { is_known gates.old buffer ≡ false }
    ensures grows { Grows flow gates.old gates.new }
    ensures ok { OnOk result (WatchesOwn flow (buffer ∷ []) gates.old gates.new) }
    ensures sound { AreSoundGates gates.new }
{
    gates.open_buffer(buffer)?;
    let _above = gates.watch(flow, buffer)?;
    Ok(())
}

// The write buffer that it goes to, if any. The answer is whether that holds it back at once.
fn watch_write(gates: &mut Gates, flow: FlowId, to: Option<u32>) -> Result<bool, NoMemory>
    requires sound { AreSoundGates gates.old }
    requires open { is_open gates.old flow ≡ true }
    requires to { IfSome to (λ c. is_known gates.old (BufferId.Write c) ≡ true) }
    requires apart { IfSome to (λ c. times flow (watchers_of gates.old (BufferId.Write c)) ≡ 0) }
    ensures answer { IfOk result (λ held. held ≡ is_held_by to gates.old) }
    ensures grows { Grows flow gates.old gates.new }
    ensures ok { OnOk result (WatchesAll flow (write_of to) to gates.old gates.new) }
    ensures sound { AreSoundGates gates.new }
{
    match to {
        Some(conn) => gates.watch(flow, BufferId::Write(conn)),
        None => Ok(false),
    }
}

// The filters that a route row has for the flow, none where there is no row.
fn filters_of(config: &Config, row: Option<u32>, flow: FlowId) -> &[Filter]
    ensures filters { result.now ≡ route_filters (side_filters flow.back) row config.now }
    ensures few { All IsRoute config.now.routes → length result.now ≤ 8 }
{
    let Some(row) = row else {
        return &[];
    };
    match config.routes.as_slice().get(row as usize) {
        Some(route) if flow.back => route.response.as_slice(),
        Some(route) => route.request.as_slice(),
        None => &[],
    }
}
