// How the octets of a flow go on.
ghost use Rattle.std.specs.Prelude.{◌≡◌, ◌+◌, ◌-◌, ◌≤◌, IfOk, IfSome, IsOk, IsTrue, None, OnErr, OnOk, Some, false, if◌then◌else◌, length, true};
ghost use Rattle.std.specs.Option.{option_map_or};
ghost use Rattle.exchange_core.specs.Changes.{ChangesFlow};
ghost use Rattle.exchange_core.specs.Moves.{has_room_ahead, next_step, stepped};
ghost use Rattle.exchange_core.specs.Exchanges.{IsLiveFlow, IsSound as AreSoundExchanges, flow_at};
ghost use Rattle.flow_gate.specs.Board.{IsSound as AreSoundGates, is_known, is_marked, pending_on, watchers_of};
ghost use Rattle.flow_rules.specs.declared.ids.BufferId.{BufferId as Buffer};
ghost use Rattle.wire_flows.specs.Begins.{DrainsIf, RisesIf, lows_left};
ghost use Rattle.wire_flows.specs.Flows.{ChangesLeft, KeepsLive, flow_in, goes_to, left_in, time_of};
ghost use Rattle.wire_flows.specs.Measure.{taken_by, to_go};
ghost use Rattle.wire_flows.specs.Moves.{IsMove, StepCrosses, StepMayCross, buffer_at, is_high, is_low, left_by, outcome_of, untold_by};
ghost use Rattle.wire_flows.specs.Sound.{IsSound};
ghost use Rattle.wire_flows.specs.Writes.{KeepsWrites};

use crate::flows::WireFlows;
use exchange_core::{Exchanges, Step};
use flow_gate::{BufferId, FlowId, Gates};
use io_ports::NoMemory;
use wm_buffer::Crossed;

/// A move of octets from one place of a flow to the next.
#[derive(Clone, Copy, PartialEq, Eq)]
pub struct Moved {
    /// The place that they left: 0 is the receive buffer.
    pub place: u32,
    pub n: u32,
    /// The buffer that they went to became above.
    pub rose: Option<BufferId>,
    /// The Meter that they left was above and has drained.
    pub drained: Option<BufferId>,
    /// The buffer that they went to holds more than its multiple of its limit. Then the flow isn't told of the drain.
    pub overflow: bool,
}

/// What one step of a flow did.
#[derive(Clone, Copy, PartialEq, Eq)]
pub enum Outcome {
    /// No place may let octets go.
    Still,
    /// The next place keeps a whole body, and the octets would pass its limit. Nothing moved.
    TooLarge,
    Moved(Moved),
}

impl WireFlows {
    /// One move of a flow: all that the last place may let go which has no later source above, at most a quantum. The receive
    /// buffer lets go only while nothing holds the flow back. Where a Meter drained, its flow is told at once, but not where the
    /// move overflowed. `Still` where the flow isn't live: then nothing has changed.
    ///
    /// After running out of memory nothing has changed, and there is none where the next place is a Hold, or has a limit and isn't
    /// above it.
    pub fn step(&mut self, flow: FlowId) -> Result<Outcome, NoMemory>
        ensures outcome { IfOk result (λ o. o ≡ option_map_or (λ f. outcome_of flow f (next_step self.old.gates (goes_to self.old flow) f)) (flow_in self.old flow) Outcome.Still) }
        ensures flow { OnOk result (ChangesFlow flow (stepped self.old.gates (goes_to self.old flow)) self.old.exchanges self.new.exchanges) }
        ensures moves { IfOk result (IsMove flow) }
        ensures live { KeepsLive self.old self.new }
        ensures left { IfOk result (λ o. ChangesLeft flow (left_in self.old flow - left_by o) self.old self.new) }
        ensures enough { IfOk result (λ o. left_by o ≤ left_in self.old flow) }
        ensures time { time_of self.new ≡ time_of self.old }
        ensures writes { KeepsWrites self.old self.new }
        ensures lows { IfOk result (λ o. (b : Buffer) → pending_on self.new.gates b ≡ untold_by flow o b (pending_on self.old.gates b)) }
        ensures covered { IfSome (flow_in self.old flow) (λ f. IsTrue (has_room_ahead self.old.gates (goes_to self.old flow) f) → IsOk result) }
        ensures less { IfOk result (λ o. to_go self.new + taken_by o ≤ to_go self.old) }
        ensures sound { IsSound self.new }
        ensures err { OnErr result (self.new ≡ self.old) }
    {
        if !self.exchanges.has_flow(flow) {
            return Ok(Outcome::Still);
        }
        let step = self.exchanges.step(flow, &self.gates)?;
        Ok(mark_step(&self.exchanges, &mut self.gates, flow, step))
    }
}

// Tells the gates of a step of a live flow what it crossed, and answers what it did.
fn mark_step(exchanges: &Exchanges, gates: &mut Gates, flow: FlowId, step: Step) -> Outcome
    requires sound { AreSoundGates gates.old }
    requires kept { AreSoundExchanges exchanges.now }
    requires live { IsLiveFlow exchanges.now flow }
    requires may { IfSome (flow_at exchanges.now flow) (λ f. StepMayCross flow f step gates.old) }
    ensures answer { IfSome (flow_at exchanges.now flow) (λ f. result ≡ outcome_of flow f step) }
    ensures crosses { IfSome (flow_at exchanges.now flow) (λ f. StepCrosses flow f step gates.old gates.new) }
    ensures sound { AreSoundGates gates.new }
{
    match step {
        Step::Still => Outcome::Still,
        Step::TooLarge => Outcome::TooLarge,
        Step::Moved {
            place,
            n,
            shifted,
            overflow,
        } => {
            let rose = rise(exchanges, gates, flow, place + 1, shifted.to);
            let drained = drain(gates, flow, place, shifted.from, overflow);
            Outcome::Moved(Moved {
                place,
                n,
                rose,
                drained,
                overflow,
            })
        }
    }
}

// The buffer of a place of a flow: a stage, or the send buffer behind the last one.
fn buffer_at(exchanges: &Exchanges, flow: FlowId, place: u32) -> BufferId
    requires behind { 1 ≤ place }
    requires sound { AreSoundExchanges exchanges.now }
    ensures { IfSome (flow_at exchanges.now flow) (λ f. result ≡ buffer_at flow f place) }
{
    if exchanges.stages(flow) == Some(place - 1) {
        return BufferId::Send(flow);
    }
    BufferId::Stage(flow, place)
}

// The buffer of a place of a live flow became above, or didn't.
fn rise(
    exchanges: &Exchanges,
    gates: &mut Gates,
    flow: FlowId,
    place: u32,
    crossed: Crossed,
) -> Option<BufferId>
    requires behind { 1 ≤ place }
    requires sound { AreSoundGates gates.old }
    requires kept { AreSoundExchanges exchanges.now }
    requires live { IsLiveFlow exchanges.now flow }
    requires low { crossed ≡ Crossed.High → IfSome (flow_at exchanges.now flow) (λ f. (is_known gates.old (buffer_at flow f place) ≡ true) × (is_marked gates.old (buffer_at flow f place) ≡ false)) }
    ensures answer { IfSome (flow_at exchanges.now flow) (λ f. result ≡ (if is_high crossed then Some (buffer_at flow f place) else None)) }
    ensures rises { IfSome (flow_at exchanges.now flow) (λ f. RisesIf (is_high crossed) (buffer_at flow f place) gates.old gates.new) }
    ensures sound { AreSoundGates gates.new }
{
    if crossed != Crossed::High {
        return None;
    }
    let buffer = buffer_at(exchanges, flow, place);
    gates.high(buffer);
    Some(buffer)
}

// A Meter of the flow has drained, or hasn't. The flow is told at once, but not where the move overflowed.
fn drain(
    gates: &mut Gates,
    flow: FlowId,
    place: u32,
    crossed: Crossed,
    overflow: bool,
) -> Option<BufferId>
    requires sound { AreSoundGates gates.old }
    requires high { crossed ≡ Crossed.Low → is_marked gates.old (BufferId.Stage flow place) ≡ true }
    requires few { length (pending_on gates.old (BufferId.Stage flow place)) ≤ 1 }
    ensures answer { result ≡ (if is_low crossed then Some (BufferId.Stage flow place) else None) }
    ensures drains { DrainsIf (is_low crossed) (BufferId.Stage flow place) (lows_left overflow (watchers_of gates.old (BufferId.Stage flow place))) gates.old gates.new }
    ensures sound { AreSoundGates gates.new }
{
    if crossed != Crossed::Low {
        return None;
    }
    let buffer = BufferId::Stage(flow, place);
    // The low of an earlier overflow goes with it.
    let _earlier = gates.next_low(buffer);
    gates.begin_low(buffer);
    if !overflow {
        let _flow = gates.next_low(buffer);
    }
    Some(buffer)
}
