// The chain of a flow's stages.
ghost use Rattle.std.specs.Prelude.{◌≡◌, ◌≢◌, ◌↔◌, ◌+◌, ◌<◌, ◌≤◌, ◌++◌, ◌==◌, [], false, length, take, true, IsTrue, IsOk, OnOk, OnErr, IfOk};
ghost use Rattle.filter_chain.specs.Chain.{IsSound, above_at, empty_chain, limit_at, octets_at, send_place};
ghost use Rattle.filter_chain.specs.Effects.{finished, framed, offered, released, ticked};
ghost use Rattle.filter_chain.specs.Release.{has_room_at, head_may_go, is_source_at, is_whole_at, may_release, overfills};
ghost use Rattle.proxy_config.specs.Ranges.{AreFilters, IsBetween, most_octets};
ghost use Rattle.wm_buffer.specs.Buffer.{AppendsOctets, DropsOctets};
ghost use Rattle.wm_buffer.specs.Watermark.{crossing};

use crate::fault::OfferFault;
use crate::meter::Clock;
use crate::places::{all_empty, empty_alone, feed, frame_last, pass_on, refill_all, stages_of};
use crate::stage::{Stage, StageKind};
use flow_rules::FlowId;
use io_ports::NoMemory;
use proxy_config::FilterList;
use std::alloc::Global;
use std::marker::Model;
use wm_buffer::{Shifted, WatermarkBuffer};

/// The stages of one flow, and its send buffer behind them.
///
/// Its places are counted from 1: the stages, and then the send buffer. Place 0 is the flow's receive
/// buffer, which stands outside. Octets leave a place at its front and come to the end of the next.
#[derive(Drop)]
pub struct Chain {
    flow: FlowId,
    quantum: u32,
    clock: Clock,
    ended: bool,
    recv_empty: bool,
    stages: Vec<Stage>,
}

impl Model for Chain {
    ghost use Rattle.filter_chain.specs.Chain.{Chain};

    ghost Value = { Chain };

    ghost use Rattle.filter_chain.specs.View.{chain_of, IsKept};

    ghost view = { chain_of };

    ghost invariant = { IsKept };
}

impl Chain {
    /// The stages of a flow's filters and its send buffer, empty.
    ///
    /// There are at most 8 filters, and a Pass makes no stage. `send_limit` is 0 to 16,777,216 octets, 0 for none. The Meters
    /// start at `now`, in ms, with as many tokens as their rates. One move carries at most `quantum` octets, 16,384 to
    /// 1,048,576. Each buffer with a limit gets its room here: a Hold for its limit, a Meter and the send buffer for `quantum`
    /// more. Refused only for lack of memory.
    pub fn new(
        alloc: Global,
        flow: FlowId,
        filters: &FilterList,
        send_limit: u32,
        now: u64,
        quantum: u32,
    ) -> Result<Self, NoMemory>
        requires filters { AreFilters filters.now }
        requires send_limit { send_limit ≤ most_octets }
        requires quantum { IsBetween 16384 1048576 quantum }
        ensures made { IfOk result (λ chain. chain ≡ empty_chain flow filters.now send_limit now quantum) }
        ensures sound { IfOk result IsSound }
    {
        let stages = stages_of(alloc, filters.as_slice(), send_limit, quantum)?;
        Ok(Chain {
            flow,
            quantum,
            clock: Clock::new(now),
            ended: false,
            recv_empty: false,
            stages,
        })
    }

    /// The chain of a flow without stages, as `new` makes it, with the room of this one. The answer is false, and nothing has
    /// changed, where this one has stages, or a send buffer with another limit.
    pub fn renew(&mut self, flow: FlowId, send_limit: u32, now: u64) -> bool
        ensures made { result ≡ true → self.new ≡ empty_chain flow [] send_limit now self.old.quantum }
        ensures sound { IsSound self.new }
        ensures same { result ≡ false → self.new ≡ self.old }
    {
        if empty_alone(&mut self.stages, send_limit) {
            self.flow = flow;
            self.clock = Clock::new(now);
            self.ended = false;
            self.recv_empty = false;
            return true;
        }
        false
    }

    /// The flow whose octets these are.
    pub fn flow(&self) -> FlowId
        ensures { result ≡ self.now.flow }
    {
        self.flow
    }

    /// The last moment that it was told, in ms.
    pub fn time(&self) -> u64
        ensures { result ≡ self.now.time }
    {
        self.clock.time
    }

    /// The number of places, which is that of the send buffer: 1 to 9.
    pub fn places(&self) -> u32
        ensures places { result ≡ send_place self.now }
        ensures sound { IsSound self.now }
    {
        self.stages.len() as u32
    }

    /// How many octets a place holds.
    pub fn len(&self, place: u32) -> u32
        requires first { 1 ≤ place }
        requires last { place ≤ send_place self.now }
        ensures { result ≡ length (octets_at self.now place) }
    {
        self.stages[place as usize - 1].len()
    }

    /// Whether a place pauses the flow while it is above: a Meter and the send buffer do.
    pub fn is_source(&self, place: u32) -> bool
        requires first { 1 ≤ place }
        requires last { place ≤ send_place self.now }
        ensures { result ≡ is_source_at self.now place }
    {
        self.stages[place as usize - 1].kind.is_source()
    }

    /// The limit of a place in octets, 0 for none.
    pub fn limit(&self, place: u32) -> u32
        requires first { 1 ≤ place }
        requires last { place ≤ send_place self.now }
        ensures { result ≡ limit_at self.now place }
    {
        self.stages[place as usize - 1].limit()
    }

    /// Moves the first n octets of the flow's receive buffer into place 1. Both buffers' crossings are
    /// answered. After a fault nothing has moved.
    ///
    /// It is `TooLarge` exactly where place 1 is a Hold whose limit they would pass. There is memory
    /// for them where place 1 is a Hold, or isn't above its limit and they are no more than one move.
    pub fn offer(&mut self, from: &mut WatermarkBuffer, n: u32) -> Result<Shifted, OfferFault>
        requires { n ≤ length from.old.octets }
        ensures drops { OnOk result (DropsOctets from.old from.new n) }
        ensures gains { OnOk result (self.new ≡ offered self.old (take n from.old.octets) (length from.new.octets == 0)) }
        ensures from { IfOk result (λ shifted. shifted.from ≡ crossing from.old.above from.new.above) }
        ensures to { IfOk result (λ shifted. shifted.to ≡ crossing (above_at self.old 1) (above_at self.new 1)) }
        ensures too_large { (result ≡ Err OfferFault.TooLarge) ↔ IsTrue (overfills self.old 1 n) }
        ensures ready { IsTrue (has_room_at self.old 1 n) → result ≢ Err OfferFault.NoMemory }
        ensures sound { IsSound self.new }
        ensures err { OnErr result ((self.new ≡ self.old) × (from.new ≡ from.old)) }
    {
        let shifted = feed(&mut self.stages, from, n)?;
        self.recv_empty = from.is_empty();
        Ok(shifted)
    }

    /// How many octets a stage may pass on now, at most one move.
    ///
    /// A Hold passes on none until the flow's end came and every place before it is empty, the receive
    /// buffer too. A Meter passes on at most as many as it has tokens.
    pub fn may_release(&self, place: u32) -> u32
        requires first { 1 ≤ place }
        requires stage { place < send_place self.now }
        ensures released { result ≡ may_release self.now place }
        ensures quantum { result ≤ self.now.quantum }
        ensures octets { result ≤ length (octets_at self.now place) }
    {
        let index = place as usize - 1;
        let stage = &self.stages[index];
        let most = self.quantum.min(stage.len());
        match stage.kind {
            StageKind::Hold if self.is_whole_at(index) => most,
            StageKind::Hold => 0,
            StageKind::Meter { rate: _ } => most.min(stage.tokens),
            StageKind::Send => 0,
        }
    }

    /// Whether the flow's end came and all before the stage with this index is empty.
    fn is_whole_at(&self, index: usize) -> bool
        requires { index ≤ send_place self.now }
        ensures { result ≡ is_whole_at self.now (index + 1) }
    {
        self.ended && self.recv_empty && all_empty(&self.stages[..index])
    }

    /// Moves the first n octets of a stage to the next place. Both crossings are answered. After a
    /// fault nothing has moved.
    ///
    /// It is `TooLarge` exactly where the next place is a Hold whose limit they would pass. There is
    /// memory for them where the next place is a Hold, or has a limit and isn't above it.
    pub fn release(&mut self, place: u32, n: u32) -> Result<Shifted, OfferFault>
        requires first { 1 ≤ place }
        requires stage { place < send_place self.old }
        requires some { 1 ≤ n }
        requires free { n ≤ may_release self.old place }
        ensures moves { OnOk result (self.new ≡ released self.old place n) }
        ensures from { IfOk result (λ shifted. shifted.from ≡ crossing (above_at self.old place) (above_at self.new place)) }
        ensures to { IfOk result (λ shifted. shifted.to ≡ crossing (above_at self.old (place + 1)) (above_at self.new (place + 1))) }
        ensures too_large { (result ≡ Err OfferFault.TooLarge) ↔ IsTrue (overfills self.old (place + 1) n) }
        ensures ready { IsTrue (has_room_at self.old (place + 1) n) → result ≢ Err OfferFault.NoMemory }
        ensures sound { IsSound self.new }
        ensures err { OnErr result (self.new ≡ self.old) }
    {
        pass_on(&mut self.stages, place as usize, n)
    }

    /// Appends `head` and the first n octets of the send buffer to `out` as one change, and drops them
    /// here. Both crossings are answered. After running out of memory nothing has changed, and there is none
    /// where `out` has room for both.
    pub fn frame(
        &mut self,
        out: &mut WatermarkBuffer,
        head: &[u8],
        n: u32,
    ) -> Result<Shifted, NoMemory>
        requires { n ≤ length (octets_at self.old (send_place self.old)) }
        ensures frames { OnOk result (self.new ≡ framed self.old n) }
        ensures appends { OnOk result (AppendsOctets out.old out.new (head.now ++ take n (octets_at self.old (send_place self.old)))) }
        ensures from { IfOk result (λ shifted. shifted.from ≡ crossing (above_at self.old (send_place self.old)) (above_at self.new (send_place self.new))) }
        ensures to { IfOk result (λ shifted. shifted.to ≡ crossing out.old.above out.new.above) }
        ensures covered { length head.now + n ≤ out.old.spare → IsOk result }
        ensures sound { IsSound self.new }
        ensures err { OnErr result ((self.new ≡ self.old) × (out.new ≡ out.old)) }
    {
        frame_last(&mut self.stages, out, head, n)
    }

    /// Goes on to the moment `now`, in ms. Each Meter gains as many tokens as its rate for each whole
    /// 50 ms since it started that ended since the last moment, and has at most that many.
    pub fn tick(&mut self, now: u64)
        requires { self.old.time ≤ now }
        ensures ticked { self.new ≡ ticked self.old now }
        ensures sound { IsSound self.new }
    {
        let steps = self.clock.go_on(now);
        refill_all(&mut self.stages, steps);
    }

    /// The flow's end came, when its receive buffer was empty or not.
    pub fn finish(&mut self, recv_empty: bool)
        ensures finished { self.new ≡ finished self.old recv_empty }
        ensures sound { IsSound self.new }
    {
        self.ended = true;
        self.recv_empty = recv_empty;
    }

    /// Whether the flow's head may be framed: no Hold waits for the flow's end, or for a place before
    /// it to be empty.
    pub fn head_may_go(&self) -> bool
        ensures { result ≡ head_may_go self.now }
    {
        for (index, stage) in self.stages.iter().enumerate() {
            if stage.kind.is_hold() && !self.is_whole_at(index) {
                return false;
            }
        }
        true
    }
}
