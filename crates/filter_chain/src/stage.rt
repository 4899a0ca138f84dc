// A stage of a flow. The send buffer counts as the last one.
ghost use Rattle.std.specs.Prelude.{◌≡◌, ◌+◌, ◌-◌, ◌<◌, ◌≤◌, ◌^◌, ◌++◌, ◌==◌, ◌↔◌, ◌&&◌, [], length, drop, take, IsTrue, IsOk, OnOk, OnErr, IfOk};
ghost use Rattle.filter_chain.specs.Place.{beyond, empty_place, gaining, holding, is_hold, is_source, letting_go, losing, rate_of, refilled};
ghost use Rattle.filter_chain.specs.Release.{is_overfilled_by};
ghost use Rattle.wm_buffer.specs.Buffer.{AppendsOctets, DropsOctets};
ghost use Rattle.wm_buffer.specs.Watermark.{crossing};

use crate::fault::OfferFault;
use crate::meter::refilled_tokens;
use io_ports::NoMemory;
use std::alloc::Global;
use wm_buffer::{Shifted, WatermarkBuffer};

/// What a place on the way of a flow does with its octets.
#[derive(Clone, Copy, PartialEq, Eq)]
pub enum StageKind {
    /// Keeps the whole body until its end.
    Hold,
    /// Lets `rate` octets go each 50 ms.
    Meter { rate: u32 },
    /// The send buffer, of whose octets frames are made.
    Send,
}

impl StageKind {
    pub fn is_hold(self) -> bool
        ensures { result ≡ is_hold self }
    {
        match self {
            StageKind::Hold => true,
            StageKind::Meter { rate: _ } | StageKind::Send => false,
        }
    }

    /// Whether it pauses the flow while it is above its limit.
    pub fn is_source(self) -> bool
        ensures { result ≡ is_source self }
    {
        !self.is_hold()
    }

    /// What may come beyond the limit at once, where one move brings `quantum` octets.
    pub fn beyond(self, quantum: u32) -> u32
        ensures { result ≡ beyond self quantum }
    {
        match self {
            StageKind::Hold => 0,
            StageKind::Meter { rate: _ } | StageKind::Send => quantum,
        }
    }

    /// What a Meter has of tokens at most.
    pub fn rate(self) -> u32
        ensures { result ≡ rate_of self }
    {
        match self {
            StageKind::Meter { rate } => rate,
            StageKind::Hold | StageKind::Send => 0,
        }
    }
}

/// A place on the way of a flow.
#[derive(Drop)]
pub struct Stage {
    pub kind: StageKind,
    pub buffer: WatermarkBuffer,
    /// How many octets a Meter may still let go.
    pub tokens: u32,
}

impl Stage {
    ghost use Rattle.filter_chain.specs.Stage.{Covers, IsReady, KeepsRoom, place_of};

    /// An empty stage. A Meter begins with as many tokens as its rate. Where there is a limit, room is
    /// made for it, and but for a Hold for one move beyond it.
    pub fn new(alloc: Global, kind: StageKind, limit: u32, quantum: u32) -> Result<Self, NoMemory>
        requires { limit + quantum < 2 ^ 31 }
        ensures place { IfOk result (λ stage. place_of stage ≡ empty_place kind limit) }
        ensures ready { IfOk result (IsReady quantum) }
    {
        let mut buffer = WatermarkBuffer::new(alloc, limit);
        if limit > 0 {
            buffer.ready(kind.beyond(quantum))?;
        }
        Ok(Stage {
            kind,
            buffer,
            tokens: kind.rate(),
        })
    }

    pub fn len(&self) -> u32
        ensures { result ≡ length self.now.buffer.octets }
    {
        self.buffer.len()
    }

    pub fn limit(&self) -> u32
        ensures { result ≡ self.now.buffer.limit }
    {
        self.buffer.limit()
    }

    pub fn is_empty(&self) -> bool
        ensures { result ≡ (length self.now.buffer.octets == 0) }
    {
        self.buffer.is_empty()
    }

    /// Drops its octets.
    pub fn empty(&mut self)
        ensures place { place_of self.new ≡ holding [] (place_of self.old) }
        ensures room { KeepsRoom self.old self.new }
    {
        let held = self.buffer.len();
        // An empty buffer is never above. That is asked all the same: the clause on the place is proved from the answer.
        if held > 0 || self.buffer.is_above() {
            let _ = self.buffer.take(held);
        }
    }

    /// Whether this is a Hold whose limit n more octets pass.
    pub fn is_overfilled_by(&self, n: u32) -> bool
        ensures { result ≡ is_overfilled_by n (place_of self.now) }
    {
        self.kind.is_hold()
            && u64::from(self.buffer.limit()) < u64::from(self.buffer.len()) + u64::from(n)
    }

    /// Takes the first n octets of a buffer.
    pub fn take_from(&mut self, from: &mut WatermarkBuffer, n: u32) -> Result<Shifted, OfferFault>
        requires { n ≤ length from.old.octets }
        ensures drops { OnOk result (DropsOctets from.old from.new n) }
        ensures gains { OnOk result (place_of self.new ≡ gaining (take n from.old.octets) (place_of self.old)) }
        ensures room { KeepsRoom self.old self.new }
        ensures from { IfOk result (λ shifted. shifted.from ≡ crossing from.old.above from.new.above) }
        ensures to { IfOk result (λ shifted. shifted.to ≡ crossing self.old.buffer.above self.new.buffer.above) }
        ensures too_large { (result ≡ Err OfferFault.TooLarge) ↔ IsTrue (is_overfilled_by n (place_of self.old)) }
        ensures covered { Covers self.old n (result ≡ Err OfferFault.NoMemory) }
        ensures err { OnErr result ((self.new ≡ self.old) × (from.new ≡ from.old)) }
    {
        if self.is_overfilled_by(n) {
            return Err(OfferFault::TooLarge);
        }
        let shifted = from.move_to(&mut self.buffer, &[], n)?;
        Ok(shifted)
    }

    /// Lets the first n octets go to the next stage, for a token each.
    pub fn pass_to(&mut self, next: &mut Stage, n: u32) -> Result<Shifted, OfferFault>
        requires { n ≤ length self.old.buffer.octets }
        ensures lets_go { OnOk result (place_of self.new ≡ letting_go n (place_of self.old)) }
        ensures gains { OnOk result (place_of next.new ≡ gaining (take n self.old.buffer.octets) (place_of next.old)) }
        ensures room { KeepsRoom self.old self.new }
        ensures next_room { KeepsRoom next.old next.new }
        ensures from { IfOk result (λ shifted. shifted.from ≡ crossing self.old.buffer.above self.new.buffer.above) }
        ensures to { IfOk result (λ shifted. shifted.to ≡ crossing next.old.buffer.above next.new.buffer.above) }
        ensures too_large { (result ≡ Err OfferFault.TooLarge) ↔ IsTrue (is_overfilled_by n (place_of next.old)) }
        ensures covered { Covers next.old n (result ≡ Err OfferFault.NoMemory) }
        ensures err { OnErr result ((self.new ≡ self.old) × (next.new ≡ next.old)) }
    {
        let shifted = next.take_from(&mut self.buffer, n)?;
        self.tokens = self.tokens.saturating_sub(n);
        Ok(shifted)
    }

    /// Appends `head` and the first n octets to a buffer, and drops them here.
    pub fn send_to(
        &mut self,
        out: &mut WatermarkBuffer,
        head: &[u8],
        n: u32,
    ) -> Result<Shifted, NoMemory>
        requires { n ≤ length self.old.buffer.octets }
        ensures loses { OnOk result (place_of self.new ≡ losing n (place_of self.old)) }
        ensures appends { OnOk result (AppendsOctets out.old out.new (head.now ++ take n self.old.buffer.octets)) }
        ensures room { KeepsRoom self.old self.new }
        ensures from { IfOk result (λ shifted. shifted.from ≡ crossing self.old.buffer.above self.new.buffer.above) }
        ensures to { IfOk result (λ shifted. shifted.to ≡ crossing out.old.above out.new.above) }
        ensures covered { length head.now + n ≤ out.old.spare → IsOk result }
        ensures err { OnErr result ((self.new ≡ self.old) × (out.new ≡ out.old)) }
    {
        self.buffer.move_to(out, head, n)
    }

    /// Gains tokens for so many whole 50 ms.
    pub fn refill(&mut self, steps: u64)
        ensures place { place_of self.new ≡ refilled steps (place_of self.old) }
        ensures room { KeepsRoom self.old self.new }
    {
        self.tokens = refilled_tokens(self.tokens, self.kind.rate(), steps);
    }
}
