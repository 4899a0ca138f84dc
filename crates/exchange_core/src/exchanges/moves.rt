// How a flow goes on: its steps, and its frames.
ghost use Rattle.std.specs.Prelude.{◌≡◌, ◌↔◌, ◌+◌, ◌≤◌, ◌++◌, IfOk, IfSome, IsNone, IsOk, IsSome, IsTrue, OnErr, OnOk, Some, false, length, option_map, take, true};
ghost use Rattle.std.specs.Option.{option_copied};
ghost use Rattle.exchange_core.specs.Changes.{ChangesFlow};
ghost use Rattle.exchange_core.specs.Effects.{body_framed, list_framed};
ghost use Rattle.exchange_core.specs.Exchanges.{IsLiveFlow, IsSound, flow_at, is_send_above, target_of};
ghost use Rattle.exchange_core.specs.Flow.{send};
ghost use Rattle.exchange_core.specs.Message.{fields_of, head_waits};
ghost use Rattle.exchange_core.specs.Moves.{has_room_ahead, next_step, stepped};
ghost use Rattle.exchange_core.specs.Units.{IsFrameable, carries_end, list_may_end, next_unit};
ghost use Rattle.flow_gate.specs.Board.{is_open};
ghost use Rattle.wm_buffer.specs.Buffer.{AppendsOctets};
ghost use Rattle.wm_buffer.specs.Watermark.{crossing};

use super::Exchanges;
use crate::step::{Advance, Piece, Step};
use flow_gate::{FlowId, Gates};
use flow_rules::Unit;
use hpack_codec::FieldList;
use io_ports::NoMemory;
use wm_buffer::{Shifted, WatermarkBuffer};

impl Exchanges {
    /// One move of a flow: all that the last place may let go which has no later source above, at most a quantum. The
    /// receive buffer lets go only where the gates don't hold the flow back.
    ///
    /// It is `Still` exactly where there is no such place, and `TooLarge` exactly where the next place is a Hold whose
    /// limit the move would pass. `overflow` is true exactly where a multiple is set, and the Meter or send buffer that
    /// was fed has a limit and holds more than so many times it. After running out of memory nothing has changed, and there is
    /// none where the next place is a Hold, or has a limit and isn't above it.
    pub fn step(&mut self, flow: FlowId, gates: &Gates) -> Result<Step, NoMemory>
        requires live { IsLiveFlow self.old flow }
        requires open { is_open gates.now flow ≡ true }
        ensures step { IfOk result (λ step. Some step ≡ option_map (next_step gates.now (target_of self.old flow)) (flow_at self.old flow)) }
        ensures flow { OnOk result (ChangesFlow flow (stepped gates.now (target_of self.old flow)) self.old self.new) }
        ensures covered { IfSome (flow_at self.old flow) (λ f. IsTrue (has_room_ahead gates.now (target_of self.old flow) f) → IsOk result) }
        ensures sound { IsSound self.new }
        ensures err { OnErr result (self.new ≡ self.old) }
    {
        let Some(exchange) = self.live.get_mut(&flow.exchange) else {
            unreachable!()
        };
        let step = exchange.step(flow.back, gates, self.ticked);
        let is_metered = exchange.is_metered();
        self.metered.mark(flow.exchange, is_metered);
        step
    }

    /// One move of a flow, as `step`, and then what goes next into the write buffer, as `next_unit`, with one look-up of the
    /// exchange. None exactly where the flow isn't live: then nothing changes. After running out of memory nothing has changed.
    pub fn advance(
        &mut self,
        flow: FlowId,
        gates: &Gates,
        room: i64,
        frame: u32,
    ) -> Result<Option<Advance>, NoMemory>
        requires open { IsLiveFlow self.old flow → is_open gates.now flow ≡ true }
        ensures live { IfOk result (λ advance. IsSome advance ↔ IsLiveFlow self.old flow) }
        ensures step { IfOk result (λ advance. option_map (λ a. a.step) advance ≡ option_map (next_step gates.now (target_of self.old flow)) (flow_at self.old flow)) }
        ensures unit { IfOk result (λ advance. option_map (λ a. a.unit) advance ≡ option_map (next_unit room frame) (flow_at self.new flow)) }
        ensures frameable { IfOk result (λ advance. IfSome advance (λ a. IfSome (flow_at self.new flow) (λ f. IsFrameable a.unit f))) }
        ensures flow { OnOk result (ChangesFlow flow (stepped gates.now (target_of self.old flow)) self.old self.new) }
        ensures gone { IsNone (flow_at self.old flow) → (result ≡ Ok None) × (self.new ≡ self.old) }
        ensures covered { IfSome (flow_at self.old flow) (λ f. IsTrue (has_room_ahead gates.now (target_of self.old flow) f) → IsOk result) }
        ensures sound { IsSound self.new }
        ensures err { OnErr result (self.new ≡ self.old) }
    {
        let Some(exchange) = self.live.get_mut(&flow.exchange) else {
            return Ok(None);
        };
        let advance = exchange.advance(flow.back, gates, self.ticked, room, frame);
        let is_metered = exchange.is_metered();
        self.metered.mark(flow.exchange, is_metered);
        advance
    }

    /// What of a flow goes next into the write buffer of its connection, where the send windows have `room` octets, below
    /// 0 as 0, and the peer takes `frame` octets in one frame.
    ///
    /// It is its head, once no Hold keeps it; then body, at most a quantum; then its trailers, or an empty frame for its
    /// end. A frame carries the end where the flow's end came, nothing is behind the frame, and no trailers wait. What is
    /// answered may be framed as it stands.
    pub fn next_unit(&self, flow: FlowId, room: i64, frame: u32) -> Unit
        requires { IsLiveFlow self.now flow }
        ensures unit { Some result ≡ option_map (next_unit room frame) (flow_at self.now flow) }
        ensures frameable { IfSome (flow_at self.now flow) (λ f. IsFrameable result f) }
    {
        self.flow(flow).next_unit(room, frame)
    }

    /// What of a flow goes next, as `next_unit`. None exactly where the flow isn't live.
    pub fn unit_of(&self, flow: FlowId, room: i64, frame: u32) -> Option<Unit>
        ensures unit { result ≡ option_map (next_unit room frame) (flow_at self.now flow) }
        ensures frameable { IfSome result (λ unit. IfSome (flow_at self.now flow) (λ f. IsFrameable unit f)) }
    {
        match self.find(flow) {
            Some(flow) => Some(flow.next_unit(room, frame)),
            None => None,
        }
    }

    /// The head of a flow where it came and isn't framed, else the trailers where they came and aren't framed.
    pub fn fields(&self, flow: FlowId) -> Option<&FieldList>
        requires { IsLiveFlow self.now flow }
        ensures { Some (option_copied result) ≡ option_map (λ f. fields_of f.message) (flow_at self.now flow) }
    {
        self.flow(flow).fields()
    }

    /// The list that `fields` gives was framed, and with it the flow's end where `last` holds.
    pub fn framed(&mut self, flow: FlowId, last: bool)
        requires waits { IfSome (flow_at self.old flow) (λ f. IsSome (fields_of f.message)) }
        requires live { IsLiveFlow self.old flow }
        requires all { last ≡ true → IfSome (flow_at self.old flow) (λ f. IsTrue (list_may_end f)) }
        ensures framed { ChangesFlow flow (list_framed last) self.old self.new }
        ensures sound { IsSound self.new }
    {
        let Some(exchange) = self.live.get_mut(&flow.exchange) else {
            unreachable!()
        };
        let Some(flow) = exchange.touch(flow.back, self.ticked) else {
            unreachable!()
        };
        flow.list_framed(last);
    }

    /// Appends `head` and the first n octets of a flow's send buffer to `out` as one change, and drops them here. Where
    /// `last` holds the flow's end is framed with them. Both crossings are answered. After running out of memory nothing has
    /// changed, and there is none where `out` has room for both.
    pub fn frame_body(
        &mut self,
        flow: FlowId,
        out: &mut WatermarkBuffer,
        head: &[u8],
        n: u32,
        last: bool,
    ) -> Result<Shifted, NoMemory>
        requires live { IsLiveFlow self.old flow }
        requires headed { IfSome (flow_at self.old flow) (λ f. head_waits f.message ≡ false) }
        requires octets { IfSome (flow_at self.old flow) (λ f. n ≤ length (send f)) }
        requires all { last ≡ true → IfSome (flow_at self.old flow) (λ f. IsTrue (carries_end n f)) }
        ensures frames { OnOk result (ChangesFlow flow (body_framed n last) self.old self.new) }
        ensures appends { IfSome (flow_at self.old flow) (λ f. OnOk result (AppendsOctets out.old out.new (head.now ++ take n (send f)))) }
        ensures from { IfOk result (λ shifted. shifted.from ≡ crossing (is_send_above self.old flow) (is_send_above self.new flow)) }
        ensures to { IfOk result (λ shifted. shifted.to ≡ crossing out.old.above out.new.above) }
        ensures covered { length head.now + n ≤ out.old.spare → IsOk result }
        ensures sound { IsSound self.new }
        ensures err { OnErr result ((self.new ≡ self.old) × (out.new ≡ out.old)) }
    {
        let Some(exchange) = self.live.get_mut(&flow.exchange) else {
            unreachable!()
        };
        let Some(flow) = exchange.touch(flow.back, self.ticked) else {
            unreachable!()
        };
        flow.frame_body(out, head, n, last)
    }

    /// As `frame_body` with this piece, and then what goes next, as `next_unit`, with one look-up of the exchange. After
    /// running out of memory nothing has changed.
    pub fn frame_unit(
        &mut self,
        flow: FlowId,
        out: &mut WatermarkBuffer,
        head: &[u8],
        piece: Piece,
        room: i64,
        frame: u32,
    ) -> Result<(Shifted, Unit), NoMemory>
        requires live { IsLiveFlow self.old flow }
        requires headed { IfSome (flow_at self.old flow) (λ f. head_waits f.message ≡ false) }
        requires octets { IfSome (flow_at self.old flow) (λ f. piece.n ≤ length (send f)) }
        requires all { piece.last ≡ true → IfSome (flow_at self.old flow) (λ f. IsTrue (carries_end piece.n f)) }
        ensures frames { OnOk result (ChangesFlow flow (body_framed piece.n piece.last) self.old self.new) }
        ensures appends { IfSome (flow_at self.old flow) (λ f. OnOk result (AppendsOctets out.old out.new (head.now ++ take piece.n (send f)))) }
        ensures from { IfOk result (λ framed. framed.0.from ≡ crossing (is_send_above self.old flow) (is_send_above self.new flow)) }
        ensures to { IfOk result (λ framed. framed.0.to ≡ crossing out.old.above out.new.above) }
        ensures unit { IfOk result (λ framed. Some framed.1 ≡ option_map (next_unit room frame) (flow_at self.new flow)) }
        ensures frameable { IfOk result (λ framed. IfSome (flow_at self.new flow) (λ f. IsFrameable framed.1 f)) }
        ensures covered { length head.now + piece.n ≤ out.old.spare → IsOk result }
        ensures sound { IsSound self.new }
        ensures err { OnErr result ((self.new ≡ self.old) × (out.new ≡ out.old)) }
    {
        let Some(exchange) = self.live.get_mut(&flow.exchange) else {
            unreachable!()
        };
        let Some(flow) = exchange.touch(flow.back, self.ticked) else {
            unreachable!()
        };
        flow.frame_unit(out, head, piece, room, frame)
    }
}
