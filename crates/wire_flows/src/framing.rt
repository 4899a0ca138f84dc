// How a flow's units are framed.
ghost use Rattle.std.specs.Prelude.{◌≡◌, [], drop, true, ◌-ℤ◌, ◌+◌, ◌<◌, ◌≤◌, ◌^◌, ◌&&◌, ◌++◌, ℕ, Bool, IfOk, IfSome, IsNone, IsOk, IsSome, OnErr, Some, length, not, option_map, pos, take};
ghost use Rattle.std.specs.Int.{int_min};
ghost use Rattle.std.specs.Option.{option_and_then, option_copied};
ghost use Rattle.exchange_core.specs.Changes.{ChangesFlow};
ghost use Rattle.exchange_core.specs.Effects.{body_framed, list_framed};
ghost use Rattle.exchange_core.specs.Exchanges.{is_send_above};
ghost use Rattle.exchange_core.specs.Flow.{send};
ghost use Rattle.exchange_core.specs.Message.{fields_of};
ghost use Rattle.exchange_core.specs.Units.{IsFrameable, next_unit};
ghost use Rattle.flow_gate.specs.Board.{IsSound as AreSoundGates, is_known, is_marked, pending_on, watchers_of};
ghost use Rattle.flow_rules.specs.declared.ids.BufferId.{BufferId as Buffer};
ghost use Rattle.flow_rules.specs.Narrowed.{octets_of};
ghost use Rattle.flow_rules.specs.declared.unit.Unit.TheVariants.{Body, Head};
ghost use Rattle.h2_frames.specs.Head.{data_head as data_head_octets};
ghost use Rattle.wire_flows.specs.Begins.{Crosses, DrainsTo};
ghost use Rattle.wire_flows.specs.Flows.{IsThere, KeepsLeft, KeepsLive, flow_in, is_live_in, time_of};
ghost use Rattle.wire_flows.specs.Measure.{to_go};
ghost use Rattle.wire_flows.specs.Moves.{is_high, is_low, piece_framed, piece_of};
ghost use Rattle.wire_flows.specs.Sound.{IsSound};
ghost use Rattle.wire_flows.specs.Writes.{ChangesWrite, Keeps, raised, write_at};
ghost use Rattle.wm_buffer.specs.Buffer.{AppendsOctets};

use crate::flows::{WireFlows, rise};
use exchange_core::{Piece, Unit};
use flow_gate::{BufferId, FlowId, Gates};
use h2_frames::data_head;
use hpack_codec::FieldList;
use io_ports::NoMemory;
use wm_buffer::{Crossed, Shifted, WatermarkBuffer};

/// A DATA frame, and what it did to the buffers.
#[derive(Clone, Copy, PartialEq, Eq)]
pub struct Framed {
    /// The octets of the body that it carries, and whether it carries the end.
    pub n: u32,
    pub last: bool,
    /// The write buffer became above.
    pub rose: bool,
    /// The send buffer was above and has drained: its flow is told.
    pub drained: bool,
    /// What of the flow goes next.
    pub next: Unit,
}

impl WireFlows {
    /// What of a live flow goes next, where its stream has `room` octets and the peer takes `frame` in one frame. It may be
    /// framed as it stands.
    pub fn next_unit(&self, flow: FlowId, room: i64, frame: u32) -> Unit
        requires { IsThere self.now flow }
        ensures unit { Some result ≡ option_map (next_unit room frame) (flow_in self.now flow) }
        ensures frameable { IfSome (flow_in self.now flow) (λ f. IsFrameable result f) }
        ensures within { (n : ℕ) (last : Bool) → result ≡ Body n last → (n ≤ frame) × (n ≤ octets_of room) × (n < 2 ^ 24) }
    {
        self.exchanges.next_unit(flow, room, frame)
    }

    /// What of a flow goes next, as `next_unit`. None exactly where the flow isn't live.
    pub fn unit_of(&self, flow: FlowId, room: i64, frame: u32) -> Option<Unit>
        ensures unit { result ≡ option_map (next_unit room frame) (flow_in self.now flow) }
        ensures frameable { IfSome result (λ unit. IfSome (flow_in self.now flow) (IsFrameable unit)) }
        ensures there { IsSome result → IsThere self.now flow }
        ensures live { IsSome result → is_live_in self.now flow.exchange ≡ true }
    {
        self.exchanges.unit_of(flow, room, frame)
    }

    /// The head that waits to be framed, else the trailers that do.
    pub fn fields(&self, flow: FlowId) -> Option<&FieldList>
        requires { IsThere self.now flow }
        ensures { Some (option_copied result) ≡ option_map (λ f. fields_of f.message) (flow_in self.now flow) }
    {
        self.exchanges.fields(flow)
    }

    /// The list that `fields` gives was framed, and with it the flow's end where `last` holds. It is one that `next_unit` answers: a
    /// head with its `last`, or trailers, which are the last.
    pub fn list_framed(&mut self, flow: FlowId, last: bool)
        requires live { IsThere self.old flow }
        requires frameable { IfSome (flow_in self.old flow) (IsFrameable (Head last)) }
        ensures framed { ChangesFlow flow (list_framed last) self.old.exchanges self.new.exchanges }
        ensures rest { self.new.gates ≡ self.old.gates }
        ensures keeps { Keeps self.old self.new }
        ensures less { to_go self.new + 40 ≤ to_go self.old }
        ensures sound { IsSound self.new }
    {
        self.exchanges.framed(flow, last);
    }

    /// Frames the body octets of a flow that go next, on the stream of a connection with this write buffer, where its stream has
    /// `room` octets, it may have `most` (by the connection's window, say), and the peer takes `frame` in one frame. The answer
    /// has what goes next then, under the room that the stream has left. None, and nothing has changed, where something else
    /// goes next. After running out of memory nothing has changed, and there is none where the write buffer has room for the frame.
    pub fn frame_body(
        &mut self,
        flow: FlowId,
        conn: u32,
        stream: u32,
        out: &mut WatermarkBuffer,
        room: i64,
        most: i64,
        frame: u32,
    ) -> Result<Option<Framed>, NoMemory>
        requires { IsThere self.old flow }
        ensures answer { IfOk result (λ r. option_map piece_framed r ≡ option_and_then (λ f. piece_of (next_unit (int_min room most) frame f)) (flow_in self.old flow)) }
        ensures none { IfOk result (λ r. IsNone r → (self.new ≡ self.old) × (out.new ≡ out.old)) }
        ensures within { IfOk result (λ r. IfSome r (λ framed. (framed.n ≤ frame) × (framed.n ≤ octets_of room) × (framed.n ≤ octets_of most) × (framed.n < 2 ^ 24))) }
        ensures frames { IfOk result (λ r. IfSome r (λ framed. ChangesFlow flow (body_framed framed.n framed.last) self.old.exchanges self.new.exchanges)) }
        ensures appends { IfOk result (λ r. IfSome r (λ framed. IfSome (flow_in self.old flow) (λ f. AppendsOctets out.old out.new (data_head_octets stream framed.n framed.last ++ take framed.n (send f))))) }
        ensures grown { IfOk result (λ r. IfSome r (λ framed. length out.new.octets ≡ length out.old.octets + (9 + framed.n))) }
        ensures rose { IfOk result (λ r. IfSome r (λ framed. framed.rose ≡ (not out.old.above && out.new.above))) }
        ensures drained { IfOk result (λ r. IfSome r (λ framed. framed.drained ≡ (is_send_above self.old.exchanges flow && not (is_send_above self.new.exchanges flow)))) }
        ensures next { IfOk result (λ r. IfSome r (λ framed. Some framed.next ≡ option_map (next_unit (room -ℤ pos framed.n) frame) (flow_in self.new flow))) }
        ensures live { KeepsLive self.old self.new }
        ensures left { KeepsLeft self.old self.new }
        ensures time { time_of self.new ≡ time_of self.old }
        ensures writes { IfOk result (λ r. IfSome r (λ framed. ChangesWrite conn (option_map (raised framed.rose) (write_at conn self.old)) self.old self.new)) }
        ensures lows { (b : Buffer) → pending_on self.new.gates b ≡ pending_on self.old.gates b }
        ensures covered { IfSome (option_and_then (λ f. piece_of (next_unit (int_min room most) frame f)) (flow_in self.old flow)) (λ piece. 9 + piece.n ≤ out.old.spare → IsOk result) }
        ensures less { IfOk result (λ r. IfSome r (λ framed. to_go self.new + 40 ≤ to_go self.old)) }
        ensures sound { IsSound self.new }
        ensures err { OnErr result ((self.new ≡ self.old) × (out.new ≡ out.old)) }
    {
        let Unit::Body { n, last } = self.exchanges.next_unit(flow, room.min(most), frame) else {
            return Ok(None);
        };
        let head = data_head(stream, n, last);
        let piece = Piece { n, last };
        let rest = room - i64::from(n);
        let (shifted, next) = self
            .exchanges
            .frame_unit(flow, out, &head, piece, rest, frame)?;
        let (rose, drained) = mark_frame(&mut self.gates, flow, conn, shifted);
        Ok(Some(Framed {
            n,
            last,
            rose,
            drained,
            next,
        }))
    }
}

// Tells the gates of a frame what it crossed. The answers are whether the write buffer rose, and whether the send buffer drained.
fn mark_frame(gates: &mut Gates, flow: FlowId, conn: u32, shifted: Shifted) -> (bool, bool)
    requires sound { AreSoundGates gates.old }
    requires high { is_low shifted.from ≡ true → is_marked gates.old (BufferId.Send flow) ≡ true }
    requires told { pending_on gates.old (BufferId.Send flow) ≡ [] }
    ensures rose { result.0 ≡ is_high shifted.to }
    ensures drained { result.1 ≡ is_low shifted.from }
    ensures crosses { Crosses (is_high shifted.to && (is_known gates.old (BufferId.Write conn) && not (is_marked gates.old (BufferId.Write conn)))) (BufferId.Write conn) (is_low shifted.from) (BufferId.Send flow) (drop 1 (watchers_of gates.old (BufferId.Send flow))) gates.old gates.new }
    ensures sound { AreSoundGates gates.new }
{
    let rose = shifted.to == Crossed::High;
    if rose {
        rise(gates, conn);
    }
    let drained = shifted.from == Crossed::Low;
    if drained {
        tell_own(gates, flow);
    }
    (rose, drained)
}

// The send buffer of a flow drained, and its flow is told at once.
fn tell_own(gates: &mut Gates, flow: FlowId)
    requires high { is_marked gates.old (BufferId.Send flow) ≡ true }
    requires told { pending_on gates.old (BufferId.Send flow) ≡ [] }
    ensures drains { DrainsTo (BufferId.Send flow) (drop 1 (watchers_of gates.old (BufferId.Send flow))) gates.old gates.new }
    ensures sound { AreSoundGates gates.new }
{
    let buffer = BufferId::Send(flow);
    gates.begin_low(buffer);
    let _flow = gates.next_low(buffer);
}
