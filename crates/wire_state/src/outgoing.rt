// What goes out on a connection.
ghost use Rattle.exchange_core.specs.Changes.{ChangesFlow};
ghost use Rattle.exchange_core.specs.Effects.{body_framed, list_framed};
ghost use Rattle.exchange_core.specs.Flow.{send};
ghost use Rattle.exchange_core.specs.Units.{IsFrameable as IsFrameableUnit};
ghost use Rattle.flow_rules.specs.declared.unit.Unit.TheVariants.{Head};
ghost use Rattle.h2_frames.specs.Frame.{WindowUpdate};
ghost use Rattle.h2_frames.specs.Head.{data_head};
ghost use Rattle.h2_frames.specs.Spelling.{spelling};
ghost use Rattle.h2_windows.specs.SendWindow.{Spend, changed};
ghost use Rattle.proxy_config.specs.declared.config.LimitKeys.{LimitKeys as Limits};
ghost use Rattle.std.specs.Prelude.{◌≡◌, ◌<◌, ◌≤◌, ◌+◌, ◌&&◌, ◌++◌, ◌^◌, [], IfOk, IfSome, MatchOption, OnOk, drop, false, length, min, not, option_map, take, true};
ghost use Rattle.wire_flows.specs.Flows.{IsThere, KeepsLive, flow_in, time_of};
ghost use Rattle.wire_flows.specs.Measure.{to_go};
ghost use Rattle.wire_outlet.specs.Waiting.{IsFrameable, octets_of};
ghost use Rattle.exchange_core.specs.Exchanges.{is_send_above};
ghost use Rattle.wire_flows.specs.Moves.{is_high, is_low};
ghost use Rattle.wire_flows.specs.Sound.{IsSound as AreSoundFlows};
ghost use Rattle.wire_flows.specs.Writes.{ChangesWrite, KeepsLows, KeepsOtherLows, raised, watchers_on, write_at};
ghost use Rattle.wire_state.specs.Counts.{Fills, Frees, Grows, eased};
ghost use Rattle.wire_state.specs.Progress.{conn_go};
ghost use Rattle.wire_state.specs.Sound.{IsKept};

use crate::conn::{Conn, is_stream};
use exchange_core::Unit;
use flow_gate::{BufferId, FlowId};
use io_ports::{NoMemory, Octets};
use wire_flows::{Framed as FramedBody, WireFlows};
use wire_outlet::{Framed, Waiting};
use wm_buffer::Crossed;

/// The most octets that a list of fields counts, beside which its frames fit into a unit.
const MOST_LIST: usize = 61_440;

impl Conn {
    /// Appends a unit to the waiting list, where fewer than `most` wait and the connection is open. The answer is false where the
    /// list is full: then the unit is dropped.
    pub fn put(&mut self, unit: Waiting, most: u32) -> Result<bool, NoMemory>
        requires { IsFrameable unit }
        ensures kept { (limits : Limits) → most ≡ limits.control_frames → IsKept limits self.old.outlet → IsKept limits self.new.outlet }
        ensures rest { self.new ≡ record self.old { outlet = self.new.outlet } }
        ensures go { conn_go self.new ≤ conn_go self.old + 4 }
        ensures write { self.new.outlet.write ≡ self.old.outlet.write }
    {
        if !self.open {
            return Ok(true);
        }
        self.outlet.put(unit, most)
    }

    /// The GOAWAY of a close goes into the write buffer of this connection, which has this number, unless that is above. It names
    /// the last stream of the first GOAWAY, where the connection is draining, and 0 towards a cluster. The frame is given too.
    /// Where the write buffer rose by it, the flows that go here are held back.
    pub fn farewell(
        &mut self,
        flows: &mut WireFlows,
        number: u32,
        code: u32,
    ) -> Result<Option<(Octets, bool)>, NoMemory>
        ensures kept { (limits : Limits) → IsKept limits self.old.outlet → IsKept limits self.new.outlet }
        ensures rest { self.new ≡ record self.old { outlet = self.new.outlet } }
        ensures keeps { OnOk result (KeepsLive flows.old flows.new) }
        ensures time { OnOk result (time_of flows.new ≡ time_of flows.old) }
        ensures go { OnOk result (conn_go self.new + to_go flows.new ≤ conn_go self.old + to_go flows.old) }
        ensures octets { IfOk result (λ framed. MatchOption framed (self.new ≡ self.old) (λ f. self.new.outlet.write.octets ≡ self.old.outlet.write.octets ++ f.0)) }
        ensures flows { IfOk result (λ framed. MatchOption framed (flows.new ≡ flows.old) (λ f. flows.new.exchanges ≡ flows.old.exchanges)) }
        ensures fills { IfOk result (λ framed. IfSome framed (λ f. Fills number f.1 self.old.outlet.write self.new.outlet.write flows.old flows.new)) }
    {
        let Some((octets, crossed)) = self.frame_goaway(code)? else {
            return Ok(None);
        };
        let rose = mark_risen(flows, number, crossed);
        Ok(Some((octets, rose)))
    }

    // The GOAWAY goes into the write buffer, unless that is above.
    fn frame_goaway(&mut self, code: u32) -> Result<Option<(Octets, Crossed)>, NoMemory>
        ensures kept { (limits : Limits) → IsKept limits self.old.outlet → IsKept limits self.new.outlet }
        ensures rest { self.new ≡ record self.old { outlet = self.new.outlet } }
        ensures go { conn_go self.new ≤ conn_go self.old }
        ensures octets { IfOk result (λ framed. MatchOption framed (self.new ≡ self.old) (λ f. self.new.outlet.write.octets ≡ self.old.outlet.write.octets ++ f.0)) }
        ensures grows { IfOk result (λ framed. IfSome framed (λ f. Grows (is_high f.1) self.old.outlet.write self.new.outlet.write)) }
    {
        if self.outlet.is_above() {
            return Ok(None);
        }
        let last = self.goaway_last();
        Ok(Some(self.outlet.farewell(last, code)?))
    }

    /// From now on the connection isn't open, and nothing waits.
    pub fn shut(&mut self)
        ensures kept { (limits : Limits) → IsKept limits self.old.outlet → IsKept limits self.new.outlet }
        ensures less { self.old.open ≡ true → conn_go self.new + 4 ≤ conn_go self.old }
        ensures rest { self.new ≡ record self.old { «open» = false; outlet = self.new.outlet } }
        ensures write { self.new.outlet.write ≡ self.old.outlet.write }
    {
        self.open = false;
        self.outlet.drop_waiting();
    }

    /// The octets for the socket of this connection, which has this number, and the units that wait go nowhere. Where the write
    /// buffer was above, the flows that go here are to be told that it drained.
    pub fn drop_octets(&mut self, flows: &mut WireFlows, number: u32)
        ensures kept { (limits : Limits) → IsKept limits self.old.outlet → IsKept limits self.new.outlet }
        ensures rest { self.new ≡ record self.old { outlet = self.new.outlet } }
        ensures empty { self.new.outlet.write.octets ≡ [] }
        ensures go { conn_go self.new ≤ conn_go self.old }
        ensures frees { Frees number true self.old.outlet.write self.new.outlet.write flows.old flows.new }
    {
        self.drop_all();
        flows.write_drained(number);
    }

    // The octets for the socket and the units that wait go nowhere.
    fn drop_all(&mut self)
        ensures kept { (limits : Limits) → IsKept limits self.old.outlet → IsKept limits self.new.outlet }
        ensures rest { self.new ≡ record self.old { outlet = self.new.outlet } }
        ensures empty { self.new.outlet.write.octets ≡ [] }
        ensures low { self.new.outlet.write.above ≡ false }
        ensures go { conn_go self.new ≤ conn_go self.old }
    {
        self.outlet.drop_all();
    }

    /// An open connection that isn't draining begins to. The answer is the last stream that its GOAWAY names; none where it
    /// isn't open, or draining already: then nothing changes.
    pub fn begin_draining(&mut self) -> Option<u32>
        ensures rest { self.new ≡ record self.old { draining = self.new.draining } }
        ensures go { conn_go self.new ≡ conn_go self.old }
        ensures last { IfSome result (λ last. last < 2 ^ 31) }
    {
        if !self.open || self.draining.is_some() {
            return None;
        }
        let last = self.goaway_last();
        self.draining = Some(last);
        Some(last)
    }

    /// The first unit that waits goes into the write buffer of this connection, which has this number. Where that rose by it, the
    /// flows that go here are held back. None where none waits, or the connection may not write.
    pub fn write_waiting(
        &mut self,
        flows: &mut WireFlows,
        number: u32,
    ) -> Result<Option<(Framed, bool)>, NoMemory>
        ensures kept { (limits : Limits) → IsKept limits self.old.outlet → IsKept limits self.new.outlet }
        ensures rest { self.new ≡ record self.old { outlet = self.new.outlet } }
        ensures keeps { OnOk result (KeepsLive flows.old flows.new) }
        ensures time { OnOk result (time_of flows.new ≡ time_of flows.old) }
        ensures go { IfOk result (λ framed. MatchOption framed (conn_go self.new + to_go flows.new ≤ conn_go self.old + to_go flows.old) (λ f. conn_go self.new + (to_go flows.new + 4) ≤ conn_go self.old + to_go flows.old)) }
        ensures octets { IfOk result (λ framed. MatchOption framed (self.new ≡ self.old) (λ f. self.new.outlet.write.octets ≡ self.old.outlet.write.octets ++ octets_of f.0)) }
        ensures flows { IfOk result (λ framed. MatchOption framed (flows.new ≡ flows.old) (λ f. flows.new.exchanges ≡ flows.old.exchanges)) }
        ensures fills { IfOk result (λ framed. IfSome framed (λ f. Fills number f.1 self.old.outlet.write self.new.outlet.write flows.old flows.new)) }
    {
        let Some((framed, crossed)) = self.frame_waiting()? else {
            return Ok(None);
        };
        let rose = mark_risen(flows, number, crossed);
        Ok(Some((framed, rose)))
    }

    // The first unit that waits goes into the write buffer.
    fn frame_waiting(&mut self) -> Result<Option<(Framed, Crossed)>, NoMemory>
        ensures kept { (limits : Limits) → IsKept limits self.old.outlet → IsKept limits self.new.outlet }
        ensures rest { self.new ≡ record self.old { outlet = self.new.outlet } }
        ensures go { IfOk result (λ framed. MatchOption framed (conn_go self.new ≤ conn_go self.old) (λ f. conn_go self.new + 4 ≤ conn_go self.old)) }
        ensures octets { IfOk result (λ framed. MatchOption framed (self.new ≡ self.old) (λ f. self.new.outlet.write.octets ≡ self.old.outlet.write.octets ++ octets_of f.0)) }
        ensures grows { IfOk result (λ framed. IfSome framed (λ f. Grows (is_high f.1) self.old.outlet.write self.new.outlet.write)) }
    {
        if !self.may_write() {
            return Ok(None);
        }
        self.outlet.frame_waiting()
    }

    /// A WINDOW_UPDATE frame on a stream, or with 0 on the connection, goes into the write buffer of this connection, which has
    /// this number. Where that rose by it, the flows that go here are held back. None where it would grant nothing, no frame can
    /// name the stream, or the connection may not write.
    pub fn write_update(
        &mut self,
        flows: &mut WireFlows,
        number: u32,
        stream: u32,
        n: u32,
    ) -> Result<Option<bool>, NoMemory>
        requires { n < 2 ^ 31 }
        ensures kept { (limits : Limits) → IsKept limits self.old.outlet → IsKept limits self.new.outlet }
        ensures rest { self.new ≡ record self.old { outlet = self.new.outlet } }
        ensures keeps { OnOk result (KeepsLive flows.old flows.new) }
        ensures time { OnOk result (time_of flows.new ≡ time_of flows.old) }
        ensures go { OnOk result (conn_go self.new + to_go flows.new ≤ conn_go self.old + to_go flows.old) }
        ensures some { IfOk result (λ rose. IfSome rose (λ c. 0 < n)) }
        ensures octets { IfOk result (λ rose. MatchOption rose (self.new ≡ self.old) (λ c. self.new.outlet.write.octets ≡ self.old.outlet.write.octets ++ spelling (WindowUpdate stream n))) }
        ensures flows { IfOk result (λ rose. MatchOption rose (flows.new ≡ flows.old) (λ c. flows.new.exchanges ≡ flows.old.exchanges)) }
        ensures fills { IfOk result (λ rose. IfSome rose (λ c. Fills number c self.old.outlet.write self.new.outlet.write flows.old flows.new)) }
    {
        let Some(crossed) = self.frame_update(stream, n)? else {
            return Ok(None);
        };
        Ok(Some(mark_risen(flows, number, crossed)))
    }

    // The frame goes into the write buffer.
    fn frame_update(&mut self, stream: u32, n: u32) -> Result<Option<Crossed>, NoMemory>
        requires { n < 2 ^ 31 }
        ensures kept { (limits : Limits) → IsKept limits self.old.outlet → IsKept limits self.new.outlet }
        ensures rest { self.new ≡ record self.old { outlet = self.new.outlet } }
        ensures go { conn_go self.new ≤ conn_go self.old }
        ensures some { IfOk result (λ crossed. IfSome crossed (λ c. 0 < n)) }
        ensures octets { IfOk result (λ crossed. MatchOption crossed (self.new ≡ self.old) (λ c. self.new.outlet.write.octets ≡ self.old.outlet.write.octets ++ spelling (WindowUpdate stream n))) }
        ensures grows { IfOk result (λ crossed. IfSome crossed (λ c. Grows (is_high c) self.old.outlet.write self.new.outlet.write)) }
    {
        if n == 0 || stream != 0 && !is_stream(stream) || !self.may_write() {
            return Ok(None);
        }
        Ok(Some(self.outlet.frame_update(stream, n)?))
    }

    /// The list that waits of a flow goes into the write buffer of this connection, which has this number, on its stream and with
    /// its end where `last` holds. The frames are given too. Where the write buffer rose by them, the flows that go here are held
    /// back. None where no list waits, it is too long, no frame can name the stream, or the connection may not write.
    pub fn write_list(
        &mut self,
        flows: &mut WireFlows,
        number: u32,
        flow: FlowId,
        stream: u32,
        last: bool,
    ) -> Result<Option<(Octets, bool)>, NoMemory>
        requires live { IsThere flows.old flow }
        requires unit { IfSome (flow_in flows.old flow) (IsFrameableUnit (Head last)) }
        ensures kept { (limits : Limits) → IsKept limits self.old.outlet → OnOk result (IsKept limits self.new.outlet) }
        ensures open { self.new.open ≡ self.old.open }
        ensures keeps { OnOk result (KeepsLive flows.old flows.new) }
        ensures time { OnOk result (time_of flows.new ≡ time_of flows.old) }
        ensures go { IfOk result (λ framed. MatchOption framed (conn_go self.new + to_go flows.new ≤ conn_go self.old + to_go flows.old) (λ f. conn_go self.new + (to_go flows.new + 40) ≤ conn_go self.old + to_go flows.old)) }
        ensures octets { IfOk result (λ framed. MatchOption framed (self.new ≡ self.old) (λ f. self.new.outlet.write.octets ≡ self.old.outlet.write.octets ++ f.0)) }
        ensures flows { IfOk result (λ framed. MatchOption framed (flows.new ≡ flows.old) (λ f. ChangesFlow flow (list_framed last) flows.old.exchanges flows.new.exchanges)) }
        ensures fills { IfOk result (λ framed. IfSome framed (λ f. Fills number f.1 self.old.outlet.write self.new.outlet.write flows.old flows.new)) }
    {
        let Some(fields) = flows.fields(flow) else {
            return Ok(None);
        };
        if !is_stream(stream) || !self.may_write() || fields.size() > MOST_LIST {
            return Ok(None);
        }
        let (octets, crossed) = self.outlet.frame_block(stream, last, fields)?;
        flows.list_framed(flow, last);
        let rose = mark_risen(flows, number, crossed);
        let room = self.windows.send.room(flow.exchange).unwrap_or(0);
        let next = self.next_behind(flows, flow, last, room);
        self.framed(flow.exchange, stream, last, next, room)?;
        Ok(Some((octets, rose)))
    }

    // What goes next of a flow of which a list was framed: nothing behind its end.
    fn next_behind(&self, flows: &WireFlows, flow: FlowId, last: bool, room: i64) -> Unit
        requires { IsThere flows.now flow }
    {
        if last {
            return Unit::Nothing;
        }
        flows.next_unit(flow, room, self.windows.send.payload())
    }

    /// The next octets of a flow go from its send buffer into the write buffer of this connection, as a DATA frame on its stream,
    /// under both windows and at most a quantum. None where no octets and no end go next, no frame can name the stream, or the
    /// connection may not write.
    pub fn write_body(
        &mut self,
        flows: &mut WireFlows,
        flow: FlowId,
        number: u32,
        stream: u32,
        quantum: u32,
    ) -> Result<Option<FramedBody>, NoMemory>
        requires { IsThere flows.old flow }
        ensures kept { (limits : Limits) → quantum ≡ limits.quantum → IsKept limits self.old.outlet → OnOk result (IsKept limits self.new.outlet) }
        ensures open { self.new.open ≡ self.old.open }
        ensures keeps { OnOk result (KeepsLive flows.old flows.new) }
        ensures time { OnOk result (time_of flows.new ≡ time_of flows.old) }
        ensures spent { IfOk result (λ framed. IfSome framed (λ f. self.new.windows.send.conn ≡ changed (Spend f.n) self.old.windows.send.conn)) }
        ensures go { IfOk result (λ framed. MatchOption framed (conn_go self.new + to_go flows.new ≤ conn_go self.old + to_go flows.old) (λ f. conn_go self.new + (to_go flows.new + 40) ≤ conn_go self.old + to_go flows.old)) }
        ensures octets { IfOk result (λ framed. MatchOption framed (self.new ≡ self.old) (λ f. IfSome (flow_in flows.old flow) (λ g. self.new.outlet.write.octets ≡ self.old.outlet.write.octets ++ (data_head stream f.n f.last ++ take f.n (send g))))) }
        ensures within { IfOk result (λ framed. IfSome framed (λ f. IfSome (flow_in flows.old flow) (λ g. f.n ≤ length (send g)))) }
        ensures flows { IfOk result (λ framed. MatchOption framed (flows.new ≡ flows.old) (λ f. ChangesFlow flow (body_framed f.n f.last) flows.old.exchanges flows.new.exchanges)) }
        ensures fills { IfOk result (λ framed. IfSome framed (λ f. Fills number f.rose self.old.outlet.write self.new.outlet.write flows.old flows.new)) }
        ensures drained { IfOk result (λ framed. IfSome framed (λ f. f.drained ≡ (is_send_above flows.old.exchanges flow && not (is_send_above flows.new.exchanges flow)))) }
    {
        if !is_stream(stream) || !self.may_write() {
            return Ok(None);
        }
        let room = self.windows.send.room(flow.exchange).unwrap_or(0);
        let most = self.windows.send.conn_room().min(i64::from(quantum));
        let payload = self.windows.send.payload();
        let out = self.outlet.write_mut();
        let Some(framed) = flows.frame_body(flow, number, stream, out, room, most, payload)? else {
            return Ok(None);
        };
        self.windows.send.spend(flow.exchange, framed.n);
        let left = room.saturating_sub(i64::from(framed.n));
        self.framed(flow.exchange, stream, framed.last, framed.next, left)?;
        Ok(Some(framed))
    }

    /// Up to n octets left the write buffer of this connection, which has this number. Answers how many did, and whether it
    /// drained by that: then the flows that go here are to be told.
    pub fn leave_write(&mut self, flows: &mut WireFlows, number: u32, n: u32) -> (u32, bool)
        ensures kept { (limits : Limits) → IsKept limits self.old.outlet → IsKept limits self.new.outlet }
        ensures rest { self.new ≡ record self.old { outlet = self.new.outlet } }
        ensures count { result.0 ≡ min n (length self.old.outlet.write.octets) }
        ensures drained { result.1 ≡ (self.old.outlet.write.above && not self.new.outlet.write.above) }
        ensures octets { self.new.outlet.write.octets ≡ drop result.0 self.old.outlet.write.octets }
        ensures frees { Frees number (self.old.outlet.write.above && not self.new.outlet.write.above) self.old.outlet.write self.new.outlet.write flows.old flows.new }
    {
        let n = n.min(self.outlet.len());
        let crossed = self.outlet.leave(n);
        let drained = mark_drained(flows, number, crossed);
        (n, drained)
    }
}

// Where a write buffer drained, the flows that go to its connection are to be told. The answer is whether it did.
fn mark_drained(flows: &mut WireFlows, number: u32, crossed: Crossed) -> bool
    ensures drained { result ≡ is_low crossed }
    ensures writes { ChangesWrite number (option_map (eased (is_low crossed) (watchers_on number flows.old)) (write_at number flows.old)) flows.old flows.new }
    ensures lows { KeepsOtherLows (BufferId.Write number) flows.old flows.new }
    ensures rest { flows.new.exchanges ≡ flows.old.exchanges }
    ensures sound { AreSoundFlows flows.old → AreSoundFlows flows.new }
{
    match crossed {
        Crossed::Low => {
            flows.write_drained(number);
            true
        }
        _ => false,
    }
}

// Where a write buffer rose, the flows that go to its connection are held back. The answer is whether it did.
fn mark_risen(flows: &mut WireFlows, number: u32, crossed: Crossed) -> bool
    ensures rose { result ≡ is_high crossed }
    ensures writes { ChangesWrite number (option_map (raised result) (write_at number flows.old)) flows.old flows.new }
    ensures lows { KeepsLows flows.old flows.new }
    ensures rest { flows.new.exchanges ≡ flows.old.exchanges }
    ensures keeps { KeepsLive flows.old flows.new }
    ensures time { time_of flows.new ≡ time_of flows.old }
    ensures go { to_go flows.new ≡ to_go flows.old }
    ensures sound { AreSoundFlows flows.old → AreSoundFlows flows.new }
{
    match crossed {
        Crossed::High => {
            flows.write_rose(number);
            true
        }
        _ => false,
    }
}
