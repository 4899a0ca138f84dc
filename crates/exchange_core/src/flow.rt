// One flow of an exchange.
ghost use Rattle.std.specs.Prelude.{◌≡◌, ◌≢◌, ◌↔◌, ◌+◌, ◌<◌, ◌≤◌, ◌^◌, [], false, true, IfOk, IfSome, IsOk, IsTrue, OnOk, OnErr, length, nat_le, option_map, Some};
ghost use Rattle.exchange_core.specs.Effects.{arrived, finished, headed, moved, received, received_by};
ghost use Rattle.exchange_core.specs.Exchange.{at_moment, begun_flow};
ghost use Rattle.exchange_core.specs.Flow.{IsSound, held_by, last_place};
ghost use Rattle.exchange_core.specs.Moves.{has_room_ahead, is_held_at, is_target_above, last_free, lets_go, may_release, next_step, overflows, stepped};
ghost use Rattle.exchange_core.specs.Units.{IsFrameable, next_unit};
ghost use Rattle.filter_chain.specs.Chain.{above_at};
ghost use Rattle.filter_chain.specs.Release.{overfills, has_room_at};
ghost use Rattle.flow_gate.specs.Board.{is_open};
ghost use Rattle.proxy_config.specs.Ranges.{AreFilters, IsBetween, most_octets};
ghost use Rattle.wm_buffer.specs.Watermark.{crossing};

mod reading;
mod units;

use crate::message::Message;
use crate::start::StartSpec;
use crate::step::{Advance, Received, Step};
use filter_chain::{Chain, OfferFault};
use flow_gate::{BufferId, FlowId, Gates};
use hpack_codec::FieldList;
use io_ports::{NoMemory, Octets};
use proxy_config::FilterList;
use std::alloc::Global;
use std::marker::Model;
use wm_buffer::{Shifted, WatermarkBuffer};

/// The octets of one flow on their way, and its message.
///
/// Its places are counted from 0: the receive buffer, the stages, the send buffer.
#[derive(Drop)]
pub(crate) struct Flow {
    window: u32,
    recv: WatermarkBuffer,
    chain: Chain,
    message: Message,
    quantum: u32,
    multiple: u32,
}

impl Model for Flow {
    ghost use Rattle.exchange_core.specs.Flow.{Flow};

    ghost Value = { Flow };

    ghost use Rattle.exchange_core.specs.Kept.{flow_of, IsKeptFlow};

    ghost view = { flow_of };

    ghost invariant = { IsKeptFlow };
}

impl Flow {
    /// An empty flow through the stages of these filters. Where `multiple` isn't 0, a buffer of its overflows beyond so
    /// many times its limit. Each buffer with a limit gets its room here, and the receive buffer that for its window.
    pub(crate) fn new(
        alloc: Global,
        id: FlowId,
        filters: &FilterList,
        spec: &StartSpec,
        multiple: u32,
    ) -> Result<Self, NoMemory>
        requires filters { AreFilters filters.now }
        requires recv { spec.now.recv ≤ most_octets }
        requires send { spec.now.send ≤ most_octets }
        requires quantum { IsBetween 16384 1048576 spec.now.quantum }
        ensures begun { IfOk result (λ flow. flow ≡ begun_flow id filters.now spec.entry.now multiple) }
        ensures sound { IfOk result IsSound }
    {
        let mut recv = WatermarkBuffer::new(alloc, 0);
        recv.ready(recv_room(filters.len(), spec))?;
        Ok(Flow {
            window: spec.recv,
            recv,
            chain: Chain::new(alloc, id, filters, spec.send, spec.now, spec.quantum)?,
            message: Message::new(),
            quantum: spec.quantum,
            multiple,
        })
    }

    /// An empty flow without stages, as `new` makes it. The answer is false where the buffers of this one aren't fit for it, or
    /// its receive buffer holds octets.
    pub(crate) fn renew(
        &mut self,
        id: FlowId,
        spec: &StartSpec,
        multiple: u32,
    ) -> Result<bool, NoMemory>
        requires recv { spec.now.recv ≤ most_octets }
        requires send { spec.now.send ≤ most_octets }
        requires quantum { IsBetween 16384 1048576 spec.now.quantum }
        ensures begun { IfOk result (λ fits. fits ≡ true → self.new ≡ begun_flow id [] spec.entry.now multiple) }
        ensures sound { IsSound self.new }
    {
        if self.quantum != spec.quantum || !self.recv.is_empty() {
            return Ok(false);
        }
        if !self.chain.renew(id, spec.send, spec.now) {
            return Ok(false);
        }
        self.message.clear();
        self.multiple = multiple;
        // The buffer has room for the window that it had, so more is asked for only where the new one is larger.
        if self.window < spec.recv {
            self.recv.ready(recv_room(0, spec))?;
        }
        self.window = spec.recv;
        Ok(true)
    }

    /// The Meters go on to the moment `now`, where that is later than the last one.
    pub(crate) fn go_on(&mut self, now: u64)
        ensures moment { self.new ≡ at_moment now self.old }
        ensures sound { IsSound self.new }
    {
        if now > self.chain.time() {
            self.chain.tick(now);
        }
    }

    pub(crate) fn head(&mut self, fields: FieldList, last: bool)
        requires goes_on { self.old.message.ended ≡ false }
        requires alone { last ≡ true → held_by self.old ≡ 0 }
        ensures headed { self.new ≡ headed fields last self.old }
        ensures sound { IsSound self.new }
    {
        if last {
            self.chain.finish(self.recv.is_empty());
        }
        self.message.begin(fields, last);
    }

    pub(crate) fn arrive(&mut self, octets: &Octets) -> Result<(), NoMemory>
        requires { self.old.message.ended ≡ false }
        ensures ok { OnOk result (self.new ≡ arrived octets.now self.old) }
        ensures sound { IsSound self.new }
        ensures covered { length self.old.recv + length octets.now ≤ self.old.window → IsOk result }
        ensures err { OnErr result (self.new ≡ self.old) }
    {
        self.recv.add_octets(octets)?;
        Ok(())
    }

    /// As `arrive`, where the octets fit within the window.
    pub(crate) fn receive(&mut self, octets: &Octets) -> Received
        requires { self.old.message.ended ≡ false }
        ensures answer { result ≡ received_by (length octets.now) (Some self.old) }
        ensures flow { self.new ≡ received octets.now self.old }
        ensures sound { IsSound self.new }
    {
        if !self.fits(octets.len()) {
            return Received::TooMany;
        }
        match self.arrive(octets) {
            Ok(()) => Received::Arrived,
            Err(NoMemory) => unreachable!(),
        }
    }

    /// Whether the receive buffer takes so many more octets within its window.
    fn fits(&self, n: usize) -> bool
        ensures fits { result ≡ nat_le (length self.now.recv + n) self.now.window }
        ensures sound { IsSound self.now }
    {
        let most = self.window as usize;
        n <= most && self.recv.len() as usize <= most - n
    }

    pub(crate) fn finish(&mut self, trailers: Option<FieldList>)
        requires { self.old.message.ended ≡ false }
        ensures finished { self.new ≡ finished trailers self.old }
        ensures sound { IsSound self.new }
    {
        self.chain.finish(self.recv.is_empty());
        self.message.finish(trailers);
    }

    /// One move from the last place that may release and has no later source above, towards a connection or none.
    pub(crate) fn step(&mut self, to: Option<u32>, gates: &Gates) -> Result<Step, NoMemory>
        requires { is_open gates.now self.old.chain.flow ≡ true }
        ensures step { IfOk result (λ step. step ≡ next_step gates.now to self.old) }
        ensures flow { OnOk result (self.new ≡ stepped gates.now to self.old) }
        ensures covered { IsTrue (has_room_ahead gates.now to self.old) → IsOk result }
        ensures sound { IsSound self.new }
        ensures err { OnErr result (self.new ≡ self.old) }
    {
        let Some((place, n)) = self.last_free(to, gates) else {
            return Ok(Step::Still);
        };
        match self.move_on(place, n) {
            Ok(shifted) => Ok(Step::Moved {
                place,
                n,
                shifted,
                overflow: self.overflows(place + 1),
            }),
            Err(OfferFault::TooLarge) => Ok(Step::TooLarge),
            Err(OfferFault::NoMemory) => Err(NoMemory),
        }
    }

    /// As `step`, and then what goes next.
    pub(crate) fn advance(
        &mut self,
        to: Option<u32>,
        gates: &Gates,
        room: i64,
        frame: u32,
    ) -> Result<Advance, NoMemory>
        requires { is_open gates.now self.old.chain.flow ≡ true }
        ensures step { IfOk result (λ advance. advance.step ≡ next_step gates.now to self.old) }
        ensures unit { IfOk result (λ advance. advance.unit ≡ next_unit room frame self.new) }
        ensures frameable { IfOk result (λ advance. IsFrameable advance.unit self.new) }
        ensures flow { OnOk result (self.new ≡ stepped gates.now to self.old) }
        ensures covered { IsTrue (has_room_ahead gates.now to self.old) → IsOk result }
        ensures sound { IsSound self.new }
        ensures err { OnErr result (self.new ≡ self.old) }
    {
        let step = self.step(to, gates)?;
        let unit = self.next_unit(room, frame);
        Ok(Advance { step, unit })
    }

    /// The last place that may release and has no later source above, and how many octets it may let go. A source that
    /// is above holds all places before it back.
    fn last_free(&self, to: Option<u32>, gates: &Gates) -> Option<(u32, u32)>
        requires { is_open gates.now self.now.chain.flow ≡ true }
        ensures place { option_map (λ move. move.0) result ≡ last_free gates.now to self.now }
        ensures octets { IfSome result (λ move. move.1 ≡ may_release gates.now self.now move.0) }
        ensures stage { IfSome result (λ move. move.0 < last_place self.now) }
        ensures some { IfSome result (λ move. 0 < move.1) }
        ensures most { IfSome result (λ move. move.1 ≤ lets_go self.now move.0) }
        ensures few { IfSome result (λ move. move.0 < 9) }
        ensures sound { IsSound self.now }
    {
        let mut place = self.chain.places();
        if place == 1 {
            return self.all_free(to, gates);
        }
        if is_target_above(to, gates) {
            return None;
        }
        while place > 0 {
            if self.is_held_at(place, gates) {
                return None;
            }
            place -= 1;
            let n = self.may_release(place, gates);
            if n > 0 {
                return Some((place, n));
            }
        }
        None
    }

    /// As `last_free`, where the send buffer is the only place behind the receive buffer.
    fn all_free(&self, to: Option<u32>, gates: &Gates) -> Option<(u32, u32)>
        requires open { is_open gates.now self.now.chain.flow ≡ true }
        requires alone { last_place self.now ≡ 1 }
        ensures place { option_map (λ move. move.0) result ≡ last_free gates.now to self.now }
        ensures octets { IfSome result (λ move. move.1 ≡ may_release gates.now self.now move.0) }
        ensures first { IfSome result (λ move. move.0 ≡ 0) }
        ensures some { IfSome result (λ move. 0 < move.1) }
        ensures most { IfSome result (λ move. move.1 ≤ lets_go self.now move.0) }
    {
        let n = self.quantum.min(self.recv.len());
        let send = BufferId::Send(self.chain.flow());
        let target = match to {
            Some(conn) => BufferId::Write(conn),
            None => send,
        };
        if n > 0 && gates.is_clear(self.chain.flow(), send, target) {
            Some((0, n))
        } else {
            None
        }
    }

    /// Whether a place is a source that is above.
    fn is_held_at(&self, place: u32, gates: &Gates) -> bool
        requires first { 1 ≤ place }
        requires last { place ≤ last_place self.now }
        ensures { result ≡ is_held_at gates.now self.now place }
    {
        let flow = self.chain.flow();
        if place == self.chain.places() {
            return gates.is_marked(BufferId::Send(flow));
        }
        self.chain.is_source(place) && gates.is_marked(BufferId::Stage(flow, place))
    }

    /// How many octets a place before the send buffer may let go now.
    fn may_release(&self, place: u32, gates: &Gates) -> u32
        requires open { is_open gates.now self.now.chain.flow ≡ true }
        requires stage { place < last_place self.now }
        ensures released { result ≡ may_release gates.now self.now place }
        ensures most { result ≤ lets_go self.now place }
    {
        if place > 0 {
            self.chain.may_release(place)
        } else if gates.count(self.chain.flow()) == 0 {
            self.quantum.min(self.recv.len())
        } else {
            0
        }
    }

    /// Moves the first n octets of a place to the next one.
    fn move_on(&mut self, place: u32, n: u32) -> Result<Shifted, OfferFault>
        requires stage { place < last_place self.old }
        requires some { 1 ≤ n }
        requires most { n ≤ lets_go self.old place }
        ensures moves { OnOk result (self.new ≡ moved place n self.old) }
        ensures from { IfOk result (λ shifted. shifted.from ≡ crossing (above_at self.old.chain place) (above_at self.new.chain place)) }
        ensures to { IfOk result (λ shifted. shifted.to ≡ crossing (above_at self.old.chain (place + 1)) (above_at self.new.chain (place + 1))) }
        ensures too_large { (result ≡ Err OfferFault.TooLarge) ↔ IsTrue (overfills self.old.chain (place + 1) n) }
        ensures ready { IsTrue (has_room_at self.old.chain (place + 1) n) → result ≢ Err OfferFault.NoMemory }
        ensures sound { IsSound self.new }
        ensures err { OnErr result (self.new ≡ self.old) }
    {
        if place > 0 {
            self.chain.release(place, n)
        } else {
            self.chain.offer(&mut self.recv, n)
        }
    }

    /// Whether a Meter or the send buffer holds more than its multiple of its limit.
    fn overflows(&self, place: u32) -> bool
        requires first { 1 ≤ place }
        requires last { place ≤ last_place self.now }
        ensures { result ≡ overflows self.now place }
    {
        let most = u64::from(self.multiple) * u64::from(self.chain.limit(place));
        self.chain.is_source(place) && 0 < most && most < u64::from(self.chain.len(place))
    }
}

/// Whether the write buffer of a connection, if there is one, is above.
fn is_target_above(to: Option<u32>, gates: &Gates) -> bool
    ensures { result ≡ is_target_above gates.now to }
{
    match to {
        Some(conn) => gates.is_marked(BufferId::Write(conn)),
        None => false,
    }
}

// For how many octets a receive buffer before so many stages gets room: for its window, and before none, where octets go to the
// send buffer at once, for as many as that has room for. Two buffers with as much room can change places, and then no octet is copied.
fn recv_room(stages: u32, spec: &StartSpec) -> u32
    requires recv { spec.now.recv ≤ most_octets }
    requires send { spec.now.send ≤ most_octets }
    requires quantum { IsBetween 16384 1048576 spec.now.quantum }
    ensures window { spec.entry.now.recv ≤ result }
    ensures bound { result < 2 ^ 31 }
{
    if stages == 0 && spec.send > 0 {
        spec.recv.max(spec.send + spec.quantum)
    } else {
        spec.recv
    }
}
