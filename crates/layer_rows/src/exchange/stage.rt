// What exchanges are played on: the gates and a write buffer beside them, where each call's condition is tested before it.
ghost use Rattle.std.specs.Prelude.{◌≡◌, IfSome, false, true};
ghost use Rattle.exchange_core.specs.Exchanges.{IsLiveFlow, flow_at};

mod asking;
mod moving;
mod starting;

use crate::exchange::act::Act;
use crate::exchange::answer::Answer;
use exchange_core::Exchanges;
use flow_gate::{BufferId, FlowId, Gates};
use flow_notes::Cause;
use hpack_codec::{Field, FieldList};
use io_ports::{NoMemory, Octets};
use std::alloc::Global;
use wm_buffer::WatermarkBuffer;

/// The exchanges, the gates and the write buffer of one play.
#[derive(Drop)]
pub struct Stage {
    alloc: Global,
    exchanges: Exchanges,
    gates: Gates,
    out: WatermarkBuffer,
    /// Whether steps and frames are made by the calls that also answer what goes next.
    joined: bool,
}

impl Stage {
    /// One whose steps and frames are made by the calls that do nothing else.
    pub fn of_single_calls(alloc: Global) -> Self {
        Stage::new(alloc, false)
    }

    /// One whose steps and frames are made by the calls that also answer what goes next.
    pub fn of_joined_calls(alloc: Global) -> Self {
        Stage::new(alloc, true)
    }

    fn new(alloc: Global, joined: bool) -> Self {
        Stage {
            alloc,
            exchanges: Exchanges::new(alloc),
            gates: Gates::new(alloc),
            out: WatermarkBuffer::new(alloc, 0),
            joined,
        }
    }

    /// Does what an act asks for.
    pub fn perform(&mut self, rows: &[u8], act: Act) -> Result<Answer, NoMemory> {
        match act {
            Act::Start {
                row,
                send,
                multiple,
            } => self.start(rows, row, send, multiple),
            Act::Plain {
                stream,
                send,
                quantum,
                multiple,
            } => self.start_plain(rows, stream, send, quantum, multiple),
            Act::Ready { framed, ended } => self.ready(rows, framed, ended),
            Act::Step(flow) => self.step(flow),
            Act::Frame { flow, room, frame } => self.frame(flow, room, frame),
            Act::Doom {
                exchange,
                cause,
                back,
            } => Ok(self.doom(exchange, cause, back)),
            Act::Head { flow, last } => self.head(flow, last),
            Act::Arrive { flow, n } => self.arrive(flow, n),
            Act::Receive { flow, n } => self.receive(flow, n),
            Act::Finish { flow, trailers } => self.finish(flow, trailers),
            _ => Ok(self.ask(act)),
        }
    }

    fn head(&mut self, flow: FlowId, last: bool) -> Result<Answer, NoMemory> {
        if !self.may_come(flow) || self.exchanges.held(flow.exchange) > 0 {
            return Ok(Answer::Refused);
        }
        let fields = fields(self.alloc, b"head")?;
        self.exchanges.head(flow, fields, last)?;
        Ok(Answer::Done)
    }

    fn arrive(&mut self, flow: FlowId, n: u32) -> Result<Answer, NoMemory> {
        if !self.may_come(flow) {
            return Ok(Answer::Refused);
        }
        let octets = Octets::from_vec(octets(self.alloc, 1, n)?);
        self.exchanges.arrive(flow, &octets)?;
        Ok(Answer::Done)
    }

    fn receive(&mut self, flow: FlowId, n: u32) -> Result<Answer, NoMemory> {
        if self.exchanges.has_flow(flow) && self.exchanges.has_ended(flow) {
            return Ok(Answer::Refused);
        }
        let octets = Octets::from_vec(octets(self.alloc, 1, n)?);
        let received = self.exchanges.receive(flow, &octets);
        Ok(Answer::Received(received))
    }

    fn finish(&mut self, flow: FlowId, with_trailers: bool) -> Result<Answer, NoMemory> {
        if !self.may_come(flow) {
            return Ok(Answer::Refused);
        }
        let trailers = if with_trailers {
            Some(fields(self.alloc, b"trailer")?)
        } else {
            None
        };
        self.exchanges.finish(flow, trailers)?;
        Ok(Answer::Done)
    }

    /// Whether a flow is live and its end hasn't come.
    fn may_come(&self, flow: FlowId) -> bool
        ensures live { result ≡ true → IsLiveFlow self.now.exchanges flow }
        ensures goes_on { result ≡ true → IfSome (flow_at self.now.exchanges flow) (λ f. f.message.ended ≡ false) }
    {
        self.exchanges.has_flow(flow) && !self.exchanges.has_ended(flow)
    }

    fn doom(&mut self, exchange: u64, cause: Cause, back: bool) -> Answer {
        let request = FlowId {
            exchange,
            back: false,
        };
        let response = FlowId {
            exchange,
            back: true,
        };
        if !self.exchanges.is_live(exchange) || !self.gates.is_open(request) {
            return Answer::Refused;
        }
        if self.exchanges.has_flow(response) && !self.gates.is_open(response) {
            return Answer::Refused;
        }
        Answer::Doomed(self.exchanges.doom(exchange, cause, back, &mut self.gates))
    }

    /// The write buffer of a connection rises.
    fn rise(&mut self, conn: u32) {
        rise(&mut self.gates, BufferId::Write(conn));
    }

    /// The write buffer of a connection drains, and its flows are told.
    fn drain(&mut self, conn: u32) {
        let buffer = BufferId::Write(conn);
        drain(&mut self.gates, buffer);
        tell_all(&mut self.gates, buffer);
    }

    /// A flow is told of its own buffers that drained.
    fn tell(&mut self, flow: FlowId) {
        tell_all(&mut self.gates, BufferId::Send(flow));
        for place in 1..9 {
            tell_all(&mut self.gates, BufferId::Stage(flow, place));
        }
    }
}

/// A list of one field.
fn fields(alloc: Global, name: &[u8]) -> Result<FieldList, NoMemory> {
    let mut fields = FieldList::new(alloc);
    fields.push(Field {
        name: Octets::from_slice(alloc, name)?,
        value: Octets::from_slice(alloc, b"x")?,
        never: false,
    })?;
    Ok(fields)
}

/// The octets `from`, `from + 1` and so on, each modulo 251.
pub fn octets(alloc: Global, from: u32, n: u32) -> Result<Vec<u8>, NoMemory> {
    let mut made = Vec::new(alloc);
    for i in 0..n {
        made.push((from.wrapping_add(i) % 251) as u8)?;
    }
    Ok(made)
}

/// The buffer rises, or drains, where it is one that can.
fn rise(gates: &mut Gates, buffer: BufferId) {
    if gates.is_known(buffer) && !gates.is_marked(buffer) {
        gates.high(buffer);
    }
}

fn drain(gates: &mut Gates, buffer: BufferId) {
    if gates.is_marked(buffer) && !gates.has_pending(buffer) {
        gates.begin_low(buffer);
    }
}

fn tell_all(gates: &mut Gates, buffer: BufferId) {
    for _watcher in 0..4 {
        let _ = gates.next_low(buffer);
    }
}
