// Steps and frames.
use super::{Stage, drain, rise};
use crate::exchange::answer::Answer;
use exchange_core::{Piece, Step, Unit};
use flow_gate::{BufferId, FlowId};
use io_ports::NoMemory;
use wm_buffer::Crossed;

/// With what the calls are asked that also answer what goes next.
const ROOM: i64 = 1_000_000;

const FRAME: u32 = 16_384;

impl Stage {
    /// One step, of which the gates are told.
    pub fn step(&mut self, flow: FlowId) -> Result<Answer, NoMemory> {
        let Some(step) = self.step_of(flow)? else {
            return Ok(Answer::Refused);
        };
        if let Step::Moved { place, shifted, .. } = step
            && place < 9
        {
            if shifted.to == Crossed::High {
                let buffer = self.buffer_at(flow, place + 1);
                rise(&mut self.gates, buffer);
            }
            if shifted.from == Crossed::Low {
                let buffer = self.buffer_at(flow, place);
                drain(&mut self.gates, buffer);
            }
        }
        Ok(Answer::Step(step))
    }

    /// The buffer that a place of a flow is in the gates.
    fn buffer_at(&self, flow: FlowId, place: u32) -> BufferId {
        match self.exchanges.stages(flow) {
            Some(stages) if place <= stages => BufferId::Stage(flow, place),
            _ => BufferId::Send(flow),
        }
    }

    /// One step. None where it may not be made, or where what is answered with it isn't what goes next.
    fn step_of(&mut self, flow: FlowId) -> Result<Option<Step>, NoMemory> {
        if !self.joined {
            if !self.exchanges.has_flow(flow) || !self.gates.is_open(flow) {
                return Ok(None);
            }
            return Ok(Some(self.exchanges.step(flow, &self.gates)?));
        }
        if self.exchanges.has_flow(flow) && !self.gates.is_open(flow) {
            return Ok(None);
        }
        let Some(advance) = self.exchanges.advance(flow, &self.gates, ROOM, FRAME)? else {
            return Ok(None);
        };
        if self.next(flow, ROOM, FRAME) != Answer::Unit(advance.unit) {
            return Ok(None);
        }
        Ok(Some(advance.step))
    }

    pub fn next(&self, flow: FlowId, room: i64, frame: u32) -> Answer {
        if !self.exchanges.has_flow(flow) {
            return Answer::Refused;
        }
        let unit = self.exchanges.next_unit(flow, room, frame);
        let wide = self.exchanges.next_unit(flow, i64::MAX, frame);
        if wide.narrowed(room) != unit {
            return Answer::Refused;
        }
        Answer::Unit(unit)
    }

    /// Frames what goes next.
    pub fn frame(&mut self, flow: FlowId, room: i64, frame: u32) -> Result<Answer, NoMemory> {
        if !self.exchanges.has_flow(flow) {
            return Ok(Answer::Refused);
        }
        let unit = self.exchanges.next_unit(flow, room, frame);
        match unit {
            Unit::Nothing => {}
            Unit::Head { last } => self.exchanges.framed(flow, last),
            Unit::Trailers => self.exchanges.framed(flow, true),
            Unit::Body { n, last } if self.joined => {
                let piece = Piece { n, last };
                let out = &mut self.out;
                let (shifted, next) = self
                    .exchanges
                    .frame_unit(flow, out, &[7; 9], piece, ROOM, FRAME)?;
                self.eased(flow, shifted.from);
                if self.next(flow, ROOM, FRAME) != Answer::Unit(next) {
                    return Ok(Answer::Refused);
                }
            }
            Unit::Body { n, last } => {
                let out = &mut self.out;
                let shifted = self.exchanges.frame_body(flow, out, &[7; 9], n, last)?;
                self.eased(flow, shifted.from);
            }
        }
        Ok(Answer::Unit(unit))
    }

    fn eased(&mut self, flow: FlowId, from: Crossed) {
        if from == Crossed::Low {
            drain(&mut self.gates, BufferId::Send(flow));
        }
    }
}
