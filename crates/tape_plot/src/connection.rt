// What is drawn of a connection.
use crate::clock::Clock;
use crate::flow::Place;
use flow_notes::{CloseCause, Event, Note};
use io_ports::NoMemory;
use std::alloc::Global;

/// A WINDOW_UPDATE frame (RFC 9113 section 6.9).
const WINDOW_UPDATE: u64 = 13;

/// The write buffer of a connection.
#[derive(Drop)]
pub struct Connection {
    pub write: Place,
    pub is_closed: bool,
}

impl Connection {
    ghost use Rattle.std.specs.Prelude.{◌≡◌, ◌+◌, ◌-◌, false, OnOk};
    ghost use Rattle.tape_plot.specs.Goes.{Closes, ConnectionGoes, Forgets, Turns, level_of};
    ghost use Rattle.tape_plot.specs.Lanes.{Sets, drawn_of, fresh};

    /// Before its first octet. Takes no memory.
    pub fn new(alloc: Global) -> Self
        ensures write { drawn_of result.write.lane ≡ fresh }
        ensures closed { result.is_closed ≡ false }
    {
        Connection {
            write: Place::new(alloc),
            is_closed: false,
        }
    }

    /// Goes on with a note of it, of the present dispatch.
    pub fn note(&mut self, note: &Note, clock: &Clock) -> Result<(), NoMemory>
        ensures { OnOk result (ConnectionGoes self.old note.now clock.now self.new) }
    {
        match note {
            Note::Head { octets, .. } => self.fill(octets.len() as u64, clock),
            Note::Answer { octets, .. } => self.fill(octets.len() as u64, clock),
            Note::Credit { .. } => self.fill(WINDOW_UPDATE, clock),
            Note::Out { n, .. } => self.drain(u64::from(*n), clock),
            Note::Close { cause, .. } => self.close(*cause, clock),
            Note::Turn { event, .. } => self.turn(event, clock),
            _ => Ok(()),
        }
    }

    // A dispatch begins, perhaps with its loss.
    fn turn(&mut self, event: &Event, clock: &Clock) -> Result<(), NoMemory>
        ensures { OnOk result (Turns self.old event.now clock.now self.new) }
    {
        match event {
            Event::Gone { .. } => self.forget(clock),
            _ => Ok(()),
        }
    }

    /// Octets are framed.
    pub fn fill(&mut self, n: u64, clock: &Clock) -> Result<(), NoMemory>
        ensures writes { OnOk result (Sets (drawn_of self.old.write.lane) (level_of self.old + n) clock.now (drawn_of self.new.write.lane)) }
        ensures closed { self.new.is_closed ≡ self.old.is_closed }
    {
        let Some(held) = self.write.lane.level().checked_add(n) else {
            return Err(NoMemory);
        };
        self.write.lane.set(held, clock)
    }

    // Octets leave, at most those that are there.
    fn drain(&mut self, n: u64, clock: &Clock) -> Result<(), NoMemory>
        ensures writes { OnOk result (Sets (drawn_of self.old.write.lane) (level_of self.old - n) clock.now (drawn_of self.new.write.lane)) }
        ensures closed { self.new.is_closed ≡ self.old.is_closed }
    {
        let held = self.write.lane.level().saturating_sub(n);
        self.write.lane.set(held, clock)
    }

    // All octets are dropped.
    fn drop_all(&mut self, clock: &Clock) -> Result<(), NoMemory>
        ensures writes { OnOk result (Sets (drawn_of self.old.write.lane) 0 clock.now (drawn_of self.new.write.lane)) }
        ensures closed { self.new.is_closed ≡ self.old.is_closed }
    {
        self.write.lane.set(0, clock)
    }

    // It is closed. What it still holds goes out, unless it is lost.
    fn close(&mut self, cause: CloseCause, clock: &Clock) -> Result<(), NoMemory>
        ensures { OnOk result (Closes self.old cause clock.now self.new) }
    {
        self.is_closed = true;
        match cause {
            CloseCause::Lost => self.drop_all(clock),
            _ => Ok(()),
        }
    }

    // It is lost: what it still held, after it was closed, is dropped.
    fn forget(&mut self, clock: &Clock) -> Result<(), NoMemory>
        ensures { OnOk result (Forgets self.old clock.now self.new) }
    {
        if self.is_closed {
            return self.drop_all(clock);
        }
        Ok(())
    }
}
