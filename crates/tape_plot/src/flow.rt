// The places of one flow, and its read-disable count.
ghost use Rattle.std.specs.Prelude.{◌≡◌, ◌≤◌, ℕ, length, max, OnOk};
ghost use Rattle.tape_plot.specs.Flows.{Shows, lane_at, lanes_of};

use crate::clock::Clock;
use crate::held::Held;
use crate::lane::Lane;
use flow_gate::BufferId;
use flow_notes::Note;
use io_ports::NoMemory;
use std::alloc::Global;

/// A buffer's lane.
#[derive(Drop)]
pub struct Place {
    pub lane: Lane,
}

impl Place {
    ghost use Rattle.std.specs.Prelude.{◌≡◌};
    ghost use Rattle.tape_plot.specs.Lanes.{drawn_of, fresh};

    /// A buffer that never held an octet. Takes no memory.
    pub fn new(alloc: Global) -> Self
        ensures { drawn_of result.lane ≡ fresh }
    {
        Place {
            lane: Lane::new(alloc),
        }
    }
}

/// The places of a flow that octets came to, its receive buffer first, and its read-disable count.
#[derive(Drop)]
pub struct Flow {
    held: Held,
    pub places: Vec<Place>,
    pub count: Lane,
    pauses: u64,
    resumes: u64,
    /// It is given up, and its count is drawn no further.
    is_doomed: bool,
    /// Its last place is its send buffer, as a note told.
    pub sends: bool,
}

impl Flow {
    ghost use Rattle.std.specs.Prelude.{◌≡◌, ◌-◌, if◌then◌else◌, length, min, IfOk, OnOk};
    ghost use Rattle.tape_plot.specs.Flows.{Arrives, Dooms, Frames, IsFresh, Moves, Pauses, Resumes};
    ghost use Rattle.tape_plot.specs.Goes.{FlowGoes, FlowStays, framed_by};
    ghost use Rattle.tape_plot.specs.Levels.{at, top};

    /// Before its first note. Takes no memory.
    pub fn new(alloc: Global) -> Self
        ensures { IsFresh result }
    {
        Flow {
            held: Held::new(alloc),
            places: Vec::new(alloc),
            count: Lane::new(alloc),
            pauses: 0,
            resumes: 0,
            is_doomed: false,
            sends: false,
        }
    }

    /// How many places there are; out of memory where they are past 2^32 - 1.
    pub fn place_count(&self) -> Result<u32, NoMemory>
        ensures { IfOk result (λ n. n ≡ length self.now.places.items) }
    {
        match u32::try_from(self.places.len()) {
            Ok(n) => Ok(n),
            Err(_) => Err(NoMemory),
        }
    }

    /// Octets enter the receive buffer.
    pub fn arrive(&mut self, n: u64, clock: &Clock) -> Result<(), NoMemory>
        ensures { OnOk result (Arrives self.old n clock.now self.new) }
    {
        self.held.arrive(n)?;
        show(&mut self.places, &self.held, clock)
    }

    /// Octets go from a place to the next, at most those that lie there.
    pub fn shift(&mut self, place: u32, n: u32, clock: &Clock) -> Result<(), NoMemory>
        ensures { OnOk result (Moves self.old place n clock.now self.new) }
    {
        self.held.shift(place as usize, u64::from(n))?;
        show(&mut self.places, &self.held, clock)
    }

    /// Octets leave the last place, at most those that lie there. Answers how many.
    pub fn frame(&mut self, n: u32, clock: &Clock) -> Result<u64, NoMemory>
        ensures goes { OnOk result (Frames self.old n clock.now self.new) }
        ensures taken { IfOk result (λ taken. taken ≡ min n (at self.old.held.levels.items (top self.old.held.levels.items))) }
    {
        let taken = self.held.frame(u64::from(n));
        self.sends = self.sends || taken > 0;
        show(&mut self.places, &self.held, clock)?;
        Ok(taken)
    }

    /// It is given up: all octets are dropped.
    pub fn drop_all(&mut self, clock: &Clock) -> Result<(), NoMemory>
        ensures { OnOk result (Dooms self.old clock.now self.new) }
    {
        self.held.drop_all();
        self.is_doomed = true;
        self.count.set(0, clock)?;
        show(&mut self.places, &self.held, clock)
    }

    /// The read-disable count rises.
    pub fn pause(&mut self, clock: &Clock) -> Result<(), NoMemory>
        ensures { OnOk result (Pauses self.old clock.now self.new) }
    {
        let Some(pauses) = self.pauses.checked_add(1) else {
            return Err(NoMemory);
        };
        self.pauses = pauses;
        let shown = self.shown();
        self.count.set(shown, clock)
    }

    /// The read-disable count falls.
    pub fn resume(&mut self, clock: &Clock) -> Result<(), NoMemory>
        ensures { OnOk result (Resumes self.old clock.now self.new) }
    {
        let Some(resumes) = self.resumes.checked_add(1) else {
            return Err(NoMemory);
        };
        self.resumes = resumes;
        let shown = self.shown();
        self.count.set(shown, clock)
    }

    // The count that is drawn.
    fn shown(&self) -> u64
        ensures { result ≡ (if self.now.is_doomed then 0 else self.now.pauses - self.now.resumes) }
    {
        if self.is_doomed {
            0
        } else {
            self.pauses.saturating_sub(self.resumes)
        }
    }

    /// Goes on with a note of it, of the present dispatch. Answers how many octets leave it in a frame.
    pub fn note(&mut self, note: &Note, clock: &Clock) -> Result<u64, NoMemory>
        ensures goes { OnOk result (FlowGoes self.old note.now clock.now self.new) }
        ensures taken { IfOk result (λ taken. taken ≡ framed_by note.now self.old.held.levels.items) }
    {
        match note {
            Note::Arrive { octets, .. } => {
                self.arrive(octets.len() as u64, clock)?;
                Ok(0)
            }
            Note::Move { place, n, .. } => {
                self.shift(*place, *n, clock)?;
                Ok(0)
            }
            Note::Frame { n, .. } => self.frame(*n, clock),
            Note::Pause { buffer, .. } => {
                self.watch(*buffer);
                self.pause(clock)?;
                Ok(0)
            }
            Note::Resume { buffer, .. } => {
                self.watch(*buffer);
                self.resume(clock)?;
                Ok(0)
            }
            _ => Ok(0),
        }
    }

    // A note of a pause or a resume names a buffer, perhaps its send buffer.
    fn watch(&mut self, buffer: BufferId)
        ensures { FlowStays self.old self.new }
    {
        if matches!(buffer, BufferId::Send(_)) {
            self.sends = true;
        }
    }
}

// The lanes go on with what lies at their places, those of new places among them.
fn show(places: &mut Vec<Place>, held: &Held, clock: &Clock) -> Result<(), NoMemory>
    ensures shows { OnOk result (Shows (lanes_of places.old.items) held.now.levels.items clock.now (lanes_of places.new.items)) }
    ensures many { OnOk result (length places.new.items ≡ max (length places.old.items) (length held.now.levels.items)) }
{
    grow(places, held.len())?;
    set_all(places, held, clock)
}

// There are so many lanes at least: as many as there were, or so many.
fn grow(places: &mut Vec<Place>, len: usize) -> Result<(), NoMemory>
    ensures same { OnOk result ((p : ℕ) → lane_at (lanes_of places.new.items) p ≡ lane_at (lanes_of places.old.items) p) }
    ensures many { OnOk result (length places.new.items ≡ max (length places.old.items) len) }
{
    while places.len() < len {
        let alloc = *places.allocator();
        places.push(Place::new(alloc))?;
    }
    Ok(())
}

// The lanes go on with what lies at their places.
fn set_all(places: &mut Vec<Place>, held: &Held, clock: &Clock) -> Result<(), NoMemory>
    requires { length held.now.levels.items ≤ length places.old.items }
    ensures shows { OnOk result (Shows (lanes_of places.old.items) held.now.levels.items clock.now (lanes_of places.new.items)) }
    ensures many { OnOk result (length places.new.items ≡ length places.old.items) }
{
    let mut i = 0;
    while i < places.len() {
        places[i].lane.set(held.at(i), clock)?;
        i += 1;
    }
    Ok(())
}
