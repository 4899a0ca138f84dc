// The pauses of a session, each with the dispatch of its resume.
ghost use Rattle.std.specs.Prelude.{◌≡◌, ◌+◌, IfOk};

use crate::tracks::Tracks;
use flow_gate::{BufferId, FlowId};
use flow_notes::{Note, Notes, Passage};
use io_ports::NoMemory;
use std::alloc::Global;

/// A flow, and a buffer for which it is paused.
#[derive(Clone, Copy, PartialEq, Eq, PartialOrd, Ord)]
pub struct Spot {
    pub flow: FlowId,
    pub buffer: BufferId,
}

/// A pause, the dispatch in which it came, and that of its resume, once it came.
#[derive(Clone, Copy, PartialEq, Eq)]
pub struct Pause {
    pub spot: Spot,
    pub at: u64,
    pub until: Option<u64>,
}

/// What a summary tells of the pauses of a tape, kept note by note: it grows with the pauses alone.
#[derive(Drop)]
pub struct PauseLog {
    turn: u64,
    pauses: Vec<Pause>,
    tracks: Tracks,
}

impl PauseLog {
    ghost use Rattle.std.specs.Prelude.{◌≡◌, ◌+◌, ◌∷◌, [], map, OnOk};
    ghost use Rattle.flow_notes.specs.Passages.{notes_of_passage};
    ghost use Rattle.tape_summary.specs.Pausing.{LogIs, Logs, ended};

    /// The log of an empty tape. Takes no memory.
    pub fn new(alloc: Global) -> Self
        ensures { LogIs result [] }
    {
        PauseLog {
            turn: 0,
            pauses: Vec::new(alloc),
            tracks: Tracks::new(alloc),
        }
    }

    /// Takes up the notes that a tape goes on with. After running out of memory the log is unusable: drop it.
    pub fn note_all(&mut self, notes: &Notes) -> Result<(), NoMemory>
        ensures { OnOk result (Logs self.old notes.now self.new) }
    {
        for passage in notes.passages() {
            self.passage(passage)?;
        }
        Ok(())
    }

    /// How many dispatches there were.
    pub fn turns(&self) -> u64
        ensures { result ≡ self.now.turn }
    {
        self.turn
    }

    /// The pauses, in the order of their notes.
    pub fn pauses(&self) -> &[Pause]
        ensures { result.now ≡ self.now.pauses.items }
    {
        self.pauses.as_slice()
    }

    fn passage(&mut self, passage: Passage<'_>) -> Result<(), NoMemory>
        ensures { OnOk result (Logs self.old (notes_of_passage passage.entry) self.new) }
    {
        match passage {
            Passage::One(note) => self.note(note),
            Passage::Pauses { flows, buffer } => self.pause_all(flows, buffer),
            Passage::Resumes { flows, buffer } => self.resume_all(flows, buffer),
        }
    }

    fn pause_all(&mut self, flows: &[FlowId], buffer: BufferId) -> Result<(), NoMemory>
        ensures { OnOk result (Logs self.old (map (λ f. Note.Pause f buffer) flows.now) self.new) }
    {
        let mut rest = flows;
        while let Some((flow, after)) = rest.split_first() {
            self.pause(Spot {
                flow: *flow,
                buffer,
            })?;
            rest = after;
        }
        Ok(())
    }

    fn resume_all(&mut self, flows: &[FlowId], buffer: BufferId) -> Result<(), NoMemory>
        ensures { OnOk result (Logs self.old (map (λ f. Note.Resume f buffer) flows.now) self.new) }
    {
        let mut rest = flows;
        while let Some((flow, after)) = rest.split_first() {
            self.resume(Spot {
                flow: *flow,
                buffer,
            })?;
            rest = after;
        }
        Ok(())
    }

    fn note(&mut self, note: &Note) -> Result<(), NoMemory>
        ensures { OnOk result (Logs self.old (note.now ∷ []) self.new) }
    {
        match note {
            Note::Turn { .. } => self.turn_on(),
            Note::Pause { flow, buffer } => self.pause(Spot {
                flow: *flow,
                buffer: *buffer,
            }),
            Note::Resume { flow, buffer } => self.resume(Spot {
                flow: *flow,
                buffer: *buffer,
            }),
            _ => Ok(()),
        }
    }

    fn turn_on(&mut self) -> Result<(), NoMemory>
        ensures turn { OnOk result (self.new.turn ≡ self.old.turn + 1) }
        ensures pauses { self.new.pauses ≡ self.old.pauses }
        ensures tracks { self.new.tracks ≡ self.old.tracks }
    {
        self.turn = next(self.turn)?;
        Ok(())
    }

    fn pause(&mut self, spot: Spot) -> Result<(), NoMemory>
        ensures { OnOk result (Logs self.old (Note.Pause spot.flow spot.buffer ∷ []) self.new) }
    {
        let until = self.tracks.pause(spot, self.pauses.len())?;
        self.pauses.push(Pause {
            spot,
            at: self.turn,
            until,
        })?;
        Ok(())
    }

    fn resume(&mut self, spot: Spot) -> Result<(), NoMemory>
        ensures { OnOk result (Logs self.old (Note.Resume spot.flow spot.buffer ∷ []) self.new) }
    {
        match self.tracks.resume(spot, self.turn)? {
            Some(place) => {
                self.end_pause(place);
                Ok(())
            }
            None => Ok(()),
        }
    }

    // Notes at the pause with this place that its resume comes in this dispatch.
    fn end_pause(&mut self, place: usize)
        ensures pauses { self.new.pauses.items ≡ ended place self.old.turn self.old.pauses.items }
        ensures turn { self.new.turn ≡ self.old.turn }
        ensures tracks { self.new.tracks ≡ self.old.tracks }
    {
        if place < self.pauses.len() {
            self.pauses[place].until = Some(self.turn);
        }
    }
}

// The number after n. One past the end of its type counts as out of memory.
fn next(n: u64) -> Result<u64, NoMemory>
    ensures { IfOk result (λ next. next ≡ n + 1) }
{
    match n.checked_add(1) {
        Some(next) => Ok(next),
        None => Err(NoMemory),
    }
}
