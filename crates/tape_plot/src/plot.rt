// What is drawn of a tape, kept note by note.
use crate::clock::Clock;
use crate::levels::Levels;
use crate::limits::Limits;
use crate::mark::{Mark, Marks};
use crate::report::Line;
use flow_notes::Note;
use io_ports::NoMemory;
use std::alloc::Global;

/// What is drawn of a tape: it grows with the exchanges and connections, and with the columns in which their buffers changed.
#[derive(Drop)]
pub struct Plot {
    pub clock: Clock,
    pub levels: Levels,
    pub limits: Limits,
    /// What began each dispatch.
    pub turns: Marks,
    pub dooms: Marks,
    pub closes: Marks,
    pub fires: Marks,
}

impl Plot {
    ghost use Rattle.std.specs.Prelude.{◌≡◌, [], OnOk};
    ghost use Rattle.tape_plot.specs.Goes.{LevelsStay, PlotGoes, PlotStays};
    ghost use Rattle.tape_plot.specs.Kept.{PlotIs};
    ghost use Rattle.tape_plot.specs.Limits.{LimitsAre, TellsLine};

    /// Before the first note. Takes no memory.
    pub fn new(alloc: Global, first: u64, last: u64) -> Self
        ensures is { PlotIs result first last [] }
        ensures limits { LimitsAre result.limits [] }
    {
        Plot {
            clock: Clock::new(first, last),
            levels: Levels::new(alloc),
            limits: Limits::new(alloc),
            turns: Marks::new(alloc),
            dooms: Marks::new(alloc),
            closes: Marks::new(alloc),
            fires: Marks::new(alloc),
        }
    }

    /// Takes up a note and its line. What comes behind the last dispatch that is drawn changes nothing but the clock.
    pub fn note(&mut self, note: &Note, line: &[u8]) -> Result<(), NoMemory>
        ensures goes { OnOk result (PlotGoes self.old note.now self.new) }
        ensures limits { OnOk result (self.new.limits ≡ self.old.limits) }
    {
        self.clock.take(note)?;
        if self.clock.is_past() {
            return Ok(());
        }
        self.levels.note(note, &self.clock)?;
        self.mark(note, line)
    }

    // Marks the line of a turn, a doom, a close or a fire.
    fn mark(&mut self, note: &Note, line: &[u8]) -> Result<(), NoMemory>
        ensures levels { OnOk result (LevelsStay self.old.levels self.new.levels) }
        ensures limits { self.new.limits ≡ self.old.limits }
        ensures clock { self.new.clock ≡ self.old.clock }
    {
        match note {
            Note::Turn { .. } => self.turns.add(line, &self.clock),
            Note::Doom { exchange, .. } => {
                self.mark_doom(*exchange, line)?;
                self.dooms.add(line, &self.clock)
            }
            Note::Close { .. } => self.closes.add(line, &self.clock),
            Note::Fire { .. } => self.fires.add(line, &self.clock),
            _ => Ok(()),
        }
    }

    fn mark_doom(&mut self, exchange: u64, line: &[u8]) -> Result<(), NoMemory>
        ensures levels { OnOk result (LevelsStay self.old.levels self.new.levels) }
        ensures limits { self.new.limits ≡ self.old.limits }
        ensures clock { self.new.clock ≡ self.old.clock }
    {
        let turn = self.clock.turn;
        self.levels.mark_doom(exchange, Mark::new(line, 0, turn))
    }

    /// Takes up a line of the summary: that of a peak tells the limit of its buffer.
    pub fn sum(&mut self, line: Line) -> Result<(), NoMemory>
        ensures stays { OnOk result (PlotStays self.old self.new) }
        ensures tells { OnOk result (TellsLine self.old.limits line self.new.limits) }
    {
        match line {
            Line::Peak { buffer, limit, .. } => self.limits.tell(buffer, limit),
            _ => Ok(()),
        }
    }

    /// All marks are brought to the columns of the clock.
    pub fn fit_marks(&mut self) -> Result<(), NoMemory>
        ensures levels { self.new.levels ≡ self.old.levels }
        ensures limits { self.new.limits ≡ self.old.limits }
        ensures clock { self.new.clock ≡ self.old.clock }
    {
        let width = self.clock.width;
        self.turns.fit(width)?;
        self.dooms.fit(width)?;
        self.closes.fit(width)?;
        self.fires.fit(width)
    }
}
