// Dispatches, and the columns of the picture that they stand in.
use crate::width::Width;
use flow_notes::Note;
use io_ports::NoMemory;

/// The most columns of a picture. Each is at least one point wide.
pub const COLUMNS: u64 = 960;

/// The present dispatch, and how dispatches go to columns: column j has the dispatches from `first + j * width` on, `width` of
/// them.
#[derive(Clone, Copy, PartialEq, Eq)]
pub struct Clock {
    /// The present dispatch, 0 before the first.
    pub turn: u64,
    /// The first dispatch that is drawn.
    pub first: u64,
    /// The last one.
    pub last: u64,
    /// How many dispatches a column has.
    pub width: Width,
}

impl Clock {
    ghost use Rattle.std.specs.Prelude.{◌≡◌, ◌+◌, min, nat_lt, OnOk};
    ghost use Rattle.tape_plot.specs.Turns.{Ticks, turns_of};

    /// Before the first dispatch, with a column for each.
    pub fn new(first: u64, last: u64) -> Self
        ensures turn { result.turn ≡ 0 }
        ensures first { result.first ≡ first }
        ensures last { result.last ≡ last }
    {
        Clock {
            turn: 0,
            first,
            last,
            width: Width::one(),
        }
    }

    /// The column of the present dispatch; none before the first that is drawn.
    pub fn column(&self) -> Option<u64> {
        let behind = self.turn.checked_sub(self.first)?;
        Some(self.width.column(behind))
    }

    /// Whether the present dispatch comes after the last that is drawn.
    pub fn is_past(&self) -> bool
        ensures { result ≡ nat_lt self.now.last self.now.turn }
    {
        self.turn > self.last
    }

    /// Goes on with a note: a turn begins the next dispatch.
    pub fn take(&mut self, note: &Note) -> Result<(), NoMemory>
        ensures { OnOk result (Ticks self.old (turns_of note.now) self.new) }
    {
        match note {
            Note::Turn { .. } => self.tick(),
            _ => Ok(()),
        }
    }

    // The next dispatch begins. Where there is no column left for it, columns get twice as wide.
    fn tick(&mut self) -> Result<(), NoMemory>
        ensures { OnOk result (Ticks self.old 1 self.new) }
    {
        let Some(turn) = self.turn.checked_add(1) else {
            return Err(NoMemory);
        };
        self.turn = turn;
        if !self.is_past() && self.column().unwrap_or(0) >= COLUMNS {
            let Some(width) = self.width.doubled() else {
                return Err(NoMemory);
            };
            self.width = width;
        }
        Ok(())
    }

    /// The last dispatch that is drawn.
    pub fn end(&self) -> u64
        ensures { result ≡ min self.now.turn self.now.last }
    {
        self.turn.min(self.last)
    }
}
