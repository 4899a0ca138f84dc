// What is told of a dispatch in words.
ghost use Rattle.std.specs.Prelude.{◌≤◌};

use crate::clock::Clock;
use crate::width::Width;
use io_ports::NoMemory;
use std::alloc::Global;

/// How many octets of a line are told.
const ROOM: usize = 60;

/// The first of the lines that stand in one column.
#[derive(Clone, Copy)]
pub struct Mark {
    pub column: u64,
    /// Its dispatch.
    pub turn: u64,
    /// How many more stand in the column.
    pub more: u64,
    octets: [u8; ROOM],
    len: usize,
    ghost within: { len ≤ 60 },
}

impl Mark {
    /// A line, of which the front is kept.
    pub fn new(line: &[u8], column: u64, turn: u64) -> Self {
        let len = line.len().min(ROOM);
        let mut octets = [0u8; ROOM];
        octets[..len].copy_from_slice(&line[..len]);
        Mark {
            column,
            turn,
            more: 0,
            octets,
            len,
        }
    }

    /// The front of the line.
    pub fn words(&self) -> &[u8] {
        &self.octets[..self.len]
    }

    /// Whether the line went on.
    pub fn is_cut(&self) -> bool {
        self.len == ROOM
    }

    // The same in columns twice as wide.
    fn halved(self) -> Self {
        let octets = self.octets;
        Mark {
            column: self.column / 2,
            turn: self.turn,
            more: self.more,
            octets,
            len: self.len,
        }
    }

    // With those behind it in the same column.
    fn joined(self, later: Mark) -> Self {
        let octets = self.octets;
        Mark {
            column: self.column,
            turn: self.turn,
            more: self.more.saturating_add(1).saturating_add(later.more),
            octets,
            len: self.len,
        }
    }
}

/// Marks by columns, one for each column that has any.
#[derive(Drop)]
pub struct Marks {
    marks: Vec<Mark>,
    width: Width,
}

impl Marks {
    ghost use Rattle.std.specs.Prelude.{◌≡◌, ◌*◌, OnOk};

    /// None yet. Takes no memory.
    pub fn new(alloc: Global) -> Self {
        Marks {
            marks: Vec::new(alloc),
            width: Width::one(),
        }
    }

    /// The marks, by columns.
    pub fn marks(&self) -> &[Mark] {
        self.marks.as_slice()
    }

    /// A line of the present dispatch is marked, where that is drawn.
    pub fn add(&mut self, line: &[u8], clock: &Clock) -> Result<(), NoMemory> {
        self.fit(clock.width)?;
        match clock.column() {
            Some(column) => put_mark(&mut self.marks, Mark::new(line, column, clock.turn)),
            None => Ok(()),
        }
    }

    /// Its columns get so wide, if they aren't.
    pub fn fit(&mut self, width: Width) -> Result<(), NoMemory> {
        while self.width.turns() < width.turns() {
            self.halve()?;
        }
        Ok(())
    }

    // Its columns get twice as wide.
    fn halve(&mut self) -> Result<(), NoMemory>
        ensures { OnOk result (self.new.width.turns ≡ self.old.width.turns * 2) }
    {
        let Some(width) = self.width.doubled() else {
            return Err(NoMemory);
        };
        let mut marks = Vec::new(*self.marks.allocator());
        for mark in self.marks() {
            put_mark(&mut marks, mark.halved())?;
        }
        self.marks = marks;
        self.width = width;
        Ok(())
    }
}

// Appends a mark, or counts it with the last, where that has the same column.
fn put_mark(marks: &mut Vec<Mark>, mark: Mark) -> Result<(), NoMemory> {
    if let Some(last) = marks.last_mut() {
        if last.column == mark.column {
            *last = last.joined(mark);
            return Ok(());
        }
    }
    marks.push(mark)?;
    Ok(())
}
