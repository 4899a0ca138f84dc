// The greatest lengths of a session's buffers.
ghost use Rattle.std.specs.Prelude.{◌≡◌};

use crate::level::{Level, write_after};
use flow_notes::{Note, Notes, Passage};
use io_ports::NoMemory;
use std::alloc::Global;
use std::collections::BTreeMap;
use tape_laws::PlainLimits;

/// The levels of a flow's buffers.
#[derive(Clone, Copy, PartialEq, Eq)]
pub struct FlowLevels {
    pub recv: Level,
    pub send: Level,
}

/// What a summary tells of the lengths of a plain session's buffers, kept note by note: it grows with
/// the streams alone.
#[derive(Drop)]
pub struct PeakLog {
    limits: PlainLimits,
    started: Vec<u64>,
    flows: BTreeMap<u64, FlowLevels>,
    write: Level,
}

impl PeakLog {
    ghost use Rattle.std.specs.Prelude.{◌≡◌, ◌∷◌, ◌++◌, [], Some, OnOk};
    ghost use Rattle.std.specs.BTreeMap.{get};
    ghost use Rattle.std.specs.Ordering.{nat_cmp};
    ghost use Rattle.flow_notes.specs.Passages.{notes_of_passage};
    ghost use Rattle.tape_summary.specs.Peaking.{PeaksAre, PeaksGo, Sets, arrived, dropped, framed, levels_of, shifted};

    /// The log of an empty tape. Takes no memory.
    pub fn new(alloc: Global, limits: PlainLimits) -> Self
        ensures { PeaksAre limits result [] }
    {
        PeakLog {
            limits,
            started: Vec::new(alloc),
            flows: BTreeMap::new(alloc),
            write: Level::none(),
        }
    }

    /// Takes up the notes that a tape goes on with. After running out of memory the log is unusable: drop it.
    pub fn note_all(&mut self, notes: &Notes) -> Result<(), NoMemory>
        ensures { OnOk result (PeaksGo self.old notes.now self.new) }
    {
        for passage in notes.passages() {
            self.passage(passage)?;
        }
        Ok(())
    }

    /// The limits of the session.
    pub fn limits(&self) -> PlainLimits
        ensures { result ≡ self.now.limits }
    {
        self.limits
    }

    /// The streams, in the order of their starts.
    pub fn started(&self) -> &[u64]
        ensures { result.now ≡ self.now.started.items }
    {
        self.started.as_slice()
    }

    /// The levels of a stream's buffers.
    pub fn flow(&self, x: u64) -> FlowLevels
        ensures { result ≡ levels_of (get nat_cmp self.now.flows x) }
    {
        match self.flows.get(&x) {
            Some(levels) => *levels,
            None => FlowLevels {
                recv: Level::none(),
                send: Level::none(),
            },
        }
    }

    /// The level of the write buffer.
    pub fn write(&self) -> Level
        ensures { result ≡ self.now.write }
    {
        self.write
    }

    // Pauses and resumes leave each buffer as it was.
    fn passage(&mut self, passage: Passage<'_>) -> Result<(), NoMemory>
        ensures { OnOk result (PeaksGo self.old (notes_of_passage passage.entry) self.new) }
    {
        match passage {
            Passage::One(note) => self.note(note),
            _ => Ok(()),
        }
    }

    fn note(&mut self, note: &Note) -> Result<(), NoMemory>
        ensures { OnOk result (PeaksGo self.old (note.now ∷ []) self.new) }
    {
        self.write = write_after(self.write, note)?;
        match note {
            Note::Start { exchange, .. } => self.start(*exchange),
            Note::Arrive { flow, octets } => self.arrive(flow.exchange, octets.len() as u64),
            Note::Move { flow, n, .. } => self.shift(flow.exchange, u64::from(*n)),
            Note::Frame { flow, n, .. } => self.frame(flow.exchange, u64::from(*n)),
            Note::Doom { exchange, .. } => self.drop_all(*exchange),
            _ => Ok(()),
        }
    }

    fn start(&mut self, x: u64) -> Result<(), NoMemory>
        ensures started { OnOk result (self.new.started.items ≡ self.old.started.items ++ x ∷ []) }
        ensures flows { self.new.flows ≡ self.old.flows }
        ensures write { self.new.write ≡ self.old.write }
        ensures limits { self.new.limits ≡ self.old.limits }
    {
        self.started.push(x)?;
        Ok(())
    }

    // Octets come into the receive buffer.
    fn arrive(&mut self, x: u64, n: u64) -> Result<(), NoMemory>
        ensures { OnOk result (Sets self.old x (arrived n (levels_of (get nat_cmp self.old.flows x))) self.new) }
    {
        let levels = self.flow(x);
        self.set(
            x,
            FlowLevels {
                recv: levels.recv.rise(n)?,
                ..levels
            },
        )
    }

    // Octets go from the receive buffer to the send buffer.
    fn shift(&mut self, x: u64, n: u64) -> Result<(), NoMemory>
        ensures { OnOk result (Sets self.old x (shifted n (levels_of (get nat_cmp self.old.flows x))) self.new) }
    {
        let levels = self.flow(x);
        self.set(
            x,
            FlowLevels {
                recv: levels.recv.fall(n),
                send: levels.send.rise(n)?,
            },
        )
    }

    // Octets leave the send buffer.
    fn frame(&mut self, x: u64, n: u64) -> Result<(), NoMemory>
        ensures { OnOk result (Sets self.old x (framed n (levels_of (get nat_cmp self.old.flows x))) self.new) }
    {
        let levels = self.flow(x);
        self.set(
            x,
            FlowLevels {
                send: levels.send.fall(n),
                ..levels
            },
        )
    }

    // Both buffers are emptied.
    fn drop_all(&mut self, x: u64) -> Result<(), NoMemory>
        ensures { OnOk result (Sets self.old x (dropped (levels_of (get nat_cmp self.old.flows x))) self.new) }
    {
        let levels = self.flow(x);
        self.set(
            x,
            FlowLevels {
                recv: levels.recv.empty(),
                send: levels.send.empty(),
            },
        )
    }

    fn set(&mut self, x: u64, levels: FlowLevels) -> Result<(), NoMemory>
        ensures { OnOk result (Sets self.old x levels self.new) }
    {
        self.flows.insert(x, levels)?;
        Ok(())
    }
}
