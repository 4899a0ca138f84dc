// What a core did, note by note.
ghost use Rattle.std.specs.Iterator.{Drains, IsFinite};
ghost use Rattle.std.specs.Prelude.{◌≡◌, ◌==◌, ◌++◌, ◌∷◌, ◌-◌, ◌<◌, ◌≤◌, List, [], length, map, take, IfOk, OnOk, OnErr};
ghost use Rattle.flow_rules.specs.declared.ids.FlowId.{FlowId};
ghost use Rattle.flow_notes.specs.Rows.{flows_in, with_row};

use crate::Event;
use crate::passages::{Item, Passages};
use flow_gate::{BufferId, FlowId, Watchers};
use flow_rules::{Cause, FireKind};
use io_ports::{NoMemory, Octets};
use std::alloc::Global;
use std::marker::Model;

/// Why a connection was closed.
#[derive(Clone, Copy, Debug, PartialEq, Eq)]
pub enum CloseCause {
    Protocol,
    Lost,
    Drained,
    Idle,
    Overload,
    Flood,
}

/// One step of a core, as a tape shows it.
#[derive(Debug, Drop)]
pub enum Note {
    /// Dispatch `number`, counted from 1, begins.
    Turn {
        number: u64,
        event: Event,
    },
    /// Body octets enter the receive buffer.
    Arrive {
        flow: FlowId,
        octets: Octets,
    },
    /// `n` octets go from place `place` to the next one.
    Move {
        flow: FlowId,
        place: u32,
        n: u32,
    },
    /// One DATA frame of `n` octets goes into the write buffer; `last` where it carries the end.
    Frame {
        conn: u32,
        flow: FlowId,
        n: u32,
        last: bool,
    },
    /// `n` octets leave the write buffer.
    Out {
        conn: u32,
        n: u32,
    },
    /// The flow's read-disable count rises for this buffer.
    Pause {
        flow: FlowId,
        buffer: BufferId,
    },
    /// The flow's read-disable count falls for this buffer.
    Resume {
        flow: FlowId,
        buffer: BufferId,
    },
    /// A WINDOW_UPDATE frame of `n`.
    Credit {
        conn: u32,
        stream: u32,
        n: u32,
    },
    /// A header block with its frames.
    Head {
        conn: u32,
        stream: u32,
        octets: Octets,
    },
    /// A control frame, or the preface with SETTINGS.
    Answer {
        conn: u32,
        octets: Octets,
    },
    /// `n` flow-controlled octets entered no buffer.
    Waste {
        conn: u32,
        stream: u32,
        n: u32,
    },
    /// An exchange from a stream of connection `conn` to connection `to`: in a wire session 0 for none, in a plain one always
    /// connection 0.
    Start {
        exchange: u64,
        conn: u32,
        stream: u32,
        to: u32,
    },
    /// The exchange is given up, or done.
    Doom {
        exchange: u64,
        cause: Cause,
    },
    /// The exchange is destroyed.
    Gone {
        exchange: u64,
    },
    /// The connection is closed.
    Close {
        conn: u32,
        code: u32,
        cause: CloseCause,
    },
    /// A timer fired, of the exchange or connection `id`.
    Fire {
        kind: FireKind,
        id: u64,
    },
}

/// A list of notes. The pauses, or the resumes, of a row of flows for one buffer take the room of their
/// flows alone.
#[derive(Drop)]
pub struct Notes {
    items: Vec<Item>,
    /// The flows of the rows, one row after the other.
    flows: Vec<FlowId>,
    /// How many notes stand alone.
    alone: usize,
}

impl Model for Notes {
    ghost use Rattle.std.specs.Prelude.{List};
    ghost use Rattle.flow_notes.specs.declared.notes.Note.{Note};

    ghost Value = { List Note };

    ghost use Rattle.flow_notes.specs.Rows.{AreRows, all_notes};

    ghost view = { λ a. all_notes a.items.items a.flows.items };

    ghost invariant = { λ a. AreRows a.items.items a.flows.items a.alone };
}

impl Notes {
    ghost use Rattle.std.specs.List.{AllByRecursion, flat_map};

    /// No notes. Takes no memory.
    pub fn new(alloc: Global) -> Self
        ensures { result ≡ [] }
    {
        Notes {
            items: Vec::new(alloc),
            flows: Vec::new(alloc),
            alone: 0,
        }
    }

    /// Appends a note. After running out of memory the list is as it was.
    #[inline(always)]
    pub fn push(&mut self, note: Note) -> Result<(), NoMemory>
        ensures ok { OnOk result (self.new ≡ self.old ++ note ∷ []) }
        ensures err { OnErr result (self.new ≡ self.old) }
    {
        self.items.push(Item::One(note))?;
        self.alone += 1;
        Ok(())
    }

    /// Appends a pause of each flow for the buffer. After running out of memory the list is as it was.
    pub fn push_pauses(&mut self, flows: Watchers<'_>, buffer: BufferId) -> Result<(), NoMemory>
        ensures ok { OnOk result (self.new ≡ self.old ++ map (λ f. Note.Pause f buffer) flows.entry) }
        ensures err { OnErr result (self.new ≡ self.old) }
    {
        let count = append_all(&mut self.flows, flows)?;
        let row = Item::Pauses { count, buffer };
        end_row(&mut self.items, &mut self.flows, row)
    }

    /// Appends a resume of each of the first `n` flows for the buffer. After running out of memory the list is
    /// as it was.
    pub fn push_resumes(
        &mut self,
        flows: Watchers<'_>,
        n: usize,
        buffer: BufferId,
    ) -> Result<(), NoMemory>
        ensures ok { OnOk result (self.new ≡ self.old ++ map (λ f. Note.Resume f buffer) (take n flows.entry)) }
        ensures err { OnErr result (self.new ≡ self.old) }
    {
        let count = append_first(&mut self.flows, flows, n)?;
        let row = Item::Resumes { count, buffer };
        end_row(&mut self.items, &mut self.flows, row)
    }

    /// The notes in their order, in passages: a note that was pushed by itself, or a row of pauses or
    /// resumes. No passage is empty. Takes no memory.
    pub fn passages(&self) -> Passages<'_>
        ensures full { AllByRecursion (λ notes. 0 < length notes) result }
        ensures notes { flat_map (λ notes. notes) result ≡ self.now }
    {
        Passages::of(self.items.as_slice(), self.flows.as_slice())
    }

    /// How many notes there are, each of a row of pauses or resumes counted.
    pub fn len(&self) -> usize
        ensures { result ≡ length self.now }
    {
        self.alone + self.flows.len()
    }

    /// Whether there are no notes.
    pub fn is_empty(&self) -> bool
        ensures { result ≡ (length self.now == 0) }
    {
        self.len() == 0
    }

    /// Drops all notes, and keeps their room.
    pub fn clear(&mut self)
        ensures { self.new ≡ [] }
    {
        self.items.clear();
        self.flows.clear();
        self.alone = 0;
    }
}

// Appends the flows, and counts them. After running out of memory the list is as it was.
fn append_all(list: &mut Vec<FlowId>, flows: Watchers<'_>) -> Result<usize, NoMemory>
    ensures ok { IfOk result (λ count. (list.new.items ≡ list.old.items ++ flows.entry)
        × (count ≡ length flows.entry)) }
    ensures err { OnErr result (list.new.items ≡ list.old.items) }
{
    match flows.as_slice() {
        Some(row) => append_row(list, row),
        None => append(list, flows),
    }
}

// Appends the first `n` flows, and counts them. After running out of memory the list is as it was.
fn append_first(list: &mut Vec<FlowId>, flows: Watchers<'_>, n: usize) -> Result<usize, NoMemory>
    ensures ok { IfOk result (λ count. (list.new.items ≡ list.old.items ++ take n flows.entry)
        × (count ≡ length (take n flows.entry))) }
    ensures err { OnErr result (list.new.items ≡ list.old.items) }
{
    match flows.as_slice() {
        Some(row) => append_row(list, row.get(..n).unwrap_or(row)),
        None => append(list, flows.take(n)),
    }
}

// Appends a row of flows, and counts them. After running out of memory the list is as it was.
fn append_row(list: &mut Vec<FlowId>, row: &[FlowId]) -> Result<usize, NoMemory>
    ensures ok { IfOk result (λ count. (list.new.items ≡ list.old.items ++ row.now)
        × (count ≡ length row.now)) }
    ensures err { OnErr result (list.new.items ≡ list.old.items) }
{
    list.extend_from_slice(row)?;
    Ok(row.len())
}

// Appends the flows of an iterator, and counts them. After running out of memory the list is as it was.
fn append<I: Iterator<Item = FlowId> + Drop>(
    list: &mut Vec<FlowId>,
    flows: I,
) -> Result<usize, NoMemory>
    requires can { I.can_next flows }
    requires ends { IsFinite (I.remaining flows) }
    ensures ok { IfOk result (λ count. (added : List FlowId) × Drains I.next_gives flows added
        × (list.new.items ≡ list.old.items ++ added) × (count ≡ length added)) }
    ensures err { OnErr result (list.new.items ≡ list.old.items) }
{
    let start = list.len();
    if list.extend(flows).is_err() {
        list.truncate(start);
        return Err(NoMemory);
    }
    Ok(list.len() - start)
}

// Appends the row of the last flows, unless it is empty. After running out of memory they are let go.
fn end_row(items: &mut Vec<Item>, flows: &mut Vec<FlowId>, row: Item) -> Result<(), NoMemory>
    requires { flows_in row ≤ length flows.old.items }
    ensures ok { OnOk result ((flows.new.items ≡ flows.old.items)
        × (items.new.items ≡ with_row items.old.items row)) }
    ensures err { OnErr result ((items.new.items ≡ items.old.items)
        × (flows.new.items ≡ take (length flows.old.items - flows_in row) flows.old.items)) }
{
    let count = row.count();
    if count > 0 && items.push(row).is_err() {
        flows.truncate(flows.len() - count);
        return Err(NoMemory);
    }
    Ok(())
}
