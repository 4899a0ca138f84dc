// Notes in passages: a note alone, or a row of pauses or resumes.
ghost use Rattle.std.specs.List.{sum_by};
ghost use Rattle.std.specs.Prelude.{◌≡◌, length};
ghost use Rattle.flow_notes.specs.Passages.{notes_of_passage};
ghost use Rattle.flow_notes.specs.Rows.{flows_in, notes_of, rows_of};

use crate::notes::Note;
use flow_gate::{BufferId, FlowId};
use std::marker::Model;

/// What stands in a list of notes: one note, or a row of so many flows, which stand in a list of their
/// own.
#[derive(Drop)]
pub(crate) enum Item {
    One(Note),
    Pauses { count: usize, buffer: BufferId },
    Resumes { count: usize, buffer: BufferId },
}

impl Item {
    /// How many flows the row has.
    pub(crate) fn count(&self) -> usize
        ensures { result ≡ flows_in self.now }
    {
        match self {
            Item::One(_) => 0,
            Item::Pauses { count, .. } | Item::Resumes { count, .. } => *count,
        }
    }

    fn passage<'a>(&'a self, flows: &'a [FlowId]) -> Passage<'a>
        ensures { notes_of_passage result ≡ notes_of self.now flows.now }
    {
        match self {
            Item::One(note) => Passage::One(note),
            Item::Pauses { buffer, .. } => Passage::Pauses {
                flows,
                buffer: *buffer,
            },
            Item::Resumes { buffer, .. } => Passage::Resumes {
                flows,
                buffer: *buffer,
            },
        }
    }
}

/// One or more notes that follow each other.
#[derive(Clone, Copy)]
pub enum Passage<'a> {
    /// One note, which may be a pause or a resume too.
    One(&'a Note),
    /// A pause of each flow for the buffer.
    Pauses {
        flows: &'a [FlowId],
        buffer: BufferId,
    },
    /// A resume of each flow for the buffer.
    Resumes {
        flows: &'a [FlowId],
        buffer: BufferId,
    },
}

/// The passages of a list of notes, seen as the notes of each passage to come.
#[derive(Drop)]
pub struct Passages<'a> {
    items: &'a [Item],
    flows: &'a [FlowId],
}

impl<'a> Model for Passages<'a> {
    ghost use Rattle.std.specs.Prelude.{List, length, ◌≡◌};
    ghost use Rattle.std.specs.List.{sum_by};
    ghost use Rattle.flow_notes.specs.declared.notes.Note.{Note};

    ghost Value = { List (List Note) };

    ghost use Rattle.flow_notes.specs.Rows.{flows_in, rows_of};

    ghost view = { λ a. rows_of a.items.now a.flows.now };

    ghost invariant = { λ a. sum_by flows_in a.items.now ≡ length a.flows.now };
}

impl<'a> Passages<'a> {
    pub(crate) fn of(items: &'a [Item], flows: &'a [FlowId]) -> Self
        requires { sum_by flows_in items.now ≡ length flows.now }
        ensures { result ≡ rows_of items.now flows.now }
    {
        Passages { items, flows }
    }
}

impl<'a> Iterator for Passages<'a> {
    ghost use Rattle.std.specs.Iterator.{YieldsFirstBy, item_count};
    ghost use Rattle.flow_notes.specs.Passages.{notes_of_passage};

    type Item = Passage<'a>;

    ghost next_gives = { YieldsFirstBy notes_of_passage (λ passages. passages) };

    ghost remaining = { item_count (λ passages. passages) };

    fn next(&mut self) -> Option<Passage<'a>> {
        let (item, items) = self.items.split_first()?;
        let (row, flows) = self.flows.split_at(item.count());
        self.items = items;
        self.flows = flows;
        Some(item.passage(row))
    }
}
