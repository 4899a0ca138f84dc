// The rule over the published entry and what the publisher and all readers have seen.
use crate::entries::Entry;
use crossbeam_utils::rule::{Outcome, Protocol};
use left_right::reader::Reader;
use left_right::writer::Writer;
use std::collections::LinkedList;

/// The pressures of versions 1, 2 and so on that a reader has seen, 16 of each version. No value of it is made.
pub type Seen = LinkedList<[u32; 16]>;

/// The rule of the published list: what each reader has seen is a beginning of one list, and the entry that is shown is
/// its last.
pub struct OneList;

impl Protocol<Entry, Seen> for OneList {
    ghost use Rattle.std.specs.Prelude.{[]};
    ghost use Rattle.shared_state.specs.Published.{IsOneList};

    ghost holds = { IsOneList };

    ghost first = { [] };
}

/// A reader enters, or the publisher publishes: it then has seen the list up to the entry that is shown.
pub(crate) struct Sees;

impl Outcome<Entry, Seen> for Sees {
    ghost use Rattle.shared_state.specs.Published.{Shows};

    ghost then = { λ v _ y w. Shows v y w };
}

pub(crate) type Eye = Reader<Entry, Seen, OneList>;

pub(crate) type Press = Writer<Entry, Entry, Seen, OneList>;
