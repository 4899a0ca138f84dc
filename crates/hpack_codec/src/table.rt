// The dynamic table.
ghost use Rattle.std.specs.Prelude.{◌≡◌, ◌≤◌, ◌++◌, [], IfNone, Some, None, OnOk, MatchOption, length, option_to_list, slice_get};
ghost use Rattle.hpack_codec.specs.Table.{Table, added, empty_table, entry_at, kept, resized};
ghost use Rattle.hpack_codec.specs.Entries.{entry_line};

use crate::line::{Entry, Line, counted_size};
use crate::static_table::{STATIC_LEN, static_entry};
use io_ports::NoMemory;
use std::alloc::Global;
use std::collections::VecDeque;
use std::marker::Model;

/// The dynamic table: its entries, newest first, what they count together, and the size in force.
#[derive(Drop)]
pub(crate) struct DynamicTable {
    lines: VecDeque<Line>,
    octets: usize,
    limit: u32,
}

impl Model for DynamicTable {
    ghost use Rattle.std.specs.Prelude.{◌≡◌, ◌≤◌, sum_by};
    ghost use Rattle.hpack_codec.specs.Table.{Table, line_size};

    ghost Value = { Table };

    ghost view = { λ a. record { lines = a.lines.items; size = a.limit } };

    ghost invariant = { λ a. (a.octets ≡ sum_by line_size a.lines.items) × (a.octets ≤ a.limit) };
}

/// Takes the oldest entry out.
fn take_oldest(lines: &mut VecDeque<Line>) -> Option<Line>
    ensures items { lines.old.items ≡ lines.new.items ++ option_to_list result }
    ensures none { IfNone result ((lines.old.items ≡ []) × (lines.new.items ≡ [])) }
{
    lines.pop_back()
}

impl DynamicTable {
    /// A table without entries, of at most so many octets.
    pub fn new(alloc: Global, limit: u32) -> Self
        ensures { result ≡ empty_table limit }
    {
        DynamicTable {
            lines: VecDeque::new(alloc),
            octets: 0,
            limit,
        }
    }

    /// Evicts the oldest entries until the others fit the room.
    fn evict(&mut self, room: usize)
        ensures lines { self.new.lines ≡ kept room self.old.lines }
        ensures size { self.new.size ≡ self.old.size }
    {
        'evict: while self.octets > room {
            let Some(oldest) = take_oldest(&mut self.lines) else {
                break;
            };
            self.octets -= counted_size(oldest.name.len(), oldest.value.len());
        }
    }

    /// Adds the newest entry, and evicts the oldest until all fit. One that is larger than the
    /// table empties it. After running out of memory some entries may be evicted already.
    pub fn insert(&mut self, newest: Line) -> Result<(), NoMemory>
        ensures { OnOk result (self.new ≡ added newest self.old) }
    {
        let size = counted_size(newest.name.len(), newest.value.len());
        let limit = self.limit as usize;
        if size > limit {
            self.evict(0);
            return Ok(());
        }
        self.evict(limit - size);
        self.lines.push_front(newest)?;
        self.octets += size;
        Ok(())
    }

    /// Sets the size in force, and evicts the oldest entries until the others fit.
    pub fn resize(&mut self, limit: u32)
        ensures { self.new ≡ resized limit self.old }
    {
        self.evict(limit as usize);
        self.limit = limit;
    }

    /// The entry of the dynamic table at a place, the newest at 0.
    pub fn line(&self, place: usize) -> Option<&Line>
        ensures { MatchOption result (length self.now.lines ≤ place) (λ l. slice_get self.now.lines place ≡ Some l.now) }
    {
        self.lines.get(place)
    }

    /// The size in force.
    pub fn limit(&self) -> u32
        ensures { result ≡ self.now.size }
    {
        self.limit
    }

    /// The entry of either table at an index.
    pub fn entry(&self, index: u32) -> Option<Entry<'_>>
        ensures { MatchOption result (entry_at self.now index ≡ None) (λ e. entry_at self.now index ≡ Some (entry_line e)) }
    {
        if index == 0 {
            return None;
        }
        let place = (index - 1) as usize;
        if place < STATIC_LEN {
            return Some(Entry::Fixed(static_entry(place)));
        }
        match self.line(place - STATIC_LEN) {
            Some(found) => Some(Entry::Added(found)),
            None => None,
        }
    }
}
