// Entries of the tables.
ghost use Rattle.std.specs.Prelude.{◌≡◌, ◌+◌, ◌-◌, ◌^◌, min, IfOk};

use io_ports::{NoMemory, Octets};
use std::alloc::Global;

/// An entry of the dynamic table: a name and a value.
#[derive(Drop)]
pub struct Line {
    pub name: Octets,
    pub value: Octets,
}

impl Line {
    /// A copy. Of an entry of the table it takes no memory.
    #[inline(always)]
    pub(crate) fn copied(&self) -> Result<Self, NoMemory>
        ensures { IfOk result (λ copy. copy ≡ self.now) }
    {
        let name = self.name.copied()?;
        let value = self.value.copied()?;
        Ok(Line { name, value })
    }

    /// The same line, such that a copy takes no memory.
    pub(crate) fn shared(self) -> Result<Self, NoMemory>
        ensures { IfOk result (λ shared. shared ≡ self) }
    {
        let name = self.name.shared()?;
        let value = self.value.shared()?;
        Ok(Line { name, value })
    }
}

/// A name and a value of the static table.
#[derive(Clone, Copy)]
pub(crate) struct Row {
    pub name: &'static [u8],
    pub value: &'static [u8],
}

/// An entry of either table.
#[derive(Clone, Copy)]
pub(crate) enum Entry<'a> {
    Fixed(Row),
    Added(&'a Line),
}

impl Entry<'_> {
    ghost use Rattle.hpack_codec.specs.Entries.{entry_line};
    ghost use Rattle.hpack_codec.specs.Table.{line_size};

    /// What it counts.
    #[inline(always)]
    pub fn size(&self) -> usize
        ensures { result ≡ min (line_size (entry_line self.now)) (2 ^ 64 - 1) }
    {
        match self {
            Entry::Fixed(row) => counted_size(row.name.len(), row.value.len()),
            Entry::Added(line) => counted_size(line.name.len(), line.value.len()),
        }
    }

    /// A copy of its name. Of one of at most 16 octets, and of a line that was added, it takes no memory.
    #[inline(always)]
    pub fn name(&self, alloc: Global) -> Result<Octets, NoMemory>
        ensures { IfOk result (λ name. name ≡ (entry_line self.now).name) }
    {
        match self {
            Entry::Fixed(row) => Octets::from_slice(alloc, row.name),
            Entry::Added(line) => line.name.copied(),
        }
    }

    /// A copy. Where name and value have at most 16 octets, and of a line that was added, it takes no memory.
    #[inline(always)]
    pub fn line(&self, alloc: Global) -> Result<Line, NoMemory>
        ensures { IfOk result (λ line. line ≡ entry_line self.now) }
    {
        match self {
            Entry::Fixed(row) => Ok(Line {
                name: Octets::from_slice(alloc, row.name)?,
                value: Octets::from_slice(alloc, row.value)?,
            }),
            Entry::Added(line) => line.copied(),
        }
    }
}

/// What a name and a value of so many octets count (RFC 7541 section 4.1). The count ends at 2^64 - 1.
#[inline(always)]
pub(crate) fn counted_size(name: usize, value: usize) -> usize
    ensures { result ≡ min (name + value + 32) (2 ^ 64 - 1) }
{
    name.saturating_add(value).saturating_add(32)
}
