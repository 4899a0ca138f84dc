// The list of a block while it is read.
ghost use Rattle.std.specs.Prelude.{◌≡◌, ◌+◌, ◌-◌, ◌^◌, ◌≤◌, ◌<◌, ◌++◌, ◌∷◌, ◌↔◌, ℕ, [], All, List, IfOk, OnOk, MatchResult, IsTrue, min, false};
ghost use Rattle.std.specs.Bool.{OnTrue, OnFalse};

use crate::fault::HpackFault;
use crate::fields::{Field, FieldList};
use crate::line::{Entry, counted_size};
use io_ports::NoMemory;
use std::alloc::Global;

/// The fields that were read so far, and the size of their list. Once it is known to be longer
/// than the greatest list size, fields are only counted, and none is kept.
#[derive(Drop)]
pub(crate) struct Collected {
    pub alloc: Global,
    pub fields: FieldList,
    pub size: u64,
    pub most: u32,
}

impl Collected {
    ghost use Rattle.hpack_codec.specs.Collecting.{Holds};
    ghost use Rattle.hpack_codec.specs.Encoding.{HasSpelling};
    ghost use Rattle.hpack_codec.specs.Entries.{entry_line};
    ghost use Rattle.hpack_codec.specs.Sections.{field_of, list_size};
    ghost use Rattle.hpack_codec.specs.Told.{IsToldBy};
    ghost use Rattle.hpack_codec.specs.declared.fields.Field.{Field};

    /// No fields, of a list that may count at most so many octets. Takes memory for some fields
    /// at once, where there is any.
    pub fn new(alloc: Global, most: u32, room: usize) -> Self
        ensures { Holds most result [] }
    {
        let fields = match FieldList::with_room(alloc, room) {
            Ok(list) => list,
            Err(_) => FieldList::new(alloc),
        };
        Collected {
            alloc,
            fields,
            size: 0,
            most,
        }
    }

    /// Whether no field was read.
    pub fn is_empty(&self) -> bool
        ensures { (most : ℕ) (fields : List Field) → Holds most self.now fields → IsTrue result ↔ (fields ≡ []) }
    {
        self.size == 0
    }

    /// Counts a field of this size, and says whether it is still to be kept.
    #[inline(always)]
    fn counts(&mut self, size: usize) -> bool
        ensures size { self.new.size ≡ min (self.old.size + size) (2 ^ 64 - 1) }
        ensures most { self.new.most ≡ self.old.most }
        ensures small { self.new.most < 2 ^ 32 }
        ensures kept { OnTrue result (self.new.fields ≡ self.old.fields) }
        ensures long { OnFalse result (self.new.most < self.new.size) }
        ensures fits { OnTrue result (size < 2 ^ 32) }
    {
        self.size = self.size.saturating_add(size as u64);
        if self.size > u64::from(self.most) {
            self.fields = FieldList::new(self.alloc);
            return false;
        }
        true
    }

    /// Adds a field, of which so much is told.
    #[inline(always)]
    pub fn push(&mut self, field: Field, told: u8) -> Result<(), NoMemory>
        requires { IsToldBy told field }
        ensures ok { OnOk result ((most : ℕ) (fields : List Field) → Holds most self.old fields →
            Holds most self.new (fields ++ field ∷ [])) }
    {
        let size = counted_size(field.name.len(), field.value.len());
        if !self.counts(size) {
            return Ok(());
        }
        self.fields.keep(field, size, told)
    }

    /// Adds a field that is a copy of an entry, of which so much is told.
    #[inline(always)]
    pub fn push_entry(&mut self, entry: Entry<'_>, told: u8) -> Result<(), NoMemory>
        requires { IsToldBy told (field_of (entry_line entry) false) }
        ensures ok { OnOk result ((most : ℕ) (fields : List Field) → Holds most self.old fields →
            Holds most self.new (fields ++ field_of (entry_line entry.entry) false ∷ [])) }
    {
        let size = entry.size();
        if !self.counts(size) {
            return Ok(());
        }
        let line = entry.line(self.alloc)?;
        let field = Field {
            name: line.name,
            value: line.value,
            never: false,
        };
        self.fields.keep(field, size, told)
    }

    /// The list, unless it is too long.
    pub fn finish(self) -> Result<FieldList, HpackFault>
        ensures list { (most : ℕ) (fields : List Field) → Holds most self fields →
            MatchResult result (λ list. (list ≡ fields) × (list_size fields ≤ most))
            (λ e. (e ≡ HpackFault.ListTooLong) × (most < list_size fields)) }
        ensures spelled { IfOk result (λ list. All HasSpelling list) }
    {
        if self.size <= u64::from(self.most) {
            self.fields.has_spelling();
            Ok(self.fields)
        } else {
            Err(HpackFault::ListTooLong)
        }
    }
}
