// Fields and lists of fields.
ghost use Rattle.std.specs.Prelude.{◌≡◌, ◌==◌, ◌++◌, ◌∷◌, ◌+◌, ◌-◌, ◌^◌, ◌↔◌, [], Some, length, min, slice_get, All, IfOk, IsTrue, OnOk, OnErr};
ghost use Rattle.hpack_codec.specs.Encoding.{HasSpelling};
ghost use Rattle.hpack_codec.specs.Told.{IsToldBy};

use crate::line::counted_size;
use io_ports::{NoMemory, Octets};
use std::alloc::Global;
use std::marker::Model;

/// A field: a name and a value, and whether it is never to be indexed on its way.
#[derive(Debug, Drop)]
pub struct Field {
    pub name: Octets,
    pub value: Octets,
    pub never: bool,
}

impl Field {
    /// Whether its name and its value have fewer than 2^32 octets each, so that a block can spell
    /// it (RFC 7541 section 5.1).
    pub fn has_spelling(&self) -> bool
        ensures { IsTrue result ↔ HasSpelling self.now }
    {
        let most = u32::MAX as usize;
        self.name.len() <= most && self.value.len() <= most
    }
}

/// Of how many fields a list knows where the static table has them: their octets are a word.
const TOLD: usize = 8;

/// A list of fields, in the order of a field section. Each of them has a spelling.
#[derive(Debug, Drop)]
pub struct FieldList {
    fields: Vec<Field>,
    /// What the fields count together, up to 2^64 - 1.
    size: usize,
    /// What the block told of each of the first fields by an index, an octet for each, the first the lowest. Only indexes of the
    /// static table are kept, which is the same on every connection.
    told: u64,
}

impl Model for FieldList {
    ghost use Rattle.std.specs.Prelude.{All, List, min, ◌-◌, ◌^◌, ◌≡◌};
    ghost use Rattle.hpack_codec.specs.Told.{AreTold};
    ghost use Rattle.hpack_codec.specs.Encoding.{HasSpelling};
    ghost use Rattle.hpack_codec.specs.Sections.{list_size};
    ghost use Rattle.hpack_codec.specs.declared.fields.Field.{Field};

    ghost Value = { List Field };

    ghost view = { λ a. a.fields.items };

    ghost invariant = { λ a. All HasSpelling a.fields.items × (a.size ≡ min (list_size a.fields.items) (2 ^ 64 - 1)) × AreTold a.told a.fields.items };
}

impl FieldList {
    ghost use Rattle.hpack_codec.specs.Sections.{list_size};
    ghost use Rattle.hpack_codec.specs.declared.fields.Field.{Field};

    /// No fields. Takes no memory.
    pub fn new(alloc: Global) -> Self
        ensures { result ≡ [] }
    {
        FieldList {
            fields: Vec::new(alloc),
            size: 0,
            told: 0,
        }
    }

    /// No fields, with room for some.
    pub(crate) fn with_room(alloc: Global, fields: usize) -> Result<Self, NoMemory>
        ensures { IfOk result (λ list. list ≡ []) }
    {
        Ok(FieldList {
            fields: Vec::with_capacity(alloc, fields)?,
            size: 0,
            told: 0,
        })
    }

    /// Appends a field. One that has no spelling is refused as out of memory is. After a refusal
    /// the list is as it was.
    pub fn push(&mut self, field: Field) -> Result<(), NoMemory>
        ensures ok { OnOk result (self.new ≡ self.old ++ field ∷ []) }
        ensures err { OnErr result (self.new ≡ self.old) }
        ensures spelled { OnOk result (HasSpelling field) }
    {
        if !field.has_spelling() {
            return Err(NoMemory);
        }
        let size = counted_size(field.name.len(), field.value.len());
        self.keep(field, size, 0)
    }

    /// Appends a field that has a spelling and counts so much, and of which so much is told. After running out of memory the list
    /// is as it was.
    #[inline(always)]
    pub(crate) fn keep(&mut self, field: Field, size: usize, told: u8) -> Result<(), NoMemory>
        requires spelled { HasSpelling field }
        requires size { size ≡ min (length field.name + length field.value + 32) (2 ^ 64 - 1) }
        requires told { IsToldBy told field }
        ensures ok { OnOk result (self.new ≡ self.old ++ field ∷ []) }
        ensures err { OnErr result (self.new ≡ self.old) }
    {
        let place = self.fields.len();
        self.fields.push(field)?;
        self.size = self.size.saturating_add(size);
        if place < TOLD {
            self.told += u64::from(told) << (8 * place);
        }
        Ok(())
    }

    /// The fields, in their order.
    pub fn as_slice(&self) -> &[Field]
        ensures { result.now ≡ self.now }
    {
        self.fields.as_slice()
    }

    /// What is told of the field at a place: 0 where that is nothing, the index of its name in the static table, whose entry there
    /// has no value, as this field has, or 128 and the index of the whole field.
    #[inline(always)]
    pub fn told(&self, place: usize) -> u8
        ensures { (field : Field) → slice_get self.now place ≡ Some field → IsToldBy result field }
    {
        if place < TOLD {
            ((self.told >> (8 * place)) % 256) as u8
        } else {
            0
        }
    }

    /// The size of the list: for each field the octets of its name and its value, and 32
    /// (RFC 9113 section 6.5.2). It ends at 2^64 - 1.
    pub fn size(&self) -> usize
        ensures { result ≡ min (list_size self.now) (2 ^ 64 - 1) }
    {
        self.size
    }

    /// Whether each field has a spelling. That is so of every list.
    pub fn has_spelling(&self) -> bool
        ensures spelled { IsTrue result ↔ All HasSpelling self.now }
        ensures always { All HasSpelling self.now }
    {
        let _ = &self.fields;
        true
    }

    /// How many fields there are.
    pub fn len(&self) -> usize
        ensures { result ≡ length self.now }
    {
        self.fields.len()
    }

    /// Whether there are no fields.
    pub fn is_empty(&self) -> bool
        ensures { result ≡ (length self.now == 0) }
    {
        self.fields.is_empty()
    }
}
