// The encoder of blocks.
ghost use Rattle.std.specs.Prelude.{◌≡◌, ◌+◌, ◌++◌, ◌<◌, ◌≤◌, ℕ, true, false, length, IfOk, OnOk, OnErr, if◌then◌else◌};
ghost use Rattle.hpack_codec.specs.Encoding.{encode_block};
ghost use Rattle.hpack_codec.specs.Sections.{SpellsBlock, list_size};
ghost use Rattle.hpack_codec.specs.Table.{Table, resized};

use crate::fields::FieldList;
use crate::spelling::push_told;
use io_ports::{NoMemory, Octets};
use std::alloc::Global;
use std::marker::Model;

/// Writes the blocks of one direction of a connection, in their order. It uses no dynamic table
/// and no Huffman strings, so each list has one spelling.
#[derive(Drop)]
pub struct Encoder {
    alloc: Global,
    anew: bool,
}

impl Model for Encoder {
    ghost use Rattle.std.specs.Prelude.{Bool};

    ghost Value = { Bool };

    ghost view = { λ e. e.anew };
}

impl Encoder {
    /// An encoder whose next block begins with the size update 0. Takes no memory.
    pub fn new(alloc: Global) -> Self
        ensures { result ≡ true }
    {
        Encoder { alloc, anew: true }
    }

    /// The peer named a size for the table: the next block begins with the size update 0 again.
    pub fn table_size_named(&mut self)
        ensures { self.new ≡ true }
    {
        self.anew = true;
    }

    /// The block of a list: the size update 0 where one is due, and then the fields. A field of
    /// the static table that isn't never-indexed is its lowest index; every other is a literal
    /// without indexing, or never indexed, with the lowest index of its name or a plain string,
    /// and a plain string as its value. It has at most one octet more than the list counts. After
    /// running out of memory the encoder is as it was.
    pub fn encode(&mut self, fields: &FieldList) -> Result<Octets, NoMemory>
        ensures spelling { IfOk result (λ block. block ≡ encode_block self.old fields.now) }

        // A decoder of any greatest size reads the same fields, whatever its table.
        ensures read { IfOk result (λ block. (greatest : ℕ) (before : Table) →
            SpellsBlock greatest block before fields.now (if self.old then resized 0 before else before)) }
        ensures bound { IfOk result (λ block. length block ≤ list_size fields.now + 1) }
        ensures ok { OnOk result (self.new ≡ false) }
        ensures err { OnErr result (self.new ≡ self.old) }
    {
        fields.has_spelling();
        let mut out = Vec::with_capacity(self.alloc, fields.size().saturating_add(1))?;
        self.encode_onto(fields, &mut out)?;
        Ok(Octets::from_vec(out))
    }

    /// Appends the block of a list, as `encode` gives it. After running out of memory the encoder is as it was.
    pub fn encode_onto(&mut self, fields: &FieldList, out: &mut Vec<u8>) -> Result<(), NoMemory>
        ensures spelling { OnOk result (out.new.items ≡ out.old.items ++ encode_block self.old fields.now) }
        ensures bound { OnOk result (length (encode_block self.old fields.now) ≤ list_size fields.now + 1) }
        ensures ok { OnOk result (self.new ≡ false) }
        ensures err { OnErr result (self.new ≡ self.old) }
    {
        fields.has_spelling();
        if self.anew {
            out.push(0x20)?;
        }
        for (place, field) in fields.as_slice().iter().enumerate() {
            push_told(out, field, fields.told(place))?;
        }
        self.anew = false;
        Ok(())
    }
}
