// The decoder of blocks.
ghost use Rattle.std.specs.Prelude.{◌≡◌, ◌≤◌, ◌<◌, ◌^◌, Ok, Err, Some, true, false, All, IfOk, MatchOption, length, slice_get};
ghost use Rattle.hpack_codec.specs.Decoding.{Answers, decoder_with, is_final};
ghost use Rattle.hpack_codec.specs.Encoding.{HasSpelling};
ghost use Rattle.hpack_codec.specs.Sections.{list_size};
ghost use Rattle.hpack_codec.specs.Table.{empty_table};

use crate::collected::Collected;
use crate::fault::HpackFault;
use crate::fields::FieldList;
use crate::line::Line;
use crate::pieces::read_piece;
use crate::table::DynamicTable;
use std::alloc::Global;
use std::marker::Model;

/// Reads the blocks of one direction of a connection, in their order.
#[derive(Drop)]
pub struct Decoder {
    alloc: Global,
    table: DynamicTable,
    greatest: u32,
    most: u32,
    failed: bool,
}

impl Model for Decoder {
    ghost use Rattle.hpack_codec.specs.Decoding.{Decoding};

    ghost Value = { Decoding };

    ghost view = { λ d. record { greatest = d.greatest; most = d.most; table = d.table; failed = d.failed } };
}

/// How many fields a list has room for at first, in a block that may have so many: what fits into
/// 1,024 octets, which allocators have at hand.
const ROOM: usize = 14;

/// Reads a whole block. The table is that of the representations that were read.
fn read_block(
    alloc: Global,
    table: &mut DynamicTable,
    greatest: u32,
    most: u32,
    block: &[u8],
) -> Result<FieldList, HpackFault>
    ensures answers { Answers (decoder_with greatest most table.old) block.now result table.new }
    ensures spelled { IfOk result (λ list. All HasSpelling list) }
    ensures within { IfOk result (λ list. list_size list ≤ most) }
    ensures few { IfOk result (λ list. length list < 2 ^ 32) }
{
    let mut list = Collected::new(alloc, most, block.len().min(ROOM));
    let mut rest = block;
    'pieces: while !rest.is_empty() {
        rest = match read_piece(table, greatest, rest, &mut list) {
            Ok(behind) => behind,
            Err(fault) => return Err(fault),
        };
    }
    list.finish()
}

impl Decoder {
    /// A decoder with an empty dynamic table of at most `table` octets, which is the size in
    /// force at first, and lists of at most `list` octets. Takes no memory.
    pub fn new(alloc: Global, table: u32, list: u32) -> Self
        ensures { result ≡ decoder_with table list (empty_table table) }
    {
        Decoder {
            alloc,
            table: DynamicTable::new(alloc, table),
            greatest: table,
            most: list,
            failed: false,
        }
    }

    /// The fields of a block, in their order. The first fault in reading order is answered, and
    /// `ListTooLong` only where the block has none. After a fault that is final each later call
    /// answers `Failed`; after `ListTooLong` the decoder goes on, with the table that the whole
    /// block leaves. Each field of a list has a spelling, the list counts at most the decoder's
    /// greatest list size, and it has fewer than 2^32 fields.
    pub fn decode(&mut self, block: &[u8]) -> Result<FieldList, HpackFault>
        ensures failed { self.old.failed ≡ true → (result ≡ Err HpackFault.Failed) × (self.new ≡ self.old) }
        ensures answers { self.old.failed ≡ false → Answers self.old block.now result self.new.table }
        ensures state { self.old.failed ≡ false → self.new.failed ≡ is_final result }
        ensures sizes { (self.new.greatest ≡ self.old.greatest) × (self.new.most ≡ self.old.most) }
        ensures spelled { IfOk result (λ list. All HasSpelling list) }
        ensures within { IfOk result (λ list. list_size list ≤ self.old.most) }
        ensures few { IfOk result (λ list. length list < 2 ^ 32) }
    {
        if self.failed {
            return Err(HpackFault::Failed);
        }
        let answer = read_block(self.alloc, &mut self.table, self.greatest, self.most, block);
        self.failed = match &answer {
            Ok(_) | Err(HpackFault::ListTooLong) => false,
            Err(_) => true,
        };
        answer
    }

    /// The entry of the dynamic table at a place, the newest at 0.
    pub fn line(&self, place: usize) -> Option<&Line>
        ensures { MatchOption result (length self.now.table.lines ≤ place) (λ l. slice_get self.now.table.lines place ≡ Some l.now) }
    {
        self.table.line(place)
    }

    /// The size of the dynamic table in force, in octets.
    pub fn table_size(&self) -> u32
        ensures { result ≡ self.now.table.size }
    {
        self.table.limit()
    }
}
