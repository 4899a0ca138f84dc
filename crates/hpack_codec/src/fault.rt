// Why a block isn't read.
ghost use Rattle.std.specs.Prelude.{◌≡◌};
ghost use Rattle.hpack_codec.specs.declared.fault.HpackFault.TheVariants.{NoMemory};

use io_ports::NoMemory;
use std::alloc::{AllocError, AllocFailed};
use std::error::Error;
use std::fmt;

/// Why a block gives no list. Of the faults of a block, 1 to 5, the first in reading order counts.
/// They and running out of memory are final: the dynamic table is lost, and so is the connection.
#[derive(Clone, Copy, Debug, PartialEq, Eq)]
pub enum HpackFault {
    /// An index is 0 or past the last entry of the tables.
    BadIndex = 1,
    /// An integer is above 2^32 - 1, or its fifth octet behind the prefix says that more follow.
    BadInteger = 2,
    /// A string that is to be in the Huffman code isn't.
    BadHuffman = 3,
    /// A size update stands behind a field, or is above the table's greatest size.
    BadUpdate = 4,
    /// The block ends within an integer or a string.
    Truncated = 5,
    /// The block was read whole, and its list is longer than the greatest list size. The decoder goes on.
    ListTooLong = 6,
    /// Out of memory.
    NoMemory = 7,
    /// An earlier call ended in a fault that is final.
    Failed = 8,
}

impl From<AllocError> for HpackFault {
    ghost from_gives = { λ _ e. e ≡ NoMemory };

    fn from(_: AllocError) -> Self {
        HpackFault::NoMemory
    }
}

impl<T: Drop> From<AllocFailed<T>> for HpackFault {
    ghost from_gives = { λ _ e. e ≡ NoMemory };

    fn from(_: AllocFailed<T>) -> Self {
        HpackFault::NoMemory
    }
}

impl From<NoMemory> for HpackFault {
    ghost from_gives = { λ _ e. e ≡ NoMemory };

    fn from(_: NoMemory) -> Self {
        HpackFault::NoMemory
    }
}

impl fmt::Display for HpackFault {
    fn fmt<W: fmt::Write>(&self, f: &mut fmt::Formatter<W>) -> fmt::Result {
        f.write_str(match self {
            HpackFault::BadIndex => "an index that names no entry",
            HpackFault::BadInteger => "an integer that is too great",
            HpackFault::BadHuffman => "no Huffman string",
            HpackFault::BadUpdate => "a table size update that is misplaced or too great",
            HpackFault::Truncated => "the block ends within a field",
            HpackFault::ListTooLong => "the list of fields is too long",
            HpackFault::NoMemory => "out of memory",
            HpackFault::Failed => "an earlier block broke the decoder",
        })
    }
}

impl Error for HpackFault {}
