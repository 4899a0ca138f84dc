// Why a string isn't decoded.
ghost use Rattle.std.specs.Prelude.{◌≡◌};
ghost use Rattle.huffman.specs.declared.fault.HuffmanFault.TheVariants.{NoMemory};

use std::alloc::{AllocError, AllocFailed};
use std::error::Error;
use std::fmt;

/// Why a string isn't decoded.
#[derive(Clone, Copy, Debug, PartialEq, Eq)]
pub enum HuffmanFault {
    /// Its bits are no codes of octets with padding behind them: the end of string stands in it,
    /// or its padding is a whole octet or has a zero.
    BadHuffman,
    /// Out of memory.
    NoMemory,
}

impl From<AllocError> for HuffmanFault {
    ghost from_gives = { λ _ e. e ≡ NoMemory };

    fn from(_: AllocError) -> Self {
        HuffmanFault::NoMemory
    }
}

impl<T: Drop> From<AllocFailed<T>> for HuffmanFault {
    ghost from_gives = { λ _ e. e ≡ NoMemory };

    fn from(_: AllocFailed<T>) -> Self {
        HuffmanFault::NoMemory
    }
}

impl fmt::Display for HuffmanFault {
    fn fmt<W: fmt::Write>(&self, f: &mut fmt::Formatter<W>) -> fmt::Result {
        f.write_str(match self {
            HuffmanFault::BadHuffman => "no Huffman string",
            HuffmanFault::NoMemory => "out of memory",
        })
    }
}

impl Error for HuffmanFault {}
