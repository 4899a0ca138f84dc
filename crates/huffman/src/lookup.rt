// The symbol that begins some bits, found in tables.
ghost use Rattle.std.specs.Prelude.{◌≡◌, ◌^◌, ◌<◌, ◌≤◌};
ghost use Rattle.huffman.specs.Huffman.{bits};
ghost use Rattle.huffman.specs.Lookup.{symbol_at, top};

use crate::tables::{LAST, LOW, MIDDLE, SHORT};

/// A symbol, and the length of its code in bits.
#[derive(Clone, Copy)]
pub(crate) struct Found {
    pub symbol: u16,
    pub len: u32,
}

/// The symbol whose code begins the 30 bits.
pub(crate) fn symbol_of(front: u32) -> Found
    requires { front < 2 ^ 30 }
    ensures found { symbol_at front ≡ (result.symbol, result.len) }
    ensures symbol { result.symbol < 257 }
    ensures some { 0 < result.len }
    ensures short { result.len ≤ 30 }
{
    let entry = if front < 254 << 22 {
        SHORT[(front >> 22) as usize]
    } else if front < 0xfffe << 14 {
        MIDDLE[(front >> 14) as usize - 0xfe00]
    } else if front < 0xff_fff6 << 6 {
        LOW[(front >> 6) as usize - 0xff_fe00]
    } else {
        LAST[front as usize - 0x3fff_fd80]
    };
    Found {
        symbol: entry >> 5,
        len: (entry & 31) as u32,
    }
}

/// The first 30 of the last `have` bits of `held`, with zeros where there are fewer.
pub(crate) fn front_of(held: u64, have: u32) -> u32
    requires { have ≤ 64 }
    ensures front { result ≡ top 30 (bits have held) }
    ensures fits { result < 2 ^ 30 }
{
    if have >= 30 {
        ((held >> (have - 30)) & 0x3fff_ffff) as u32
    } else {
        ((held << (30 - have)) & 0x3fff_ffff) as u32
    }
}

/// The symbol whose code begins the last `have` bits of `held`, of which there are 30 at least.
pub(crate) fn symbol_ahead(held: u64, have: u32) -> Found
    requires many { 30 ≤ have }
    requires fit { have ≤ 64 }
    ensures found { symbol_at (top 30 (bits have held)) ≡ (result.symbol, result.len) }
    ensures symbol { result.symbol < 257 }
    ensures some { 0 < result.len }
    ensures short { result.len ≤ 30 }
{
    let first = ((held >> (have - 8)) & 0xff) as usize;
    if first < 254 {
        let entry = SHORT[first];
        Found {
            symbol: entry >> 5,
            len: (entry & 31) as u32,
        }
    } else {
        symbol_of(front_of(held, have))
    }
}
