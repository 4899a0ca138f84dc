// The decoder of a string.
ghost use Rattle.std.specs.Prelude.{◌≡◌, ◌<◌, ◌++◌, [], length, IfOk, IfErr, ◌^◌, List, sum_by, ℕ};
ghost use Rattle.huffman.specs.Huffman.{bits, octet_bits, IsHuffman, symbols, width};
ghost use Rattle.huffman.specs.Reading.{Reads};
ghost use Rattle.huffman.specs.Refusal.{Refuses};

use crate::fault::HuffmanFault;
use crate::lookup::{front_of, symbol_ahead, symbol_of};
use crate::waiting::{Waiting, is_padding, refilled, with_rest};
use io_ports::Octets;
use std::alloc::Global;

/// Decodes while there are 30 bits.
fn read_most<'a>(octets: &'a [u8], out: &mut Vec<u8>) -> Result<Waiting<'a>, HuffmanFault>
    requires { out.old.items ≡ [] }
    ensures few { IfOk result (λ w. (w.have < 30) × (length w.rest.now < 4)) }
    ensures found { IfOk result (λ w. Reads (octet_bits octets.now) (bits w.have w.held ++ octet_bits w.rest.now) out.new.items) }
    ensures none { IfErr result (λ e. Refuses e octets.now) }
{
    let mut waiting = Waiting {
        held: 0,
        have: 0,
        rest: octets,
    };
    'symbols: while let Some(full) = refilled(waiting) {
        let found = symbol_ahead(full.held, full.have);
        if found.symbol > 255 {
            return Err(HuffmanFault::BadHuffman);
        }
        out.push(found.symbol as u8)?;
        waiting = Waiting {
            have: full.have - found.len,
            ..full
        };
    }
    Ok(waiting)
}

/// Decodes the last bits, of the string `octets` whose text so far is in `out`.
fn read_last(octets: &[u8], held: u64, first: u32, out: &mut Vec<u8>) -> Result<(), HuffmanFault>
    requires few { first < 54 }
    requires reads { Reads (octet_bits octets.now) (bits first held) out.old.items }
    ensures found { IfOk result (λ _. IsHuffman octets.now out.new.items) }
    ensures none { IfErr result (λ e. Refuses e octets.now) }
{
    let mut have = first;
    'symbols: loop {
        let found = symbol_of(front_of(held, have));
        if found.len > have {
            break;
        }
        if found.symbol > 255 {
            return Err(HuffmanFault::BadHuffman);
        }
        out.push(found.symbol as u8)?;
        have -= found.len;
    }
    if is_padding(held, have) {
        Ok(())
    } else {
        Err(HuffmanFault::BadHuffman)
    }
}

/// No text is longer than this: the shortest code has five bits.
fn greatest_len(octets: usize) -> usize {
    octets
        .saturating_add(octets / 2)
        .saturating_add(octets / 8 + 1)
}

/// Decodes a Huffman string (RFC 7541 section 5.2). The octets are the whole string, without its length. `BadHuffman` comes only
/// where they are the string of no text; the other refusal is running out of memory.
#[inline(never)]
pub fn decode(alloc: Global, octets: &[u8]) -> Result<Octets, HuffmanFault>
    ensures found { IfOk result (λ text. IsHuffman octets.now text) }
    ensures none { IfErr result (λ e. Refuses e octets.now) }
{
    let mut out = Vec::with_capacity(alloc, greatest_len(octets.len()))?;
    let waiting = with_rest(read_most(octets, &mut out)?);
    read_last(octets, waiting.held, waiting.have, &mut out)?;
    Ok(Octets::from_vec(out))
}

/// The codes fill the numbers of 30 bits exactly: each begins with the code of one symbol.
pub fn codes_fill()
    ensures { sum_by (λ e. width e.1) symbols ≡ 2 ^ 30 }
{}

/// No octets are the Huffman strings of two texts.
pub fn one_reading()
    ensures { (octets text other : List ℕ) → IsHuffman octets text → IsHuffman octets other → text ≡ other }
{}
