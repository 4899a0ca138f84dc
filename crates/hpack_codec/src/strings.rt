// Strings, plain or in the Huffman code.
ghost use Rattle.std.specs.Prelude.{◌≡◌, ◌<◌, true, length, IfOk, IfErr};
ghost use Rattle.huffman.specs.Huffman.{octet_bits};
ghost use Rattle.huffman.specs.Reading.{SpellsNone};
ghost use Rattle.hpack_codec.specs.Faults.{OrNoMemory};
ghost use Rattle.hpack_codec.specs.Strings.{IsString, BreaksString, Says};

use crate::fault::HpackFault;
use crate::integers::read_integer;
use huffman::HuffmanFault;
use io_ports::Octets;
use std::alloc::Global;

/// The text that the octets of a string say.
#[inline(always)]
fn text_of(alloc: Global, coded: bool, body: &[u8]) -> Result<Octets, HpackFault>
    ensures ok { IfOk result (λ text. Says coded body.now text) }
    ensures err { IfErr result (λ e. OrNoMemory e ((e ≡ HpackFault.BadHuffman) × (coded ≡ true) × SpellsNone (octet_bits body.now))) }
{
    if coded {
        match huffman::decode(alloc, body) {
            Ok(text) => Ok(text),
            Err(HuffmanFault::BadHuffman) => Err(HpackFault::BadHuffman),
            Err(HuffmanFault::NoMemory) => Err(HpackFault::NoMemory),
        }
    } else {
        match Octets::from_slice(alloc, body) {
            Ok(text) => Ok(text),
            Err(_) => Err(HpackFault::NoMemory),
        }
    }
}

/// Reads the string at the front of the octets, and gives the rest.
#[inline(always)]
pub(crate) fn read_string(alloc: Global, octets: &[u8]) -> Result<(Octets, &[u8]), HpackFault>
    ensures ok { IfOk result (λ x. IsString octets.now x.0 x.1.now) }
    ensures err { IfErr result (λ e. OrNoMemory e (BreaksString octets.now e)) }
    ensures shorter { IfOk result (λ x. length x.1.now < length octets.now) }
{
    let (len, behind) = match read_integer(octets, 7) {
        Ok(found) => found,
        Err(fault) => return Err(fault),
    };
    let len = len as usize;
    if behind.len() < len {
        return Err(HpackFault::Truncated);
    }
    let (body, rest) = behind.split_at(len);
    match text_of(alloc, octets[0] >= 128, body) {
        Ok(text) => Ok((text, rest)),
        Err(fault) => Err(fault),
    }
}
