// Words of hex digits.
ghost use Rattle.std.specs.Prelude.{◌≡◌, ◌+◌, ◌*◌, length, IsTrue, IfOk, IfSome};
ghost use Rattle.std.specs.List.{list_all};
ghost use Rattle.hex.specs.Hex.{IsBytes, encode_lower};
ghost use Rattle.flow_notes.specs.Digits as spec;
ghost use Rattle.flow_notes.specs.Hex.{HasOctets, IsPiece};
ghost use Rattle.flow_notes.specs.Meaning.{octets_of, piece_of};

use io_ports::{NoMemory, Octets};
use std::alloc::Global;

/// The most octets that one event brings.
const MAX_PIECE: usize = 16_384;

fn is_digit(octet: u8) -> bool
    ensures { result ≡ spec.is_digit octet }
{
    matches!(octet, b'0'..=b'9' | b'a'..=b'f')
}

fn digit_value(octet: u8) -> u8
    ensures { result ≡ spec.digit_value octet }
{
    match octet {
        b'0'..=b'9' => octet - b'0',
        b'a'..=b'f' => octet - b'a' + 10,
        _ => 0,
    }
}

// The octet of two digits.
fn octet(high: u8, low: u8) -> u8
    ensures { result ≡ spec.digit_value high * 16 + spec.digit_value low }
{
    digit_value(high) * 16 + digit_value(low)
}

// Writes the octets that the digits spell, and answers whether all are digits. It looks at each
// without a branch, since digits are hard to foresee.
fn decode(word: &[u8], into: &mut [u8]) -> bool
    requires { length word.now ≡ 2 * length into.old }
    ensures len { length into.new ≡ length into.old }
    ensures bytes { IsBytes into.new }
    ensures digits { result ≡ list_all spec.is_digit word.now }
    ensures octets { IsTrue result → encode_lower into.new ≡ word.now }
{
    let mut digits = true;
    'octets: for i in 0..into.len() {
        let high = word[2 * i];
        let low = word[2 * i + 1];
        digits = digits & is_digit(high) & is_digit(low);
        into[i] = octet(high, low);
    }
    digits
}

/// Octets, at least one.
pub fn octets_word(alloc: Global, word: &[u8]) -> Result<Option<Octets>, NoMemory>
    ensures value { IfOk result (λ read. read ≡ octets_of word.now) }
    ensures spelled { IfOk result (λ read. IfSome read (λ octets. (word.now ≡ encode_lower octets) × HasOctets octets × IsBytes octets)) }
{
    if word.is_empty() {
        return Ok(None);
    }
    if word.len() % 2 != 0 {
        return Ok(None);
    }
    let mut octets = vec![in alloc; 0u8; word.len() / 2]?;
    if !decode(word, octets.as_mut_slice()) {
        return Ok(None);
    }
    Ok(Some(Octets::from_vec(octets)))
}

/// Octets, 1 to 16,384.
#[tactic(auto, unfolding(crate::specs::Meaning::piece_of))]
pub fn piece_word(alloc: Global, word: &[u8]) -> Result<Option<Octets>, NoMemory>
    ensures value { IfOk result (λ read. read ≡ piece_of word.now) }
    ensures spelled { IfOk result (λ read. IfSome read (λ octets. (word.now ≡ encode_lower octets) × IsPiece octets × IsBytes octets)) }
{
    if word.len() > 2 * MAX_PIECE {
        return Ok(None);
    }
    octets_word(alloc, word)
}
