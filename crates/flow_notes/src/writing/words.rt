// The words of a line, and how each is appended.
ghost use Rattle.std.specs.Prelude.{◌≡◌, ◌+◌, ◌≤◌, ◌++◌, ◌∷◌, [], length, drop, map, OnOk, OnErr};
ghost use Rattle.std.specs.Fmt.{decimal};
ghost use Rattle.hex.specs.Hex.{encode_lower};
ghost use Rattle.flow_notes.specs.Flow.{flow_word};
ghost use Rattle.flow_notes.specs.Line.{spaced};
ghost use Rattle.flow_notes.specs.Word.{words_of};
ghost use Rattle.flow_notes.specs.Extends.{Extends};

use crate::HEX_PIECE;
use flow_gate::FlowId;
use io_ports::{NoMemory, Octets};
use itoa::write_digits;

/// A word of a line, or a run of them.
#[derive(Clone, Copy)]
pub enum Word<'a> {
    Text(&'a [u8]),
    Number(u64),
    Flow(FlowId),
    /// One word of two digits for each octet.
    Hex(&'a [u8]),
    /// A word for each number.
    Numbers(&'a [u32]),
}

/// The word of a number.
pub fn number(n: u32) -> Word<'static>
    ensures { words_of result ≡ decimal n ∷ [] }
{
    Word::Number(u64::from(n))
}

// The digits of 2^64 - 1.
const MAX_DIGITS: usize = 20;

// Writes a space and the digits in front of `end`, and answers where the space stands.
fn write_number(n: u64, text: &mut [u8], end: usize) -> usize
    requires { (1 + MAX_DIGITS ≤ end) × (end ≤ length text.old) }
    ensures start { result ≤ end }
    ensures written { drop result text.new ≡ 32 ∷ (decimal n ++ drop end text.old) }
{
    let digits = write_digits(n, text, end);
    text[digits - 1] = b' ';
    digits - 1
}

fn push_number(n: u64, into: &mut Octets) -> Result<(), NoMemory>
    ensures ok { OnOk result (into.new ≡ into.old ++ (32 ∷ decimal n)) }
    ensures err { OnErr result (into.new ≡ into.old) }
{
    let mut text = [0u8; 1 + MAX_DIGITS];
    let start = write_number(n, &mut text, 1 + MAX_DIGITS);
    into.push_all(&text[start..])
}

fn push_flow(flow: FlowId, into: &mut Octets) -> Result<(), NoMemory>
    ensures ok { OnOk result (into.new ≡ into.old ++ (32 ∷ flow_word flow)) }
    ensures err { OnErr result (into.new ≡ into.old) }
{
    let mut text = [0u8; 2 + MAX_DIGITS];
    text[1 + MAX_DIGITS] = if flow.back { b'r' } else { b'q' };
    let start = write_number(flow.exchange, &mut text, 1 + MAX_DIGITS);
    into.push_all(&text[start..])
}

fn push_text(text: &[u8], into: &mut Octets) -> Result<(), NoMemory>
    ensures ok { OnOk result (into.new ≡ into.old ++ (32 ∷ text.now)) }
    ensures err { OnErr result (Extends into.old into.new) }
{
    into.push_all(b" ")?;
    into.push_all(text)
}

fn push_hex(octets: &[u8], into: &mut Octets) -> Result<(), NoMemory>
    ensures ok { OnOk result (into.new ≡ into.old ++ (32 ∷ encode_lower octets.now)) }
    ensures err { OnErr result (Extends into.old into.new) }
{
    into.push_all(b" ")?;
    let mut rest = octets;
    'pieces: while !rest.is_empty() {
        let (piece, after) = rest.split_at(rest.len().min(HEX_PIECE));
        let mut text = [0u8; 2 * HEX_PIECE];
        let digits = &mut text[..2 * piece.len()];
        hex::encode_to_slice(piece, digits).unwrap();
        into.push_all(digits)?;
        rest = after;
    }
    Ok(())
}

fn push_numbers(numbers: &[u32], into: &mut Octets) -> Result<(), NoMemory>
    ensures ok { OnOk result (into.new ≡ into.old ++ spaced (map decimal numbers.now)) }
    ensures err { OnErr result (Extends into.old into.new) }
{
    'numbers: for n in numbers {
        push_number(u64::from(*n), into)?;
    }
    Ok(())
}

/// Appends the words of this one, each behind a space. After running out of memory a part of them may
/// stand behind the octets from before.
pub fn push_word(word: &Word, into: &mut Octets) -> Result<(), NoMemory>
    ensures ok { OnOk result (into.new ≡ into.old ++ spaced (words_of word.now)) }
    ensures err { OnErr result (Extends into.old into.new) }
{
    match word {
        Word::Text(text) => push_text(text, into),
        Word::Number(n) => push_number(*n, into),
        Word::Flow(flow) => push_flow(*flow, into),
        Word::Hex(octets) => push_hex(octets, into),
        Word::Numbers(numbers) => push_numbers(numbers, into),
    }
}
