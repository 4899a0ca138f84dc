// Lines and words of numbers.
ghost use Rattle.std.specs.Prelude.{◌≡◌, ◌∷◌, ℕ, List, None, Some, map, decimal, IfOk, IfSome, IfNone, MatchOption};
ghost use Rattle.std.specs.List.{AllByRecursion};
ghost use Rattle.flow_notes.specs.Fields.{Fits32};
ghost use Rattle.flow_notes.specs.Line.{line_of};
ghost use Rattle.flow_notes.specs.Meaning.{numbers_of};
ghost use Rattle.flow_notes.specs.Split.{words_behind};

use super::meaning::u32_word;
use super::split::first_word;
use io_ports::NoMemory;
use std::alloc::Global;

/// The numbers of the words that are left, one each.
#[tactic(auto, using(crate::proofs::NumberLists::number_less, crate::proofs::NumberLists::number_end, crate::proofs::NumberLists::no_front))]
pub fn number_words(alloc: Global, words: Option<&[u8]>) -> Result<Option<Vec<u32>>, NoMemory>
    ensures value { IfOk result (λ read. MatchOption read (numbers_of (words_behind words.entry) ≡ None)
        (λ ns. numbers_of (words_behind words.entry) ≡ Some ns.items)) }
    ensures spelled { IfOk result (λ read. IfSome read (λ ns. (words_behind words.entry ≡ map decimal ns.items) × AllByRecursion Fits32 ns.items)) }
{
    let mut numbers = Vec::new(alloc);
    let mut left = words;
    'words: while let Some(line) = left {
        let (word, after) = first_word(line);
        let Some(n) = u32_word(word) else {
            return Ok(None);
        };
        numbers.push(n)?;
        left = after;
    }
    Ok(Some(numbers))
}

/// Reads a keyword and numbers of 32 bits behind it, any number of them, each behind one space. None where the line isn't that.
/// Running out of memory says nothing of the line.
pub fn read_numbers(
    alloc: Global,
    keyword: &[u8],
    line: &[u8],
) -> Result<Option<Vec<u32>>, NoMemory>
    ensures some { IfOk result (λ read. IfSome read (λ ns. line.now ≡ line_of (keyword.now ∷ map decimal ns.items))) }
    ensures only { IfOk result (λ read. IfSome read (λ ns. (ms : List ℕ) → AllByRecursion Fits32 ms → line_of (keyword.now ∷ map decimal ms) ≡ line.now → ms ≡ ns.items)) }
    ensures none { IfOk result (λ read. IfNone read ((ns : List ℕ) → AllByRecursion Fits32 ns → line_of (keyword.now ∷ map decimal ns) ≡ line.now → ⊥)) }
{
    let Some(behind) = line.strip_prefix(keyword) else {
        return Ok(None);
    };
    if behind.is_empty() {
        return number_words(alloc, None);
    }
    if behind[0] != b' ' {
        return Ok(None);
    }
    number_words(alloc, Some(&behind[1..]))
}
