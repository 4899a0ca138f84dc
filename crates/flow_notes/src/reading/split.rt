// The words of a line, one after the other.
ghost use Rattle.std.specs.Prelude.{◌≡◌, ◌∷◌, [], None, Some, IfSome, MatchOption};
ghost use Rattle.flow_notes.specs.Split.{words_in, words_behind, one_of, two_of, three_of, four_of};

use memchr::memchr;

/// The first word of a line, and the line behind it, where a space follows.
pub fn first_word(line: &[u8]) -> (&[u8], Option<&[u8]>)
    ensures { words_in line.now ≡ result.0.now ∷ words_behind result.1 }
{
    match memchr(b' ', line) {
        Some(space) => (&line[..space], Some(&line[space + 1..])),
        None => (line, None),
    }
}

/// The one word that is left.
#[tactic(auto, unfolding(crate::specs::Split::one_of))]
pub fn one_word(words: Option<&[u8]>) -> Option<&[u8]>
    ensures value { MatchOption result (one_of (words_behind words.entry) ≡ None)
        (λ word. one_of (words_behind words.entry) ≡ Some word.now) }
    ensures words { IfSome result (λ word. words_behind words.entry ≡ word.now ∷ []) }
{
    let (word, rest) = first_word(words?);
    match rest {
        Some(_) => None,
        None => Some(word),
    }
}

/// The two words that are left.
#[tactic(auto, unfolding(crate::specs::Split::two_of, crate::specs::Split::one_of))]
pub fn two_words(words: Option<&[u8]>) -> Option<(&[u8], &[u8])>
    ensures value { MatchOption result (two_of (words_behind words.entry) ≡ None)
        (λ w. two_of (words_behind words.entry) ≡ Some (w.0.now, w.1.now)) }
    ensures words { IfSome result (λ w. words_behind words.entry ≡ w.0.now ∷ w.1.now ∷ []) }
{
    let (first, rest) = first_word(words?);
    let second = one_word(rest)?;
    Some((first, second))
}

/// The three words that are left.
#[tactic(auto, unfolding(crate::specs::Split::three_of, crate::specs::Split::two_of))]
pub fn three_words(words: Option<&[u8]>) -> Option<(&[u8], &[u8], &[u8])>
    ensures value { MatchOption result (three_of (words_behind words.entry) ≡ None)
        (λ w. three_of (words_behind words.entry) ≡ Some (w.0.now, w.1.now, w.2.now)) }
    ensures words { IfSome result (λ w. words_behind words.entry ≡ w.0.now ∷ w.1.now ∷ w.2.now ∷ []) }
{
    let (first, rest) = first_word(words?);
    let (second, third) = two_words(rest)?;
    Some((first, second, third))
}

/// The four words that are left.
#[tactic(auto, unfolding(crate::specs::Split::four_of, crate::specs::Split::three_of))]
pub fn four_words(words: Option<&[u8]>) -> Option<(&[u8], &[u8], &[u8], &[u8])>
    ensures value { MatchOption result (four_of (words_behind words.entry) ≡ None)
        (λ w. four_of (words_behind words.entry) ≡ Some (w.0.now, w.1.now, w.2.now, w.3.now)) }
    ensures words { IfSome result (λ w. words_behind words.entry ≡ w.0.now ∷ w.1.now ∷ w.2.now ∷ w.3.now ∷ []) }
{
    let (first, rest) = first_word(words?);
    let (second, third, fourth) = three_words(rest)?;
    Some((first, second, third, fourth))
}
