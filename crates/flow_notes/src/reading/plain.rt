// The lines of plain sessions.
ghost use Rattle.std.specs.Prelude.{◌≡◌, ◌∷◌, codes, IfOk, IfSome};
ghost use Rattle.flow_notes.specs.Spells.{SpellsPlain};
ghost use Rattle.flow_notes.specs.EventOf.{open_of, pair_of, body_of, end_of, reset_of, plain_room_of, short_plain_of, plain_of};
ghost use Rattle.flow_notes.specs.Split.{words_in, words_behind};

use super::meaning::positive_word;
use super::octets::piece_word;
use super::split::{first_word, one_word, two_words};
use crate::PlainEvent;
use crate::keywords::*;
use io_ports::NoMemory;
use std::alloc::Global;

#[tactic(auto, unfolding(crate::specs::EventOf::open_of))]
fn open_line(words: Option<&[u8]>) -> Option<PlainEvent>
    ensures value { result ≡ open_of (words_behind words.entry) }
    ensures spelled { IfSome result (SpellsPlain (codes "open" ∷ words_behind words.entry)) }
{
    let stream = positive_word(one_word(words)?)?;
    Some(PlainEvent::Begin { stream })
}

#[tactic(auto, unfolding(crate::specs::EventOf::pair_of))]
fn pair_line(words: Option<&[u8]>) -> Option<PlainEvent>
    ensures value { result ≡ pair_of (words_behind words.entry) }
    ensures spelled { IfSome result (SpellsPlain (codes "pair" ∷ words_behind words.entry)) }
{
    let (first, second) = two_words(words)?;
    let first = positive_word(first)?;
    let second = positive_word(second)?;
    Some(PlainEvent::Pair { first, second })
}

#[tactic(auto, unfolding(crate::specs::EventOf::body_of))]
fn body_line(alloc: Global, words: Option<&[u8]>) -> Result<Option<PlainEvent>, NoMemory>
    ensures value { IfOk result (λ read. read ≡ body_of (words_behind words.entry)) }
    ensures spelled { IfOk result (λ read. IfSome read (SpellsPlain (codes "in" ∷ words_behind words.entry))) }
{
    let Some((stream, octets)) = two_words(words) else {
        return Ok(None);
    };
    let Some(stream) = positive_word(stream) else {
        return Ok(None);
    };
    let Some(octets) = piece_word(alloc, octets)? else {
        return Ok(None);
    };
    Ok(Some(PlainEvent::Body { stream, octets }))
}

#[tactic(auto, unfolding(crate::specs::EventOf::end_of))]
fn end_line(words: Option<&[u8]>) -> Option<PlainEvent>
    ensures value { result ≡ end_of (words_behind words.entry) }
    ensures spelled { IfSome result (SpellsPlain (codes "end" ∷ words_behind words.entry)) }
{
    let stream = positive_word(one_word(words)?)?;
    Some(PlainEvent::Finish { stream })
}

#[tactic(auto, unfolding(crate::specs::EventOf::reset_of))]
fn reset_line(words: Option<&[u8]>) -> Option<PlainEvent>
    ensures value { result ≡ reset_of (words_behind words.entry) }
    ensures spelled { IfSome result (SpellsPlain (codes "reset" ∷ words_behind words.entry)) }
{
    let stream = positive_word(one_word(words)?)?;
    Some(PlainEvent::Cut { stream })
}

#[tactic(auto, unfolding(crate::specs::EventOf::plain_room_of))]
fn plain_room_line(words: Option<&[u8]>) -> Option<PlainEvent>
    ensures value { result ≡ plain_room_of (words_behind words.entry) }
    ensures spelled { IfSome result (SpellsPlain (codes "room" ∷ words_behind words.entry)) }
{
    let n = positive_word(one_word(words)?)?;
    Some(PlainEvent::Room { n })
}

// A line that takes no memory.
#[tactic(auto, unfolding(crate::specs::EventOf::short_plain_of))]
fn short_plain_line(keyword: &[u8], words: Option<&[u8]>) -> Option<PlainEvent>
    ensures value { result ≡ short_plain_of keyword.now (words_behind words.entry) }
    ensures spelled { IfSome result (SpellsPlain (keyword.now ∷ words_behind words.entry)) }
{
    if keyword == OPEN {
        return open_line(words);
    }
    if keyword == PAIR {
        return pair_line(words);
    }
    if keyword == END {
        return end_line(words);
    }
    if keyword == RESET {
        return reset_line(words);
    }
    if keyword == ROOM {
        return plain_room_line(words);
    }
    None
}

/// The event of a plain session's line.
#[tactic(auto, unfolding(crate::specs::EventOf::plain_of))]
pub fn plain_line(alloc: Global, line: &[u8]) -> Result<Option<PlainEvent>, NoMemory>
    ensures value { IfOk result (λ read. read ≡ plain_of (words_in line.now)) }
    ensures spelled { IfOk result (λ read. IfSome read (SpellsPlain (words_in line.now))) }
{
    let (keyword, words) = first_word(line);
    if keyword == IN {
        return body_line(alloc, words);
    }
    Ok(short_plain_line(keyword, words))
}
