// The lines of beginnings and ends.
ghost use Rattle.std.specs.Prelude.{◌≡◌, ◌∷◌, ℕ, List, codes, IfSome};
ghost use Rattle.flow_notes.specs.NoteOf.{start_of, doom_of, over_of, closed_of, fire_of, life_note_of};
ghost use Rattle.flow_notes.specs.Spells.{SpellsNote};
ghost use Rattle.flow_notes.specs.Split.{words_behind};

use super::flow_note::flow_note;
use super::meaning::{u32_word, u64_word};
use super::split::{first_word, four_words, one_word, three_words, two_words};
use super::tape_words::{read_cause, read_closing, read_kind};
use crate::Note;
use crate::keywords::*;

#[tactic(auto, unfolding(crate::specs::NoteOf::start_of))]
fn start_line(words: Option<&[u8]>) -> Option<Note>
    ensures value { result ≡ start_of (words_behind words.entry) }
    ensures spelled { (names : List (List ℕ)) → IfSome result (SpellsNote names (codes "start" ∷ words_behind words.entry)) }
{
    let (exchange, conn, stream, to) = four_words(words)?;
    let exchange = u64_word(exchange)?;
    let conn = u32_word(conn)?;
    let stream = u32_word(stream)?;
    let to = u32_word(to)?;
    Some(Note::Start {
        exchange,
        conn,
        stream,
        to,
    })
}

#[tactic(auto, unfolding(crate::specs::NoteOf::doom_of))]
fn doom_line(words: Option<&[u8]>) -> Option<Note>
    ensures value { result ≡ doom_of (words_behind words.entry) }
    ensures spelled { (names : List (List ℕ)) → IfSome result (SpellsNote names (codes "doom" ∷ words_behind words.entry)) }
{
    let (exchange, cause) = first_word(words?);
    let exchange = u64_word(exchange)?;
    let cause = read_cause(cause)?;
    Some(Note::Doom { exchange, cause })
}

#[tactic(auto, unfolding(crate::specs::NoteOf::over_of))]
fn over_line(words: Option<&[u8]>) -> Option<Note>
    ensures value { result ≡ over_of (words_behind words.entry) }
    ensures spelled { (names : List (List ℕ)) → IfSome result (SpellsNote names (codes "gone" ∷ words_behind words.entry)) }
{
    let exchange = u64_word(one_word(words)?)?;
    Some(Note::Gone { exchange })
}

#[tactic(auto, unfolding(crate::specs::NoteOf::closed_of))]
fn closed_line(words: Option<&[u8]>) -> Option<Note>
    ensures value { result ≡ closed_of (words_behind words.entry) }
    ensures spelled { (names : List (List ℕ)) → IfSome result (SpellsNote names (codes "close" ∷ words_behind words.entry)) }
{
    let (conn, code, cause) = three_words(words)?;
    let conn = u32_word(conn)?;
    let code = u32_word(code)?;
    let cause = read_closing(cause)?;
    Some(Note::Close { conn, code, cause })
}

#[tactic(auto, unfolding(crate::specs::NoteOf::fire_of))]
fn fire_line(words: Option<&[u8]>) -> Option<Note>
    ensures value { result ≡ fire_of (words_behind words.entry) }
    ensures spelled { (names : List (List ℕ)) → IfSome result (SpellsNote names (codes "fire" ∷ words_behind words.entry)) }
{
    let (kind, id) = two_words(words)?;
    let kind = read_kind(kind)?;
    let id = u64_word(id)?;
    Some(Note::Fire { kind, id })
}

/// A note that takes no memory.
#[tactic(auto, unfolding(crate::specs::NoteOf::life_note_of))]
pub fn life_note(keyword: &[u8], words: Option<&[u8]>) -> Option<Note>
    ensures value { result ≡ life_note_of keyword.now (words_behind words.entry) }
    ensures spelled { (names : List (List ℕ)) → IfSome result (SpellsNote names (keyword.now ∷ words_behind words.entry)) }
{
    if keyword == START {
        return start_line(words);
    }
    if keyword == DOOM {
        return doom_line(words);
    }
    if keyword == GONE {
        return over_line(words);
    }
    if keyword == CLOSE {
        return closed_line(words);
    }
    if keyword == FIRE {
        return fire_line(words);
    }
    flow_note(keyword, words)
}
