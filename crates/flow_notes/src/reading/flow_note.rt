// The lines of octets that flow.
ghost use Rattle.std.specs.Prelude.{◌≡◌, ◌∷◌, ℕ, List, codes, IfSome};
ghost use Rattle.flow_notes.specs.NoteOf.{move_of, frame_of, out_of, pause_of, resume_of, credit_of, waste_of, flow_note_of};
ghost use Rattle.flow_notes.specs.Spells.{SpellsNote};
ghost use Rattle.flow_notes.specs.Split.{words_behind};

use super::meaning::{counted_word, read_flow, u32_word};
use super::split::{four_words, three_words, two_words};
use super::tape_words::{read_crossing, read_last};
use crate::Note;
use crate::keywords::*;

#[tactic(auto, unfolding(crate::specs::NoteOf::move_of))]
fn move_line(words: Option<&[u8]>) -> Option<Note>
    ensures value { result ≡ move_of (words_behind words.entry) }
    ensures spelled { (names : List (List ℕ)) → IfSome result (SpellsNote names (codes "move" ∷ words_behind words.entry)) }
{
    let (flow, place, n) = three_words(words)?;
    let flow = read_flow(flow)?;
    let place = u32_word(place)?;
    let n = u32_word(n)?;
    Some(Note::Move { flow, place, n })
}

#[tactic(auto, unfolding(crate::specs::NoteOf::frame_of))]
fn frame_line(words: Option<&[u8]>) -> Option<Note>
    ensures value { result ≡ frame_of (words_behind words.entry) }
    ensures spelled { (names : List (List ℕ)) → IfSome result (SpellsNote names (codes "frame" ∷ words_behind words.entry)) }
{
    let (conn, flow, n, last) = four_words(words)?;
    let conn = u32_word(conn)?;
    let flow = read_flow(flow)?;
    let n = u32_word(n)?;
    let last = read_last(last)?;
    Some(Note::Frame {
        conn,
        flow,
        n,
        last,
    })
}

#[tactic(auto, unfolding(crate::specs::NoteOf::out_of))]
fn out_line(words: Option<&[u8]>) -> Option<Note>
    ensures value { result ≡ out_of (words_behind words.entry) }
    ensures spelled { (names : List (List ℕ)) → IfSome result (SpellsNote names (codes "out" ∷ words_behind words.entry)) }
{
    let (conn, n) = two_words(words)?;
    let conn = u32_word(conn)?;
    let n = counted_word(n)?;
    Some(Note::Out { conn, n })
}

#[tactic(auto, unfolding(crate::specs::NoteOf::pause_of))]
fn pause_line(words: Option<&[u8]>) -> Option<Note>
    ensures value { result ≡ pause_of (words_behind words.entry) }
    ensures spelled { (names : List (List ℕ)) → IfSome result (SpellsNote names (codes "pause" ∷ words_behind words.entry)) }
{
    let (flow, buffer) = read_crossing(words)?;
    Some(Note::Pause { flow, buffer })
}

#[tactic(auto, unfolding(crate::specs::NoteOf::resume_of))]
fn resume_line(words: Option<&[u8]>) -> Option<Note>
    ensures value { result ≡ resume_of (words_behind words.entry) }
    ensures spelled { (names : List (List ℕ)) → IfSome result (SpellsNote names (codes "resume" ∷ words_behind words.entry)) }
{
    let (flow, buffer) = read_crossing(words)?;
    Some(Note::Resume { flow, buffer })
}

#[tactic(auto, unfolding(crate::specs::NoteOf::credit_of))]
fn credit_line(words: Option<&[u8]>) -> Option<Note>
    ensures value { result ≡ credit_of (words_behind words.entry) }
    ensures spelled { (names : List (List ℕ)) → IfSome result (SpellsNote names (codes "credit" ∷ words_behind words.entry)) }
{
    let (conn, stream, n) = three_words(words)?;
    let conn = u32_word(conn)?;
    let stream = u32_word(stream)?;
    let n = u32_word(n)?;
    Some(Note::Credit { conn, stream, n })
}

#[tactic(auto, unfolding(crate::specs::NoteOf::waste_of))]
fn waste_line(words: Option<&[u8]>) -> Option<Note>
    ensures value { result ≡ waste_of (words_behind words.entry) }
    ensures spelled { (names : List (List ℕ)) → IfSome result (SpellsNote names (codes "waste" ∷ words_behind words.entry)) }
{
    let (conn, stream, n) = three_words(words)?;
    let conn = u32_word(conn)?;
    let stream = u32_word(stream)?;
    let n = u32_word(n)?;
    Some(Note::Waste { conn, stream, n })
}

/// A note of octets that flow.
#[tactic(auto, unfolding(crate::specs::NoteOf::flow_note_of))]
pub fn flow_note(keyword: &[u8], words: Option<&[u8]>) -> Option<Note>
    ensures value { result ≡ flow_note_of keyword.now (words_behind words.entry) }
    ensures spelled { (names : List (List ℕ)) → IfSome result (SpellsNote names (keyword.now ∷ words_behind words.entry)) }
{
    if keyword == MOVE {
        return move_line(words);
    }
    if keyword == FRAME {
        return frame_line(words);
    }
    if keyword == OUT {
        return out_line(words);
    }
    if keyword == PAUSE {
        return pause_line(words);
    }
    if keyword == RESUME {
        return resume_line(words);
    }
    if keyword == CREDIT {
        return credit_line(words);
    }
    if keyword == WASTE {
        return waste_line(words);
    }
    None
}
