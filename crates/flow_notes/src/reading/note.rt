// The lines of tapes.
ghost use Rattle.std.specs.Prelude.{◌≡◌, ◌∷◌, ℕ, List, codes, IfOk, IfSome, IfNone};
ghost use Rattle.flow_notes.specs.Fields.{FitsNote};
ghost use Rattle.flow_notes.specs.Note.{IsNote, note_spelling};
ghost use Rattle.flow_notes.specs.NoteOf.{any_of, turn_of, arrive_of, head_of, answer_of, note_of};
ghost use Rattle.flow_notes.specs.Spells.{SpellsEvent, SpellsNote};
ghost use Rattle.flow_notes.specs.Split.{words_in, words_behind};
ghost use Rattle.flow_notes.specs.declared.notes.Note.{Note};

use super::life_note::life_note;
use super::meaning::{number_word, read_flow, u32_word};
use super::octets::octets_word;
use super::plain::plain_line;
use super::split::{first_word, three_words, two_words};
use super::wire::wire_line;
use crate::keywords::*;
use crate::{Event, Names, Note};
use io_ports::NoMemory;
use std::alloc::Global;

// An event of either kind of session.
#[tactic(auto, unfolding(crate::specs::NoteOf::any_of))]
fn any_event(alloc: Global, line: &[u8], names: &Names) -> Result<Option<Event>, NoMemory>
    ensures value { IfOk result (λ read. read ≡ any_of names.now (words_in line.now)) }
    ensures spelled { IfOk result (λ read. IfSome read (SpellsEvent names.now (words_in line.now))) }
{
    if let Some(event) = wire_line(alloc, line, names)? {
        return Ok(Some(event));
    }
    match plain_line(alloc, line)? {
        Some(event) => Ok(Some(Event::Plain(event))),
        None => Ok(None),
    }
}

#[tactic(auto, using(crate::proofs::NoEvent::no_event), unfolding(crate::specs::NoteOf::turn_of))]
fn turn_line(alloc: Global, words: Option<&[u8]>, names: &Names) -> Result<Option<Note>, NoMemory>
    ensures value { IfOk result (λ read. read ≡ turn_of names.now (words_behind words.entry)) }
    ensures spelled { IfOk result (λ read. IfSome read (SpellsNote names.now (codes "turn" ∷ words_behind words.entry))) }
{
    let Some(line) = words else {
        return Ok(None);
    };
    let (number, event) = first_word(line);
    let Some(number) = number_word(number, 1, u64::MAX) else {
        return Ok(None);
    };
    let Some(event) = event else {
        return Ok(None);
    };
    let Some(event) = any_event(alloc, event, names)? else {
        return Ok(None);
    };
    Ok(Some(Note::Turn { number, event }))
}

#[tactic(auto, unfolding(crate::specs::NoteOf::arrive_of))]
fn arrive_line(alloc: Global, words: Option<&[u8]>) -> Result<Option<Note>, NoMemory>
    ensures value { IfOk result (λ read. read ≡ arrive_of (words_behind words.entry)) }
    ensures spelled { (names : List (List ℕ)) → IfOk result (λ read. IfSome read (SpellsNote names (codes "in" ∷ words_behind words.entry))) }
{
    let Some((flow, octets)) = two_words(words) else {
        return Ok(None);
    };
    let Some(flow) = read_flow(flow) else {
        return Ok(None);
    };
    let Some(octets) = octets_word(alloc, octets)? else {
        return Ok(None);
    };
    Ok(Some(Note::Arrive { flow, octets }))
}

#[tactic(auto, unfolding(crate::specs::NoteOf::head_of))]
fn head_line(alloc: Global, words: Option<&[u8]>) -> Result<Option<Note>, NoMemory>
    ensures value { IfOk result (λ read. read ≡ head_of (words_behind words.entry)) }
    ensures spelled { (names : List (List ℕ)) → IfOk result (λ read. IfSome read (SpellsNote names (codes "head" ∷ words_behind words.entry))) }
{
    let Some((conn, stream, octets)) = three_words(words) else {
        return Ok(None);
    };
    let Some(conn) = u32_word(conn) else {
        return Ok(None);
    };
    let Some(stream) = u32_word(stream) else {
        return Ok(None);
    };
    let Some(octets) = octets_word(alloc, octets)? else {
        return Ok(None);
    };
    Ok(Some(Note::Head {
        conn,
        stream,
        octets,
    }))
}

#[tactic(auto, unfolding(crate::specs::NoteOf::answer_of))]
fn answer_line(alloc: Global, words: Option<&[u8]>) -> Result<Option<Note>, NoMemory>
    ensures value { IfOk result (λ read. read ≡ answer_of (words_behind words.entry)) }
    ensures spelled { (names : List (List ℕ)) → IfOk result (λ read. IfSome read (SpellsNote names (codes "answer" ∷ words_behind words.entry))) }
{
    let Some((conn, octets)) = two_words(words) else {
        return Ok(None);
    };
    let Some(conn) = u32_word(conn) else {
        return Ok(None);
    };
    let Some(octets) = octets_word(alloc, octets)? else {
        return Ok(None);
    };
    Ok(Some(Note::Answer { conn, octets }))
}

// The note of a line, if any.
#[tactic(auto, unfolding(crate::specs::NoteOf::note_of))]
fn tape_line(alloc: Global, line: &[u8], names: &Names) -> Result<Option<Note>, NoMemory>
    ensures value { IfOk result (λ read. read ≡ note_of names.now (words_in line.now)) }
    ensures spelled { IfOk result (λ read. IfSome read (SpellsNote names.now (words_in line.now))) }
{
    let (keyword, words) = first_word(line);
    if keyword == TURN {
        return turn_line(alloc, words, names);
    }
    if keyword == IN {
        return arrive_line(alloc, words);
    }
    if keyword == HEAD {
        return head_line(alloc, words);
    }
    if keyword == ANSWER {
        return answer_line(alloc, words);
    }
    Ok(life_note(keyword, words))
}

/// Reads the line of a note, without its newline. None where the line is the spelling of no note. Running out of memory says
/// nothing of the line.
pub fn read_note(alloc: Global, line: &[u8], names: &Names) -> Result<Option<Note>, NoMemory>
    ensures some { IfOk result (λ read. IfSome read (λ n. (line.now ≡ note_spelling names.now n) × IsNote names.now n × FitsNote n)) }
    ensures only { IfOk result (λ read. IfSome read (λ n. (m : Note) → FitsNote m → IsNote names.now m → note_spelling names.now m ≡ line.now → m ≡ n)) }
    ensures none { IfOk result (λ read. IfNone read ((n : Note) → FitsNote n → IsNote names.now n → note_spelling names.now n ≡ line.now → ⊥)) }
{
    names.known();
    tape_line(alloc, line, names)
}
