// The lines of wire sessions.
ghost use Rattle.std.specs.Prelude.{◌≡◌, ◌∷◌, [], ℕ, List, codes, IfOk, IfSome};
ghost use Rattle.flow_notes.specs.Spells.{SpellsWire, SpellsJob};
ghost use Rattle.flow_notes.specs.EventOf.{accept_of, join_of, read_of, gone_of, room_of, tick_of, short_job_of, cancel_of, job_of, post_of, obey_of, short_of, wire_of};
ghost use Rattle.flow_notes.specs.Split.{words_in, words_behind};

use super::meaning::{count_word, moment_word, positive_word, u32_word};
use super::numbers::number_words;
use super::octets::piece_word;
use super::split::{first_word, one_word, two_words};
use crate::keywords::*;
use crate::{Event, Job, Names};
use io_ports::{NoMemory, PressureList};
use std::alloc::Global;

#[tactic(auto, unfolding(crate::specs::EventOf::accept_of))]
fn accept_line(words: Option<&[u8]>) -> Option<Event>
    ensures value { result ≡ accept_of (words_behind words.entry) }
    ensures spelled { (names : List (List ℕ)) → IfSome result (SpellsWire names (codes "accept" ∷ words_behind words.entry)) }
{
    let conn = u32_word(one_word(words)?)?;
    Some(Event::Accept { conn })
}

#[tactic(auto, using(crate::proofs::NameLemmas::place_takes), unfolding(crate::specs::EventOf::join_of))]
fn join_line(words: Option<&[u8]>, names: &Names) -> Option<Event>
    ensures value { result ≡ join_of names.now (words_behind words.entry) }
    ensures spelled { IfSome result (SpellsWire names.now (codes "join" ∷ words_behind words.entry)) }
{
    let (conn, name) = two_words(words)?;
    let conn = u32_word(conn)?;
    let cluster = names.find(name)?;
    Some(Event::Join { conn, cluster })
}

#[tactic(auto, unfolding(crate::specs::EventOf::read_of))]
fn read_line(alloc: Global, words: Option<&[u8]>) -> Result<Option<Event>, NoMemory>
    ensures value { IfOk result (λ read. read ≡ read_of (words_behind words.entry)) }
    ensures spelled { (names : List (List ℕ)) → IfOk result (λ read. IfSome read (SpellsWire names (codes "read" ∷ words_behind words.entry))) }
{
    let Some((conn, octets)) = two_words(words) else {
        return Ok(None);
    };
    let Some(conn) = u32_word(conn) else {
        return Ok(None);
    };
    let Some(octets) = piece_word(alloc, octets)? else {
        return Ok(None);
    };
    let octets = octets.shared()?;
    Ok(Some(Event::Read { conn, octets }))
}

#[tactic(auto, unfolding(crate::specs::EventOf::gone_of))]
fn gone_line(words: Option<&[u8]>) -> Option<Event>
    ensures value { result ≡ gone_of (words_behind words.entry) }
    ensures spelled { (names : List (List ℕ)) → IfSome result (SpellsWire names (codes "gone" ∷ words_behind words.entry)) }
{
    let conn = u32_word(one_word(words)?)?;
    Some(Event::Gone { conn })
}

#[tactic(auto, unfolding(crate::specs::EventOf::room_of))]
fn room_line(words: Option<&[u8]>) -> Option<Event>
    ensures value { result ≡ room_of (words_behind words.entry) }
    ensures spelled { (names : List (List ℕ)) → IfSome result (SpellsWire names (codes "room" ∷ words_behind words.entry)) }
{
    let (conn, n) = two_words(words)?;
    let conn = u32_word(conn)?;
    let n = positive_word(n)?;
    Some(Event::Room { conn, n })
}

#[tactic(auto, unfolding(crate::specs::EventOf::tick_of))]
fn tick_line(words: Option<&[u8]>) -> Option<Event>
    ensures value { result ≡ tick_of (words_behind words.entry) }
    ensures spelled { (names : List (List ℕ)) → IfSome result (SpellsWire names (codes "tick" ∷ words_behind words.entry)) }
{
    let now = moment_word(one_word(words)?)?;
    Some(Event::Tick { now })
}

// A job of one word.
#[tactic(auto, unfolding(crate::specs::EventOf::short_job_of))]
fn short_job(word: &[u8]) -> Option<Job>
    ensures value { result ≡ short_job_of word.now }
    ensures spelled { IfSome result (SpellsJob (word.now ∷ [])) }
{
    if word == DRAIN {
        return Some(Job::Drain);
    }
    if word == LOOK {
        return Some(Job::Look);
    }
    None
}

#[tactic(auto, unfolding(crate::specs::EventOf::cancel_of))]
fn cancel_job(words: Option<&[u8]>) -> Option<Job>
    ensures value { result ≡ cancel_of (words_behind words.entry) }
    ensures spelled { IfSome result (SpellsJob (words_behind words.entry)) }
{
    let (word, exchange) = two_words(words)?;
    if word != CANCEL {
        return None;
    }
    let exchange = count_word(exchange)?;
    Some(Job::Cancel { exchange })
}

#[tactic(auto, unfolding(crate::specs::EventOf::job_of))]
fn job_words(words: Option<&[u8]>) -> Option<Job>
    ensures value { result ≡ job_of (words_behind words.entry) }
    ensures spelled { IfSome result (SpellsJob (words_behind words.entry)) }
{
    match one_word(words) {
        Some(word) => short_job(word),
        None => cancel_job(words),
    }
}

#[tactic(auto, unfolding(crate::specs::EventOf::post_of))]
fn post_line(words: Option<&[u8]>) -> Option<Event>
    ensures value { result ≡ post_of (words_behind words.entry) }
    ensures spelled { (names : List (List ℕ)) → IfSome result (SpellsWire names (codes "post" ∷ words_behind words.entry)) }
{
    let (poster, rest) = first_word(words?);
    let (number, rest) = first_word(rest?);
    let poster = u32_word(poster)?;
    let number = count_word(number)?;
    let job = job_words(rest)?;
    Some(Event::Post {
        poster,
        number,
        job,
    })
}

#[tactic(auto, unfolding(crate::specs::EventOf::obey_of))]
fn obey_line(alloc: Global, words: Option<&[u8]>) -> Result<Option<Event>, NoMemory>
    ensures value { IfOk result (λ read. read ≡ obey_of (words_behind words.entry)) }
    ensures spelled { (names : List (List ℕ)) → IfOk result (λ read. IfSome read (SpellsWire names (codes "obey" ∷ words_behind words.entry))) }
{
    let Some(line) = words else {
        return Ok(None);
    };
    let (version, rest) = first_word(line);
    let Some(version) = count_word(version) else {
        return Ok(None);
    };
    let Some(pressures) = number_words(alloc, rest)? else {
        return Ok(None);
    };
    let pressures = PressureList::from_vec(pressures);
    Ok(Some(Event::Obey { version, pressures }))
}

// A line that takes no memory.
#[tactic(auto, unfolding(crate::specs::EventOf::short_of))]
fn short_line(keyword: &[u8], words: Option<&[u8]>, names: &Names) -> Option<Event>
    ensures value { result ≡ short_of names.now keyword.now (words_behind words.entry) }
    ensures spelled { IfSome result (SpellsWire names.now (keyword.now ∷ words_behind words.entry)) }
{
    if keyword == ACCEPT {
        return accept_line(words);
    }
    if keyword == JOIN {
        return join_line(words, names);
    }
    if keyword == GONE {
        return gone_line(words);
    }
    if keyword == ROOM {
        return room_line(words);
    }
    if keyword == TICK {
        return tick_line(words);
    }
    if keyword == POST {
        return post_line(words);
    }
    None
}

/// The event of a wire session's line.
#[tactic(auto, unfolding(crate::specs::EventOf::wire_of))]
pub fn wire_line(alloc: Global, line: &[u8], names: &Names) -> Result<Option<Event>, NoMemory>
    ensures value { IfOk result (λ read. read ≡ wire_of names.now (words_in line.now)) }
    ensures spelled { IfOk result (λ read. IfSome read (SpellsWire names.now (words_in line.now))) }
{
    let (keyword, words) = first_word(line);
    if keyword == READ {
        return read_line(alloc, words);
    }
    if keyword == OBEY {
        return obey_line(alloc, words);
    }
    Ok(short_line(keyword, words, names))
}
