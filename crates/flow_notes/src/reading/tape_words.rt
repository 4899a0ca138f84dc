// What the words of a tape's lines say.
ghost use Rattle.std.specs.Prelude.{◌≡◌, ◌∷◌, [], IfSome};
ghost use Rattle.flow_notes.specs.Close.{close_word};
ghost use Rattle.flow_notes.specs.Fire.{fire_word};
ghost use Rattle.flow_notes.specs.Note.{last_word};
ghost use Rattle.flow_notes.specs.NoteOf.{kind_of, close_of, last_of, cause_of_one, cause_of_two, posted_of, cause_of, numbered_of, buffer_of, crossing_of};
ghost use Rattle.flow_notes.specs.Spells.{SpellsBuffer, SpellsCause, SpellsCrossing};
ghost use Rattle.flow_notes.specs.Split.{words_behind};

use super::meaning::{counted_word, read_flow, u16_word, u32_word, u64_word};
use super::split::{first_word, one_word, three_words, two_words};
use crate::keywords::*;
use crate::{Cause, CloseCause, FireKind};
use flow_gate::{BufferId, FlowId};

/// The kind of a timer.
#[tactic(auto, unfolding(crate::specs::NoteOf::kind_of))]
pub fn read_kind(word: &[u8]) -> Option<FireKind>
    ensures value { result ≡ kind_of word.now }
    ensures spelled { IfSome result (λ kind. word.now ≡ fire_word kind) }
{
    if word == ROUTE {
        return Some(FireKind::Route);
    }
    if word == STREAM_IDLE {
        return Some(FireKind::StreamIdle);
    }
    if word == CONNECTION_IDLE {
        return Some(FireKind::ConnectionIdle);
    }
    None
}

/// Why a connection was closed.
#[tactic(auto, unfolding(crate::specs::NoteOf::close_of))]
pub fn read_closing(word: &[u8]) -> Option<CloseCause>
    ensures value { result ≡ close_of word.now }
    ensures spelled { IfSome result (λ cause. word.now ≡ close_word cause) }
{
    if word == PROTOCOL {
        return Some(CloseCause::Protocol);
    }
    if word == LOST {
        return Some(CloseCause::Lost);
    }
    if word == DRAINED {
        return Some(CloseCause::Drained);
    }
    if word == IDLE {
        return Some(CloseCause::Idle);
    }
    if word == OVERLOAD {
        return Some(CloseCause::Overload);
    }
    if word == FLOOD {
        return Some(CloseCause::Flood);
    }
    None
}

/// Whether a frame carries the end.
#[tactic(auto, unfolding(crate::specs::NoteOf::last_of))]
pub fn read_last(word: &[u8]) -> Option<bool>
    ensures value { result ≡ last_of word.now }
    ensures spelled { IfSome result (λ last. word.now ≡ last_word last) }
{
    if word == MORE {
        return Some(false);
    }
    if word == END {
        return Some(true);
    }
    None
}

// A cause of one word.
#[tactic(auto, unfolding(crate::specs::NoteOf::cause_of_one))]
fn short_cause(word: &[u8]) -> Option<Cause>
    ensures value { result ≡ cause_of_one word.now }
    ensures spelled { IfSome result (SpellsCause (word.now ∷ [])) }
{
    if word == DONE {
        return Some(Cause::Done);
    }
    if word == TOO_LARGE {
        return Some(Cause::TooLarge);
    }
    if word == OVERLOAD {
        return Some(Cause::Overload);
    }
    if word == OVERFLOW {
        return Some(Cause::Overflow);
    }
    if word == EARLY_END {
        return Some(Cause::EarlyEnd);
    }
    None
}

// A cause of two words.
#[tactic(auto, unfolding(crate::specs::NoteOf::cause_of_two))]
fn cause_about(word: &[u8], value: &[u8]) -> Option<Cause>
    ensures value { result ≡ cause_of_two word.now value.now }
    ensures spelled { IfSome result (SpellsCause (word.now ∷ value.now ∷ [])) }
{
    if word == PEER_RESET {
        let code = u32_word(value)?;
        return Some(Cause::PeerReset { code });
    }
    if word == STREAM_ERROR {
        let code = u32_word(value)?;
        return Some(Cause::StreamError { code });
    }
    if word == TIMEOUT {
        let kind = read_kind(value)?;
        return Some(Cause::Timeout { kind });
    }
    if word == CONN_LOST {
        let conn = u32_word(value)?;
        return Some(Cause::ConnLost { conn });
    }
    if word == REFUSED {
        let status = u16_word(value)?;
        return Some(Cause::Refused { status });
    }
    None
}

#[tactic(auto, unfolding(crate::specs::NoteOf::posted_of))]
fn posted_cause(words: Option<&[u8]>) -> Option<Cause>
    ensures value { result ≡ posted_of (words_behind words.entry) }
    ensures spelled { IfSome result (SpellsCause (words_behind words.entry)) }
{
    let (word, poster, number) = three_words(words)?;
    if word != POSTED {
        return None;
    }
    let poster = u32_word(poster)?;
    let number = u64_word(number)?;
    Some(Cause::Posted { poster, number })
}

/// Why an exchange was doomed.
#[tactic(auto, unfolding(crate::specs::NoteOf::cause_of))]
pub fn read_cause(words: Option<&[u8]>) -> Option<Cause>
    ensures value { result ≡ cause_of (words_behind words.entry) }
    ensures spelled { IfSome result (SpellsCause (words_behind words.entry)) }
{
    if let Some(word) = one_word(words) {
        return short_cause(word);
    }
    if let Some((word, value)) = two_words(words) {
        return cause_about(word, value);
    }
    posted_cause(words)
}

// A buffer with a number.
#[tactic(auto, unfolding(crate::specs::NoteOf::numbered_of))]
fn numbered_buffer(flow: FlowId, word: &[u8], value: &[u8]) -> Option<BufferId>
    ensures value { result ≡ numbered_of flow word.now value.now }
    ensures spelled { IfSome result (SpellsBuffer flow (word.now ∷ value.now ∷ [])) }
{
    if word == STAGE {
        let i = counted_word(value)?;
        return Some(BufferId::Stage(flow, i));
    }
    if word == WRITE {
        let conn = u32_word(value)?;
        return Some(BufferId::Write(conn));
    }
    None
}

#[tactic(auto, unfolding(crate::specs::NoteOf::buffer_of))]
fn read_buffer(flow: FlowId, words: Option<&[u8]>) -> Option<BufferId>
    ensures value { result ≡ buffer_of flow (words_behind words.entry) }
    ensures spelled { IfSome result (SpellsBuffer flow (words_behind words.entry)) }
{
    if let Some(word) = one_word(words) {
        return if word == SEND {
            Some(BufferId::Send(flow))
        } else {
            None
        };
    }
    let (word, value) = two_words(words)?;
    numbered_buffer(flow, word, value)
}

/// A flow, and a buffer that pauses it.
#[tactic(auto, unfolding(crate::specs::NoteOf::crossing_of))]
pub fn read_crossing(words: Option<&[u8]>) -> Option<(FlowId, BufferId)>
    ensures value { result ≡ crossing_of (words_behind words.entry) }
    ensures spelled { IfSome result (SpellsCrossing (words_behind words.entry)) }
{
    let (flow, rest) = first_word(words?);
    let flow = read_flow(flow)?;
    let buffer = read_buffer(flow, rest)?;
    Some((flow, buffer))
}
