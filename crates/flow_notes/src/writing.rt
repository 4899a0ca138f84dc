// The texts of events and notes, as they are written.
ghost use Rattle.std.specs.Prelude.{◌≡◌, ◌++◌, ◌∷◌, OnOk, OnErr};
ghost use Rattle.std.specs.List.{flat_map};
ghost use Rattle.flow_notes.specs.Extends.{Extends};
ghost use Rattle.flow_notes.specs.Line.{line_of, newline};
ghost use Rattle.flow_notes.specs.Word.{words_of, turn_words, turn_front};

mod event;
mod note;
mod words;

use crate::keywords::TURN;
pub use event::event_text;
use io_ports::{NoMemory, Octets};
pub use note::note_text;
use words::{Word, push_word};

// A first word, and the others each behind a space.
fn push_words(first: &[u8], words: &[Word], into: &mut Octets) -> Result<(), NoMemory>
    ensures ok { OnOk result
        (into.new ≡ into.old ++ line_of (first.now ∷ flat_map words_of words.now)) }
    ensures err { OnErr result (Extends into.old into.new) }
{
    into.push_all(first)?;
    'words: for word in words {
        push_word(word, into)?;
    }
    Ok(())
}

// The front of a turn's line.
fn push_turn(turn: Option<u64>, into: &mut Octets) -> Result<(), NoMemory>
    ensures ok { OnOk result (into.new ≡ into.old ++ turn_front turn) }
    ensures err { OnErr result (Extends into.old into.new) }
{
    let Some(number) = turn else {
        return Ok(());
    };
    push_words(TURN, &[Word::Number(number)], into)?;
    into.push_all(b" ")
}

/// Appends a line, which shows an event's turn where there is one. After running out of memory a part of
/// it may stand behind the octets from before.
fn push_line(
    turn: Option<u64>,
    first: &[u8],
    words: &[Word],
    into: &mut Octets,
) -> Result<(), NoMemory>
    ensures ok { OnOk result (into.new ≡ into.old
        ++ (line_of (turn_words turn ++ (first.now ∷ flat_map words_of words.now)) ++ newline)) }
    ensures err { OnErr result (Extends into.old into.new) }
{
    push_turn(turn, into)?;
    push_words(first, words, into)?;
    into.push_all(b"\n")
}
