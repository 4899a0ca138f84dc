// The values of lines, as they are read.
ghost use Rattle.std.specs.Prelude.{◌≡◌, ℕ, List};
ghost use Rattle.flow_notes.specs.Event.{HasEventSpelling, event_spelling};
ghost use Rattle.flow_notes.specs.Name.{AreNames};
ghost use Rattle.flow_notes.specs.Note.{HasNoteSpelling, note_spelling};
ghost use Rattle.flow_notes.specs.declared.events.Event.{Event};
ghost use Rattle.flow_notes.specs.declared.notes.Note.{Note};

mod event;
mod flow_note;
mod life_note;
mod meaning;
mod note;
mod numbers;
mod octets;
mod plain;
mod split;
mod tape_words;
mod wire;

pub use event::read_event;
pub use note::read_note;
pub use numbers::read_numbers;

/// A text spells at most one event, whichever session it belongs to.
pub fn one_event()
    ensures { (names : List (List ℕ)) (e f : Event) → AreNames names → HasEventSpelling names e → HasEventSpelling names f
        → event_spelling names e ≡ event_spelling names f → e ≡ f }
{}

/// A text spells at most one note.
pub fn one_note()
    ensures { (names : List (List ℕ)) (m n : Note) → AreNames names → HasNoteSpelling names m → HasNoteSpelling names n
        → note_spelling names m ≡ note_spelling names n → m ≡ n }
{}
