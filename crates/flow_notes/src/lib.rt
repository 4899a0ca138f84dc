//! What happens to a worker's core, event by event, and what it does about it, note by note.
#![tactic(auto)]

mod events;
mod keywords;
mod names;
mod notes;
mod passages;
mod reading;
mod writing;

/// How many octets are spelled in hex at once, on the stack.
const HEX_PIECE: usize = 256;

pub use events::{Event, EventList, Job, PlainEvent};
pub use flow_rules::{Cause, FireKind};
pub use names::{NameRefusal, Names};
pub use notes::{CloseCause, Note, Notes};
pub use passages::{Passage, Passages};
pub use reading::{one_event, one_note, read_event, read_note, read_numbers};
pub use writing::{event_text, note_text};
