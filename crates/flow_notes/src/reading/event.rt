// The lines of sessions.
ghost use Rattle.std.specs.Prelude.{◌≡◌, IfOk, IfSome, IfNone};
ghost use Rattle.flow_notes.specs.Spells.{SpellsEvent};
ghost use Rattle.flow_notes.specs.Event.{IsEvent, event_spelling, is_plain};
ghost use Rattle.flow_notes.specs.EventOf.{event_of};
ghost use Rattle.flow_notes.specs.Fields.{FitsEvent};
ghost use Rattle.flow_notes.specs.Split.{words_in};
ghost use Rattle.flow_notes.specs.declared.events.Event.{Event};

use super::plain::plain_line;
use super::wire::wire_line;
use crate::{Event, Names};
use io_ports::NoMemory;
use std::alloc::Global;

// The event of a line, if any.
#[tactic(auto, unfolding(crate::specs::EventOf::event_of))]
fn session_line(
    alloc: Global,
    line: &[u8],
    names: &Names,
    plain: bool,
) -> Result<Option<Event>, NoMemory>
    ensures value { IfOk result (λ read. read ≡ event_of names.now plain (words_in line.now)) }
    ensures spelled { IfOk result (λ read. IfSome read (λ e. SpellsEvent names.now (words_in line.now) e × (is_plain e ≡ plain))) }
{
    if !plain {
        return wire_line(alloc, line, names);
    }
    match plain_line(alloc, line)? {
        Some(event) => Ok(Some(Event::Plain(event))),
        None => Ok(None),
    }
}

/// Reads the line of an event of a plain session or of a wire session, without its newline. None where the line is the spelling
/// of no such event. Running out of memory says nothing of the line.
pub fn read_event(
    alloc: Global,
    line: &[u8],
    names: &Names,
    plain: bool,
) -> Result<Option<Event>, NoMemory>
    ensures some { IfOk result (λ read. IfSome read (λ e. (line.now ≡ event_spelling names.now e) × IsEvent names.now e × FitsEvent e × (is_plain e ≡ plain))) }
    ensures only { IfOk result (λ read. IfSome read (λ e. (f : Event) → FitsEvent f → IsEvent names.now f → is_plain f ≡ plain → event_spelling names.now f ≡ line.now → f ≡ e)) }
    ensures none { IfOk result (λ read. IfNone read ((e : Event) → FitsEvent e → IsEvent names.now e → is_plain e ≡ plain → event_spelling names.now e ≡ line.now → ⊥)) }
{
    names.known();
    session_line(alloc, line, names, plain)
}
