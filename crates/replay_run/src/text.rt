// The text of a session.
ghost use Rattle.std.specs.List.{AllByRecursion};
ghost use Rattle.std.specs.Prelude.{◌≡◌, ◌++◌, OnOk, OnErr, List};
ghost use Rattle.flow_notes.specs.Event.{IsEvent};
ghost use Rattle.flow_notes.specs.Extends.{Extends};
ghost use Rattle.replay_run.specs.SessionText.{event_text_lines, head_lines, limits_lines, session_spelling};
ghost use Rattle.flow_notes.specs.declared.events.Event.{Event};
ghost use Rattle.tape_laws.specs.declared.PlainLimits.{PlainLimits};
ghost use Rattle.replay_run.specs.Formats.{InBothFormats, IsQuantumOfOne};
ghost use Rattle.replay_run.specs.SeenTape.{IsSeen};
ghost use Rattle.session_lines.specs.Seen.{Seen, seen_text};

use flow_notes::{EventList, Names, event_text};
use io_ports::{NoMemory, Octets};
use tape_laws::PlainLimits;
use tape_summary::put_behind;

/// Appends the whole text of a session: of a plain one with these limits, in format 2, or of a wire
/// one, which has none. Each event has to have a spelling with these names. After running out of memory
/// `into` is as it was.
pub fn session_text(
    events: &EventList,
    plain: Option<PlainLimits>,
    names: &Names,
    into: &mut Octets,
) -> Result<(), NoMemory>
    requires { AllByRecursion (IsEvent names.now) events.now }
    ensures ok { OnOk result (into.new ≡ into.old ++ session_spelling plain names.now events.now) }
    ensures err { OnErr result (into.new ≡ into.old) }
{
    let whole = into.len();
    if let Err(error) = put_session(events, plain, names, into) {
        into.truncate(whole);
        return Err(error);
    }
    Ok(())
}

// The same, but running out of memory may leave some of it.
fn put_session(
    events: &EventList,
    plain: Option<PlainLimits>,
    names: &Names,
    into: &mut Octets,
) -> Result<(), NoMemory>
    requires { AllByRecursion (IsEvent names.now) events.now }
    ensures ok { OnOk result (into.new ≡ into.old ++ session_spelling plain names.now events.now) }
    ensures err { OnErr result (Extends into.old into.new) }
{
    put_head(plain, into)?;
    put_events(events, names, into)
}

fn put_head(plain: Option<PlainLimits>, into: &mut Octets) -> Result<(), NoMemory>
    ensures ok { OnOk result (into.new ≡ into.old ++ head_lines plain) }
    ensures err { OnErr result (Extends into.old into.new) }
{
    match plain {
        Some(limits) => put_limits(limits, into),
        None => into.push_all(b"h2replay-session 1 wire\n"),
    }
}

fn put_limits(limits: PlainLimits, into: &mut Octets) -> Result<(), NoMemory>
    ensures ok { OnOk result (into.new ≡ into.old ++ limits_lines limits) }
    ensures err { OnErr result (Extends into.old into.new) }
{
    into.push_all(b"h2replay-session 2 plain\n")?;
    put_behind(into, b"limits ", u64::from(limits.recv))?;
    put_behind(into, b" ", u64::from(limits.send))?;
    put_behind(into, b" ", u64::from(limits.write))?;
    put_behind(into, b" ", u64::from(limits.quantum))?;
    into.push_all(b"\n")
}

fn put_events(events: &EventList, names: &Names, into: &mut Octets) -> Result<(), NoMemory>
    requires { AllByRecursion (IsEvent names.now) events.now }
    ensures ok { OnOk result (into.new ≡ into.old ++ event_text_lines names.now events.now) }
    ensures err { OnErr result (Extends into.old into.new) }
{
    let mut rest = events.as_slice();
    while let Some((event, after)) = rest.split_first() {
        event_text(event, names, into)?;
        rest = after;
    }
    Ok(())
}

/// A text of format 1, and the same text in format 2 with the quantum 16,384 behind its limits, spell
/// the same limits and the same events; the second is what `session_text` writes of them.
pub fn both_formats_spell_one_session()
    ensures quantum { (limits : PlainLimits) (events : List Event) → IsQuantumOfOne limits events }
    ensures same { (limits : PlainLimits) (events : List Event) → limits.quantum ≡ 16384 → InBothFormats limits events }
{}

/// A text spells at most one plain session: its format, its limits and its events are given by its octets.
pub fn one_session()
    ensures { (s t : Seen) → IsSeen s → IsSeen t → seen_text s ≡ seen_text t → s ≡ t }
{}
