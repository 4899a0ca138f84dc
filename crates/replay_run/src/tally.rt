// What the short summary of a drill tells, and its text.
ghost use Rattle.std.specs.Prelude.{◌≡◌, ◌+◌, ◌++◌, decimal, IfOk, OnOk};
ghost use Rattle.flow_notes.specs.Line.{newline};
ghost use Rattle.replay_run.specs.ShortSummary.{resets_by as resets_of};
ghost use Rattle.replay_run.specs.Tally.{tally_text};

use flow_notes::{Cause, Note, Notes, Passage};
use io_ports::{NoMemory, Octets};
use tape_summary::{Level, put_behind, write_after};

/// What the short summary tells of the tape of a plain session, kept note by note.
#[derive(Clone, Copy, PartialEq, Eq)]
pub struct Tally {
    /// How many streams began.
    pub streams: u64,
    /// How many octets entered receive buffers, and were framed.
    pub received: u64,
    pub sent: u64,
    /// The write buffer's level.
    pub write: Level,
    pub pauses: u64,
    /// How many streams were doomed since their peer reset them.
    pub resets: u64,
}

impl Tally {
    ghost use Rattle.std.specs.Prelude.{◌≡◌, [], OnOk};
    ghost use Rattle.flow_rules.specs.declared.ids.BufferId.{BufferId};
    ghost use Rattle.flow_rules.specs.declared.ids.FlowId.{FlowId};
    ghost use Rattle.tape_laws.specs.declared.PlainLimits.{PlainLimits};
    ghost use Rattle.flow_notes.specs.Passages.{notes_of_passage};
    ghost use Rattle.replay_run.specs.Tally.{Counted, TallyGoes, TallyIs};

    /// The tally of an empty tape.
    pub fn new() -> Self
        ensures { (limits : PlainLimits) → TallyIs limits result [] }
    {
        Tally {
            streams: 0,
            received: 0,
            sent: 0,
            write: Level::none(),
            pauses: 0,
            resets: 0,
        }
    }

    /// Takes up the notes that a tape goes on with. A count past the end of its type is answered as out of
    /// memory, after which the tally is unusable.
    pub fn note_all(&mut self, notes: &Notes) -> Result<(), NoMemory>
        ensures { OnOk result (TallyGoes self.old notes.now self.new) }
    {
        for passage in notes.passages() {
            self.passage(passage)?;
        }
        Ok(())
    }

    fn passage(&mut self, passage: Passage<'_>) -> Result<(), NoMemory>
        ensures { OnOk result (TallyGoes self.old (notes_of_passage passage.entry) self.new) }
    {
        match passage {
            Passage::One(note) => self.note(note),
            Passage::Pauses { flows, .. } => {
                self.pauses = add(self.pauses, flows.len() as u64)?;
                Ok(())
            }
            Passage::Resumes { .. } => Ok(()),
        }
    }

    // Most notes of a crowded session are pauses and resumes.
    fn note(&mut self, note: &Note) -> Result<(), NoMemory>
        ensures { OnOk result (Counted self.old note.now self.new) }
    {
        match note {
            Note::Pause { .. } => {
                self.pauses = add(self.pauses, 1)?;
                Ok(())
            }
            Note::Resume { .. } => Ok(()),
            _ => self.note_other(note),
        }
    }

    fn note_other(&mut self, note: &Note) -> Result<(), NoMemory>
        requires { (f : FlowId) (b : BufferId) → note.now ≡ Note.Pause f b → ⊥ }
        ensures { OnOk result (Counted self.old note.now self.new) }
    {
        self.write = write_after(self.write, note)?;
        match note {
            Note::Arrive { octets, .. } => {
                self.received = add(self.received, octets.len() as u64)?;
                Ok(())
            }
            Note::Frame { n, .. } => {
                self.sent = add(self.sent, u64::from(*n))?;
                Ok(())
            }
            Note::Start { .. } => {
                self.streams = add(self.streams, 1)?;
                Ok(())
            }
            Note::Doom { cause, .. } => {
                self.resets = add(self.resets, resets_by(*cause))?;
                Ok(())
            }
            _ => Ok(()),
        }
    }
}

fn resets_by(cause: Cause) -> u64
    ensures { result ≡ resets_of cause }
{
    match cause {
        Cause::PeerReset { .. } => 1,
        _ => 0,
    }
}

// A sum past the end of its type counts as out of memory.
fn add(a: u64, b: u64) -> Result<u64, NoMemory>
    ensures { IfOk result (λ sum. sum ≡ a + b) }
{
    match a.checked_add(b) {
        Some(sum) => Ok(sum),
        None => Err(NoMemory),
    }
}

/// Appends the six lines of a tally. Running out of memory may leave some of them.
pub fn put_short(into: &mut Octets, tally: Tally) -> Result<(), NoMemory>
    ensures { OnOk result (into.new ≡ into.old ++ tally_text tally) }
{
    put_count(into, b"streams ", tally.streams)?;
    put_count(into, b"received ", tally.received)?;
    put_count(into, b"sent ", tally.sent)?;
    put_count(into, b"peak ", tally.write.most)?;
    put_count(into, b"pauses ", tally.pauses)?;
    put_count(into, b"resets ", tally.resets)
}

fn put_count(into: &mut Octets, word: &[u8], n: u64) -> Result<(), NoMemory>
    ensures { OnOk result (into.new ≡ into.old ++ (word.now ++ (decimal n ++ newline))) }
{
    put_behind(into, word, n)?;
    into.push_all(b"\n")
}
