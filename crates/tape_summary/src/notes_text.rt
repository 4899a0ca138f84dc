// Notes as lines.
ghost use Rattle.std.specs.List.{AllByRecursion};
ghost use Rattle.std.specs.Prelude.{◌≡◌, ◌≤◌, ◌++◌, [], length, map, OnOk, OnErr};
ghost use Rattle.flow_notes.specs.Extends.{Extends};
ghost use Rattle.flow_notes.specs.Flow.{flow_word};
ghost use Rattle.flow_notes.specs.Note.{IsNote};
ghost use Rattle.flow_notes.specs.Passages.{notes_of_passage};
ghost use Rattle.tape_summary.specs.LineEnds.{text_of};
ghost use Rattle.tape_summary.specs.NotesText.{notes_text};

use crate::line_end::LineEnd;
use flow_gate::{BufferId, FlowId};
use flow_notes::{Names, Note, Notes, Passage, note_text};
use io_ports::{NoMemory, Octets};

/// Appends the lines of all notes, or nothing. After running out of memory the text is as it was.
pub fn append_notes(notes: &Notes, names: &Names, text: &mut Octets) -> Result<(), NoMemory>
    requires { AllByRecursion (IsNote names.now) notes.now }
    ensures ok { OnOk result (text.new ≡ text.old ++ notes_text names.now notes.now) }
    ensures err { OnErr result (text.new ≡ text.old) }
{
    let whole = text.len();
    if let Err(error) = tell(notes, names, text) {
        text.truncate(whole);
        return Err(error);
    }
    Ok(())
}

/// Appends a line for each note. Running out of memory leaves some of it.
pub fn tell(notes: &Notes, names: &Names, into: &mut Octets) -> Result<(), NoMemory>
    requires { AllByRecursion (IsNote names.now) notes.now }
    ensures ok { OnOk result (into.new ≡ into.old ++ notes_text names.now notes.now) }
    ensures err { OnErr result (Extends into.old into.new) }
{
    for passage in notes.passages() {
        tell_passage(passage, names, into)?;
    }
    Ok(())
}

fn tell_passage(passage: Passage<'_>, names: &Names, into: &mut Octets) -> Result<(), NoMemory>
    requires { AllByRecursion (IsNote names.now) (notes_of_passage passage) }
    ensures ok { OnOk result (into.new ≡ into.old ++ notes_text names.now (notes_of_passage passage.entry)) }
    ensures err { OnErr result (Extends into.old into.new) }
{
    match passage {
        Passage::One(note) => note_text(note, names, into),
        Passage::Pauses { flows, buffer } => tell_pauses(flows, buffer, into),
        Passage::Resumes { flows, buffer } => tell_resumes(flows, buffer, into),
    }
}

fn tell_pauses(flows: &[FlowId], buffer: BufferId, into: &mut Octets) -> Result<(), NoMemory>
    ensures ok { OnOk result (into.new ≡ into.old ++ notes_text [] (map (λ f. Note.Pause f buffer) flows.now)) }
    ensures err { OnErr result (Extends into.old into.new) }
{
    let end = LineEnd::of_buffer(buffer);
    let mut rest = flows;
    while let Some((flow, after)) = rest.split_first() {
        put_crossing(b"pause ", *flow, end, into)?;
        rest = after;
    }
    Ok(())
}

fn tell_resumes(flows: &[FlowId], buffer: BufferId, into: &mut Octets) -> Result<(), NoMemory>
    ensures ok { OnOk result (into.new ≡ into.old ++ notes_text [] (map (λ f. Note.Resume f buffer) flows.now)) }
    ensures err { OnErr result (Extends into.old into.new) }
{
    let end = LineEnd::of_buffer(buffer);
    let mut rest = flows;
    while let Some((flow, after)) = rest.split_first() {
        put_crossing(b"resume ", *flow, end, into)?;
        rest = after;
    }
    Ok(())
}

// Appends the line of a pause or a resume: a word, the flow, and the end of the line.
fn put_crossing(word: &[u8], flow: FlowId, end: LineEnd, into: &mut Octets) -> Result<(), NoMemory>
    requires word { length word.now ≤ 7 }
    requires room { 28 ≤ end.start }
    ensures ok { OnOk result (into.new ≡ into.old ++ (word.now ++ (flow_word flow ++ text_of end))) }
    ensures err { OnErr result (into.new ≡ into.old) }
{
    let mut line = end;
    line.put_flow(flow);
    line.put(word);
    into.push_all(line.as_slice())
}
