// A tape that is read, and the picture of it that is written.
ghost use Rattle.flow_notes.specs.Line.{newline};
ghost use Rattle.std.specs.Prelude.{◌≡◌, ◌≤◌, ◌++◌, Err, IfErr, IfOk, OnOk};
ghost use Rattle.io_ports.specs.Faults.{Rose};
ghost use Rattle.tape_plot.specs.Ending.{EndsRight, IsRefused};
ghost use Rattle.tape_plot.specs.Ending as spec;
ghost use Rattle.tape_plot.specs.Limits.{TellsLine};
ghost use Rattle.tape_plot.specs.Lines.{line_text};
ghost use Rattle.tape_plot.specs.Reading.{Caused, ReadsNote, Refuses};
ghost use Rattle.tape_plot.specs.Goes.{PlotGoes, PlotStays};
ghost use Rattle.tape_plot.specs.Pictures.{DrawsAs, PicturesAs, WritesText};
ghost use Rattle.tape_plot.specs.Reads.{Follows, Goes, Reads, ReadsAs};
ghost use Rattle.tape_plot.specs.Said.{part_with};
ghost use Rattle.tape_plot.specs.Said as said;
ghost use Rattle.tape_plot.specs.declared.report.Line.{Line};
ghost use Rattle.tape_plot.specs.declared.tape.Part.TheVariants as parts;

use crate::choice::Choice;
use crate::draw::draw;
use crate::plot::Plot;
use crate::report::{Line, Outcome, Refusal, read_line};
use crate::words::first_word;
use flow_notes::{NameRefusal, Names, Note, read_note};
use io_ports::{NoMemory, Octets, Sink, Source};
use session_run::{Lines, Status, write_all};
use std::alloc::Global;

// Words of lines.
const TURN: &[u8] = b"turn";

const JOIN: &[u8] = b"join";

/// How many octets are held of a tape at most: a line is shorter.
const ROOM: usize = 131_072;

// How far a tape was read.
#[derive(Clone, Copy, PartialEq, Eq)]
pub enum Part {
    Notes,
    Summary,
    /// The last line was read, which is this.
    Ended(Line),
}

/// A tape that is read line by line.
#[derive(Drop)]
pub struct Tape {
    alloc: Global,
    lines: Lines,
    pub plot: Plot,
    pub part: Part,
    /// How many lines were read.
    number: u64,
    /// How many octets they had, with their newlines.
    read: u64,
}

// Why reading stops.
enum Stop {
    /// The lines have ended.
    End,
    Refused(Refusal),
    Failed(Status),
}

impl From<NoMemory> for Stop {
    ghost use Rattle.std.specs.Prelude.{◌≡◌};
    ghost use Rattle.session_run.specs.declared.status.Status.TheVariants as statuses;
    ghost use Rattle.tape_plot.specs.declared.tape.Stop.TheVariants as stops;

    ghost from_gives = { λ _ stop. stop ≡ stops.Failed statuses.Memory };

    fn from(_: NoMemory) -> Self {
        Stop::Failed(Status::Memory)
    }
}

impl Tape {
    ghost use Rattle.std.specs.Prelude.{◌≡◌, ◌<◌, ◌≤◌, [], false, IfErr, IfOk, OnOk};
    ghost use Rattle.io_ports.specs.Faults.{Rose};
    ghost use Rattle.session_run.specs.Held.{held_of};
    ghost use Rattle.session_run.specs.Newlines.{BeginsWithLine, has_newline};
    ghost use Rattle.tape_plot.specs.Reading.{Caused, Refuses, to_go};
    ghost use Rattle.tape_plot.specs.Reads.{Goes, TakesLine, TapeIs};

    // Nothing is read yet.
    fn new(alloc: Global, choice: &Choice) -> Result<Self, NoMemory>
        ensures { IfOk result (λ tape. TapeIs tape choice.now.first choice.now.last [] []) }
    {
        Ok(Tape {
            alloc,
            lines: Lines::new(alloc)?,
            plot: Plot::new(alloc, choice.first, choice.last),
            part: Part::Notes,
            number: 0,
            read: 0,
        })
    }

    // One line, or else one read.
    fn step<S: Source>(&mut self, source: &mut S) -> Result<(), Stop>
        ensures goes { Goes self.old self.new (S.left source.old) (S.left source.new) result }
        ensures less { OnOk result (to_go self.new < to_go self.old) }
        ensures caused { IfErr result (Caused (Rose (S.faults source.old) (S.faults source.new))) }
        ensures faults { S.faults source.old ≤ S.faults source.new }
    {
        match self.lines.line_len() {
            Some(n) => self.take_line(n),
            None => self.read_more(source),
        }
    }

    fn take_line(&mut self, n: usize) -> Result<(), Stop>
        requires { BeginsWithLine (held_of self.old.lines) n }
        ensures takes { TakesLine self.old self.new result }
        ensures less { OnOk result (to_go self.new < to_go self.old) }
        ensures stops { IfErr result Refuses }
    {
        let Some(read) = self.read.checked_add(n as u64 + 1) else {
            return Err(Stop::Failed(Status::TooLong));
        };
        let Some(number) = self.number.checked_add(1) else {
            return Err(Stop::Failed(Status::TooLong));
        };
        let line = &self.lines.held()[..n];
        self.part = take_text(self.alloc, &mut self.plot, self.part, line)?;
        self.lines.skip(n + 1);
        self.read = read;
        self.number = number;
        Ok(())
    }

    fn read_more<S: Source>(&mut self, source: &mut S) -> Result<(), Stop>
        requires { has_newline (held_of self.old.lines) ≡ false }
        ensures goes { Goes self.old self.new (S.left source.old) (S.left source.new) result }
        ensures less { OnOk result (to_go self.new < to_go self.old) }
        ensures caused { IfErr result (Caused (Rose (S.faults source.old) (S.faults source.new))) }
        ensures faults { S.faults source.old ≤ S.faults source.new }
    {
        if self.lines.held().len() >= ROOM {
            return Err(Stop::Refused(Refusal::Long));
        }
        match self.lines.fill(source) {
            Ok(n) if n > 0 => Ok(()),
            Ok(_) => Err(Stop::End),
            Err(_) => Err(Stop::Failed(Status::ReadFault)),
        }
    }
}

// Takes up the text of a line, and answers how far the tape was read with it.
fn take_text(alloc: Global, plot: &mut Plot, part: Part, line: &[u8]) -> Result<Part, Stop>
    ensures follows { IfOk result (Follows line.now plot.old plot.new part) }
    ensures stops { IfErr result Refuses }
{
    if let Part::Ended(_) = part {
        return Err(Stop::Refused(Refusal::BehindEnd));
    }
    match read_note_line(alloc, line)? {
        Some(note) => take_note(plot, part, &note, line),
        None => take_report(alloc, plot, line),
    }
}

// Takes up a note, which stands before the summary.
fn take_note(plot: &mut Plot, part: Part, note: &Note, line: &[u8]) -> Result<Part, Stop>
    ensures before { IfOk result (λ _. part ≡ parts.Notes) }
    ensures part { IfOk result (λ next. next ≡ parts.Notes) }
    ensures goes { OnOk result (PlotGoes plot.old note.now plot.new) }
    ensures limits { OnOk result (plot.new.limits ≡ plot.old.limits) }
    ensures stops { IfErr result Refuses }
{
    if part != Part::Notes {
        return Err(Stop::Refused(Refusal::BehindSummary));
    }
    plot.note(note, line)?;
    Ok(Part::Notes)
}

// Takes up a line of the summary.
fn take_report(alloc: Global, plot: &mut Plot, line: &[u8]) -> Result<Part, Stop>
    ensures sums { IfOk result (λ next. (l : Line) × (line.now ++ newline ≡ line_text l) × (next ≡ part_with (said.Sums l)) × TellsLine plot.old.limits l plot.new.limits) }
    ensures stays { OnOk result (PlotStays plot.old plot.new) }
    ensures stops { IfErr result Refuses }
{
    let Some(report) = read_line(alloc, line)? else {
        return Err(Stop::Refused(Refusal::NoNote));
    };
    plot.sum(report)?;
    Ok(part_behind(report))
}

// How far a tape was read with a line of its summary.
fn part_behind(report: Line) -> Part
    ensures { result ≡ part_with (said.Sums report) }
{
    match report {
        Line::Peak { .. } => Part::Summary,
        Line::Paused { .. } => Part::Summary,
        _ => Part::Ended(report),
    }
}

// The note of a line. A tape names a cluster where it is joined alone, so that it is the one name of its line.
fn read_note_line(alloc: Global, line: &[u8]) -> Result<Option<Note>, NoMemory>
    ensures { IfOk result (ReadsNote line.now) }
{
    let mut names = Names::new(alloc);
    if let Some(name) = joined_name(line) {
        if names.push(name) == Err(NameRefusal::NoMemory) {
            return Err(NoMemory);
        }
    }
    names.known();
    read_note(alloc, line, &names)
}

// The last word of a line `turn K join C NAME`.
fn joined_name(line: &[u8]) -> Option<&[u8]> {
    let (turn, words) = first_word(line);
    if turn != TURN {
        return None;
    }
    let (_, words) = first_word(words);
    let (event, words) = first_word(words);
    if event != JOIN {
        return None;
    }
    let (_, name) = first_word(words);
    Some(name)
}

// Reads lines until they end or one is refused, and answers how.
fn read_lines<S: Source>(tape: &mut Tape, source: &mut S) -> Stop
    ensures goes { Goes tape.old tape.new (S.left source.old) (S.left source.new) (Err result) }
    ensures caused { Caused (Rose (S.faults source.old) (S.faults source.new)) result }
    ensures faults { S.faults source.old ≤ S.faults source.new }
{
    loop {
        if let Err(stop) = tape.step(source) {
            return stop;
        }
    }
}

fn ended(status: Status) -> Outcome
    ensures { result ≡ spec.ended status }
{
    Outcome {
        status,
        line: 0,
        refusal: None,
    }
}

/// Reads a tape with its summary from the source, and keeps lanes of the dispatches that are chosen: that of each buffer and of each
/// read-disable count stands for what the tape tells. The limits that are kept are those of the summary. Or how it came to no picture: where a line is refused, the source fails or memory
/// runs out.
pub fn read_tape<S: Source>(alloc: Global, choice: &Choice, source: &mut S) -> Result<Tape, Outcome>
    ensures reads { ReadsAs (S.left source.old) (S.left source.new) choice.now.first choice.now.last result }
    ensures refused { IfErr result (IsRefused (Rose (S.faults source.old) (S.faults source.new))) }
    ensures faults { S.faults source.old ≤ S.faults source.new }
{
    let Ok(mut tape) = Tape::new(alloc, choice) else {
        return Err(ended(Status::Memory));
    };
    match read_lines(&mut tape, source) {
        Stop::End => Ok(tape),
        Stop::Failed(status) => Err(ended(status)),
        Stop::Refused(refusal) => Err(Outcome {
            status: Status::Session,
            line: tape.number.saturating_add(1),
            refusal: Some(refusal),
        }),
    }
}

/// Reads a tape with its summary from the source, and writes the picture of what is chosen of it as one SVG file. It has a line for each
/// buffer that the choice asks for by name, or with all others, unless that held nothing in the dispatches that are drawn; and by default
/// for the 40 buffers that were highest in these against their limits, or for each where no more held an octet. The line shows what the
/// tape tells of the buffer, against the limit that the summary tells. Where a line of the tape is refused, the source fails or memory
/// runs out, nothing is written.
pub fn plot_tape<S: Source, K: Sink>(
    alloc: Global,
    choice: &Choice,
    source: &mut S,
    out: &mut K,
) -> Outcome
    ensures reads { Reads (S.left source.old) (S.left source.new) result }
    ensures ends { EndsRight (Rose (S.faults source.old) (S.faults source.new)) (Rose (K.faults out.old) (K.faults out.new)) (K.contents out.old) (K.contents out.new) result }
    ensures draws { DrawsAs (S.left source.old) (S.left source.new) (K.contents out.old) (K.contents out.new) choice.now result.status }
    ensures source { S.faults source.old ≤ S.faults source.new }
    ensures out { K.faults out.old ≤ K.faults out.new }
{
    match read_picture(alloc, choice, source) {
        Ok(text) => write_picture(out, text.as_slice()),
        Err(outcome) => outcome,
    }
}

// Reads a tape, and draws it.
fn read_picture<S: Source>(
    alloc: Global,
    choice: &Choice,
    source: &mut S,
) -> Result<Octets, Outcome>
    ensures reads { PicturesAs (S.left source.old) (S.left source.new) choice.now result }
    ensures refused { IfErr result (IsRefused (Rose (S.faults source.old) (S.faults source.new))) }
    ensures faults { S.faults source.old ≤ S.faults source.new }
{
    let mut tape = read_tape(alloc, choice, source)?;
    match draw(alloc, &mut tape.plot, tape.part, choice.lanes) {
        Ok(text) => Ok(text),
        Err(_) => Err(ended(Status::Memory)),
    }
}

// Writes a picture.
fn write_picture<K: Sink>(out: &mut K, text: &[u8]) -> Outcome
    ensures writes { WritesText (Rose (K.faults out.old) (K.faults out.new)) (K.contents out.old) (K.contents out.new) text.now result }
    ensures faults { K.faults out.old ≤ K.faults out.new }
{
    match write_all(out, text) {
        Ok(()) => ended(Status::Done),
        Err(_) => ended(Status::WriteFault),
    }
}
