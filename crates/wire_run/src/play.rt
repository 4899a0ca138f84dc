// The lines of a wire session, each of which is dispatched.
ghost use Rattle.flow_notes.specs.Passages.{notes_of_passage};
ghost use Rattle.std.specs.Prelude.{◌≡◌, ◌∷◌, [], OnOk};
ghost use Rattle.wire_run.specs.Passing.{PassesAll, row_told};
ghost use Rattle.wire_run.specs.Rows as rows;

use crate::stages::StageTable;
use flow_notes::{Event, Note, Notes, Passage};
use io_ports::{NoMemory, Octets};
use proxy_config::Config;
use session_config::names_of;
use session_lines::{LineRead, WireLines};
use session_run::{Player, Went};
use std::alloc::Global;
use tape_summary::append_notes;
use wire_steps::WireSteps;
use wire_summary::{BufferLimits, WireLog, write_wire_summary};
use worker_core::WireSession;

/// A wire session under way: what its lines say of the next one, the core, and what the summary tells of the tape so far.
#[derive(Drop)]
pub struct WirePlay {
    alloc: Global,
    lines: WireLines,
    session: WireSession,
    stages: StageTable,
    log: WireLog,
    notes: Notes,
}

impl WirePlay {
    ghost use Rattle.std.specs.Prelude.{◌≡◌, List, Ok, ℕ, IfOk, OnOk, false};
    ghost use Rattle.flow_notes.specs.Event.{IsEvent};
    ghost use Rattle.proxy_config.specs.Ranges.{IsInRange};
    ghost use Rattle.config_tables.specs.Reading.{config_of};
    ghost use Rattle.session_run.specs.Runs.{Begins};
    ghost use Rattle.wire_run.specs.Passing.{CarriesOn};
    ghost use Rattle.proxy_config.specs.declared.config.Config.{Config};
    ghost use Rattle.session_lines.specs.WireLines.{ReadsWireLine};
    ghost use Rattle.tape_laws.specs.History.{History, NoMark};
    ghost use Rattle.wire_run.specs.Played.{PlayRests, PlaysEvent, wire_kind};
    ghost use Rattle.wire_state.specs.Sound.{IsSound};

    /// Before the first line of a session under this configuration.
    pub fn new(alloc: Global, config: Config) -> Result<Self, NoMemory>
        requires { IsInRange config }
        ensures { IfOk result (λ play. (text : List ℕ) → config_of text ≡ Ok config → Begins wire_kind play text) }
    {
        let Ok(names) = names_of(alloc, &config) else {
            drop(config);
            return Err(NoMemory);
        };
        names.known();
        let lines = WireLines::new(alloc, names, config.overload.resources.as_slice().len());
        let log = WireLog::new(alloc, limits_of(&config));
        let Ok(stages) = StageTable::new(alloc, config.routes.as_slice()) else {
            drop((config, lines, log));
            return Err(NoMemory);
        };
        let Ok(session) = WireSession::new(alloc, config) else {
            drop((lines, log, stages));
            return Err(NoMemory);
        };
        Ok(WirePlay {
            alloc,
            lines,
            session,
            stages,
            log,
            notes: Notes::new(alloc),
        })
    }

    /// The lines so far.
    pub fn lines(&self) -> &WireLines
        ensures { result.now ≡ self.now.lines }
    {
        &self.lines
    }

    /// Reads the next line, given without its newline, as far as it says what may come next.
    pub fn read(&mut self, line: &[u8]) -> Result<LineRead, NoMemory>
        ensures read { ReadsWireLine self.old.lines line.now self.new.lines result }
        ensures rests { (config : Config) (h : History NoMark) → PlayRests self.old config h → PlayRests self.new config h }
    {
        self.lines.read(line)
    }

    /// Dispatches an event and appends its notes, or leaves the text as it was.
    pub fn event(&mut self, event: &Event, text: &mut Octets) -> Result<Went, NoMemory>
        requires sound { self.old.session.failed ≡ false → IsSound self.old.session.core }
        requires event { IsEvent self.old.lines.names event.now }
        ensures { PlaysEvent self.old event.now text.old self.new text.new result }
    {
        self.dispatch(event)?;
        append_notes(&self.notes, self.lines.names(), text)?;
        Ok(Went::On)
    }

    // Dispatches an event, and takes up its notes.
    fn dispatch(&mut self, event: &Event) -> Result<(), NoMemory>
        requires { self.old.session.failed ≡ false → IsSound self.old.session.core }
        ensures { OnOk result (CarriesOn self.old event.now self.new) }
    {
        self.notes.clear();
        let Ok(()) = self.session.dispatch(&WireSteps, event, &mut self.notes) else {
            return Err(NoMemory);
        };
        pass_all(&self.notes, &self.session, &self.stages, &mut self.log)?;
        self.log.note_all(&self.notes)
    }
}

impl Player for WirePlay {
    ghost use Rattle.wire_run.specs.Played as spec;

    ghost stands = { spec.Played };

    ghost refuses = { spec.RefusesLine };

    ghost can_end = { spec.can_end };

    ghost sums = { spec.SumsPlay };

    fn line(&mut self, line: &[u8], text: &mut Octets) -> Result<Went, NoMemory> {
        match self.lines.read(line)? {
            LineRead::Header => Ok(Went::On),
            LineRead::Event(event) => self.event(&event, text),
            LineRead::Limits(_) | LineRead::Refused => Ok(Went::Refused),
        }
    }

    fn may_end(&self) -> bool {
        self.lines.is_playing()
    }

    fn summarize(&mut self, text: &mut Octets) -> Result<(), NoMemory> {
        write_wire_summary(self.alloc, &self.log, text)
    }
}

// The limits of the buffers that every exchange and every connection has.
fn limits_of(config: &Config) -> BufferLimits
    ensures { result ≡ rows.limits_of config.now }
{
    BufferLimits {
        recv: config.limits.stream_window,
        send: config.limits.send_buffer,
        write: config.limits.write_buffer,
    }
}

// Tells the log which stages each exchange passes that begins in these notes.
fn pass_all(
    notes: &Notes,
    session: &WireSession,
    stages: &StageTable,
    log: &mut WireLog,
) -> Result<(), NoMemory>
    ensures { OnOk result (PassesAll stages.now.rows.items (row_told session.now) notes.now log.old log.new) }
{
    for passage in notes.passages() {
        pass_row(passage, session, stages, log)?;
    }
    Ok(())
}

// No exchange begins in a row of pauses or resumes.
fn pass_row(
    passage: Passage<'_>,
    session: &WireSession,
    stages: &StageTable,
    log: &mut WireLog,
) -> Result<(), NoMemory>
    ensures { OnOk result (PassesAll stages.now.rows.items (row_told session.now) (notes_of_passage passage.entry) log.old log.new) }
{
    match passage {
        Passage::One(note) => pass(note, session, stages, log),
        _ => Ok(()),
    }
}

fn pass(
    note: &Note,
    session: &WireSession,
    stages: &StageTable,
    log: &mut WireLog,
) -> Result<(), NoMemory>
    ensures { OnOk result (PassesAll stages.now.rows.items (row_told session.now) (note.now ∷ []) log.old log.new) }
{
    let Note::Start { exchange, .. } = note else {
        return Ok(());
    };
    let row = session.row(*exchange);
    log.pass(
        *exchange,
        stages.request_limits(row)?,
        stages.response_limits(row)?,
    )
}
