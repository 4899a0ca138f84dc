// The lines of a session, each of which is dispatched.
use flow_notes::{Event, Notes};
use io_ports::{NoMemory, Octets};
use plain_core::PlainCore;
use session_lines::{LineRead, Order, read_session_line};
use session_run::{Player, Went};
use std::alloc::Global;
use std::mem;
use tape_laws::PlainLimits;
use tape_summary::{TapeLog, append_notes, write_summary};

/// The limits before any are read.
const NO_LIMITS: PlainLimits = PlainLimits {
    recv: 1,
    send: 0,
    write: 0,
    quantum: 16_384,
};

/// A plain session under way: what its lines say of the next one, the core, and what the summary tells of the tape so far.
#[derive(Drop)]
pub struct Play {
    pub alloc: Global,
    pub order: Order,
    pub core: PlainCore,
    pub log: TapeLog,
    pub notes: Notes,
}

impl Play {
    ghost use Rattle.std.specs.Prelude.{◌≡◌, [], IfOk, OnOk};
    ghost use Rattle.flow_notes.specs.Event.{IsEvent};
    ghost use Rattle.plain_core.specs.Flows.{AreLimits};
    ghost use Rattle.plain_core.specs.Stands.{CanTake};
    ghost use Rattle.replay_run.specs.Played.{IsBegun, PlaysEvent, plain_kind};
    ghost use Rattle.session_run.specs.Runs.{Begins};

    /// Before the first line. Refused only for lack of memory.
    pub fn new(alloc: Global) -> Result<Self, NoMemory>
        ensures { IfOk result (λ play. Begins plain_kind play []) }
    {
        Ok(Play {
            alloc,
            order: Order::plain(alloc),
            core: PlainCore::new(alloc, NO_LIMITS)?,
            log: TapeLog::new(alloc, NO_LIMITS),
            notes: Notes::new(alloc),
        })
    }

    // Before the first event of a session with these limits.
    fn begin(&mut self, limits: PlainLimits) -> Result<(), NoMemory>
        requires { AreLimits limits }
        ensures { OnOk result (IsBegun limits self.old self.new) }
    {
        let core = PlainCore::new(self.alloc, limits)?;
        // By a call, since the check follows what an assignment drops field by field.
        drop(mem::replace(&mut self.core, core));
        self.log = TapeLog::new(self.alloc, limits);
        Ok(())
    }

    // Dispatches an event and appends its notes, or leaves the text as it was.
    fn event(&mut self, event: &Event, text: &mut Octets) -> Result<Went, NoMemory>
        requires names { self.old.order.names ≡ [] }
        requires event { IsEvent [] event.now }
        requires follows { CanTake self.old.core event.now [] }
        ensures { PlaysEvent self.old event.now text.old self.new text.new result }
    {
        self.notes.clear();
        let Ok(()) = self.core.dispatch(event, &mut self.notes) else {
            return Err(NoMemory);
        };
        self.log.note_all(&self.notes)?;
        append_notes(&self.notes, &self.order.names, text)?;
        Ok(Went::On)
    }
}

impl Player for Play {
    ghost use Rattle.replay_run.specs.Played as spec;

    ghost stands = { spec.Played };

    ghost refuses = { spec.RefusesLine };

    ghost can_end = { spec.can_end };

    ghost sums = { spec.SumsPlay };

    fn line(&mut self, line: &[u8], text: &mut Octets) -> Result<Went, NoMemory> {
        match read_session_line(&mut self.order, line)? {
            LineRead::Header => Ok(Went::On),
            LineRead::Limits(limits) => {
                self.begin(limits)?;
                Ok(Went::On)
            }
            LineRead::Event(event) => self.event(&event, text),
            LineRead::Refused => Ok(Went::Refused),
        }
    }

    fn may_end(&self) -> bool {
        self.order.is_playing()
    }

    fn summarize(&mut self, text: &mut Octets) -> Result<(), NoMemory> {
        write_summary(self.alloc, &self.log, text)
    }
}
