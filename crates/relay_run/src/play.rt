// The lines of a relay's session, each of which is dispatched.
use crate::relay_log::RelayLog;
use crate::summary::write_relay_summary;
use flow_notes::{Event, Notes};
use io_ports::{NoMemory, Octets};
use proxy_config::Config;
use session_config::names_of;
use session_lines::{LineRead, WireLines};
use session_run::{Player, Went};
use std::alloc::Global;
use tape_summary::append_notes;
use tcp_relay::{Relay, RelayFault};

/// A relay's session under way: what its lines say of the next one, the relay, and what the summary tells of the tape so far.
#[derive(Drop)]
pub struct RelayPlay {
    pub alloc: Global,
    pub lines: WireLines,
    pub relay: Relay,
    pub log: RelayLog,
    pub notes: Notes,
}

impl RelayPlay {
    ghost use Rattle.std.specs.Prelude.{◌≡◌, IfOk, List, Ok, ℕ};
    ghost use Rattle.config_tables.specs.Reading.{config_of};
    ghost use Rattle.relay_run.specs.Played.{CanTake, PlaysEvent, relay_kind};
    ghost use Rattle.session_run.specs.Runs.{Begins};

    /// Before the first line of a session under this configuration. Refused only for lack of memory.
    pub fn new(alloc: Global, config: &Config) -> Result<Self, NoMemory>
        ensures { IfOk result (λ play. (text : List ℕ) → config_of text ≡ Ok config.now → Begins relay_kind play text) }
    {
        let names = names_of(alloc, config)?;
        names.known();
        let resources = config.overload.resources.as_slice().len();
        let limit = config.limits.write_buffer;
        Ok(RelayPlay {
            alloc,
            lines: WireLines::new(alloc, names, resources),
            relay: Relay::new(alloc, limit),
            log: RelayLog::new(alloc, limit),
            notes: Notes::new(alloc),
        })
    }

    // Dispatches an event and appends its notes, or leaves the text as it was.
    fn event(&mut self, event: &Event, text: &mut Octets) -> Result<Went, NoMemory>
        requires { CanTake self.old event.now }
        ensures { PlaysEvent self.old event.now text.old self.new text.new result }
    {
        self.notes.clear();
        match self.relay.dispatch(event, &mut self.notes) {
            Ok(()) => {
                self.log.note_all(&self.notes)?;
                append_notes(&self.notes, self.lines.names(), text)?;
                Ok(Went::On)
            }
            Err(RelayFault::Paused { .. }) => Ok(Went::Refused),
            Err(_) => Err(NoMemory),
        }
    }
}

impl Player for RelayPlay {
    ghost use Rattle.relay_run.specs.Played as spec;

    ghost stands = { spec.Played };

    ghost refuses = { spec.RefusesLine };

    ghost can_end = { spec.can_end };

    ghost sums = { spec.SumsPlay };

    fn line(&mut self, line: &[u8], text: &mut Octets) -> Result<Went, NoMemory> {
        match self.lines.read(line)? {
            LineRead::Header => Ok(Went::On),
            LineRead::Event(event) => self.event(&event, text),
            LineRead::Limits(_) => Ok(Went::Refused),
            LineRead::Refused => Ok(Went::Refused),
        }
    }

    fn may_end(&self) -> bool {
        self.lines.is_playing()
    }

    fn summarize(&mut self, text: &mut Octets) -> Result<(), NoMemory> {
        write_relay_summary(self.alloc, &self.log, text)
    }
}
