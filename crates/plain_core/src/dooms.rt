// Dooms: an exchange is given up, and is gone at the end of its dispatch.
ghost use Rattle.std.specs.Prelude.{slice_get, ◌≡◌, ◌<◌, ◌≤◌, [], OnOk, Some, true, false};
ghost use Rattle.std.specs.BTreeMap.{get};
ghost use Rattle.std.specs.Ordering.{nat_cmp};
ghost use Rattle.plain_core.specs.Agenda.{after_end};
ghost use Rattle.plain_core.specs.Carries.{GivesUp};
ghost use Rattle.plain_core.specs.Flows.{IsSettled};
ghost use Rattle.plain_core.specs.Measure.{left_in, to_go};
ghost use Rattle.plain_core.specs.Noting.{AppendsNotes, doom_of};
ghost use Rattle.plain_core.specs.Runs.{Cuts, IsGood, Keeps};
ghost use Rattle.plain_core.specs.declared.agenda.Task.TheVariants as task;

use crate::agenda::Task;
use crate::plain::PlainCore;
use flow_notes::{Cause, Note, Notes};
use io_ports::NoMemory;

impl PlainCore {
    // The exchange's end was framed: it is done, and then its pair is to be doomed.
    pub(crate) fn end(&mut self, exchange: u64, notes: &mut Notes) -> Result<(), NoMemory>
        requires good { IsGood self.old notes.old }
        requires top { slice_get self.old.agenda 0 ≡ Some (task.End exchange) }
        ensures ok { OnOk result (Keeps self.old notes.old self.new notes.new) }
        ensures cut { Cuts self.old notes.old notes.new }
        ensures less { OnOk result (to_go self.new < to_go self.old) }
    {
        let gives_up = self.give_up(exchange, Cause::Done);
        self.end_pair(exchange)?;
        note_doom(gives_up, exchange, Cause::Done, notes)
    }

    // The end of the exchange's pair was framed.
    pub(crate) fn end_early(&mut self, exchange: u64, notes: &mut Notes) -> Result<(), NoMemory>
        requires good { IsGood self.old notes.old }
        requires top { slice_get self.old.agenda 0 ≡ Some (task.EarlyEnd exchange) }
        ensures ok { OnOk result (Keeps self.old notes.old self.new notes.new) }
        ensures cut { Cuts self.old notes.old notes.new }
        ensures less { OnOk result (to_go self.new < to_go self.old) }
    {
        let gives_up = self.give_up(exchange, Cause::EarlyEnd);
        self.agenda.pop();
        note_doom(gives_up, exchange, Cause::EarlyEnd, notes)
    }

    // The pair of an exchange that ended is next.
    fn end_pair(&mut self, exchange: u64) -> Result<(), NoMemory>
        ensures agenda { OnOk result (self.new.agenda ≡ after_end (get nat_cmp self.old.pairs exchange) self.old.agenda) }
        ensures rest { self.new ≡ record self.old { agenda = self.new.agenda } }
    {
        match self.pairs.get(&exchange).copied() {
            Some(pair) => self.agenda.replace(Task::EarlyEnd { exchange: pair }),
            None => {
                self.agenda.pop();
                Ok(())
            }
        }
    }

    // Dooms an exchange, unless it is doomed. The answer is whether it was live.
    pub(crate) fn give_up(&mut self, exchange: u64, cause: Cause) -> bool
        requires { IsSettled self.old.flows }
        ensures flows { GivesUp exchange cause self.old.flows result self.new.flows }
        ensures less { left_in self.new.flows ≤ left_in self.old.flows }
        ensures rest { self.new ≡ record self.old { flows = self.new.flows } }
    {
        if !self.flows.is_live(exchange) {
            return false;
        }
        self.flows.doom(exchange, cause);
        true
    }

    // Each doomed exchange is gone, in the order of their dooms.
    pub(crate) fn sweep(&mut self, notes: &mut Notes) -> Result<(), NoMemory>
        requires good { IsGood self.old notes.old }
        requires idle { self.old.agenda ≡ [] }
        ensures ok { OnOk result (Keeps self.old notes.old self.new notes.new) }
        ensures cut { Cuts self.old notes.old notes.new }
        ensures idle { self.new.agenda ≡ [] }
        ensures swept { OnOk result (self.new.flows.exchanges.doomed ≡ []) }
    {
        while let Some(exchange) = self.flows.sweep() {
            notes.push(Note::Gone { exchange })?;
        }
        Ok(())
    }
}

// Writes the doom of an exchange that was live.
pub(crate) fn note_doom(
    was_live: bool,
    exchange: u64,
    cause: Cause,
    notes: &mut Notes,
) -> Result<(), NoMemory>
    ensures { AppendsNotes notes.old (doom_of was_live exchange cause) notes.new result }
{
    if was_live {
        notes.push(Note::Doom { exchange, cause })?;
    }
    Ok(())
}
