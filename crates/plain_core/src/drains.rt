// Drains: the units of a connection's flows are framed in rotation, and drained buffers are told of.
ghost use Rattle.std.specs.Prelude.{slice_get, ◌≡◌, ◌<◌, ◌≤◌, ◌+◌, OnOk, Some, None};
ghost use Rattle.std.specs.List.{list_any};
ghost use Rattle.plain_core.specs.Agenda.{after_frame, is_drain_of};
ghost use Rattle.plain_core.specs.Carries.{IsNextFrame, IsNextUnless};
ghost use Rattle.plain_core.specs.Flows.{IsSettled};
ghost use Rattle.plain_core.specs.Measure.{to_go};
ghost use Rattle.plain_core.specs.Runs.{Cuts, IsGood, Keeps};
ghost use Rattle.plain_core.specs.Tops.{IsDrainTop, IsTellTop};
ghost use Rattle.plain_core.specs.declared.agenda.Task.TheVariants as task;

use crate::agenda::Task;
use crate::flows::{Framed, NextFrame, request};
use crate::noting::{note_and_rise, note_low, note_resumes};
use crate::plain::PlainCore;
use flow_gate::BufferId;
use flow_notes::{Note, Notes};
use io_ports::NoMemory;

impl PlainCore {
    // A round over the connections: one that may frame is drained, and a round that finds none is the last.
    pub(crate) fn round(&mut self, notes: &mut Notes) -> Result<(), NoMemory>
        requires good { IsGood self.old notes.old }
        requires top { slice_get self.old.agenda 0 ≡ Some task.Round }
        ensures ok { OnOk result (Keeps self.old notes.old self.new notes.new) }
        ensures cut { Cuts self.old notes.old notes.new }
        ensures less { OnOk result (to_go self.new < to_go self.old) }
    {
        let Some(next) = self.flows.next_frame() else {
            self.agenda.pop();
            return Ok(());
        };
        self.drain_from(next, notes)
    }

    // The frame that goes next, unless the connection is being drained.
    pub(crate) fn undrained(&self) -> Option<NextFrame>
        requires { IsSettled self.now.flows }
        ensures { IsNextUnless (list_any (is_drain_of 0) self.now.agenda) self.now.flows result }
    {
        if self.agenda.is_draining(0) {
            return None;
        }
        self.flows.next_frame()
    }

    // The connection is drained, and this frame is the first.
    pub(crate) fn drain_from(&mut self, next: NextFrame, notes: &mut Notes) -> Result<(), NoMemory>
        requires good { IsGood self.old notes.old }
        requires next { IsNextFrame self.old.flows (Some next) }
        ensures ok { OnOk result (Keeps self.old notes.old self.new notes.new) }
        ensures cut { Cuts self.old notes.old notes.new }
        ensures less { OnOk result (to_go self.new < to_go self.old) }
    {
        self.agenda.push(Task::Drain { conn: 0 })?;
        self.frame(next, notes)
    }

    // Frames the next unit, or ends the drain.
    pub(crate) fn drain(&mut self, notes: &mut Notes) -> Result<(), NoMemory>
        requires good { IsGood self.old notes.old }
        requires top { IsDrainTop self.old.agenda }
        ensures ok { OnOk result (Keeps self.old notes.old self.new notes.new) }
        ensures cut { Cuts self.old notes.old notes.new }
        ensures less { OnOk result (to_go self.new < to_go self.old) }
    {
        let Some(next) = self.flows.next_frame() else {
            self.agenda.pop();
            return Ok(());
        };
        self.frame(next, notes)
    }

    // Frames a piece of a flow's body: the write buffer may rise, the send buffer may drain, and the
    // flow may have ended.
    fn frame(&mut self, next: NextFrame, notes: &mut Notes) -> Result<(), NoMemory>
        requires good { IsGood self.old notes.old }
        requires next { IsNextFrame self.old.flows (Some next) }
        ensures ok { OnOk result (Keeps self.old notes.old self.new notes.new) }
        ensures cut { Cuts self.old notes.old notes.new }
        ensures less { OnOk result (to_go self.new + 2 ≤ to_go self.old) }
    {
        let framed = self.flows.frame(next)?;
        self.follow(next, framed)?;
        let flow = request(next.exchange);
        let note = Note::Frame {
            conn: 0,
            flow,
            n: next.n,
            last: next.last,
        };
        note_and_rise(
            note,
            framed.rose,
            &self.flows.gates,
            BufferId::Write(0),
            notes,
        )?;
        note_low(flow, framed.drained, notes)
    }

    // What a frame begins: the flow whose send buffer drained is run, and then an end is seen to.
    fn follow(&mut self, next: NextFrame, framed: Framed) -> Result<(), NoMemory>
        ensures agenda { OnOk result (self.new.agenda ≡ after_frame next framed self.old.agenda) }
        ensures rest { self.new ≡ record self.old { agenda = self.new.agenda } }
    {
        if next.last {
            self.agenda.push(Task::End {
                exchange: next.exchange,
            })?;
        }
        if framed.drained {
            self.begin_run(request(next.exchange))?;
        }
        Ok(())
    }

    // Tells the watchers of the write buffer that it drained, one after the other, until one of them goes on, which is
    // run; or ends the telling.
    pub(crate) fn tell(&mut self, notes: &mut Notes) -> Result<(), NoMemory>
        requires good { IsGood self.old notes.old }
        requires top { IsTellTop self.old.agenda }
        ensures ok { OnOk result (Keeps self.old notes.old self.new notes.new) }
        ensures cut { Cuts self.old notes.old notes.new }
        ensures less { OnOk result (to_go self.new < to_go self.old) }
    {
        let told = note_resumes(&self.flows, notes)?;
        self.flows.tell(told.n);
        match told.next {
            Some(flow) => self.begin_run(flow),
            None => {
                self.agenda.pop();
                Ok(())
            }
        }
    }
}
