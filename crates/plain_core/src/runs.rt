// Runs: the octets of a flow go on.
ghost use Rattle.std.specs.Prelude.{nat_lt, slice_get, ◌≡◌, ◌<◌, OnOk, Some};
ghost use Rattle.plain_core.specs.Agenda.{after_move};
ghost use Rattle.plain_core.specs.Measure.{to_go};
ghost use Rattle.plain_core.specs.Runs.{Cuts, IsGood, Keeps};
ghost use Rattle.plain_core.specs.declared.agenda.Task.TheVariants as task;

use crate::flows::{Outcome, request};
use crate::noting::note_and_rise;
use crate::plain::PlainCore;
use flow_gate::{BufferId, FlowId};
use flow_notes::{Note, Notes};
use io_ports::NoMemory;

impl PlainCore {
    // One step of the run on top of the agenda:
    // - while the write buffer is above, it holds every flow back and nothing may be framed: the run ends;
    // - where octets may move, they move, and the connection is drained;
    // - where none may, but something may be framed, the connection is drained with that as its first frame;
    // - else, or where the exchange isn't live, the run ends.
    pub(crate) fn run(&mut self, flow: FlowId, notes: &mut Notes) -> Result<(), NoMemory>
        requires good { IsGood self.old notes.old }
        requires top { slice_get self.old.agenda 0 ≡ Some (task.Run flow) }
        ensures ok { OnOk result (Keeps self.old notes.old self.new notes.new) }
        ensures cut { Cuts self.old notes.old notes.new }
        ensures less { OnOk result (to_go self.new < to_go self.old) }
    {
        let exchange = flow.exchange;
        if self.flows.conn.write.is_above() {
            self.agenda.pop();
            return Ok(());
        }
        let moved = match self.flows.step(exchange)? {
            Outcome::Moved(moved) => moved,
            Outcome::Still => {
                let Some(next) = self.undrained() else {
                    self.agenda.pop();
                    return Ok(());
                };
                return self.drain_from(next, notes);
            }
            Outcome::NotLive => {
                self.agenda.pop();
                return Ok(());
            }
        };
        self.go_on(moved.n)?;
        let flow = request(exchange);
        let note = Note::Move {
            flow,
            place: 0,
            n: moved.n,
        };
        note_and_rise(
            note,
            moved.rose,
            &self.flows.gates,
            BufferId::Send(flow),
            notes,
        )
    }

    // What a move begins: the connection is drained; and the run ends where less than a quantum was there to move.
    fn go_on(&mut self, n: u32) -> Result<(), NoMemory>
        ensures agenda { OnOk result (self.new.agenda ≡ after_move (nat_lt n self.old.flows.limits.quantum) self.old.agenda) }
        ensures rest { self.new ≡ record self.old { agenda = self.new.agenda } }
    {
        if n < self.flows.limits.quantum {
            self.agenda.pop();
        }
        self.begin_drain()
    }
}
