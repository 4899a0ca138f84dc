// The core and its dispatch.
ghost use Rattle.std.specs.Prelude.{slice_get, ◌≡◌, ◌≢◌, ◌<◌, [], Err, IfOk, OnErr, OnOk, Some, true, false};
ghost use Rattle.flow_notes.specs.declared.notes.Note.TheVariants as note;
ghost use Rattle.plain_core.specs.Agenda.{with_drain, with_run};
ghost use Rattle.plain_core.specs.Flows.{AreLimits};
ghost use Rattle.plain_core.specs.Measure.{to_go};
ghost use Rattle.plain_core.specs.Runs.{Cuts, CutsTurn, IsGood, Keeps, Turns};
ghost use Rattle.plain_core.specs.Stands.{CanTake, HasFailed, Rests, WaitsInFront};

use crate::agenda::{Agenda, Task};
use crate::flows::Flows;
use flow_gate::FlowId;
use flow_notes::{Event, Note, Notes};
use io_ports::NoMemory;
use proxy_config::Config;
use std::alloc::Global;
use std::collections::BTreeMap;
use std::error::Error;
use std::fmt;
use tape_laws::PlainLimits;

/// The state of a plain session: its streams, which all go to connection 0, and that connection.
#[derive(Drop)]
pub struct PlainCore {
    pub(crate) alloc: Global,
    pub(crate) config: Config,
    pub(crate) turn: u64,
    pub(crate) flows: Flows,
    /// `pairs[first] = second`: when END_STREAM of `first` is framed, `second` is doomed.
    pub(crate) pairs: BTreeMap<u64, u64>,
    pub(crate) agenda: Agenda,
    pub(crate) failed: bool,
}

impl PlainCore {
    /// The core before its session's first event. Refused only for lack of memory.
    pub fn new(alloc: Global, limits: PlainLimits) -> Result<Self, NoMemory>
        requires { AreLimits limits }
        ensures { IfOk result (λ core. Rests limits core []) }
    {
        Ok(PlainCore {
            alloc,
            config: Config::of_defaults(alloc)?,
            turn: 0,
            flows: Flows::new(alloc, limits)?,
            pairs: BTreeMap::new(alloc),
            agenda: Agenda::new(alloc),
            failed: false,
        })
    }

    /// Dispatches one event, and appends its notes. After running out of memory the notes so far stand, and
    /// each later call answers `Failed`.
    pub fn dispatch(&mut self, event: &Event, notes: &mut Notes) -> Result<(), CoreFault>
        requires { HasFailed self.old false → CanTake self.old event.now notes.old }
        ensures ok { OnOk result (Turns self.old notes.old event.now self.new notes.new) }
        ensures cut { CutsTurn self.old notes.old event.now notes.new }
        ensures fails { OnErr result (HasFailed self.new true) }
        ensures failed { HasFailed self.old true → (result ≡ Err CoreFault.Failed) × (notes.new ≡ notes.old) }
        ensures well { HasFailed self.old false → result ≢ Err CoreFault.Failed }
    {
        if self.failed {
            return Err(CoreFault::Failed);
        }
        match self.carry_out(event, notes) {
            Ok(()) => Ok(()),
            Err(NoMemory) => {
                self.failed = true;
                Err(CoreFault::NoMemory)
            }
        }
    }

    /// A front of the octets in the write buffer of connection 0, nonempty where it holds any: what the
    /// connection's socket may take next.
    pub fn out_front(&self) -> &[u8]
        ensures { WaitsInFront self.now result.now }
    {
        self.flows.conn.write.front()
    }

    // A whole dispatch: the event's effect, then small steps to the end, then the sweep.
    fn carry_out(&mut self, event: &Event, notes: &mut Notes) -> Result<(), NoMemory>
        requires { CanTake self.old event.now notes.old }
        ensures ok { OnOk result (Turns self.old notes.old event.now self.new notes.new) }
        ensures cut { CutsTurn self.old notes.old event.now notes.new }
    {
        self.take_event(event, notes)?;
        self.settle(notes)?;
        self.sweep(notes)
    }

    // Small steps until nothing is under way.
    fn settle(&mut self, notes: &mut Notes) -> Result<(), NoMemory>
        requires { IsGood self.old notes.old }
        ensures ok { OnOk result (Keeps self.old notes.old self.new notes.new) }
        ensures cut { Cuts self.old notes.old notes.new }
        ensures idle { OnOk result (self.new.agenda ≡ []) }
    {
        while let Some(task) = self.agenda.top() {
            self.step(task, notes)?;
        }
        Ok(())
    }

    // One small step of the task on top.
    fn step(&mut self, task: Task, notes: &mut Notes) -> Result<(), NoMemory>
        requires good { IsGood self.old notes.old }
        requires top { slice_get self.old.agenda 0 ≡ Some task }
        ensures ok { OnOk result (Keeps self.old notes.old self.new notes.new) }
        ensures cut { Cuts self.old notes.old notes.new }
        ensures less { OnOk result (to_go self.new < to_go self.old) }
    {
        match task {
            Task::Round => self.round(notes),
            Task::Drain { .. } => self.drain(notes),
            Task::Tell { .. } => self.tell(notes),
            Task::Run { flow } => self.run(flow, notes),
            Task::End { exchange } => self.end(exchange, notes),
            Task::EarlyEnd { exchange } => self.end_early(exchange, notes),
        }
    }

    // Runs a flow, unless it is being run.
    pub(crate) fn begin_run(&mut self, flow: FlowId) -> Result<(), NoMemory>
        ensures agenda { OnOk result (self.new.agenda ≡ with_run flow self.old.agenda) }
        ensures rest { self.new ≡ record self.old { agenda = self.new.agenda } }
    {
        if self.agenda.is_running(flow) {
            return Ok(());
        }
        self.agenda.push(Task::Run { flow })
    }

    // Drains the connection, unless it is being drained.
    pub(crate) fn begin_drain(&mut self) -> Result<(), NoMemory>
        ensures agenda { OnOk result (self.new.agenda ≡ with_drain 0 self.old.agenda) }
        ensures rest { self.new ≡ record self.old { agenda = self.new.agenda } }
    {
        if self.agenda.is_draining(0) {
            return Ok(());
        }
        self.agenda.push(Task::Drain { conn: 0 })
    }
}

/// Why a dispatch wasn't carried to its end.
#[derive(Clone, Copy, Debug, PartialEq, Eq)]
pub enum CoreFault {
    /// Memory was refused. The notes so far stand.
    NoMemory,
    /// An earlier dispatch of this core ran out of memory.
    Failed,
}

impl fmt::Display for CoreFault {
    fn fmt<W: fmt::Write>(&self, f: &mut fmt::Formatter<W>) -> fmt::Result {
        f.write_str(match self {
            CoreFault::NoMemory => "out of memory",
            CoreFault::Failed => "an earlier dispatch ran out of memory",
        })
    }
}

impl Error for CoreFault {}
