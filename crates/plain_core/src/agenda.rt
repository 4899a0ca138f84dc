// What is under way in a dispatch.
ghost use Rattle.std.specs.Prelude.{slice_get, ◌≡◌, ◌∷◌, [], drop, OnErr, OnOk};
ghost use Rattle.std.specs.List.{list_any};
ghost use Rattle.plain_core.specs.Agenda.{is_drain_of, is_run_of};

use flow_gate::FlowId;
use io_ports::NoMemory;
use std::alloc::Global;
use std::marker::Model;

/// Something that is under way.
#[derive(Clone, Copy)]
pub enum Task {
    /// Connections are drained in rounds, until a round frames nothing.
    Round,
    /// The connection's units are framed.
    Drain { conn: u32 },
    /// The connection's write buffer has drained, and its watchers are told one after the other.
    Tell { conn: u32 },
    /// The flow's octets move.
    Run { flow: FlowId },
    /// The exchange's end was framed: it is to be doomed, and then its pair.
    End { exchange: u64 },
    /// The end of the exchange's pair was framed: it is to be doomed.
    EarlyEnd { exchange: u64 },
}

/// What is under way, with what was begun last on top: it is carried to its end before what is below
/// goes on.
#[derive(Drop)]
pub struct Agenda {
    tasks: Vec<Task>,
}

impl Model for Agenda {
    ghost use Rattle.std.specs.Prelude.{List, reverse};
    ghost use Rattle.plain_core.specs.declared.agenda.Task.{Task};

    ghost Value = { List Task };

    ghost view = { λ a. reverse a.tasks.items };
}

impl Agenda {
    /// Nothing is under way. Takes no memory.
    pub(crate) fn new(alloc: Global) -> Self
        ensures { result ≡ [] }
    {
        Agenda {
            tasks: Vec::new(alloc),
        }
    }

    /// What was begun last.
    pub(crate) fn top(&self) -> Option<Task>
        ensures { result ≡ slice_get self.now 0 }
    {
        self.tasks.last().copied()
    }

    /// Begins a task.
    pub(crate) fn push(&mut self, task: Task) -> Result<(), NoMemory>
        ensures ok { OnOk result (self.new ≡ task ∷ self.old) }
        ensures err { OnErr result (self.new ≡ self.old) }
    {
        self.tasks.push(task)?;
        Ok(())
    }

    /// Ends the task on top.
    pub(crate) fn pop(&mut self)
        ensures { self.new ≡ drop 1 self.old }
    {
        let _top = self.tasks.pop();
    }

    /// The task on top goes on as another.
    pub(crate) fn replace(&mut self, task: Task) -> Result<(), NoMemory>
        ensures { OnOk result (self.new ≡ task ∷ drop 1 self.old) }
    {
        self.pop();
        self.push(task)
    }

    /// Whether the flow is being run.
    pub(crate) fn is_running(&self, flow: FlowId) -> bool
        ensures { result ≡ list_any (is_run_of flow) self.now }
    {
        let mut rest = self.tasks.as_slice();
        while let Some((task, below)) = rest.split_last() {
            if let Task::Run { flow: other } = task
                && *other == flow
            {
                return true;
            }
            rest = below;
        }
        false
    }

    /// Whether the connection is being drained.
    pub(crate) fn is_draining(&self, conn: u32) -> bool
        ensures { result ≡ list_any (is_drain_of conn) self.now }
    {
        let mut rest = self.tasks.as_slice();
        while let Some((task, below)) = rest.split_last() {
            if let Task::Drain { conn: other } = task
                && *other == conn
            {
                return true;
            }
            rest = below;
        }
        false
    }
}
