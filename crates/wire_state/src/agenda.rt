// What is under way in a dispatch.
ghost use Rattle.std.specs.Prelude.{slice_get, ◌≡◌, ◌∷◌, [], drop, OnErr, OnOk};
ghost use Rattle.std.specs.List.{list_any};
ghost use Rattle.wire_state.specs.Agenda.{is_drain_of, is_run_of};

use crate::course::Course;
use flow_gate::FlowId;
use flow_notes::{Cause, CloseCause};
use io_ports::NoMemory;
use std::alloc::Global;
use std::marker::Model;

/// Something that is under way.
#[derive(Clone, Copy)]
pub enum Task {
    /// The connection's units are framed, unless that is under way.
    AskDrain(u32),
    /// The connection's units are framed.
    Drain(u32),
    /// The flow's octets move, unless that is under way.
    AskRun(Course),
    /// The flow's octets move. Where none may and `tried` isn't set, its connections are drained once more.
    Run {
        course: Course,
        tried: bool,
    },
    /// An end of the exchange was framed: it is doomed where it is done.
    End(u64),
    /// The exchange is doomed, for a cause that neither of its flows gave.
    Doom {
        exchange: u64,
        cause: Cause,
    },
    /// The connection is closed.
    Close {
        conn: u32,
        code: u32,
        cause: CloseCause,
    },
    /// The exchanges of the connection are lost: all of them, or by a GOAWAY those above the last stream that it names and
    /// those that aren't on a stream yet.
    Losses {
        conn: u32,
        last: Option<u32>,
    },
    /// The connection's frames are taken.
    Read(u32),
    /// Octets that entered no buffer are owed to the connection.
    Waste {
        conn: u32,
        stream: u32,
        n: u32,
    },
    /// The flows that a tick may move are run, from this one on: the request of the exchange, or its response.
    Ticks {
        exchange: u64,
        back: bool,
    },
    /// The timers that are due are looked for.
    Fires,
    /// They fire one after the other.
    Fire,
    /// So many exchanges may still be reset.
    Resets(u32),
    /// The client connections above this number begin to drain.
    Drains(u32),
}

/// What is under way, with what was begun last on top: it is carried to its end before what is below goes on.
#[derive(Drop)]
pub struct Agenda {
    tasks: Vec<Task>,
}

impl Model for Agenda {
    ghost use Rattle.std.specs.Prelude.{List, reverse};
    ghost use Rattle.wire_state.specs.declared.agenda.Task.{Task};

    ghost Value = { List Task };

    ghost view = { λ a. reverse a.tasks.items };
}

impl Agenda {
    /// Nothing is under way. Takes no memory.
    pub fn new(alloc: Global) -> Self
        ensures { result ≡ [] }
    {
        Agenda {
            tasks: Vec::new(alloc),
        }
    }

    /// What was begun last.
    pub fn top(&self) -> Option<Task>
        ensures { result ≡ slice_get self.now 0 }
    {
        self.tasks.last().copied()
    }

    /// Begins a task. After running out of memory nothing has changed.
    pub fn push(&mut self, task: Task) -> Result<(), NoMemory>
        ensures ok { OnOk result (self.new ≡ task ∷ self.old) }
        ensures err { OnErr result (self.new ≡ self.old) }
    {
        self.tasks.push(task)?;
        Ok(())
    }

    /// Ends the task on top.
    pub fn pop(&mut self)
        ensures { self.new ≡ drop 1 self.old }
    {
        let _top = self.tasks.pop();
    }

    /// Whether the flow is being run.
    pub fn is_running(&self, flow: FlowId) -> bool
        ensures { result ≡ list_any (is_run_of flow) self.now }
    {
        let mut rest = self.tasks.as_slice();
        while let Some((task, below)) = rest.split_last() {
            if let Task::Run { course, .. } = task
                && course.flow == flow
            {
                return true;
            }
            rest = below;
        }
        false
    }

    /// Whether the connection is being drained.
    pub fn is_draining(&self, conn: u32) -> bool
        ensures { result ≡ list_any (is_drain_of conn) self.now }
    {
        let mut rest = self.tasks.as_slice();
        while let Some((task, below)) = rest.split_last() {
            if let Task::Drain(other) = task
                && *other == conn
            {
                return true;
            }
            rest = below;
        }
        false
    }
}
