// The state of a worker's wire sessions.
ghost use Rattle.proxy_config.specs.Ranges.{IsInRange};
ghost use Rattle.std.specs.Prelude.{◌≡◌, ◌≤◌, ◌+◌, ◌++◌, ◌∷◌, [], IfOk, OnOk};
ghost use Rattle.wire_links.specs.Links.{no_links};
ghost use Rattle.wire_state.specs.Agenda.{stirred_at, top_go};
ghost use Rattle.wire_state.specs.Courses.{comes_from, course_at, course_in, goes_to, row_of};
ghost use Rattle.wire_state.specs.Progress.{task_go, to_go};
ghost use Rattle.wire_state.specs.Sound.{IsSound, is_open_at};
ghost use Rattle.wire_state.specs.Worlds.{Keeps, Rests};

use crate::agenda::{Agenda, Task};
use crate::conn::Conn;
use crate::course::Course;
use crate::stirred::Stirred;
use crate::walk::Walk;
use flow_gate::FlowId;
use flow_notes::FireKind;
use io_ports::NoMemory;
use paged_map::PagedMap;
use proxy_config::Config;
use std::alloc::Global;
use wire_flows::WireFlows;
use wire_heads::Expected;
use wire_links::Links;
use wire_load::Load;
use wire_timers::{DueList, WireTimers};

/// What the bodies of an exchange's messages have to be, and what came of them.
#[derive(Clone, Copy)]
pub struct Lengths {
    pub request: Expected,
    pub response: Expected,
}

/// The state of a worker's wire sessions.
#[derive(Drop)]
pub struct WireCore {
    pub alloc: Global,
    pub config: Config,
    /// The greatest moment that a tick told, in ms.
    pub now: u64,
    /// The last published version that was obeyed, 0 before the first.
    pub obeyed: u64,
    pub links: Links,
    /// The open connections, and closed ones with octets in their write buffer.
    pub conns: PagedMap<u32, Conn>,
    /// Of these, at rest, the ones with octets in their write buffer.
    pub outs: PagedMap<u32, ()>,
    pub flows: WireFlows,
    /// By live exchange.
    pub lengths: PagedMap<u64, Lengths>,
    pub timers: WireTimers,
    pub load: Load,
    pub agenda: Agenda,
    /// The greatest exchange before this dispatch, and the route rows of those that began in it.
    pub before: u64,
    pub rows: Vec<Option<u32>>,
    pub stirred: Stirred,
    /// What a tick goes through.
    pub walk: Walk,
    /// From which connection on the round goes on.
    pub cursor: u32,
    /// The timers that are due in this dispatch and haven't fired.
    pub due: DueList,
}

impl WireCore {
    /// The core before its first event. Refused only for lack of memory.
    pub fn new(alloc: Global, config: Config) -> Result<Self, NoMemory>
        requires { IsInRange config }
        ensures sound { IfOk result (λ core. IsSound core) }
        ensures idle { IfOk result (λ core. core.agenda ≡ []) }
        ensures new { IfOk result (λ core. (core.config ≡ config) × (core.conns.entries ≡ [])) }
        ensures none { IfOk result (λ core. (core.links ≡ no_links) × (core.flows.exchanges.live ≡ [])) }
        ensures octets { IfOk result (λ core. Rests core.config.limits core.conns core.flows core.links []) }
    {
        let load = Load::new(alloc, config.overload.class_start)?;
        let timers = WireTimers::new(alloc, &config)?;
        Ok(WireCore {
            alloc,
            config,
            now: 0,
            obeyed: 0,
            links: Links::new(alloc),
            conns: PagedMap::new(alloc),
            outs: PagedMap::new(alloc),
            flows: WireFlows::new(alloc),
            lengths: PagedMap::new(alloc),
            timers,
            load,
            agenda: Agenda::new(alloc),
            before: 0,
            rows: Vec::new(alloc),
            stirred: Stirred::new(alloc),
            walk: Walk::new(alloc),
            cursor: 0,
            due: DueList::none(alloc),
        })
    }

    /// Whether a connection is there and hasn't been closed.
    pub fn is_open(&self, conn: u32) -> bool
        ensures { result ≡ is_open_at conn self.entry.now }
    {
        match self.conns.get(&conn) {
            Some(conn) => conn.open,
            None => false,
        }
    }

    /// Begins a task.
    #[inline(always)]
    pub fn begin(&mut self, task: Task) -> Result<(), NoMemory>
        requires sound { IsSound self.old }
        ensures sound { OnOk result (IsSound self.new) }
        ensures go { OnOk result (to_go self.new ≡ to_go self.old + task_go task) }
        ensures agenda { OnOk result (self.new.agenda ≡ task ∷ self.old.agenda) }
        ensures rest { self.new ≡ record self.old { agenda = self.new.agenda } }
        ensures octets { Keeps self.old self.new }
    {
        self.agenda.push(task)
    }

    /// Ends the task on top.
    #[inline(always)]
    pub fn end_task(&mut self)
        requires sound { IsSound self.old }
        ensures sound { IsSound self.new }
        ensures go { to_go self.new + top_go self.old.agenda ≡ to_go self.old }
        ensures rest { self.new ≡ record self.old { agenda = self.new.agenda } }
        ensures octets { Keeps self.old self.new }
    {
        self.agenda.pop();
    }

    /// The task on top goes on as another.
    pub fn go_on(&mut self, task: Task) -> Result<(), NoMemory>
        requires sound { IsSound self.old }
        ensures sound { OnOk result (IsSound self.new) }
        ensures go { OnOk result (to_go self.new + top_go self.old.agenda ≡ to_go self.old + task_go task) }
        ensures rest { self.new ≡ record self.old { agenda = self.new.agenda } }
        ensures octets { Keeps self.old self.new }
    {
        self.end_task();
        self.begin(task)
    }

    /// Something changed at a connection in this dispatch.
    #[inline(always)]
    pub fn stir(&mut self, conn: u32) -> Result<(), NoMemory>
        requires sound { IsSound self.old }
        ensures sound { OnOk result (IsSound self.new) }
        ensures go { OnOk result (to_go self.new ≤ to_go self.old + 1) }
        ensures rest { self.new ≡ record self.old { stirred = self.new.stirred } }
        ensures octets { Keeps self.old self.new }
    {
        self.stirred.add(conn)
    }

    /// Something changed in this dispatch at a connection that isn't draining, by which nothing more can be framed there, and at
    /// which nothing could be before. The dispatch has changed nothing else there.
    #[inline(always)]
    pub fn stir_calm(&mut self, conn: u32) -> Result<(), NoMemory>
        requires sound { IsSound self.old }
        ensures sound { OnOk result (IsSound self.new) }
        ensures go { OnOk result (to_go self.new ≤ to_go self.old + 1) }
        ensures rest { self.new ≡ record self.old { stirred = self.new.stirred } }
        ensures octets { Keeps self.old self.new }
    {
        self.stirred.add_calm(conn)
    }

    /// The task on top, which frames the units of a connection, has found none that can be framed: it ends, and the connection
    /// isn't looked at again in this dispatch unless something changes there.
    pub fn give_up(&mut self, conn: u32)
        requires sound { IsSound self.old }
        ensures sound { IsSound self.new }
        ensures go { to_go self.new + (top_go self.old.agenda + stirred_at conn self.old.stirred.conns.items) ≡ to_go self.old }
        ensures rest { self.new ≡ record self.old { agenda = self.new.agenda; stirred = self.new.stirred } }
        ensures octets { Keeps self.old self.new }
    {
        self.end_task();
        self.stirred.remove(conn);
    }

    /// Something changed at both ends of a flow.
    pub fn stir_course(&mut self, course: Course) -> Result<(), NoMemory>
        requires sound { IsSound self.old }
        ensures sound { OnOk result (IsSound self.new) }
        ensures go { OnOk result (to_go self.new ≤ to_go self.old + 2) }
        ensures rest { self.new ≡ record self.old { stirred = self.new.stirred } }
        ensures octets { Keeps self.old self.new }
    {
        self.stir_some(course.from)?;
        self.stir_some(course.to)
    }

    /// Something changed at a connection, if there is one.
    #[inline(always)]
    pub fn stir_some(&mut self, conn: Option<u32>) -> Result<(), NoMemory>
        requires sound { IsSound self.old }
        ensures sound { OnOk result (IsSound self.new) }
        ensures go { OnOk result (to_go self.new ≤ to_go self.old + 1) }
        ensures rest { self.new ≡ record self.old { stirred = self.new.stirred } }
        ensures octets { Keeps self.old self.new }
    {
        match conn {
            Some(conn) => self.stir(conn),
            None => Ok(()),
        }
    }

    /// A connection, if there is one, may have something to frame that it hadn't.
    pub fn rouse_some(&mut self, conn: Option<u32>)
        requires sound { IsSound self.old }
        ensures sound { IsSound self.new }
        ensures go { to_go self.new ≡ to_go self.old }
        ensures rest { self.new ≡ record self.old { stirred = self.new.stirred } }
        ensures octets { Keeps self.old self.new }
    {
        match conn {
            Some(conn) => self.stirred.rouse(conn),
            None => {}
        }
    }

    /// The flow is to be run.
    #[inline(always)]
    pub fn ask_run(&mut self, course: Course) -> Result<(), NoMemory>
        requires sound { IsSound self.old }
        ensures sound { OnOk result (IsSound self.new) }
        ensures go { OnOk result (to_go self.new ≤ to_go self.old + 9) }
        ensures rest { self.new ≡ record self.old { stirred = self.new.stirred; agenda = self.new.agenda } }
        ensures octets { Keeps self.old self.new }
    {
        self.stir_course(course)?;
        self.begin(Task::AskRun(course))
    }

    /// This dispatch touches the exchange: it goes on, or holds more or fewer octets.
    #[inline(always)]
    pub fn touch(&mut self, exchange: u64) -> Result<(), NoMemory>
        requires sound { IsSound self.old }
        ensures sound { OnOk result (IsSound self.new) }
        ensures go { OnOk result (to_go self.new ≡ to_go self.old) }
        ensures rest { self.new ≡ record self.old { load = self.new.load } }
        ensures octets { Keeps self.old self.new }
    {
        self.load.touch(exchange)
    }

    /// Arms a timer of an exchange or a connection, from the moment of the last tick on.
    pub fn arm(&mut self, kind: FireKind, id: u64) -> Result<(), NoMemory>
        requires sound { IsSound self.old }
        ensures sound { OnOk result (IsSound self.new) }
        ensures go { OnOk result (to_go self.new ≤ to_go self.old + 1) }
        ensures rest { self.new ≡ record self.old { timers = self.new.timers } }
        ensures octets { Keeps self.old self.new }
    {
        self.timers.arm(kind, id, self.now)
    }

    /// The timer of an exchange or a connection isn't armed any more.
    pub fn disarm(&mut self, kind: FireKind, id: u64)
        requires sound { IsSound self.old }
        ensures sound { IsSound self.new }
        ensures go { to_go self.new ≤ to_go self.old }
        ensures rest { self.new ≡ record self.old { timers = self.new.timers } }
        ensures octets { Keeps self.old self.new }
    {
        self.timers.disarm(kind, id);
    }

    /// The course of a flow of a live exchange.
    pub fn course(&self, flow: FlowId) -> Option<Course>
        ensures { result ≡ course_in self.entry.now.links flow }
    {
        match self.links.ends_of(flow.exchange) {
            Some(ends) => Some(Course::of(flow.exchange, flow.back, ends)),
            None => None,
        }
    }

    /// The flow that comes from a stream of a connection.
    #[inline(always)]
    pub fn flow_from(&self, conn: u32, stream: u32) -> Option<Course>
        ensures { result ≡ course_at (comes_from conn) conn stream self.entry.now.links }
    {
        let exchange = self.links.exchange_at(conn, stream)?;
        let ends = self.links.ends_of(exchange)?;
        Some(Course::of(exchange, ends.client != conn, ends))
    }

    /// The flow that goes to a stream of a connection.
    pub fn flow_to(&self, conn: u32, stream: u32) -> Option<Course>
        ensures { result ≡ course_at (goes_to conn) conn stream self.entry.now.links }
    {
        let exchange = self.links.exchange_at(conn, stream)?;
        let ends = self.links.ends_of(exchange)?;
        Some(Course::of(exchange, ends.client == conn, ends))
    }

    /// The message of the flow ended: no more is owed to its stream, and a request's response is awaited from now on.
    #[inline(always)]
    pub fn flow_ended(&mut self, course: Course, stream: u32) -> Result<(), NoMemory>
        requires sound { IsSound self.old }
        ensures sound { OnOk result (IsSound self.new) }
        ensures go { OnOk result (to_go self.new ≤ to_go self.old + 1) }
        ensures rest { self.new ≡ record self.old { conns = self.new.conns; timers = self.new.timers } }
        ensures octets { Keeps self.old self.new }
    {
        let exchange = course.flow.exchange;
        self.peer_ended(course.from, exchange, stream);
        if course.flow.back {
            return Ok(());
        }
        self.arm(FireKind::Route, exchange)
    }

    // The peer's side of a stream of a connection, if there is one, ended.
    #[inline(always)]
    fn peer_ended(&mut self, from: Option<u32>, exchange: u64, stream: u32)
        requires sound { IsSound self.old }
        ensures sound { IsSound self.new }
        ensures go { to_go self.new ≤ to_go self.old }
        ensures rest { self.new ≡ record self.old { conns = self.new.conns } }
        ensures octets { Keeps self.old self.new }
    {
        match from {
            Some(from) => self.peer_ended_at(from, exchange, stream),
            None => {}
        }
    }

    fn peer_ended_at(&mut self, number: u32, exchange: u64, stream: u32)
        requires sound { IsSound self.old }
        ensures sound { IsSound self.new }
        ensures go { to_go self.new ≤ to_go self.old }
        ensures rest { self.new ≡ record self.old { conns = self.new.conns } }
        ensures octets { Keeps self.old self.new }
    {
        match self.conns.get_mut(&number) {
            Some(conn) => conn.peer_ended(exchange, stream),
            None => {}
        }
    }

    /// The route row of an exchange that began in the last dispatch: none where its request was refused before one was found.
    pub fn row(&self, exchange: u64) -> Option<u32>
        ensures { result ≡ row_of exchange self.entry.now.before self.entry.now.rows.items }
    {
        if exchange <= self.before {
            return None;
        }
        let place = usize::try_from(exchange - self.before - 1).ok()?;
        *self.rows.get(place)?
    }
}
