// Accepting clients, and handing them to workers in turn.
ghost use Rattle.std.specs.Prelude.{◌≡◌, ◌+◌, IfOk, OnErr, OnOk, if◌then◌else◌, nat_lt};
ghost use Rattle.mio_accept.specs.Acceptors.{turn_of, workers};

use crate::lane::Lane;
use crate::queue::{AcceptQueue, MOST_WAITING};
use io_ports::Failed;
use mio::net::{TcpListener, TcpStream};
use mio::{Events, Interest, Poll};
use mio_edge::{DOOR, Door, EdgeFault, tell_wait};
use std::alloc::Global;
use std::io::Eprint;
use std::net::Net;
use std::sync::{Arc, Wait};
use std::time::{Clock, Duration};

/// How long a round waits at most, in milliseconds.
const LONGEST_WAIT: u64 = 100;

/// How long it waits at most where clients wait in the system's queue until a worker takes some, in milliseconds.
const SHORT_WAIT: u64 = 2;

/// How many clients one round accepts at most.
const MOST_ACCEPTS: u32 = 1_024;

/// How many events one wait tells at most.
const MOST_EVENTS: usize = 16;

/// Accepts clients at a listener, and hands them to the workers in turn. A worker that begins no round for a second is passed over,
/// and the clients that wait for it are handed to others, until it goes on; one for which `MOST_WAITING` clients wait is passed over
/// until it takes some. While all are passed over, clients wait in the system's queue.
#[derive(Drop)]
pub struct Acceptor<R: Clock + Net + Wait + Drop> {
    rt: R,
    poll: Poll,
    events: Events,
    door: Door<TcpListener>,
    lanes: Vec<Lane>,
    /// The place of the worker that gets the next client.
    next: usize,
    /// In milliseconds.
    now: u64,
}

impl<R: Clock + Net + Wait + Eprint + Drop> Acceptor<R> {
    /// Nobody takes clients yet.
    pub fn new(rt: R, alloc: Global, mut listener: TcpListener) -> Result<Self, EdgeFault>
        ensures { IfOk result (λ made. (workers made ≡ 0) × (turn_of made ≡ 0)) }
    {
        let poll = Poll::new(&rt)?;
        poll.registry()
            .register(&mut listener, DOOR, Interest::READABLE)?;
        Ok(Acceptor {
            rt,
            poll,
            events: Events::with_capacity(alloc, MOST_EVENTS)?,
            door: Door::new(listener),
            lanes: Vec::new(alloc),
            next: 0,
            now: 0,
        })
    }

    /// One worker more takes clients from this queue. After running out of memory no worker more does.
    pub fn add(&mut self, queue: Arc<AcceptQueue, Global>) -> Result<(), EdgeFault>
        ensures ok { OnOk result (workers self.new ≡ workers self.old + 1) }
        ensures err { OnErr result (workers self.new ≡ workers self.old) }
        ensures turn { turn_of self.new ≡ turn_of self.old }
    {
        self.read_clock();
        match self.lanes.push(Lane::new(queue, self.now)) {
            Ok(()) => Ok(()),
            Err(_) => Err(EdgeFault::NoMemory),
        }
    }

    /// How many connections of clients all workers have.
    pub fn live(&self) -> u32 {
        let mut live = 0u32;
        for lane in &self.lanes {
            live = live.saturating_add(lane.queue.live());
        }
        live
    }

    /// Nobody comes any more: all workers are to end.
    pub fn end_all(&self) {
        for lane in &self.lanes {
            lane.queue.end();
        }
    }

    /// Waits at most a tenth of a second, and hands on the clients that came, if they are to be accepted. Those that wait for a worker
    /// which goes on no more are handed to others in any case. Why it failed is told on standard error.
    pub fn round(&mut self, accept: bool) -> Result<(), Failed>
        ensures { workers self.new ≡ workers self.old }
    {
        self.tend();
        if accept && self.hand_on() {
            return Ok(());
        }
        let wait = self.longest_wait(accept);
        if let Err(error) = self.poll.poll(&mut self.events, Some(wait)) {
            tell_wait(&self.rt, &error);
            return Err(Failed);
        }
        for _ in &self.events {
            self.door.on_event();
        }
        self.tend();
        if accept {
            self.hand_on();
        }
        Ok(())
    }

    // Where a client may wait that could be accepted, no worker takes any now. Nothing tells when one does.
    fn longest_wait(&self, accept: bool) -> Duration {
        if accept && self.door.is_due(self.now) {
            Duration::from_millis(SHORT_WAIT)
        } else {
            Duration::from_millis(LONGEST_WAIT)
        }
    }

    // Looks at the clock and at the workers, and hands the clients of those that go on no more to others.
    fn tend(&mut self)
        ensures { workers self.new ≡ workers self.old }
    {
        self.read_clock();
        self.look();
        self.take_back();
    }

    // Accepts clients, each for the next worker that takes some. Answers whether more may wait.
    fn hand_on(&mut self) -> bool
        ensures { workers self.new ≡ workers self.old }
    {
        for _ in 0..MOST_ACCEPTS {
            if !self.door.is_due(self.now) || !self.find_turn() {
                return false;
            }
            if let Some(client) = self.door.accept(&self.rt, self.now) {
                self.hand(client);
            }
        }
        true
    }

    // Looks which workers go on.
    fn look(&mut self)
        ensures workers { workers self.new ≡ workers self.old }
        ensures turn { turn_of self.new ≡ turn_of self.old }
    {
        for place in 0..self.lanes.len() {
            if let Some(lane) = self.lanes.get_mut(place) {
                let rounds = lane.queue.rounds();
                lane.look(rounds, self.now);
            }
        }
    }

    // Hands the clients of workers that take none to others.
    fn take_back(&mut self)
        ensures { workers self.new ≡ workers self.old }
    {
        for place in 0..self.lanes.len() {
            self.empty(place);
        }
    }

    fn empty(&mut self, place: usize)
        ensures { workers self.new ≡ workers self.old }
    {
        for _ in 0..MOST_ACCEPTS {
            let Some(client) = self.take_waiting(place) else {
                return;
            };
            self.hand(client);
        }
    }

    // A client that waits for a worker which goes on no more, if another one takes some.
    fn take_waiting(&mut self, place: usize) -> Option<TcpStream>
        ensures { workers self.new ≡ workers self.old }
    {
        if self.goes_on(place) || !self.find_turn() {
            return None;
        }
        self.lanes.get(place)?.queue.take_back(&self.rt)
    }

    // Moves the turn on to a worker that takes clients. Answers whether one does.
    fn find_turn(&mut self) -> bool
        ensures { workers self.new ≡ workers self.old }
    {
        for _ in 0..self.lanes.len() {
            if self.takes_at(self.next) {
                return true;
            }
            self.turn();
        }
        false
    }

    // Whether the worker at a place takes clients: it goes on, and not too many wait for it.
    fn takes_at(&self, place: usize) -> bool {
        match self.lanes.get(place) {
            Some(lane) => lane.is_taking(self.now) && lane.queue.waiting() < MOST_WAITING,
            None => false,
        }
    }

    fn goes_on(&self, place: usize) -> bool {
        match self.lanes.get(place) {
            Some(lane) => lane.is_taking(self.now),
            None => false,
        }
    }

    // Hands a client to the worker whose turn it is.
    fn hand(&mut self, client: TcpStream)
        ensures { workers self.new ≡ workers self.old }
    {
        if let Some(lane) = self.lanes.get(self.next) {
            lane.queue.push(&self.rt, client);
        }
        self.turn();
    }

    // The next client is the next worker's, after the last one's the first one's.
    fn turn(&mut self)
        ensures workers { workers self.new ≡ workers self.old }
        ensures turn { turn_of self.new ≡ (if nat_lt (turn_of self.old + 1) (workers self.old) then turn_of self.old + 1 else 0) }
    {
        self.next = self.next.saturating_add(1);
        if self.next >= self.lanes.len() {
            self.next = 0;
        }
    }

    // Where the clock can't be read it stands still.
    fn read_clock(&mut self)
        ensures workers { workers self.new ≡ workers self.old }
        ensures turn { turn_of self.new ≡ turn_of self.old }
    {
        if let Ok(since_start) = self.rt.monotonic() {
            self.now = u64::try_from(since_start.as_millis()).unwrap_or(self.now);
        }
    }
}
