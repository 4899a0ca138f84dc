// The sockets, as the system has them.
ghost use Rattle.std.specs.Prelude.{◌≤◌, length};

use crate::dialing::Dialing;
use crate::door::Door;
use crate::fault::{EdgeFault, tell_wait};
use crate::inlet::Inlet;
use crate::link::{Link, Origin, ReadOutcome};
use crate::links::Links;
use crate::parting::Partings;
use crate::pieces::{PIECE, Pieces};
use crate::plan::{Plan, Sharing};
use io_ports::{Failed, NoMemory};
use mio::net::TcpStream;
use mio::{Events, Interest, Poll, Token};
use std::alloc::Global;
use std::io::Eprint;
use std::mem;
use std::net::Net;
use std::time::{Clock, Duration};
use worker_ports::{WireRefusal, Wired};

/// How many octets a worker reads at once at most. A relay, which may hold a connection after each piece, reads one.
const BLOCK: usize = 65_536;

/// How many events one wait tells at most.
const MOST_EVENTS: usize = 1_024;

/// How long a wait takes at most, in milliseconds.
const LONGEST_WAIT: u64 = 100;

/// How many clients are accepted in one round at most, and how many pieces are given or connections looked at in vain.
const MOST_ACCEPTS: u64 = 16;

const MOST_LOOKS: u32 = 64;

/// So many octets are sent at once, without a wait for what may come behind them.
const MANY: usize = 65_536;

/// The token of the way in for clients. Connections have their numbers, which are above.
pub const DOOR: Token = Token(0);

/// The sockets: those of clients that come at an inlet, and those to clusters, of which some are kept ready. Which connections
/// are live, and which are held, is told to them.
#[derive(Drop)]
pub(crate) struct Sockets<R: Clock + Net + Drop, I: Inlet + Drop> {
    rt: R,
    poll: Poll,
    events: Events,
    door: Door<I>,
    /// The most clients at once.
    most_clients: u32,
    sharing: Sharing,
    dialing: Dialing,
    links: Links,
    partings: Partings,
    /// What was read and isn't given yet, and of which connection.
    pieces: Pieces,
    read_last: u32,
    /// When this round began, in milliseconds.
    now: u64,
    /// How many clients may come in still, all of which waited when this round began.
    accepts_left: u64,
    looks_left: u32,
    /// Whether this round gives nothing more, so that connections take what they are offered.
    is_end: bool,
    /// Whether one left what it was offered for the end of the round.
    has_left: bool,
    /// The connection whose end was found then. It is given as lost once all were offered again what they left.
    ended: Option<u32>,
    /// Whether a connection took all that it was offered, so that it may be offered more at once.
    took_all: bool,
}

impl<R: Clock + Net + Eprint + Drop, I: Inlet + Drop> Sockets<R, I> {
    /// The sockets of a plan, without connections. Clients come at the inlet, which doesn't block, and of which the poll tells
    /// under the token `DOOR`.
    pub fn new(rt: R, alloc: Global, poll: Poll, inlet: I, plan: &Plan) -> Result<Self, EdgeFault> {
        let most = match plan.sharing {
            Sharing::OneEach => PIECE,
            Sharing::All => BLOCK,
        };
        Ok(Sockets {
            rt,
            poll,
            events: Events::with_capacity(alloc, MOST_EVENTS)?,
            door: Door::new(inlet),
            most_clients: plan.clients,
            sharing: plan.sharing,
            dialing: Dialing::new(alloc, plan)?,
            links: Links::new(alloc, plan.patience()),
            partings: Partings::new(alloc)?,
            pieces: Pieces::new(alloc, most)?,
            read_last: 0,
            now: 0,
            accepts_left: 0,
            looks_left: 0,
            is_end: true,
            has_left: false,
            ended: None,
            took_all: true,
        })
    }

    /// What comes next, after a wait where nothing is there; `Idle` where still nothing is. A connection that comes gets the
    /// number that is handed in. Once no number is left nobody can come any more, and it is over. A client that comes while it waits
    /// is given by the next call: who calls has learnt by then of all that was published before the client was let through. Before
    /// a wait, where a connection left what it was offered, it is `Idle` too, so that it is offered that again.
    pub fn next(&mut self, number: Option<u32>) -> Result<Wired, WireRefusal> {
        self.is_end = true;
        let Some(number) = number else {
            return Ok(Wired::Stop);
        };
        if self.door.is_over() {
            return Ok(Wired::Stop);
        }
        match self.give(number) {
            Ok(Some(wired)) => return Ok(self.given(wired)),
            Ok(None) => {}
            Err(NoMemory) => return Err(WireRefusal::NoMemory),
        }
        if mem::replace(&mut self.has_left, false) {
            return Ok(Wired::Idle);
        }
        if self.begin_round().is_err() {
            return Err(WireRefusal::Failed);
        }
        if let Some(wired) = self.give_join(number) {
            return Ok(self.given(wired));
        }
        match self.give_octets() {
            Ok(Some(wired)) => Ok(self.given(wired)),
            Ok(None) => Ok(Wired::Idle),
            Err(NoMemory) => Err(WireRefusal::NoMemory),
        }
    }

    /// Whether a piece stays where it is, to be offered again with what comes behind it: this round gives more, and the piece isn't
    /// large.
    pub fn leaves(&mut self, piece: &[u8]) -> bool {
        let leaves = !self.is_end && piece.len() < MANY;
        self.has_left = self.has_left || leaves;
        leaves
    }

    /// A connection takes a front of a piece, and sends it. Answers how many octets it took.
    pub fn take(&mut self, conn: u32, piece: &[u8]) -> usize
        ensures { result ≤ length piece.now }
    {
        let n = self.links.take(conn, piece, self.now);
        if n > 0 && n == piece.len() {
            self.took_all = true;
        }
        n
    }

    /// Ends a connection. What it took still arrives.
    pub fn close(&mut self, conn: u32) {
        let Some(link) = self.links.leave(conn) else {
            return;
        };
        self.dialing.part(link.origin, self.now);
        if conn == self.read_last {
            self.pieces.clear();
        }
        if let Some(stream) = link.into_parting() {
            self.partings.begin(conn, stream, self.now);
        }
    }

    /// From now on a connection isn't read, or is. One to a cluster that is read for the first time has a client.
    pub fn hold(&mut self, conn: u32, held: bool) {
        if let Some(cluster) = self.links.hold(conn, held) {
            self.dialing.take(cluster);
        }
    }

    // Something is given. Where it is the last of this round nobody waits for its end.
    fn given(&mut self, wired: Wired) -> Wired {
        self.is_end = !self.has_more();
        if self.is_end {
            self.has_left = false;
        }
        wired
    }

    // Whether this round has more to give, as far as is known.
    fn has_more(&self) -> bool {
        !self.pieces.is_empty()
            || self.dialing.is_due()
            || (self.looks_left > 0 && self.links.is_due())
            || (self.accepts_left > 0 && self.may_accept())
    }

    // What comes next of what this round has left.
    fn give(&mut self, number: u32) -> Result<Option<Wired>, NoMemory> {
        if let Some(conn) = self.ended.take() {
            return Ok(Some(self.lose(conn)));
        }
        if let Some(wired) = self.give_join(number) {
            return Ok(Some(wired));
        }
        if let Some(wired) = self.give_accept(number) {
            return Ok(Some(wired));
        }
        self.give_octets()
    }

    // A connection to a cluster that has been made.
    fn give_join(&mut self, number: u32) -> Option<Wired> {
        let dial = self.dialing.next_made()?;
        let cluster = dial.cluster;
        let since = self.now;
        let origin = match self.sharing {
            Sharing::OneEach => Origin::Ready { cluster, since },
            Sharing::All => Origin::Shared { cluster, since },
        };
        if self.come(number, dial.stream, origin).is_err() {
            self.dialing.postpone(cluster, self.now);
            return None;
        }
        self.dialing.join(&self.rt, cluster);
        Some(Wired::Join(number, cluster))
    }

    // A client that waits at the door, if one may come in.
    fn give_accept(&mut self, number: u32) -> Option<Wired> {
        if self.accepts_left == 0 || !self.may_accept() {
            return None;
        }
        self.accepts_left -= 1;
        let stream = self.door.accept(&self.rt, self.now)?;
        stream.set_nodelay(true).ok()?;
        self.come(number, stream, Origin::Client).ok()?;
        Some(Wired::Accept(number))
    }

    // Whether a client may come in: one waits, and a connection is ready for it, or none can be hoped for.
    fn may_accept(&self) -> bool {
        self.has_client() && (self.dialing.has_ready() || !self.is_hopeful())
    }

    // Whether a client does well to wait for a connection of its own.
    fn is_hopeful(&self) -> bool {
        self.sharing == Sharing::OneEach && self.dialing.is_hopeful()
    }

    // Whether a client may wait, and there aren't too many.
    fn has_client(&self) -> bool {
        self.door.is_due(self.now) && self.links.clients() < self.most_clients
    }

    // A socket becomes a live connection under a number. Where the system refuses, or memory is wanting, it is closed.
    fn come(&mut self, conn: u32, mut stream: TcpStream, origin: Origin) -> Result<(), EdgeFault> {
        let token = Token(conn as usize);
        let both = Interest::READABLE | Interest::WRITABLE;
        let registry = self.poll.registry();
        match origin {
            Origin::Client => registry.register(&mut stream, token, both)?,
            _ => registry.reregister(&mut stream, token, both)?,
        }
        self.links.come(conn, Link::new(stream, origin))?;
        Ok(())
    }

    // Octets or a loss of a connection that is due. After running out of memory the octets are still to be given.
    fn give_octets(&mut self) -> Result<Option<Wired>, NoMemory> {
        if !self.pieces.is_empty() {
            self.looks_left = self.looks_left.saturating_sub(1);
            return self.give_piece();
        }
        for _ in 0..self.looks_left {
            let Some(conn) = self.links.next_due() else {
                return Ok(None);
            };
            self.looks_left = self.looks_left.saturating_sub(1);
            match self.pieces.read(&mut self.links, conn) {
                ReadOutcome::Octets(_) => {
                    self.read_last = conn;
                    return self.give_piece();
                }
                ReadOutcome::End => return Ok(self.end(conn)),
                ReadOutcome::Nothing => {}
            }
        }
        Ok(None)
    }

    // A piece of what was read last.
    fn give_piece(&mut self) -> Result<Option<Wired>, NoMemory> {
        let octets = self.pieces.give()?;
        Ok(Some(Wired::Read(self.read_last, octets)))
    }

    // The end of a connection was found. Where some left octets the round is over, so that they are offered these again before it is
    // given as lost.
    fn end(&mut self, conn: u32) -> Option<Wired> {
        if self.has_left {
            self.looks_left = 0;
            self.ended = Some(conn);
            return None;
        }
        Some(self.lose(conn))
    }

    // A connection is given as lost.
    fn lose(&mut self, conn: u32) -> Wired {
        if let Some(link) = self.links.leave(conn) {
            self.dialing.lose(link.origin, self.now);
        }
        Wired::Lost(conn)
    }

    // Waits until something comes, and takes in what does.
    fn begin_round(&mut self) -> Result<(), Failed> {
        self.read_clock();
        self.door.count(self.links.clients());
        self.dial();
        let wait = Duration::from_millis(if self.is_busy() { 0 } else { LONGEST_WAIT });
        self.took_all = false;
        self.looks_left = MOST_LOOKS;
        if let Err(error) = self.poll.poll(&mut self.events, Some(wait)) {
            tell_wait(&self.rt, &error);
            return Err(Failed);
        }
        self.read_clock();
        self.take_events();
        self.accepts_left = self.door.look().min(MOST_ACCEPTS);
        self.dialing.give_up(&self.rt, self.now);
        self.partings.end(self.now);
        Ok(())
    }

    // Begins the connections to clusters that are wanted, at once where a client waits for one.
    fn dial(&mut self) {
        let is_urgent = self.is_hopeful() && self.has_client() && !self.dialing.has_ready();
        let registry = self.poll.registry();
        self.dialing
            .begin_all(&self.rt, registry, self.now, is_urgent);
    }

    // Where the clock can't be read it stands still.
    fn read_clock(&mut self) {
        if let Ok(since_start) = self.rt.monotonic() {
            self.now = u64::try_from(since_start.as_millis()).unwrap_or(self.now);
        }
    }

    // Whether there is something to do without a wait.
    fn is_busy(&self) -> bool {
        self.took_all || self.links.is_due() || self.dialing.is_due() || self.may_accept()
    }

    // Takes in what the system tells.
    fn take_events(&mut self) {
        for event in &self.events {
            let token = event.token();
            if token == DOOR {
                self.door.on_event();
                continue;
            }
            match u32::try_from(token.0) {
                Ok(conn) => {
                    if !self.links.on_event(conn, event) {
                        self.partings.on_event(conn, event);
                    }
                }
                Err(_) => self.dialing.on_event(&self.rt, token.0, event, self.now),
            }
        }
        self.links.end_events();
    }
}
