// The greatest lengths of all buffers of a wire session.
ghost use Rattle.std.specs.Prelude.{◌≡◌};

use crate::places::{Change, FlowPlaces};
use flow_gate::FlowId;
use flow_notes::{CloseCause, Event, Note, Notes, Passage};
use io_ports::NoMemory;
use std::alloc::Global;
use std::collections::BTreeMap;
use tape_summary::Level;

/// The nine octets before a frame's payload (RFC 9113 section 4.1).
const FRAME_HEAD: u64 = 9;

/// A WINDOW_UPDATE frame with its nine octets (RFC 9113 section 6.9).
const WINDOW_UPDATE: u64 = 13;

/// The limits of the buffers that every exchange and every connection has, in octets.
#[derive(Clone, Copy, PartialEq, Eq)]
pub struct BufferLimits {
    pub recv: u32,
    pub send: u32,
    pub write: u32,
}

/// The places of an exchange's request, and those of its response.
#[derive(Drop)]
pub struct ExchangePlaces {
    pub request: FlowPlaces,
    pub response: FlowPlaces,
}

impl ExchangePlaces {
    ghost use Rattle.std.specs.Prelude.{◌≡◌, IfOk};
    ghost use Rattle.wire_summary.specs.Places.{bare as bare_sides, changed_at, emptied_sides, framed, side_at, sides_of};

    /// Those of an exchange that passes no stages. Refused only for lack of memory.
    pub fn bare(alloc: Global) -> Result<Self, NoMemory>
        ensures { IfOk result (λ made. sides_of made ≡ bare_sides) }
    {
        Ok(ExchangePlaces {
            request: FlowPlaces::new(alloc, Vec::new(alloc))?,
            response: FlowPlaces::new(alloc, Vec::new(alloc))?,
        })
    }

    // Answers how many octets left the send buffer.
    fn change(&mut self, back: bool, change: Change) -> Result<u64, NoMemory>
        ensures sides { IfOk result (λ n. sides_of self.new ≡ changed_at back change (sides_of self.old)) }
        ensures framed { IfOk result (λ n. n ≡ framed change (side_at back (sides_of self.old)).levels) }
    {
        if back {
            self.response.change(change)
        } else {
            self.request.change(change)
        }
    }

    fn empty(&mut self)
        ensures { sides_of self.new ≡ emptied_sides (sides_of self.old) }
    {
        self.request.empty();
        self.response.empty();
    }
}

/// What happens to the octets of a write buffer.
#[derive(Clone, Copy, PartialEq, Eq)]
pub enum WriteChange {
    /// Octets come.
    Put { n: u64 },
    /// Octets leave, at most those that are there.
    Take { n: u64 },
    /// The connection is closed by a note; a lost one's octets are dropped.
    Close { lost: bool },
    /// The connection is lost; the octets of one that was closed are dropped.
    Lose,
}

/// The level of a connection's write buffer, and whether a note closed the connection.
#[derive(Clone, Copy, PartialEq, Eq)]
pub struct WriteLevel {
    pub level: Level,
    pub closed: bool,
}

impl WriteLevel {
    ghost use Rattle.std.specs.Prelude.{◌≡◌, IfOk, None, if◌then◌else◌};
    ghost use Rattle.tape_summary.specs.Levels.{emptied};
    ghost use Rattle.wire_summary.specs.Levels.{kept_write, written};

    /// That of a connection of which nothing was noted.
    pub fn none() -> Self
        ensures { result ≡ kept_write None }
    {
        WriteLevel {
            level: Level::none(),
            closed: false,
        }
    }

    /// What a change leaves. A length past 2^64 - 1 counts as out of memory.
    pub fn after(self, change: WriteChange) -> Result<Self, NoMemory>
        ensures { IfOk result (λ left. left ≡ written change self) }
    {
        let closed = self.closed;
        match change {
            WriteChange::Put { n } => Ok(WriteLevel {
                level: self.level.rise(n)?,
                closed,
            }),
            WriteChange::Take { n } => Ok(WriteLevel {
                level: self.level.fall(n),
                closed,
            }),
            WriteChange::Close { lost } => Ok(WriteLevel {
                level: self.left_by(lost),
                closed: true,
            }),
            WriteChange::Lose => Ok(WriteLevel {
                level: self.left_by(closed),
                closed,
            }),
        }
    }

    // The level, where all octets are dropped or none.
    fn left_by(self, dropped: bool) -> Level
        ensures { result ≡ (if dropped then emptied self.level else self.level) }
    {
        if dropped {
            self.level.empty()
        } else {
            self.level
        }
    }
}

/// What a summary tells of the lengths of a wire session's buffers, kept note by note: it grows with the exchanges and the
/// connections alone.
#[derive(Drop)]
pub struct Levels {
    alloc: Global,
    limits: BufferLimits,
    started: Vec<u64>,
    exchanges: BTreeMap<u64, ExchangePlaces>,
    conns: Vec<u32>,
    writes: BTreeMap<u32, WriteLevel>,
}

impl Levels {
    ghost use Rattle.std.specs.Prelude.{◌≡◌, ◌++◌, ◌∷◌, [], Some, None, ℕ, IfNone, IfSome, IfOk, OnOk};
    ghost use Rattle.std.specs.BTreeMap.{get};
    ghost use Rattle.std.specs.Ordering.{nat_cmp};
    ghost use Rattle.flow_notes.specs.Passages.{notes_of_passage};
    ghost use Rattle.wire_summary.specs.Levels.{Frames, LevelsAre, LevelsGo, LevelsPass, SetsSides, SetsWrite, is_lost, known_limits, sides_in, write_in, written};
    ghost use Rattle.wire_summary.specs.Places.{changed_at, emptied_sides, framed, side_at};

    /// Those of an empty tape. Takes no memory.
    pub fn new(alloc: Global, limits: BufferLimits) -> Self
        ensures levels { LevelsAre limits result [] }
        ensures unsaid { (x : ℕ) → known_limits result x ≡ None }
    {
        Levels {
            alloc,
            limits,
            started: Vec::new(alloc),
            exchanges: BTreeMap::new(alloc),
            conns: Vec::new(alloc),
            writes: BTreeMap::new(alloc),
        }
    }

    /// An exchange passes stages with these limits, which has to be said before its first note; later it changes nothing. After
    /// running out of memory the levels are to be let go.
    #[tactic(auto, using(crate::proofs::Beginning::passed_known))]
    pub fn pass(
        &mut self,
        exchange: u64,
        request: Vec<u32>,
        response: Vec<u32>,
    ) -> Result<(), NoMemory>
        ensures { OnOk result (LevelsPass exchange self.old (record { request = request.items; response = response.items }) self.new) }
    {
        match self.exchanges.get(&exchange) {
            Some(_) => Ok(()),
            None => self.begin(exchange, request, response),
        }
    }

    // The exchange of which nothing was said passes these stages.
    fn begin(
        &mut self,
        exchange: u64,
        request: Vec<u32>,
        response: Vec<u32>,
    ) -> Result<(), NoMemory>
        requires { get nat_cmp self.old.exchanges exchange ≡ None }
        ensures { OnOk result (LevelsPass exchange self.old (record { request = request.items; response = response.items }) self.new) }
    {
        let places = ExchangePlaces {
            request: FlowPlaces::new(self.alloc, request)?,
            response: FlowPlaces::new(self.alloc, response)?,
        };
        self.exchanges.insert(exchange, places)?;
        Ok(())
    }

    /// Takes up the notes that a tape goes on with. After running out of memory the levels are to be let go.
    pub fn note_all(&mut self, notes: &Notes) -> Result<(), NoMemory>
        ensures { OnOk result (LevelsGo self.old notes.now self.new) }
    {
        for passage in notes.passages() {
            self.passage(passage)?;
        }
        Ok(())
    }

    /// The limits that hold of every buffer of a kind, in octets.
    pub fn limits(&self) -> BufferLimits
        ensures { result ≡ self.now.limits }
    {
        self.limits
    }

    /// The exchanges, in the order of their starts.
    pub fn started(&self) -> &[u64]
        ensures { result.now ≡ self.now.started.items }
    {
        self.started.as_slice()
    }

    /// The connections, in the order in which they came.
    pub fn conns(&self) -> &[u32]
        ensures { result.now ≡ self.now.conns.items }
    {
        self.conns.as_slice()
    }

    /// The places of an exchange, if anything was said of it.
    pub fn exchange(&self, exchange: u64) -> Option<&ExchangePlaces>
        ensures some { IfSome result (λ places. get nat_cmp self.now.exchanges exchange ≡ Some places.now) }
        ensures none { IfNone result (get nat_cmp self.now.exchanges exchange ≡ None) }
    {
        self.exchanges.get(&exchange)
    }

    /// The level of a connection's write buffer.
    pub fn write(&self, conn: u32) -> Level
        ensures { result ≡ (write_in self.now conn).level }
    {
        match self.writes.get(&conn) {
            Some(write) => write.level,
            None => Level::none(),
        }
    }

    // Pauses and resumes leave each buffer as it was.
    fn passage(&mut self, passage: Passage<'_>) -> Result<(), NoMemory>
        ensures { OnOk result (LevelsGo self.old (notes_of_passage passage.entry) self.new) }
    {
        match passage {
            Passage::One(note) => self.note(note),
            _ => Ok(()),
        }
    }

    fn note(&mut self, note: &Note) -> Result<(), NoMemory>
        ensures { OnOk result (LevelsGo self.old (note.now ∷ []) self.new) }
    {
        match note {
            Note::Turn { event, .. } => self.turn(event),
            Note::Start { exchange, .. } => self.start(*exchange),
            Note::Arrive { flow, octets } => self.arrive(*flow, octets.len() as u64),
            Note::Move { flow, place, n } => self.shift(*flow, *place, u64::from(*n)),
            Note::Frame { conn, flow, n, .. } => self.frame(*conn, *flow, u64::from(*n)),
            Note::Head { conn, octets, .. } => self.put(*conn, octets.len() as u64),
            Note::Answer { conn, octets } => self.put(*conn, octets.len() as u64),
            Note::Credit { conn, .. } => self.put(*conn, WINDOW_UPDATE),
            Note::Out { conn, n } => self.write_change(
                *conn,
                WriteChange::Take { n: u64::from(*n) },
            ),
            Note::Close { conn, cause, .. } => self.close(*conn, *cause),
            Note::Doom { exchange, .. } => self.doom(*exchange),
            _ => Ok(()),
        }
    }

    fn turn(&mut self, event: &Event) -> Result<(), NoMemory>
        ensures { (k : ℕ) → OnOk result (LevelsGo self.old (Note.Turn k event.now ∷ []) self.new) }
    {
        match event {
            Event::Accept { conn } => self.come(*conn),
            Event::Join { conn, .. } => self.come(*conn),
            Event::Gone { conn } => self.write_change(*conn, WriteChange::Lose),
            _ => Ok(()),
        }
    }

    fn come(&mut self, conn: u32) -> Result<(), NoMemory>
        ensures conns { OnOk result (self.new.conns.items ≡ self.old.conns.items ++ conn ∷ []) }
        ensures limits { self.new.limits ≡ self.old.limits }
        ensures started { self.new.started ≡ self.old.started }
        ensures exchanges { self.new.exchanges ≡ self.old.exchanges }
        ensures writes { self.new.writes ≡ self.old.writes }
    {
        self.conns.push(conn)?;
        Ok(())
    }

    fn start(&mut self, exchange: u64) -> Result<(), NoMemory>
        ensures started { OnOk result (self.new.started.items ≡ self.old.started.items ++ exchange ∷ []) }
        ensures limits { self.new.limits ≡ self.old.limits }
        ensures conns { self.new.conns ≡ self.old.conns }
        ensures exchanges { self.new.exchanges ≡ self.old.exchanges }
        ensures writes { self.new.writes ≡ self.old.writes }
    {
        self.started.push(exchange)?;
        Ok(())
    }

    fn arrive(&mut self, flow: FlowId, n: u64) -> Result<(), NoMemory>
        ensures { OnOk result (SetsSides self.old flow.exchange (changed_at flow.back (Change.Arrive n) (sides_in self.old flow.exchange)) self.new) }
    {
        self.change(flow, Change::Arrive { n })?;
        Ok(())
    }

    fn shift(&mut self, flow: FlowId, place: u32, n: u64) -> Result<(), NoMemory>
        ensures { OnOk result (SetsSides self.old flow.exchange (changed_at flow.back (Change.Shift place n) (sides_in self.old flow.exchange)) self.new) }
    {
        self.change(flow, Change::Shift { place, n })?;
        Ok(())
    }

    // Octets leave the send buffer behind a frame's head.
    #[tactic(auto, using(crate::proofs::Lending::frames_done))]
    fn frame(&mut self, conn: u32, flow: FlowId, n: u64) -> Result<(), NoMemory>
        ensures { OnOk result (Frames self.old conn flow n self.new) }
    {
        let framed = self.change(flow, Change::Frame { n })?;
        let Some(n) = framed.checked_add(FRAME_HEAD) else {
            return Err(NoMemory);
        };
        self.put(conn, n)
    }

    fn put(&mut self, conn: u32, n: u64) -> Result<(), NoMemory>
        ensures { OnOk result (SetsWrite self.old conn (written (WriteChange.Put n) (write_in self.old conn)) self.new) }
    {
        self.write_change(conn, WriteChange::Put { n })
    }

    fn close(&mut self, conn: u32, cause: CloseCause) -> Result<(), NoMemory>
        ensures { OnOk result (SetsWrite self.old conn (written (WriteChange.Close (is_lost cause)) (write_in self.old conn)) self.new) }
    {
        let lost = cause == CloseCause::Lost;
        self.write_change(conn, WriteChange::Close { lost })
    }

    // An exchange of which nothing was said passes no stages. Answers how many octets left the send buffer.
    fn change(&mut self, flow: FlowId, change: Change) -> Result<u64, NoMemory>
        ensures sides { IfOk result (λ n. SetsSides self.old flow.exchange (changed_at flow.back change (sides_in self.old flow.exchange)) self.new) }
        ensures framed { IfOk result (λ n. n ≡ framed change (side_at flow.back (sides_in self.old flow.exchange)).levels) }
    {
        if let Some(places) = self.exchanges.get_mut(&flow.exchange) {
            return places.change(flow.back, change);
        }
        let mut places = ExchangePlaces::bare(self.alloc)?;
        let framed = places.change(flow.back, change)?;
        self.exchanges.insert(flow.exchange, places)?;
        Ok(framed)
    }

    // All octets of the exchange are dropped.
    fn doom(&mut self, exchange: u64) -> Result<(), NoMemory>
        ensures { OnOk result (SetsSides self.old exchange (emptied_sides (sides_in self.old exchange)) self.new) }
    {
        if let Some(places) = self.exchanges.get_mut(&exchange) {
            places.empty();
            return Ok(());
        }
        let places = ExchangePlaces::bare(self.alloc)?;
        self.exchanges.insert(exchange, places)?;
        Ok(())
    }

    fn write_change(&mut self, conn: u32, change: WriteChange) -> Result<(), NoMemory>
        ensures { OnOk result (SetsWrite self.old conn (written change (write_in self.old conn)) self.new) }
    {
        let left = match self.writes.get(&conn) {
            Some(write) => write.after(change)?,
            None => WriteLevel::none().after(change)?,
        };
        self.writes.insert(conn, left)?;
        Ok(())
    }
}
