// What happens to a core.
ghost use Rattle.std.specs.Prelude.{◌≡◌, ◌==◌, ◌++◌, ◌∷◌, [], length, IfOk, OnOk, OnErr};

use io_ports::{NoMemory, Octets, PressureList};
use std::alloc::Global;
use std::marker::Model;

/// What happens in a plain session, where each stream is an exchange with a request alone.
#[derive(Debug, Drop)]
pub enum PlainEvent {
    /// Stream `stream` begins.
    Begin { stream: u32 },
    /// Once the end of `first` is framed, `second` is doomed.
    Pair { first: u32, second: u32 },
    /// Body octets came.
    Body { stream: u32, octets: Octets },
    /// The body's end came.
    Finish { stream: u32 },
    /// The peer resets the stream.
    Cut { stream: u32 },
    /// Up to `n` octets leave the write buffer.
    Room { n: u32 },
}

impl PlainEvent {
    /// The same event once more. Octets are copied as a slice. Refused only for lack of memory.
    pub fn copied(&self, alloc: Global) -> Result<PlainEvent, NoMemory>
        ensures { IfOk result (λ made. made ≡ self.now) }
    {
        Ok(match self {
            PlainEvent::Begin { stream } => PlainEvent::Begin { stream: *stream },
            PlainEvent::Pair { first, second } => PlainEvent::Pair {
                first: *first,
                second: *second,
            },
            PlainEvent::Body { stream, octets } => PlainEvent::Body {
                stream: *stream,
                octets: Octets::from_slice(alloc, octets.as_slice())?,
            },
            PlainEvent::Finish { stream } => PlainEvent::Finish { stream: *stream },
            PlainEvent::Cut { stream } => PlainEvent::Cut { stream: *stream },
            PlainEvent::Room { n } => PlainEvent::Room { n: *n },
        })
    }
}

/// What a posted callback asks for.
#[derive(Clone, Copy, Debug, PartialEq, Eq)]
pub enum Job {
    /// Every client connection is to be drained.
    Drain,
    /// An exchange is to be given up.
    Cancel { exchange: u64 },
    /// The published state is to be looked at.
    Look,
}

/// What happens to a core. A connection has the number that its accept or join gave it.
#[derive(Debug, Drop)]
pub enum Event {
    /// A client connection came.
    Accept {
        conn: u32,
    },
    /// A connection to a cluster, which is counted from 0 in the configuration's order.
    Join {
        conn: u32,
        cluster: u32,
    },
    /// Octets came.
    Read {
        conn: u32,
        octets: Octets,
    },
    /// The connection is lost.
    Gone {
        conn: u32,
    },
    /// Up to `n` octets leave the write buffer.
    Room {
        conn: u32,
        n: u32,
    },
    /// The clock, in milliseconds.
    Tick {
        now: u64,
    },
    /// Post `number` of `poster`.
    Post {
        poster: u32,
        number: u64,
        job: Job,
    },
    /// A published version with its pressures, in parts per million.
    Obey {
        version: u64,
        pressures: PressureList,
    },
    /// What happens in a plain session.
    Plain(PlainEvent),
}

impl Event {
    ghost use Rattle.flow_notes.specs.Event as spec;

    /// Whether the event belongs to a plain session.
    pub fn is_plain(&self) -> bool
        ensures { result ≡ spec.is_plain self.now }
    {
        matches!(self, Event::Plain(_))
    }

    /// The same event once more. Octets and pressures are copied as slices, but for octets that came and share a block: the
    /// copy shares it too. Refused only for lack of memory.
    pub fn copied(&self, alloc: Global) -> Result<Event, NoMemory>
        ensures { IfOk result (λ made. made ≡ self.now) }
    {
        Ok(match self {
            Event::Accept { conn } => Event::Accept { conn: *conn },
            Event::Join { conn, cluster } => Event::Join {
                conn: *conn,
                cluster: *cluster,
            },
            Event::Read { conn, octets } => Event::Read {
                conn: *conn,
                octets: octets.copied()?,
            },
            Event::Gone { conn } => Event::Gone { conn: *conn },
            Event::Room { conn, n } => Event::Room { conn: *conn, n: *n },
            Event::Tick { now } => Event::Tick { now: *now },
            Event::Post {
                poster,
                number,
                job,
            } => Event::Post {
                poster: *poster,
                number: *number,
                job: *job,
            },
            Event::Obey { version, pressures } => Event::Obey {
                version: *version,
                pressures: PressureList::from_slice(alloc, pressures.as_slice())?,
            },
            Event::Plain(event) => Event::Plain(event.copied(alloc)?),
        })
    }
}

/// A list of events.
#[derive(Drop)]
pub struct EventList {
    events: Vec<Event>,
}

impl Model for EventList {
    ghost use Rattle.std.specs.Prelude.{List};
    ghost use Rattle.flow_notes.specs.declared.events.Event.{Event};

    ghost Value = { List Event };

    ghost view = { λ a. a.events.items };
}

impl EventList {
    /// No events. Takes no memory.
    pub fn new(alloc: Global) -> Self
        ensures { result ≡ [] }
    {
        EventList {
            events: Vec::new(alloc),
        }
    }

    /// Appends an event. After running out of memory the list is as it was.
    pub fn push(&mut self, event: Event) -> Result<(), NoMemory>
        ensures ok { OnOk result (self.new ≡ self.old ++ event ∷ []) }
        ensures err { OnErr result (self.new ≡ self.old) }
    {
        self.events.push(event)?;
        Ok(())
    }

    /// The events, in their order.
    pub fn as_slice(&self) -> &[Event]
        ensures { result.now ≡ self.now }
    {
        self.events.as_slice()
    }

    /// How many events there are.
    pub fn len(&self) -> usize
        ensures { result ≡ length self.now }
    {
        self.events.len()
    }

    /// Whether there are no events.
    pub fn is_empty(&self) -> bool
        ensures { result ≡ (length self.now == 0) }
    {
        self.events.is_empty()
    }
}
