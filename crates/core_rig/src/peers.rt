// What peers do: events that are put together before a core is given them.
use crate::frames::Wire;
use flow_notes::{Event, EventList};
use io_ports::NoMemory;
use std::alloc::Global;

/// The setting of a stream's initial window.
const INITIAL_WINDOW: u16 = 4;

/// As much as a window may be, and more than a write buffer holds.
const WIDE: u32 = 2_147_483_647;

/// What a connection's window has at first.
const FIRST: u32 = 65_535;

/// What clients and clusters do, one event after the other.
#[derive(Drop)]
pub struct Peers {
    alloc: Global,
    events: EventList,
}

impl Peers {
    /// They do nothing yet.
    pub fn new(alloc: Global) -> Self {
        Peers {
            alloc,
            events: EventList::new(alloc),
        }
    }

    /// What they do, in order.
    pub fn events(&self) -> &[Event] {
        self.events.as_slice()
    }

    // What waits is sent.
    fn read(&mut self, conn: u32, wire: Wire) -> Result<(), NoMemory> {
        let octets = wire.into_octets()?;
        self.events.push(Event::Read { conn, octets })
    }

    /// The clock's time goes on to so many milliseconds.
    pub fn tick(&mut self, now: u64) -> Result<(), NoMemory> {
        self.events.push(Event::Tick { now })
    }

    /// A connection is lost.
    pub fn gone(&mut self, conn: u32) -> Result<(), NoMemory> {
        self.events.push(Event::Gone { conn })
    }

    /// All that waits for a connection's socket goes.
    pub fn room(&mut self, conn: u32) -> Result<(), NoMemory> {
        self.events.push(Event::Room { conn, n: WIDE })
    }

    /// A client's connection comes, which sends nothing yet.
    pub fn accept(&mut self, conn: u32) -> Result<(), NoMemory> {
        self.events.push(Event::Accept { conn })
    }

    /// A client comes. Where it is eager it lets all come on its streams, and else nothing.
    pub fn client(&mut self, conn: u32, eager: bool) -> Result<(), NoMemory> {
        self.accept(conn)?;
        let mut wire = Wire::new(self.alloc);
        wire.preface()?;
        self.begin(conn, wire, eager)
    }

    /// A connection to the first cluster comes.
    pub fn cluster(&mut self, conn: u32, eager: bool) -> Result<(), NoMemory> {
        self.events.push(Event::Join { conn, cluster: 0 })?;
        let wire = Wire::new(self.alloc);
        self.begin(conn, wire, eager)
    }

    fn begin(&mut self, conn: u32, mut wire: Wire, eager: bool) -> Result<(), NoMemory> {
        wire.setting(INITIAL_WINDOW, if eager { WIDE } else { 0 })?;
        wire.window(0, WIDE - FIRST)?;
        self.read(conn, wire)?;
        self.room(conn)
    }

    /// So many requests of a client on streams from this one on, which stay open.
    pub fn posts(&mut self, conn: u32, first: u32, count: u32) -> Result<(), NoMemory> {
        let mut wire = Wire::new(self.alloc);
        for place in 0..count {
            wire.post(stream_after(first, place))?;
        }
        self.read(conn, wire)
    }

    /// So many whole requests of a client, on streams from this one on.
    pub fn gets(&mut self, conn: u32, first: u32, count: u32) -> Result<(), NoMemory> {
        let mut wire = Wire::new(self.alloc);
        for place in 0..count {
            wire.get(stream_after(first, place))?;
        }
        self.read(conn, wire)
    }

    /// As many whole responses with this body.
    pub fn responses(
        &mut self,
        conn: u32,
        first: u32,
        count: u32,
        body: &[u8],
    ) -> Result<(), NoMemory> {
        let mut wire = Wire::new(self.alloc);
        for place in 0..count {
            let stream = stream_after(first, place);
            wire.ok(stream)?;
            wire.data(stream, body, true)?;
        }
        self.read(conn, wire)
    }

    /// The head of a response comes from a cluster.
    pub fn answer(&mut self, conn: u32, stream: u32) -> Result<(), NoMemory> {
        let mut wire = Wire::new(self.alloc);
        wire.ok(stream)?;
        self.read(conn, wire)
    }

    /// A frame of body comes on a stream.
    pub fn body(
        &mut self,
        conn: u32,
        stream: u32,
        body: &[u8],
        last: bool,
    ) -> Result<(), NoMemory> {
        let mut wire = Wire::new(self.alloc);
        wire.data(stream, body, last)?;
        self.read(conn, wire)
    }

    /// SETTINGS that name the initial window so many times.
    pub fn settings(&mut self, conn: u32, value: u32, times: usize) -> Result<(), NoMemory> {
        let mut wire = Wire::new(self.alloc);
        wire.settings(INITIAL_WINDOW, value, times)?;
        self.read(conn, wire)
    }
}

/// The stream of one side that comes so many places after another.
pub fn stream_after(first: u32, place: u32) -> u32 {
    first.saturating_add(place.saturating_mul(2))
}

/// An eager client, and an eager connection to the first cluster.
pub fn client_and_cluster(alloc: Global, client: u32, cluster: u32) -> Result<Peers, NoMemory> {
    let mut peers = Peers::new(alloc);
    peers.client(client, true)?;
    peers.cluster(cluster, true)?;
    Ok(peers)
}
