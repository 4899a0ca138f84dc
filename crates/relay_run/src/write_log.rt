// The greatest lengths of a relay's write buffers.
ghost use Rattle.std.specs.Prelude.{◌≡◌};

use flow_gate::FlowId;
use flow_notes::{CloseCause, Event, Note, Notes, Passage};
use io_ports::NoMemory;
use std::alloc::Global;
use std::collections::BTreeMap;
use tape_summary::Level;

/// The two connections of a pair: its request flow goes to the cluster's, its response flow to the client's.
#[derive(Clone, Copy, PartialEq, Eq)]
pub struct Ends {
    pub client: u32,
    pub cluster: u32,
}

/// What a summary tells of the lengths of a relay's write buffers, kept note by note: it grows with the connections alone.
#[derive(Drop)]
pub struct WriteLog {
    /// The limit of each write buffer in octets, 0 for none.
    limit: u32,
    conns: Vec<u32>,
    pairs: BTreeMap<u64, Ends>,
    levels: BTreeMap<u32, Level>,
}

impl WriteLog {
    ghost use Rattle.std.specs.Prelude.{◌≡◌, ◌∷◌, ◌++◌, [], Some, OnOk};
    ghost use Rattle.std.specs.BTreeMap.{Updates, get};
    ghost use Rattle.std.specs.Ordering.{nat_cmp};
    ghost use Rattle.flow_notes.specs.Passages.{notes_of_passage};
    ghost use Rattle.relay_run.specs.Writes.{SetsLevel, TakesClose, TakesOctets, TakesTurn, WritesAre, WritesGo, end_of, kept_level};

    /// The log of an empty tape. Takes no memory.
    pub fn new(alloc: Global, limit: u32) -> Self
        ensures { WritesAre limit result [] }
    {
        WriteLog {
            limit,
            conns: Vec::new(alloc),
            pairs: BTreeMap::new(alloc),
            levels: BTreeMap::new(alloc),
        }
    }

    /// Takes up the notes that a tape goes on with. After running out of memory the log is unusable: drop it.
    pub fn note_all(&mut self, notes: &Notes) -> Result<(), NoMemory>
        ensures { OnOk result (WritesGo self.old notes.now self.new) }
    {
        for passage in notes.passages() {
            self.passage(passage)?;
        }
        Ok(())
    }

    /// The limit of each write buffer in octets, 0 for none.
    pub fn limit(&self) -> u32
        ensures { result ≡ self.now.limit }
    {
        self.limit
    }

    /// The connections, in the order in which they came.
    pub fn conns(&self) -> &[u32]
        ensures { result.now ≡ self.now.conns.items }
    {
        self.conns.as_slice()
    }

    /// The level of a connection's write buffer.
    pub fn level(&self, conn: u32) -> Level
        ensures { result ≡ kept_level (get nat_cmp self.now.levels conn) }
    {
        match self.levels.get(&conn) {
            Some(level) => *level,
            None => Level::none(),
        }
    }

    // Pauses and resumes leave each write buffer as it was.
    fn passage(&mut self, passage: Passage<'_>) -> Result<(), NoMemory>
        ensures { OnOk result (WritesGo self.old (notes_of_passage passage.entry) self.new) }
    {
        match passage {
            Passage::One(note) => self.note(note),
            _ => Ok(()),
        }
    }

    fn note(&mut self, note: &Note) -> Result<(), NoMemory>
        ensures { OnOk result (WritesGo self.old (note.now ∷ []) self.new) }
    {
        match note {
            Note::Turn { event, .. } => self.turn(event),
            Note::Start {
                exchange,
                conn,
                to,
                ..
            } => self.pair(*exchange, *conn, *to),
            Note::Arrive { flow, octets } => self.arrive(*flow, octets.len() as u64),
            Note::Out { conn, n } => self.set(*conn, self.level(*conn).fall(u64::from(*n))),
            Note::Close { conn, cause, .. } => self.close(*conn, *cause),
            _ => Ok(()),
        }
    }

    fn turn(&mut self, event: &Event) -> Result<(), NoMemory>
        ensures { OnOk result (TakesTurn self.old event.now self.new) }
    {
        match event {
            Event::Accept { conn } => self.come(*conn),
            Event::Join { conn, .. } => self.come(*conn),
            _ => Ok(()),
        }
    }

    fn come(&mut self, conn: u32) -> Result<(), NoMemory>
        ensures conns { OnOk result (self.new.conns.items ≡ self.old.conns.items ++ conn ∷ []) }
        ensures pairs { self.new.pairs ≡ self.old.pairs }
        ensures levels { self.new.levels ≡ self.old.levels }
        ensures limit { self.new.limit ≡ self.old.limit }
    {
        self.conns.push(conn)?;
        Ok(())
    }

    fn pair(&mut self, exchange: u64, client: u32, cluster: u32) -> Result<(), NoMemory>
        ensures pairs { OnOk result (Updates nat_cmp self.old.pairs self.new.pairs exchange (Some (record { client = client; cluster = cluster }))) }
        ensures conns { self.new.conns ≡ self.old.conns }
        ensures levels { self.new.levels ≡ self.old.levels }
        ensures limit { self.new.limit ≡ self.old.limit }
    {
        self.pairs.insert(exchange, Ends { client, cluster })?;
        Ok(())
    }

    // Octets go into the write buffer of the other connection of the pair.
    fn arrive(&mut self, flow: FlowId, n: u64) -> Result<(), NoMemory>
        ensures { OnOk result (TakesOctets self.old flow n self.new) }
    {
        let Some(conn) = self.goes_to(flow) else {
            return Ok(());
        };
        let level = self.level(conn).rise(n)?;
        self.set(conn, level)
    }

    // The connection that a flow goes to.
    fn goes_to(&self, flow: FlowId) -> Option<u32>
        ensures { result ≡ end_of flow (get nat_cmp self.now.pairs flow.exchange) }
    {
        let ends = self.pairs.get(&flow.exchange)?;
        Some(if flow.back { ends.client } else { ends.cluster })
    }

    // What waits for a lost connection is dropped.
    fn close(&mut self, conn: u32, cause: CloseCause) -> Result<(), NoMemory>
        ensures { OnOk result (TakesClose self.old conn cause self.new) }
    {
        match cause {
            CloseCause::Lost => self.set(conn, self.level(conn).empty()),
            _ => Ok(()),
        }
    }

    fn set(&mut self, conn: u32, level: Level) -> Result<(), NoMemory>
        ensures { OnOk result (SetsLevel self.old conn level self.new) }
    {
        self.levels.insert(conn, level)?;
        Ok(())
    }
}
