// What came in a wire session, as far as it says what may follow.
ghost use Rattle.std.specs.Prelude.{◌≡◌};

use flow_notes::Event;
use io_ports::NoMemory;
use std::alloc::Global;
use std::collections::{BTreeMap, BTreeSet};

/// The greatest connection so far, those that aren't gone, how many posts came of each poster, and the last version. It
/// grows with the connections that are there and with the posters alone.
#[derive(Drop)]
pub struct WireOrder {
    /// How many resources there are.
    resources: usize,
    greatest: u32,
    there: BTreeSet<u32>,
    posts: BTreeMap<u32, u64>,
    version: u64,
}

impl WireOrder {
    ghost use Rattle.std.specs.Prelude.{◌≡◌, [], ℕ, Ok};
    ghost use Rattle.std.specs.BTreeMap.{get};
    ghost use Rattle.std.specs.BTreeSet.{contains};
    ghost use Rattle.std.specs.Ordering.{nat_cmp};
    ghost use Rattle.flow_notes.specs.declared.events.Job.{Job};
    ghost use Rattle.session_lines.specs.WireOrders.{FollowsWire, WireOrderIs, kept_posts};

    /// Before the first event, over so many resources. Takes no memory.
    pub fn new(alloc: Global, resources: usize) -> Self
        ensures { WireOrderIs result resources [] }
    {
        WireOrder {
            resources,
            greatest: 0,
            there: BTreeSet::new(alloc),
            posts: BTreeMap::new(alloc),
            version: 0,
        }
    }

    /// Whether an event may follow; where it may, it has. An event that may not, and running out of memory, leave all as it
    /// was.
    pub fn follow(&mut self, event: &Event) -> Result<bool, NoMemory>
        ensures { FollowsWire self.old event.now self.new result }
    {
        match event {
            Event::Accept { conn } => self.come(*conn),
            Event::Join { conn, .. } => self.come(*conn),
            Event::Read { conn, .. } => Ok(self.is_there(*conn)),
            Event::Gone { conn } => Ok(self.go(*conn)),
            Event::Room { conn, .. } => Ok(self.is_there(*conn)),
            Event::Tick { .. } => Ok(true),
            Event::Post { poster, number, .. } => self.post(*poster, *number),
            Event::Obey { version, pressures } => Ok(self.obey(*version, pressures.as_slice())),
            Event::Plain(_) => Ok(false),
        }
    }

    /// The greatest connection that came, 0 before the first.
    pub fn greatest(&self) -> u32
        ensures { result ≡ self.now.greatest }
    {
        self.greatest
    }

    /// The last version, 0 before the first.
    pub fn version(&self) -> u64
        ensures { result ≡ self.now.version }
    {
        self.version
    }

    /// How many resources there are.
    pub fn resources(&self) -> usize
        ensures { result ≡ self.now.resources }
    {
        self.resources
    }

    /// Whether the connection came and isn't gone.
    pub fn is_there(&self, conn: u32) -> bool
        ensures { result ≡ contains nat_cmp self.now.there conn }
    {
        self.there.contains(&conn)
    }

    fn come(&mut self, conn: u32) -> Result<bool, NoMemory>
        ensures accept { FollowsWire self.old (Event.Accept conn) self.new result }
        ensures join { (cluster : ℕ) → FollowsWire self.old (Event.Join conn cluster) self.new result }
    {
        if conn <= self.greatest {
            return Ok(false);
        }
        self.there.insert(conn)?;
        self.greatest = conn;
        Ok(true)
    }

    fn go(&mut self, conn: u32) -> bool
        ensures { FollowsWire self.old (Event.Gone conn) self.new (Ok result) }
    {
        self.there.remove(&conn)
    }

    /// How many posts of the poster came.
    pub fn posts_of(&self, poster: u32) -> u64
        ensures { result ≡ kept_posts (get nat_cmp self.now.posts poster) }
    {
        match self.posts.get(&poster) {
            Some(n) => *n,
            None => 0,
        }
    }

    // A number past the end of its type counts as out of memory.
    fn post(&mut self, poster: u32, number: u64) -> Result<bool, NoMemory>
        ensures { (job : Job) → FollowsWire self.old (Event.Post poster number job) self.new result }
    {
        if number != self.posts_of(poster) {
            return Ok(false);
        }
        let Some(count) = number.checked_add(1) else {
            return Err(NoMemory);
        };
        self.posts.insert(poster, count)?;
        Ok(true)
    }

    fn obey(&mut self, version: u64, pressures: &[u32]) -> bool
        ensures { FollowsWire self.old (Event.Obey version pressures.now) self.new (Ok result) }
    {
        if version <= self.version {
            return false;
        }
        if pressures.len() != self.resources {
            return false;
        }
        self.version = version;
        true
    }
}
