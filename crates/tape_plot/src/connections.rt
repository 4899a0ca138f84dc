// What is drawn of all connections.
ghost use Rattle.std.specs.Prelude.{◌≡◌, OnOk};

use crate::clock::Clock;
use crate::connection::Connection;
use crate::exchange::Fill;
use flow_notes::Note;
use io_ports::NoMemory;
use std::alloc::Global;
use std::collections::BTreeMap;

/// The connections that a note was told of, by their numbers.
#[derive(Drop)]
pub struct Connections {
    alloc: Global,
    pub items: BTreeMap<u32, Connection>,
}

impl Connections {
    ghost use Rattle.std.specs.BTreeMap.{get};
    ghost use Rattle.std.specs.Ordering.{nat_cmp};
    ghost use Rattle.std.specs.Prelude.{◌≡◌, [], IsSome, OnOk};
    ghost use Rattle.tape_plot.specs.Goes.{ConnectionsFill, ConnectionsGo, ConnectionsStay};
    ghost use Rattle.tape_plot.specs.Subjects as spec;
    ghost use Rattle.tape_plot.specs.declared.subject.Subject.TheVariants as subject;

    /// Before the first note. Takes no memory.
    pub fn new(alloc: Global) -> Self
        ensures { result.items.entries ≡ [] }
    {
        Connections {
            alloc,
            items: BTreeMap::new(alloc),
        }
    }

    /// Goes on with a note of a connection, of the present dispatch.
    pub fn note(&mut self, conn: u32, note: &Note, clock: &Clock) -> Result<(), NoMemory>
        requires { spec.subject_of note.now ≡ subject.Connection conn }
        ensures { OnOk result (ConnectionsGo self.old note.now clock.now self.new) }
    {
        self.know(conn)?;
        let Some(connection) = self.items.get_mut(&conn) else {
            unreachable!()
        };
        connection.note(note, clock)
    }

    /// Octets come to a write buffer, if any do, by a note of an exchange of the present dispatch.
    pub fn fill(&mut self, fill: Option<Fill>, clock: &Clock) -> Result<(), NoMemory>
        ensures { OnOk result (ConnectionsFill self.old fill clock.now self.new) }
    {
        let Some(fill) = fill else {
            return Ok(());
        };
        self.know(fill.conn)?;
        let Some(connection) = self.items.get_mut(&fill.conn) else {
            unreachable!()
        };
        connection.fill(fill.n, clock)
    }

    // The connection is there: one that nothing was told of yet is new.
    fn know(&mut self, conn: u32) -> Result<(), NoMemory>
        ensures same { OnOk result (ConnectionsStay self.old self.new) }
        ensures there { OnOk result (IsSome (get nat_cmp self.new.items conn)) }
    {
        if self.items.contains_key(&conn) {
            return Ok(());
        }
        self.items.insert(conn, Connection::new(self.alloc))?;
        Ok(())
    }
}
