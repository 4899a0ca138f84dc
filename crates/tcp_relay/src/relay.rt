// The relay and its dispatch.
ghost use Rattle.std.specs.Prelude.{◌≡◌, ◌≢◌, ◌∷◌, ℕ, Err, IfOk, List, None, OnOk, [], false, true};
ghost use Rattle.tcp_relay.specs.Board.{board_of, held_for};
ghost use Rattle.tcp_relay.specs.Effects.{notes_of};
ghost use Rattle.tcp_relay.specs.Interests.{TellsInterests};
ghost use Rattle.tcp_relay.specs.Noting.{AppendsNotes};
ghost use Rattle.tcp_relay.specs.Rests.{GoesOnFrom, RefusesFrom, Rests, ShowsClosing, ShowsConn, ShowsFront, ShowsOut, ShowsPeer, ShowsReads, StopsFrom};
ghost use Rattle.tcp_relay.specs.Turns.{CutsTurn, HasFailed, RefusesPaused, Steps, Turns, Withholds, turn_notes};

use crate::effect::Effect;
use crate::fault::RelayFault;
use crate::interests::{Interests, interests_of};
use crate::noting::note_effect;
use crate::table::Table;
use flow_notes::{Event, Note, Notes};
use io_ports::NoMemory;
use std::alloc::Global;

/// The most dispatches of a relay.
const MOST_TURNS: u64 = 9_223_372_036_854_775_807;

/// Pairs of connections, each a client's and a cluster's. Octets that are read from the one go into the write buffer of the
/// other. A connection isn't read while the write buffer that it feeds is above its limit.
#[derive(Drop)]
pub struct Relay {
    alloc: Global,
    pub(crate) turn: u64,
    pub(crate) table: Table,
    pub(crate) failed: bool,
}

impl Relay {
    /// A relay without connections, whose write buffers have this limit in octets, 0 for none. Takes no memory.
    pub fn new(alloc: Global, limit: u32) -> Self
        ensures { (names : List (List ℕ)) → Rests limit names result [] }
    {
        Relay {
            alloc,
            turn: 0,
            table: Table::new(alloc, limit),
            failed: false,
        }
    }

    /// Dispatches one event, and appends its notes. An event that reads a connection whose flow is paused is refused with
    /// `Paused`: nothing has changed then, and no note was written. After running out of memory the notes so far stand, and each
    /// later call answers `Failed`.
    pub fn dispatch(&mut self, event: &Event, notes: &mut Notes) -> Result<(), RelayFault>
        ensures ok { OnOk result (GoesOnFrom self.old notes.old event.now self.new notes.new) }
        ensures paused { RefusesFrom self.old notes.old event.now result self.new notes.new }
        ensures cut { result ≡ Err RelayFault.NoMemory → StopsFrom self.old notes.old event.now notes.new }
        ensures fails { result ≡ Err RelayFault.NoMemory → HasFailed self.new true }
        ensures failed { HasFailed self.old true → (result ≡ Err RelayFault.Failed) × (notes.new ≡ notes.old) }
        ensures well { HasFailed self.old false → result ≢ Err RelayFault.Failed }
    {
        self.attempt(event, notes)
    }

    /// Dispatches one event as `dispatch` does, and makes no notes: for a relay of which nobody keeps the tape, as a live one. It
    /// stands then for the tape with the notes that `dispatch` would have made. Answers whether the interests are as before: with
    /// `Kept` no connection has come, and each is open, and reads, as it was.
    pub fn carry_out(&mut self, event: &Event) -> Result<Interests, RelayFault>
        ensures ok { OnOk result (GoesOnFrom self.old [] event.now self.new (turn_notes self.old event.now)) }
        ensures paused { RefusesFrom self.old [] event.now result self.new [] }
        ensures fails { result ≡ Err RelayFault.NoMemory → HasFailed self.new true }
        ensures failed { HasFailed self.old true → result ≡ Err RelayFault.Failed }
        ensures well { HasFailed self.old false → result ≢ Err RelayFault.Failed }
        ensures interests { IfOk result (λ interests. TellsInterests self.old event.now interests) }
    {
        match self.take(event) {
            Ok(effect) => Ok(interests_of(event, effect)),
            Err(fault) => Err(fault),
        }
    }

    // A dispatch, in terms of the connections alone.
    fn attempt(&mut self, event: &Event, notes: &mut Notes) -> Result<(), RelayFault>
        ensures ok { OnOk result (Turns self.old notes.old event.now self.new notes.new) }
        ensures paused { HasFailed self.old false → RefusesPaused self.old notes.old event.now result self.new notes.new }
        ensures cut { result ≡ Err RelayFault.NoMemory → CutsTurn self.old notes.old event.now notes.new }
        ensures fails { result ≡ Err RelayFault.NoMemory → HasFailed self.new true }
        ensures failed { HasFailed self.old true → (result ≡ Err RelayFault.Failed) × (notes.new ≡ notes.old) }
        ensures well { HasFailed self.old false → result ≢ Err RelayFault.Failed }
    {
        let effect = match self.take(event) {
            Ok(effect) => effect,
            Err(fault) => return Err(fault),
        };
        match self.note(event, effect, notes) {
            Ok(()) => Ok(()),
            Err(NoMemory) => {
                self.failed = true;
                Err(RelayFault::NoMemory)
            }
        }
    }

    // The event has its effect, if it may have it.
    fn take(&mut self, event: &Event) -> Result<Effect, RelayFault>
        ensures ok { IfOk result (λ done. Steps self.old event.now done self.new) }
        ensures reads { OnOk result (held_for event.now (board_of self.old.table) ≡ None) }
        ensures paused { HasFailed self.old false → Withholds (held_for event.now (board_of self.old.table)) self.old result self.new }
        ensures fails { result ≡ Err RelayFault.NoMemory → HasFailed self.new true }
        ensures failed { HasFailed self.old true → result ≡ Err RelayFault.Failed }
        ensures well { HasFailed self.old false → result ≢ Err RelayFault.Failed }
    {
        if self.failed {
            return Err(RelayFault::Failed);
        }
        if let Some(held) = self.held_back(event) {
            return Err(RelayFault::Paused { held });
        }
        match self.step(event) {
            Ok(effect) => Ok(effect),
            Err(NoMemory) => {
                self.failed = true;
                Err(RelayFault::NoMemory)
            }
        }
    }

    // What waits where a read's octets would go to, if the flow is paused.
    fn held_back(&self, event: &Event) -> Option<u32>
        ensures { result ≡ held_for event.now (board_of self.now.table) }
    {
        match event {
            Event::Read { conn, .. } => self.table.held_behind(*conn),
            _ => None,
        }
    }

    // One turn more, with the event's effect.
    fn step(&mut self, event: &Event) -> Result<Effect, NoMemory>
        ensures { IfOk result (λ done. Steps self.old event.now done self.new) }
    {
        if self.turn >= MOST_TURNS {
            return Err(NoMemory);
        }
        let effect = self.table.take(event)?;
        self.turn += 1;
        Ok(effect)
    }

    // The notes of the turn that was made last.
    fn note(&self, event: &Event, effect: Effect, notes: &mut Notes) -> Result<(), NoMemory>
        ensures { AppendsNotes notes.old (Note.Turn self.now.turn event.now ∷ notes_of event.now effect) notes.new result }
    {
        notes.push(Note::Turn {
            number: self.turn,
            event: event.copied(self.alloc)?,
        })?;
        note_effect(self.alloc, event, effect, notes)
    }

    /// A prefix of what waits for the connection, nonempty where that is; empty for one that isn't known.
    pub fn out_front(&self, conn: u32) -> &[u8]
        ensures { ShowsFront self.now conn result.now }
    {
        self.table.front(conn)
    }

    /// Whether octets of the connection may be read: it is in a live pair, and its flow isn't paused.
    pub fn reads(&self, conn: u32) -> bool
        ensures { ShowsReads self.now conn result }
    {
        self.table.reads(conn)
    }

    /// The other connection of the connection's pair, if it is in a live one: its octets go there.
    pub fn peer(&self, conn: u32) -> Option<u32>
        ensures { ShowsPeer self.now conn result }
    {
        self.table.peer(conn)
    }

    /// Whether the relay has closed the connection, which was accepted or joined.
    pub fn closing(&self, conn: u32) -> bool
        ensures { ShowsClosing self.now conn result }
    {
        !self.table.is_open(conn)
    }

    /// The least number above `after` of a connection that is open or has octets that wait. None exactly where there is none.
    pub fn conn_after(&self, after: u32) -> Option<u32>
        ensures { ShowsConn self.now after result }
    {
        self.table.conn_after(after)
    }

    /// The least number above `after` of a connection that has octets that wait. None exactly where there is none.
    pub fn out_after(&self, after: u32) -> Option<u32>
        ensures { ShowsOut self.now after result }
    {
        self.table.out_after(after)
    }
}
