// A wire session and its dispatch.
ghost use Rattle.proxy_config.specs.Ranges.{IsInRange};
ghost use Rattle.std.specs.Prelude.{◌≡◌, ◌≢◌, ◌++◌, ◌+◌, ◌<◌, ◌∷◌, [], Err, IfOk, OnErr, OnOk, false, not, true, ℕ};
ghost use Rattle.flow_notes.specs.declared.notes.Note.TheVariants as note;
ghost use Rattle.wire_state.specs.Courses.{row_of};
ghost use Rattle.wire_state.specs.Sound.{IsSound, is_open_at};
ghost use Rattle.overload_core.specs.ActionStates.{is_saturated};
ghost use Rattle.worker_core.specs.Dispatching.{Breaks, Dispatches, Tells, obeyed_after};
ghost use Rattle.worker_core.specs.Fronts.{IsFront, IsLeastAbove, has_octets, is_there, octets_at};
ghost use Rattle.wire_state.specs.Worlds.{Follows, Rests};

use flow_notes::{Event, Note, Notes};
use io_ports::NoMemory;
use plain_core::CoreFault;
use proxy_config::Config;
use std::alloc::Global;
use wire_load::Action;
use wire_state::{CarryOut, WireCore};

/// The greatest number of a dispatch.
const LAST_TURN: u64 = (1 << 63) - 1;

/// The core of wire sessions.
#[derive(Drop)]
pub struct WireSession {
    core: WireCore,
    /// The number of the last dispatch, 0 before the first.
    turn: u64,
    /// The version of the published state that was obeyed last, 0 before the first.
    obeyed: u64,
    /// Whether a dispatch ran out of memory: then each later one is refused.
    failed: bool,
}

impl WireSession {
    /// The core before its session's first event. Refused only for lack of memory.
    pub fn new(alloc: Global, config: Config) -> Result<Self, NoMemory>
        requires { IsInRange config }
        ensures sound { IfOk result (λ session. IsSound session.core) }
        ensures well { IfOk result (λ session. session.failed ≡ false) }
        ensures turn { IfOk result (λ session. session.turn ≡ 0) }
        ensures obeyed { IfOk result (λ session. session.obeyed ≡ 0) }
        ensures new { IfOk result (λ session. (session.core.config ≡ config) × (session.core.conns.entries ≡ [])) }
        ensures octets { IfOk result (λ session. Rests session.core.config.limits session.core.conns session.core.flows session.core.links []) }
    {
        Ok(WireSession {
            core: WireCore::new(alloc, config)?,
            turn: 0,
            obeyed: 0,
            failed: false,
        })
    }

    /// The configuration.
    pub fn config(&self) -> &Config
        ensures { result.now ≡ self.now.core.config }
    {
        &self.core.config
    }

    /// Dispatches one event, and appends its notes. After running out of memory the notes so far stand, and each later call answers
    /// `Failed`, which comes only then.
    pub fn dispatch<D: CarryOut>(
        &mut self,
        carry: &D,
        event: &Event,
        notes: &mut Notes,
    ) -> Result<(), CoreFault>
        requires { self.old.failed ≡ false → IsSound self.old.core }
        ensures ok { OnOk result (Dispatches self.old notes.old event.now self.new notes.new) }
        ensures cut { Breaks self.old notes.old event.now notes.new }
        ensures fails { OnErr result (self.new.failed ≡ true) }
        ensures failed { self.old.failed ≡ true → (result ≡ Err CoreFault.Failed) × (notes.new ≡ notes.old) }
        ensures well { self.old.failed ≡ false → result ≢ Err CoreFault.Failed }
    {
        if self.failed {
            return Err(CoreFault::Failed);
        }
        match self.carry_out(carry, event, notes) {
            Ok(()) => Ok(()),
            Err(NoMemory) => {
                self.failed = true;
                Err(CoreFault::NoMemory)
            }
        }
    }

    // A whole dispatch, with the next number.
    #[tactic(auto, using(crate::proofs::Turning::told))]
    fn carry_out<D: CarryOut>(
        &mut self,
        carry: &D,
        event: &Event,
        notes: &mut Notes,
    ) -> Result<(), NoMemory>
        requires { IsSound self.old.core }
        ensures turn { OnOk result (self.new.turn ≡ self.old.turn + 1) }
        ensures notes { OnOk result (Tells (self.old.turn + 1) event.now notes.old notes.new) }
        ensures sound { OnOk result (IsSound self.new.core) }
        ensures obeyed { OnOk result (self.new.obeyed ≡ obeyed_after event.now self.old.obeyed) }
        ensures cut { Breaks self.old notes.old event.now notes.new }
        ensures well { self.new.failed ≡ self.old.failed }
        ensures octets { OnOk result (Follows self.old.core notes.old event.now self.new.core notes.new) }
    {
        if self.turn >= LAST_TURN {
            return Err(NoMemory);
        }
        self.turn += 1;
        note_turn(self.core.alloc, self.turn, event, notes)?;
        carry.carry_out(&mut self.core, event, notes)?;
        self.obeyed = version_after(event, self.obeyed);
        Ok(())
    }

    /// A prefix of a connection's write buffer, nonempty where that is; empty for a connection that isn't there.
    pub fn out_front(&self, conn: u32) -> &[u8]
        ensures { IsFront result.now (octets_at conn self.now.core) }
    {
        match self.core.conns.get(&conn) {
            Some(conn) => conn.outlet.front(),
            None => &[],
        }
    }

    /// The least number above `after` in the set of connections with octets in their write buffers.
    pub fn out_after(&self, after: u32) -> Option<u32>
        ensures { IsLeastAbove after (has_octets self.now.core) result }
    {
        self.core.outs.next_above(after)
    }

    /// The least number above `after` of a connection that is there.
    pub fn conn_after(&self, after: u32) -> Option<u32>
        ensures { IsLeastAbove after (is_there self.now.core) result }
    {
        self.core.conns.next_above(after)
    }

    /// Whether the connection, which came, isn't open any more.
    pub fn closing(&self, conn: u32) -> bool
        ensures { result ≡ not (is_open_at conn self.now.core) }
    {
        !self.core.is_open(conn)
    }

    /// Whether client connections are taken: false exactly where `stop_accepting` is saturated.
    pub fn takes_accepts(&self) -> bool
        ensures { result ≡ not (is_saturated self.now.core.load.actions.stop_accepting) }
    {
        !self.core.load.is_saturated(Action::StopAccepting)
    }

    /// The version of the published state that was obeyed last, 0 before the first.
    pub fn obeyed(&self) -> u64
        ensures { result ≡ self.now.obeyed }
    {
        self.obeyed
    }

    /// The route row of an exchange that began in the last dispatch: none where it didn't, or its request was refused before one
    /// was found. The rows of these exchanges, in the order of their numbers, are those of their marks (`octets` of `dispatch`).
    pub fn row(&self, exchange: u64) -> Option<u32>
        ensures { result ≡ row_of exchange self.now.core.before self.now.core.rows.items }
    {
        self.core.row(exchange)
    }
}

// The turn note.
fn note_turn(alloc: Global, number: u64, event: &Event, notes: &mut Notes) -> Result<(), NoMemory>
    ensures ok { OnOk result (notes.new ≡ notes.old ++ note.Turn number event.now ∷ []) }
    ensures err { OnErr result (notes.new ≡ notes.old) }
{
    let event = event.copied(alloc)?;
    notes.push(Note::Turn { number, event })
}

// The version that was obeyed last, once an event was carried out.
fn version_after(event: &Event, before: u64) -> u64
    ensures { result ≡ obeyed_after event.now before }
{
    match event {
        Event::Obey { version, .. } => *version,
        _ => before,
    }
}
