// The core of a worker.
ghost use Rattle.plain_core.specs.Flows.{AreLimits};
ghost use Rattle.proxy_config.specs.Ranges.{IsInRange};
ghost use Rattle.std.specs.Prelude.{◌≡◌, ◌≢◌, [], Err, IfOk, OnErr, OnOk, false, true};
ghost use Rattle.worker_core.specs.Sessions.{BreaksOff, CarriesOut, IsNew, IsNextConn, IsNextOut, LendsFront, MayTake, RestsPlain, RestsWire, StandsAt, has_failed, is_closing, takes_clients, version_of};

use crate::wire::WireSession;
use flow_notes::{Event, Notes};
use io_ports::NoMemory;
use plain_core::{CoreFault, PlainCore};
use proxy_config::Config;
use std::alloc::Global;
use tape_laws::PlainLimits;
use wire_state::CarryOut;

/// The core of a worker: it carries out one event after the other, and tells in notes what it did. It has the streams of one
/// plain session, or the connections of wire sessions.
#[derive(Drop)]
pub struct Core {
    kind: Kind,
}

/// What the sessions are.
#[derive(Drop)]
enum Kind {
    Plain(PlainCore),
    Wire(WireSession),
}

impl Core {
    /// The core before the first event of wire sessions. Refused only for lack of memory.
    pub fn new(alloc: Global, config: Config) -> Result<Self, NoMemory>
        requires { IsInRange config }
        ensures rests { IfOk result (λ core. RestsWire core.kind) }
        ensures new { IfOk result (λ core. IsNew config core.kind) }
        ensures octets { IfOk result (λ core. StandsAt core.kind []) }
    {
        Ok(Core {
            kind: Kind::Wire(WireSession::new(alloc, config)?),
        })
    }

    /// The core before the first event of a plain session. Refused only for lack of memory.
    pub fn plain(alloc: Global, limits: PlainLimits) -> Result<Self, NoMemory>
        requires { AreLimits limits }
        ensures { IfOk result (λ core. RestsPlain limits core.kind) }
    {
        Ok(Core {
            kind: Kind::Plain(PlainCore::new(alloc, limits)?),
        })
    }

    /// Dispatches one event, which `carry` carries out on wire sessions, and appends its notes. After running out of memory the notes so far stand, and each later call answers
    /// `Failed`.
    pub fn dispatch<D: CarryOut>(
        &mut self,
        carry: &D,
        event: &Event,
        notes: &mut Notes,
    ) -> Result<(), CoreFault>
        requires { MayTake self.old.kind notes.old event.now }
        ensures ok { OnOk result (CarriesOut self.old.kind notes.old event.now self.new.kind notes.new) }
        ensures cut { BreaksOff self.old.kind notes.old event.now notes.new }
        ensures fails { OnErr result (has_failed self.new.kind ≡ true) }
        ensures failed { has_failed self.old.kind ≡ true → (result ≡ Err CoreFault.Failed) × (notes.new ≡ notes.old) }
        ensures well { has_failed self.old.kind ≡ false → result ≢ Err CoreFault.Failed }
        ensures rests { RestsWire self.old.kind → OnOk result (RestsWire self.new.kind) }
    {
        match &mut self.kind {
            Kind::Plain(core) => core.dispatch(event, notes),
            Kind::Wire(core) => core.dispatch(carry, event, notes),
        }
    }

    /// A prefix of a connection's write buffer, nonempty where that is; empty for a connection that isn't there. A plain session
    /// has connection 0 alone.
    pub fn out_front(&self, conn: u32) -> &[u8]
        ensures { LendsFront self.now.kind conn result.now }
    {
        match &self.kind {
            Kind::Plain(core) if conn == 0 => core.out_front(),
            Kind::Plain(_) => &[],
            Kind::Wire(core) => core.out_front(conn),
        }
    }

    /// The least number above `after` in the core's set of connections with octets in their write buffers, as it stood at the end
    /// of the last dispatch that changed them. None exactly where there is none.
    pub fn out_after(&self, after: u32) -> Option<u32>
        ensures { IsNextOut self.now.kind after result }
    {
        match &self.kind {
            Kind::Plain(_) => None,
            Kind::Wire(core) => core.out_after(after),
        }
    }

    /// The least number above `after` of a connection that is there: it came, and wasn't lost, or closed and emptied. None exactly
    /// where there is none in the core's table.
    pub fn conn_after(&self, after: u32) -> Option<u32>
        ensures { IsNextConn self.now.kind after result }
    {
        match &self.kind {
            Kind::Plain(_) => None,
            Kind::Wire(core) => core.conn_after(after),
        }
    }

    /// Whether the core has closed a connection, which came.
    pub fn closing(&self, conn: u32) -> bool
        ensures { result ≡ is_closing self.now.kind conn }
    {
        match &self.kind {
            Kind::Plain(_) => false,
            Kind::Wire(core) => core.closing(conn),
        }
    }

    /// Whether client connections are taken: false exactly where `stop_accepting` is saturated.
    pub fn takes_accepts(&self) -> bool
        ensures { result ≡ takes_clients self.now.kind }
    {
        match &self.kind {
            Kind::Plain(_) => true,
            Kind::Wire(core) => core.takes_accepts(),
        }
    }

    /// The version of the published state that was obeyed last, 0 before the first.
    pub fn obeyed(&self) -> u64
        ensures { result ≡ version_of self.now.kind }
    {
        match &self.kind {
            Kind::Plain(_) => 0,
            Kind::Wire(core) => core.obeyed(),
        }
    }

    /// The route row of an exchange that began in the last dispatch; None where it didn't, or its request was refused before a row
    /// was found. No clause says so.
    pub fn row(&self, exchange: u64) -> Option<u32> {
        match &self.kind {
            Kind::Plain(_) => None,
            Kind::Wire(core) => core.row(exchange),
        }
    }
}
