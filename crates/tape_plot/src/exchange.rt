// What is drawn of an exchange.
ghost use Rattle.std.specs.Prelude.{◌≡◌};

use crate::clock::Clock;
use crate::flow::Flow;
use crate::mark::Mark;
use flow_notes::Note;
use io_ports::NoMemory;
use std::alloc::Global;

/// The nine octets before a frame's payload (RFC 9113 section 4.1).
const FRAME_HEAD: u64 = 9;

/// The connections of a relay's pair: the octets of the one go to the other's write buffer.
#[derive(Clone, Copy, PartialEq, Eq)]
pub struct Relay {
    pub client: u32,
    pub cluster: u32,
}

/// Octets that come to the write buffer of a connection.
#[derive(Clone, Copy, PartialEq, Eq)]
pub struct Fill {
    pub conn: u32,
    pub n: u64,
}

impl Relay {
    ghost use Rattle.std.specs.Prelude.{◌≡◌, Some};
    ghost use Rattle.tape_plot.specs.Kept as spec;

    /// The connection that a flow goes to.
    pub fn goes_to(self, back: bool) -> u32
        ensures { Some result ≡ spec.goes_to (Some self) back }
    {
        if back { self.client } else { self.cluster }
    }
}

/// The two flows of an exchange, and its doom.
#[derive(Drop)]
pub struct Exchange {
    pub request: Flow,
    pub response: Flow,
    /// Where it is a relay's pair, whose octets pass no buffer of their own.
    pub relay: Option<Relay>,
    pub doom: Option<Mark>,
}

impl Exchange {
    ghost use Rattle.std.specs.Prelude.{◌≡◌, None, if◌then◌else◌, IfOk, OnOk};
    ghost use Rattle.tape_plot.specs.Goes.{DoomsBoth, ExchangeFills, ExchangeGoes, ExchangeStays, HandsOn, IsArrival, IsFrame, IsNew, Starts, framed_by};
    ghost use Rattle.tape_plot.specs.Standing.{flow_of};

    /// Before its first note. Takes no memory.
    pub fn new(alloc: Global) -> Self
        ensures { IsNew result }
    {
        Exchange {
            request: Flow::new(alloc),
            response: Flow::new(alloc),
            relay: None,
            doom: None,
        }
    }

    /// The flow of its response, or of its request.
    pub fn flow(&self, back: bool) -> &Flow
        ensures { result.now ≡ flow_of self.now back }
    {
        if back { &self.response } else { &self.request }
    }

    /// Goes on with a note of it, of the present dispatch. Answers what the note brings into a write buffer.
    pub fn note(&mut self, note: &Note, clock: &Clock) -> Result<Option<Fill>, NoMemory>
        ensures goes { OnOk result (ExchangeGoes self.old note.now clock.now self.new) }
        ensures fills { IfOk result (ExchangeFills self.old note.now) }
    {
        match note {
            Note::Start {
                conn,
                stream,
                to,
                ..
            } => {
                self.start(*conn, *stream, *to);
                Ok(None)
            }
            Note::Arrive { flow, octets } => {
                self.arrive(note, flow.back, octets.len() as u64, clock)
            }
            Note::Frame { conn, flow, .. } => self.frame(note, flow.back, *conn, clock),
            Note::Move { flow, .. } => self.pass(note, flow.back, clock),
            Note::Pause { flow, .. } => self.pass(note, flow.back, clock),
            Note::Resume { flow, .. } => self.pass(note, flow.back, clock),
            Note::Doom { .. } => self.drop_all(clock),
            _ => Ok(None),
        }
    }

    // An exchange without a stream is a relay's pair.
    fn start(&mut self, conn: u32, stream: u32, to: u32)
        ensures { Starts self.old conn stream to self.new }
    {
        if stream == 0 {
            self.relay = Some(Relay {
                client: conn,
                cluster: to,
            });
        }
    }

    // Octets enter the receive buffer, or of a relay's pair the write buffer that they go to.
    fn arrive(
        &mut self,
        note: &Note,
        back: bool,
        n: u64,
        clock: &Clock,
    ) -> Result<Option<Fill>, NoMemory>
        requires { IsArrival note.now back n }
        ensures goes { OnOk result (ExchangeGoes self.old note.now clock.now self.new) }
        ensures fills { IfOk result (ExchangeFills self.old note.now) }
    {
        match self.relay {
            Some(relay) => {
                let conn = relay.goes_to(back);
                Ok(Some(Fill { conn, n }))
            }
            None => self.pass(note, back, clock),
        }
    }

    // Octets leave a flow in a frame.
    fn frame(
        &mut self,
        note: &Note,
        back: bool,
        conn: u32,
        clock: &Clock,
    ) -> Result<Option<Fill>, NoMemory>
        requires { IsFrame note.now back conn }
        ensures goes { OnOk result (ExchangeGoes self.old note.now clock.now self.new) }
        ensures fills { IfOk result (ExchangeFills self.old note.now) }
    {
        let taken = self.hand(note, back, clock)?;
        let Some(n) = taken.checked_add(FRAME_HEAD) else {
            return Err(NoMemory);
        };
        Ok(Some(Fill { conn, n }))
    }

    // A note of one of its flows, which brings nothing into a write buffer.
    fn pass(&mut self, note: &Note, back: bool, clock: &Clock) -> Result<Option<Fill>, NoMemory>
        ensures goes { OnOk result (HandsOn self.old back note.now clock.now self.new) }
        ensures fills { IfOk result (λ fill. fill ≡ None) }
    {
        self.hand(note, back, clock)?;
        Ok(None)
    }

    // A note of the response where `back` says so, else of the request. Answers how many octets leave that flow in a frame.
    fn hand(&mut self, note: &Note, back: bool, clock: &Clock) -> Result<u64, NoMemory>
        ensures goes { OnOk result (HandsOn self.old back note.now clock.now self.new) }
        ensures taken { IfOk result (λ taken. taken ≡ framed_by note.now (if back then self.old.response.held.levels.items else self.old.request.held.levels.items)) }
    {
        if back {
            self.response.note(note, clock)
        } else {
            self.request.note(note, clock)
        }
    }

    // It is given up: all its octets are dropped.
    fn drop_all(&mut self, clock: &Clock) -> Result<Option<Fill>, NoMemory>
        ensures goes { OnOk result (DoomsBoth self.old clock.now self.new) }
        ensures fills { IfOk result (λ fill. fill ≡ None) }
    {
        self.request.drop_all(clock)?;
        self.response.drop_all(clock)?;
        Ok(None)
    }

    /// Its doom is marked, unless it is already.
    pub fn mark_doom(&mut self, mark: Mark)
        ensures { ExchangeStays self.old self.new }
    {
        if self.doom.is_none() {
            self.doom = Some(mark);
        }
    }
}
