// Events: what each does before anything is run.
ghost use Rattle.std.specs.Prelude.{◌≡◌, ◌+◌, ◌∷◌, [], if◌then◌else◌, IfOk, OnOk, true};
ghost use Rattle.plain_core.specs.Carries.{IsOverrun, Lives};
ghost use Rattle.plain_core.specs.Noting.{AppendsNotes, begin_notes, turn_note};
ghost use Rattle.plain_core.specs.Runs.{CutsTurn, Opens};
ghost use Rattle.plain_core.specs.Stands.{CanTake};
ghost use Rattle.plain_core.specs.declared.agenda.Task.TheVariants as task;

use crate::agenda::Task;
use crate::dooms::note_doom;
use crate::flows::request;
use crate::plain::PlainCore;
use exchange_core::Received;
use flow_gate::BufferId;
use flow_notes::{Cause, Event, Note, Notes, PlainEvent};
use io_ports::{NoMemory, Octets};

/// The greatest number of a dispatch.
const LAST_TURN: u64 = (1 << 63) - 1;

/// A peer sent more than its window (RFC 9113 section 7).
const FLOW_CONTROL_ERROR: u32 = 3;

/// A peer needs its stream no more (RFC 9113 section 7).
const CANCEL: u32 = 8;

impl PlainCore {
    // The event's own effect, with its notes.
    pub(crate) fn take_event(&mut self, event: &Event, notes: &mut Notes) -> Result<(), NoMemory>
        requires { CanTake self.old event.now notes.old }
        ensures ok { OnOk result (Opens self.old notes.old event.now self.new notes.new) }
        ensures cut { CutsTurn self.old notes.old event.now notes.new }
    {
        match event {
            Event::Plain(PlainEvent::Begin { stream }) => self.begin(*stream, notes),
            Event::Plain(PlainEvent::Pair { first, second }) => self.pair(*first, *second, notes),
            Event::Plain(PlainEvent::Body { stream, octets }) => self.body(*stream, octets, notes),
            Event::Plain(PlainEvent::Finish { stream }) => self.finish(*stream, notes),
            Event::Plain(PlainEvent::Cut { stream }) => self.cut(*stream, notes),
            Event::Plain(PlainEvent::Room { n }) => self.room(*n, notes),
            _ => unreachable!(),
        }
    }

    // A stream begins.
    fn begin(&mut self, stream: u32, notes: &mut Notes) -> Result<(), NoMemory>
        requires { CanTake self.old (Event.Plain (PlainEvent.Begin stream)) notes.old }
        ensures ok { OnOk result (Opens self.old notes.old (Event.Plain (PlainEvent.Begin stream)) self.new notes.new) }
        ensures cut { CutsTurn self.old notes.old (Event.Plain (PlainEvent.Begin stream)) notes.new }
    {
        let held = self.flows.begin(stream, &self.config)?;
        let number = self.open_turn()?;
        note_turn(number, PlainEvent::Begin { stream }, notes)?;
        note_begin(stream, held, notes)
    }

    // The second stream ends early once the first one's end is framed.
    fn pair(&mut self, first: u32, second: u32, notes: &mut Notes) -> Result<(), NoMemory>
        requires { CanTake self.old (Event.Plain (PlainEvent.Pair first second)) notes.old }
        ensures ok { OnOk result (Opens self.old notes.old (Event.Plain (PlainEvent.Pair first second)) self.new notes.new) }
        ensures cut { CutsTurn self.old notes.old (Event.Plain (PlainEvent.Pair first second)) notes.new }
    {
        self.pairs.insert(u64::from(first), u64::from(second))?;
        let number = self.open_turn()?;
        note_turn(number, PlainEvent::Pair { first, second }, notes)
    }

    // Octets arrive, unless the receive buffer has no room for them.
    fn body(&mut self, stream: u32, octets: &Octets, notes: &mut Notes) -> Result<(), NoMemory>
        requires { CanTake self.old (Event.Plain (PlainEvent.Body stream octets.now)) notes.old }
        ensures ok { OnOk result (Opens self.old notes.old (Event.Plain (PlainEvent.Body stream octets.now)) self.new notes.new) }
        ensures cut { CutsTurn self.old notes.old (Event.Plain (PlainEvent.Body stream octets.now)) notes.new }
    {
        let event = PlainEvent::Body {
            stream,
            octets: Octets::from_slice(self.alloc, octets.as_slice())?,
        };
        let exchange = u64::from(stream);
        match self.flows.receive(exchange, octets)? {
            Received::Arrived => {
                let flow = request(exchange);
                let octets = Octets::from_slice(self.alloc, octets.as_slice())?;
                let number = self.open_turn()?;
                self.begin_run(flow)?;
                note_turn(number, event, notes)?;
                notes.push(Note::Arrive { flow, octets })
            }
            Received::TooMany => self.overrun(exchange, event, notes),
            Received::NotLive => {
                let number = self.open_turn()?;
                note_turn(number, event, notes)
            }
        }
    }

    // More came than the receive buffer has room for.
    fn overrun(
        &mut self,
        exchange: u64,
        event: PlainEvent,
        notes: &mut Notes,
    ) -> Result<(), NoMemory>
        requires take { CanTake self.old (Event.Plain event) notes.old }
        requires lives { Lives self.old.flows exchange true }
        requires over { IsOverrun self.old.flows exchange event }
        ensures ok { OnOk result (Opens self.old notes.old (Event.Plain event) self.new notes.new) }
        ensures cut { CutsTurn self.old notes.old (Event.Plain event) notes.new }
    {
        let cause = Cause::StreamError {
            code: FLOW_CONTROL_ERROR,
        };
        let gives_up = self.give_up(exchange, cause);
        let number = self.open_turn()?;
        note_turn(number, event, notes)?;
        note_doom(gives_up, exchange, cause, notes)
    }

    // The stream's end came.
    fn finish(&mut self, stream: u32, notes: &mut Notes) -> Result<(), NoMemory>
        requires { CanTake self.old (Event.Plain (PlainEvent.Finish stream)) notes.old }
        ensures ok { OnOk result (Opens self.old notes.old (Event.Plain (PlainEvent.Finish stream)) self.new notes.new) }
        ensures cut { CutsTurn self.old notes.old (Event.Plain (PlainEvent.Finish stream)) notes.new }
    {
        let exchange = u64::from(stream);
        if self.flows.is_live(exchange) {
            self.flows.finish(exchange)?;
            let number = self.open_turn()?;
            self.begin_run(request(exchange))?;
            return note_turn(number, PlainEvent::Finish { stream }, notes);
        }
        let number = self.open_turn()?;
        note_turn(number, PlainEvent::Finish { stream }, notes)
    }

    // The peer resets the stream.
    fn cut(&mut self, stream: u32, notes: &mut Notes) -> Result<(), NoMemory>
        requires { CanTake self.old (Event.Plain (PlainEvent.Cut stream)) notes.old }
        ensures ok { OnOk result (Opens self.old notes.old (Event.Plain (PlainEvent.Cut stream)) self.new notes.new) }
        ensures cut { CutsTurn self.old notes.old (Event.Plain (PlainEvent.Cut stream)) notes.new }
    {
        let cause = Cause::PeerReset { code: CANCEL };
        let exchange = u64::from(stream);
        let gives_up = self.give_up(exchange, cause);
        let number = self.open_turn()?;
        note_turn(number, PlainEvent::Cut { stream }, notes)?;
        note_doom(gives_up, exchange, cause, notes)
    }

    // Octets leave the write buffer, and its watchers are told where it has drained.
    fn room(&mut self, n: u32, notes: &mut Notes) -> Result<(), NoMemory>
        requires { CanTake self.old (Event.Plain (PlainEvent.Room n)) notes.old }
        ensures ok { OnOk result (Opens self.old notes.old (Event.Plain (PlainEvent.Room n)) self.new notes.new) }
        ensures cut { CutsTurn self.old notes.old (Event.Plain (PlainEvent.Room n)) notes.new }
    {
        let left = n.min(self.flows.conn.write.len());
        if left == 0 {
            let number = self.open_turn()?;
            return note_turn(number, PlainEvent::Room { n }, notes);
        }
        let drained = self.flows.leave(left);
        let number = self.open_turn()?;
        self.begin_telling(drained)?;
        note_turn(number, PlainEvent::Room { n }, notes)?;
        notes.push(Note::Out { conn: 0, n: left })
    }

    // The watchers of the write buffer are told next, where it has drained.
    fn begin_telling(&mut self, drained: bool) -> Result<(), NoMemory>
        ensures agenda { OnOk result (self.new.agenda ≡ (if drained then task.Tell 0 ∷ self.old.agenda else self.old.agenda)) }
        ensures rest { self.new ≡ record self.old { agenda = self.new.agenda } }
    {
        if !drained {
            return Ok(());
        }
        self.agenda.push(Task::Tell { conn: 0 })
    }

    // Counts a dispatch, and begins its rounds.
    fn open_turn(&mut self) -> Result<u64, NoMemory>
        ensures number { IfOk result (λ number. number ≡ self.old.turn + 1) }
        ensures turn { OnOk result (self.new.turn ≡ self.old.turn + 1) }
        ensures agenda { OnOk result (self.new.agenda ≡ task.Round ∷ self.old.agenda) }
        ensures rest { self.new ≡ record self.old { turn = self.new.turn; agenda = self.new.agenda } }
    {
        if self.turn >= LAST_TURN {
            return Err(NoMemory);
        }
        self.agenda.push(Task::Round)?;
        self.turn += 1;
        Ok(self.turn)
    }
}

// Writes a turn note.
fn note_turn(number: u64, event: PlainEvent, notes: &mut Notes) -> Result<(), NoMemory>
    ensures { AppendsNotes notes.old (turn_note number event ∷ []) notes.new result }
{
    notes.push(Note::Turn {
        number,
        event: Event::Plain(event),
    })
}

// Writes a start, and the pause of a flow that is held back.
fn note_begin(stream: u32, held: bool, notes: &mut Notes) -> Result<(), NoMemory>
    ensures { AppendsNotes notes.old (begin_notes stream held) notes.new result }
{
    let exchange = u64::from(stream);
    notes.push(Note::Start {
        exchange,
        conn: 0,
        stream,
        to: 0,
    })?;
    if held {
        notes.push(Note::Pause {
            flow: request(exchange),
            buffer: BufferId::Write(0),
        })?;
    }
    Ok(())
}
