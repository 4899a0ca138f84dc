// The lanes of all buffers, kept note by note.
ghost use Rattle.flow_rules.specs.declared.ids.FlowId.{FlowId};
ghost use Rattle.std.specs.Prelude.{◌≡◌, ℕ, length};
ghost use Rattle.tape_laws.specs.History.{History, NoMark};
ghost use Rattle.tape_laws.specs.Plain.{plain_setup};
ghost use Rattle.tape_laws.specs.PlainTape.{IsPlainLawful};
ghost use Rattle.tape_laws.specs.Setup.{Setup};
ghost use Rattle.tape_laws.specs.World.{out, place};
ghost use Rattle.tape_laws.specs.declared.PlainLimits.{PlainLimits};
ghost use Rattle.tape_plot.specs.Levels.{at, places, written};
ghost use Rattle.tape_plot.specs.Tops.{AreFromTop, HaveStreams};

use crate::clock::Clock;
use crate::connections::Connections;
use crate::exchanges::Exchanges;
use crate::mark::Mark;
use crate::subject::{Subject, subject_of};
use flow_notes::Note;
use io_ports::NoMemory;
use std::alloc::Global;

/// What is drawn of the exchanges and the connections of a tape.
#[derive(Drop)]
pub struct Levels {
    pub exchanges: Exchanges,
    pub connections: Connections,
}

impl Levels {
    ghost use Rattle.std.specs.Prelude.{◌≡◌, [], ℕ, OnOk};
    ghost use Rattle.tape_plot.specs.Goes.{LevelsGo, LevelsStay};
    ghost use Rattle.tape_plot.specs.Kept.{LevelsAre};

    /// Before the first note. Takes no memory.
    pub fn new(alloc: Global) -> Self
        ensures { (first : ℕ) → LevelsAre result first [] }
    {
        Levels {
            exchanges: Exchanges::new(alloc),
            connections: Connections::new(alloc),
        }
    }

    /// Goes on with a note of the present dispatch.
    pub fn note(&mut self, note: &Note, clock: &Clock) -> Result<(), NoMemory>
        ensures { OnOk result (LevelsGo self.old note.now clock.now self.new) }
    {
        match subject_of(note) {
            Subject::Exchange(exchange) => {
                let fill = self.exchanges.note(exchange, note, clock)?;
                self.connections.fill(fill, clock)
            }
            Subject::Connection(conn) => self.connections.note(conn, note, clock),
            Subject::Nothing => Ok(()),
        }
    }

    /// The doom of an exchange is marked, unless it is already.
    pub fn mark_doom(&mut self, exchange: u64, mark: Mark) -> Result<(), NoMemory>
        ensures { OnOk result (LevelsStay self.old self.new) }
    {
        self.exchanges.mark_doom(exchange, mark)
    }
}

/// What is told from a tape alone is what lies in the buffers, whatever the stages of its flows are: where octets are framed from the last
/// place that octets came to, and each exchange has a stream.
pub fn lengths()
    ensures places { (setup : Setup NoMark) (h : History NoMark) → AreFromTop setup h
        → (f : FlowId) (p : ℕ) → at (places f h) p ≡ length (place setup f p h) }
    ensures writes { (setup : Setup NoMark) (h : History NoMark) → AreFromTop setup h
        → (c : ℕ) → written c h ≡ length (out setup c h) }
{}

/// So it is on each lawful tape of a plain session: there octets are framed from the last place that octets came to.
pub fn plain_lengths()
    ensures places { (limits : PlainLimits) (h : History NoMark) → IsPlainLawful limits h → HaveStreams h
        → (f : FlowId) (p : ℕ) → at (places f h) p ≡ length (place (plain_setup limits) f p h) }
    ensures writes { (limits : PlainLimits) (h : History NoMark) → IsPlainLawful limits h → HaveStreams h
        → (c : ℕ) → written c h ≡ length (out (plain_setup limits) c h) }
{}
