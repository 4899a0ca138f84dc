// A session from its first octet to the end of its lines.
ghost use Rattle.std.specs.Prelude.{◌≤◌, ◌+◌};

use crate::lines::Lines;
use crate::output::flush;
use crate::player::{Player, Went};
use crate::status::Status;
use io_ports::{Failed, NoMemory, Octets, Sink, Source};
use std::alloc::Global;

/// How many octets a session has at most.
const SESSION: usize = 67_108_864;

/// How many octets a line has at most, without its newline.
pub const LINE: usize = 40_000;

/// The text is written as soon as it has so many octets, and before more is read.
const PIECE: usize = 65_536;

/// A session that is read, played and written piece by piece. Of the session and of its tape it holds a
/// piece each, and at the end the text of the summary. What grows is the core, with the streams and what
/// waits in their buffers, and what the summary tells: something of each stream and of each pause.
#[derive(Drop)]
pub struct Run<P> {
    pub lines: Lines,
    pub player: P,
    /// What isn't written yet of the tape.
    pub text: Octets,
    /// How many octets the lines had that were played.
    pub read: usize,
    /// The number of the next line.
    pub number: u32,
    ghost within: { read ≤ 67108864 },
    ghost counted: { number ≤ read + 1 },
}

impl<P: Player + Drop> Run<P> {
    ghost use Rattle.std.specs.Prelude.{◌≡◌, ◌<◌, ◌≤◌, [], ℕ, List, length, false, None, OnOk, Err};
    ghost use Rattle.io_ports.specs.Faults.{Rose};
    ghost use Rattle.session_run.specs.Held.{held_of};
    ghost use Rattle.session_run.specs.Newlines.{BeginsWithLine, has_newline};
    ghost use Rattle.session_run.specs.Kinds.{kind_of};
    ghost use Rattle.session_run.specs.Runs.{AtEnd, Begins, CausedBy, Judged, Refills, RunIs, Steps, TakesLine, Writes, to_go};

    /// Before the first octet is read.
    pub fn new(alloc: Global, lines: Lines, player: P) -> Self
        requires { held_of lines ≡ [] }
        ensures run { (config : List ℕ) → Begins (kind_of P.stands P.refuses P.can_end P.sums) player config → RunIs (kind_of P.stands P.refuses P.can_end P.sums) result config [] [] }
    {
        Run {
            lines,
            player,
            text: Octets::new(alloc),
            read: 0,
            number: 1,
        }
    }

    /// Reads and plays lines until they end, and answers how.
    pub fn play_all<S: Source, K: Sink>(&mut self, session: &mut S, out: &mut K) -> Status
        requires run { (config : List ℕ) × (read : List ℕ) × (written : List ℕ) × RunIs (kind_of P.stands P.refuses P.can_end P.sums) self.old config read written }
        ensures steps { Steps (kind_of P.stands P.refuses P.can_end P.sums) self.old self.new (S.left session.old) (S.left session.new) (K.contents out.old) (K.contents out.new) (Err result) }
        ensures caused { CausedBy (Rose (S.faults session.old) (S.faults session.new)) (Rose (K.faults out.old) (K.faults out.new)) (Err result) }
        ensures out { K.faults out.old ≤ K.faults out.new }
    {
        loop {
            if let Err(status) = self.step(session, out) {
                return status;
            }
        }
    }

    // One line, or else one read.
    fn step<S: Source, K: Sink>(&mut self, session: &mut S, out: &mut K) -> Result<(), Status>
        requires run { (config : List ℕ) × (read : List ℕ) × (written : List ℕ) × RunIs (kind_of P.stands P.refuses P.can_end P.sums) self.old config read written }
        ensures steps { Steps (kind_of P.stands P.refuses P.can_end P.sums) self.old self.new (S.left session.old) (S.left session.new) (K.contents out.old) (K.contents out.new) result }
        ensures caused { CausedBy (Rose (S.faults session.old) (S.faults session.new)) (Rose (K.faults out.old) (K.faults out.new)) result }
        ensures session { S.faults session.old ≤ S.faults session.new }
        ensures out { K.faults out.old ≤ K.faults out.new }
        ensures less { OnOk result (to_go self.new < to_go self.old) }
    {
        match self.lines.line_len() {
            Some(n) => {
                self.take_line(n)?;
                self.write_piece(out)
            }
            None => self.read_more(session, out),
        }
    }

    // Plays the line that is held.
    fn take_line(&mut self, n: usize) -> Result<(), Status>
        requires line { BeginsWithLine (held_of self.old.lines) n }
        requires run { (config : List ℕ) × (read : List ℕ) × (written : List ℕ) × RunIs (kind_of P.stands P.refuses P.can_end P.sums) self.old config read written }
        ensures takes { TakesLine (kind_of P.stands P.refuses P.can_end P.sums) self.old self.new result }
        ensures less { OnOk result (to_go self.new < to_go self.old) }
    {
        if let Some(status) = self.judge(n, 1) {
            return Err(status);
        }
        match self.player.line(&self.lines.held()[..n], &mut self.text) {
            Ok(Went::On) => {}
            Ok(Went::Refused) => return Err(Status::Session),
            Err(NoMemory) => return Err(Status::Memory),
        }
        self.lines.skip(n + 1);
        self.read += n + 1;
        self.number += 1;
        Ok(())
    }

    // Whether n octets, with so many newlines behind them, are too many for a line or for the session.
    fn judge(&self, n: usize, newlines: usize) -> Option<Status>
        requires held { n ≤ 131072 }
        requires newlines { newlines ≤ 1 }
        ensures { Judged self.now.read n newlines result }
    {
        if n > LINE && self.read + LINE < SESSION {
            Some(Status::Session)
        } else if self.read + n + newlines > SESSION {
            Some(Status::TooLong)
        } else {
            None
        }
    }

    // Writes the text where it is long enough.
    fn write_piece<K: Sink>(&mut self, out: &mut K) -> Result<(), Status>
        ensures writes { Writes (kind_of P.stands P.refuses P.can_end P.sums) self.old self.new (K.contents out.old) (K.contents out.new) result }
        ensures caused { CausedBy ⊥ (Rose (K.faults out.old) (K.faults out.new)) result }
        ensures out { K.faults out.old ≤ K.faults out.new }
        ensures lines { self.new.lines ≡ self.old.lines }
        ensures read { self.new.read ≡ self.old.read }
    {
        if self.text.len() < PIECE {
            return Ok(());
        }
        self.write(out)
    }

    // Writes the text.
    fn write<K: Sink>(&mut self, out: &mut K) -> Result<(), Status>
        ensures writes { Writes (kind_of P.stands P.refuses P.can_end P.sums) self.old self.new (K.contents out.old) (K.contents out.new) result }
        ensures caused { CausedBy ⊥ (Rose (K.faults out.old) (K.faults out.new)) result }
        ensures out { K.faults out.old ≤ K.faults out.new }
        ensures lines { self.new.lines ≡ self.old.lines }
        ensures read { self.new.read ≡ self.old.read }
    {
        match flush(&mut self.text, out) {
            Ok(()) => Ok(()),
            Err(Failed) => Err(Status::WriteFault),
        }
    }

    // Writes what there is, and then reads more.
    fn read_more<S: Source, K: Sink>(&mut self, session: &mut S, out: &mut K) -> Result<(), Status>
        requires whole { has_newline (held_of self.old.lines) ≡ false }
        ensures steps { Steps (kind_of P.stands P.refuses P.can_end P.sums) self.old self.new (S.left session.old) (S.left session.new) (K.contents out.old) (K.contents out.new) result }
        ensures caused { CausedBy (Rose (S.faults session.old) (S.faults session.new)) (Rose (K.faults out.old) (K.faults out.new)) result }
        ensures session { S.faults session.old ≤ S.faults session.new }
        ensures out { K.faults out.old ≤ K.faults out.new }
        ensures less { OnOk result (to_go self.new < to_go self.old) }
    {
        if let Some(status) = self.judge(self.lines.held().len(), 0) {
            return Err(status);
        }
        self.write(out)?;
        self.refill(session)
    }

    // Reads more.
    fn refill<S: Source>(&mut self, session: &mut S) -> Result<(), Status>
        requires whole { has_newline (held_of self.old.lines) ≡ false }
        requires short { Judged self.old.read (length (held_of self.old.lines)) 0 None }
        ensures refills { Refills (kind_of P.stands P.refuses P.can_end P.sums) self.old self.new (S.left session.old) (S.left session.new) result }
        ensures caused { CausedBy (Rose (S.faults session.old) (S.faults session.new)) ⊥ result }
        ensures session { S.faults session.old ≤ S.faults session.new }
        ensures less { OnOk result (to_go self.new < to_go self.old) }
    {
        match self.lines.fill(session) {
            Ok(n) if n > 0 => Ok(()),
            Ok(_) => Err(self.at_end()),
            Err(Failed) => Err(Status::ReadFault),
        }
    }

    // The status at the end of the session.
    fn at_end(&self) -> Status
        ensures { AtEnd (kind_of P.stands P.refuses P.can_end P.sums) self.now result }
    {
        if self.lines.held().is_empty() && self.player.may_end() {
            Status::Done
        } else {
            Status::Session
        }
    }
}
