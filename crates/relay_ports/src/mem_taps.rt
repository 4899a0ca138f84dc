// Connections in memory, of which each may be held.
ghost use Rattle.std.specs.Prelude.{◌≡◌, ◌≤◌, ◌||◌, ◌&&◌, ◌+◌, ◌++◌, ◌∷◌, [], Err, IfOk, OnErr, OnOk, false, if◌then◌else◌, is_err, length, min, not, true};
ghost use Rattle.std.specs.Io.{WritesAtMost};
ghost use Rattle.io_ports.specs.Faults.{FailsByFault, Rose};
ghost use Rattle.io_ports.specs.Memory.{counted, is_to_fail};
ghost use Rattle.mem_ports.specs.Steps.{steps_in};
ghost use Rattle.relay_ports.specs.Holding.{Holds};
ghost use Rattle.relay_ports.specs.Memory.{AreMost, IsAbove, Rises, answer_of, called, ended, failed_at, gave, has_room, held_as, is_new, may_come, seen_of, taps_after, took};
ghost use Rattle.worker_ports.specs.Wires.{Gives, MayCome, closed, greatest_after, is_held, is_live, offered};
ghost use Rattle.worker_ports.specs.declared.wires.WireRefusal.TheVariants as refusal;

use crate::Taps;
use crate::live::{has, hold, insert, is_free, is_held, remove};
use io_ports::{Failed, NoMemory};
use mem_ports::{Kept, Room, Steps};
use std::alloc::Global;
use std::collections::{BTreeMap, VecDeque};
use std::marker::Model;
use worker_ports::{WireRefusal, Wired, Wires};

/// How many octets are given at once at most.
const MOST_READ: usize = 16_384;

/// Connections in memory. They give the answers that they were told, in order, and `Idle` once none is left and in place of one
/// that may not come, as octets of one that is held. A call of `next` or `offer` whose number is in `failing` fails. Each `next`
/// makes room in the record for the offers that follow it: one that finds no room fails too.
#[derive(Drop)]
pub struct MemTaps {
    alloc: Global,
    clusters: u32,
    answers: VecDeque<Wired>,
    /// The live connections, each with whether it is held.
    taps: BTreeMap<u32, bool>,
    greatest: u32,
    /// How many octets an offer takes at most.
    most: usize,
    room: Room,
    calls: u64,
    failing: Vec<u64>,
    faults: u64,
    steps: Steps,
}

impl Model for MemTaps {
    ghost use Rattle.relay_ports.specs.Memory.{IsKept, TapsMemory, memory_of};

    ghost Value = { TapsMemory };

    ghost view = { memory_of };

    ghost invariant = { IsKept };
}

impl MemTaps {
    /// Connections to so many clusters, which give these answers and keep a record with room for so many offers between one
    /// `next` and another. The calls of `next` and `offer` whose numbers, counted together from 0, are in `failing` fail.
    pub fn new(
        alloc: Global,
        clusters: u32,
        answers: VecDeque<Wired>,
        room: Room,
        failing: Vec<u64>,
    ) -> Self
        ensures { result ≡ is_new clusters answers.items room failing.items usize.MAX }
    {
        MemTaps {
            alloc,
            clusters,
            answers,
            taps: BTreeMap::new(alloc),
            greatest: 0,
            most: usize::MAX,
            room,
            calls: 0,
            failing,
            faults: 0,
            steps: Steps::new(alloc),
        }
    }

    /// One answer more, behind the others. After running out of memory nothing has changed.
    pub fn tell(&mut self, answer: Wired) -> Result<(), NoMemory>
        ensures ok { OnOk result (self.new ≡ record self.old { answers = self.old.answers ++ answer ∷ [] }) }
        ensures err { OnErr result (self.new ≡ self.old) }
    {
        self.answers.push_back(answer)?;
        Ok(())
    }

    /// From now on an offer takes at most so many octets.
    pub fn take_at_most(&mut self, most: usize)
        ensures { self.new ≡ record self.old { most = most } }
    {
        self.most = most;
    }

    /// What was given, offered and closed, in order, and the pieces that were offered, one behind the other.
    pub fn record(&self) -> (&[Kept], &[u8])
        ensures { steps_in result.0.now result.1.now ≡ self.now.steps }
    {
        self.steps.record()
    }

    /// Whether a connection is live.
    pub fn is_live(&self, conn: u32) -> bool
        ensures { result ≡ is_live conn (seen_of self.now) }
    {
        has(&self.taps, conn)
    }

    /// Whether a connection is held.
    pub fn is_held(&self, conn: u32) -> bool
        ensures { result ≡ is_held conn (seen_of self.now) }
    {
        is_held(&self.taps, conn)
    }

    /// How many calls failed.
    pub fn faults(&self) -> u64
        ensures { result ≡ self.now.faults }
    {
        self.faults
    }

    // Counts a call, and answers whether it is to fail.
    fn is_to_fail(&mut self) -> bool
        ensures fails { result ≡ is_to_fail self.old.failing self.old.calls }
        ensures counts { self.new ≡ record self.old { calls = counted self.old.calls } }
    {
        let call = self.calls;
        self.calls = self.calls.saturating_add(1);
        self.failing.contains(&call)
    }

    // A call fails.
    fn fault(&mut self)
        ensures is { self.new ≡ record self.old { faults = counted self.old.faults } }
        ensures more { self.old.faults ≤ self.new.faults }
    {
        self.faults = self.faults.saturating_add(1);
    }

    // Whether a connection is live and isn't held.
    fn is_free(&self, conn: u32) -> bool
        ensures { result ≡ (is_live conn (seen_of self.now) && not (is_held conn (seen_of self.now))) }
    {
        is_free(&self.taps, conn)
    }

    // Whether an answer may come next.
    fn may_come(&self, wired: &Wired) -> bool
        ensures { result ≡ may_come (seen_of self.now) wired.now }
    {
        match wired {
            Wired::Accept(conn) => self.greatest < *conn,
            Wired::Join(conn, cluster) => self.greatest < *conn && *cluster < self.clusters,
            Wired::Read(conn, octets) => {
                self.is_free(*conn) && !octets.is_empty() && octets.len() <= MOST_READ
            }
            Wired::Lost(conn) => self.is_live(*conn),
            Wired::Idle | Wired::Stop => true,
        }
    }

    // A copy of the next answer, or `Idle` where none is left or it may not come.
    fn next_answer(&self) -> Result<Wired, NoMemory>
        ensures is { IfOk result (λ w. w ≡ answer_of (seen_of self.now) self.now.answers) }
        ensures may { IfOk result (MayCome (seen_of self.now)) }
        ensures above { IfOk result (IsAbove self.now.greatest) }
    {
        match self.answers.front() {
            Some(wired) if self.may_come(wired) => wired.copied(self.alloc),
            _ => Ok(Wired::Idle),
        }
    }
}

// A connection that comes is live, and one that is lost isn't any more. After running out of memory nothing has changed.
fn change(taps: &mut BTreeMap<u32, bool>, greatest: &mut u32, wired: &Wired) -> Result<(), NoMemory>
    requires rises { Rises taps.old.entries }
    requires above { IsAbove greatest.old wired.now }
    requires below { AreMost greatest.old taps.old.entries }
    ensures taps { OnOk result (taps.new.entries ≡ taps_after wired.now taps.old.entries) }
    ensures greatest { OnOk result (greatest.new ≡ greatest_after wired.now greatest.old) }
    ensures len { OnOk result (length taps.new.entries ≤ length taps.old.entries + 1) }
    ensures rises { OnOk result (Rises taps.new.entries) }
    ensures below { OnOk result (AreMost greatest.new taps.new.entries) }
    ensures err { OnErr result ((taps.new.entries ≡ taps.old.entries) × (greatest.new ≡ greatest.old)) }
{
    match wired {
        Wired::Accept(conn) | Wired::Join(conn, _) => {
            insert(taps, *conn)?;
            *greatest = *conn;
        }
        Wired::Lost(conn) => {
            remove(taps, *conn);
        }
        _ => {}
    }
    Ok(())
}

impl MemTaps {
    // Gives the next answer. After running out of memory nothing has changed but the room.
    fn give(&mut self) -> Result<Wired, NoMemory>
        ensures ok { IfOk result (λ w. (w ≡ answer_of (seen_of self.old) self.old.answers) × (self.new ≡ gave w self.old)) }
        ensures err { OnErr result (self.new ≡ record self.old { offers = self.new.offers; octets = self.new.octets }) }
    {
        self.steps.prepare(self.room, self.taps.len() + 2)?;
        let wired = self.next_answer()?;
        let kept = wired.copied(self.alloc)?;
        change(&mut self.taps, &mut self.greatest, &wired)?;
        let _ = self.answers.pop_front();
        self.steps.gave(kept);
        Ok(wired)
    }
}

impl Wires for MemTaps {
    ghost seen = { seen_of };

    ghost faults = { λ w. w.faults };

    fn next(&mut self) -> Result<Wired, WireRefusal>
        ensures ok { IfOk result (λ wired. Gives (seen_of self.old) wired (seen_of self.new)) }
        ensures err { OnErr result (seen_of self.new ≡ seen_of self.old) }
        ensures no_fall { self.old.faults ≤ self.new.faults }
        ensures cause { result ≡ Err refusal.Failed → Rose self.old.faults self.new.faults }

        // It fails exactly where it is to, and else gives the next answer.
        ensures fails { is_to_fail self.old.failing self.old.calls ≡ true → result ≡ Err refusal.Failed }
        ensures failed { result ≡ Err refusal.Failed → (is_to_fail self.old.failing self.old.calls ≡ true) × (self.new ≡ failed_at self.old) }
        ensures gives { IfOk result (λ w. (w ≡ answer_of (seen_of self.old) self.old.answers) × (self.new ≡ gave w (called self.old))) }
    {
        if self.is_to_fail() {
            self.fault();
            return Err(WireRefusal::Failed);
        }
        match self.give() {
            Ok(wired) => Ok(wired),
            Err(NoMemory) => Err(WireRefusal::NoMemory),
        }
    }

    fn offer(&mut self, conn: u32, piece: &[u8]) -> Result<usize, Failed>
        ensures bound { WritesAtMost result piece.now }
        ensures live { is_live conn (seen_of self.old) ≡ false → IfOk result (λ n. n ≡ 0) }
        ensures ok { IfOk result (λ n. seen_of self.new ≡ offered conn piece.now n (seen_of self.old)) }
        ensures err { OnErr result (seen_of self.new ≡ seen_of self.old) }
        ensures cause { FailsByFault self.old.faults self.new.faults result }

        // It fails exactly where it is to or where there is no room, and else takes as much as it may.
        ensures fails { is_err result ≡ (is_to_fail self.old.failing self.old.calls || not (has_room (length piece.now) self.old)) }
        ensures count { IfOk result (λ n. n ≡ (if is_live conn (seen_of self.old) then min (length piece.now) self.old.most else 0)) }
        ensures took { IfOk result (λ n. self.new ≡ took conn piece.now n (called self.old)) }
        ensures failed { OnErr result (self.new ≡ failed_at self.old) }
    {
        if self.is_to_fail() || !self.steps.has_room(piece.len()) {
            self.fault();
            return Err(Failed);
        }
        let taken = if self.is_live(conn) {
            piece.len().min(self.most)
        } else {
            0
        };
        self.steps.offered(conn, piece, taken);
        Ok(taken)
    }

    fn close(&mut self, conn: u32)
        ensures closes { seen_of self.new ≡ closed conn (seen_of self.old) }
        ensures no_fall { self.old.faults ≤ self.new.faults }
        ensures ended { self.new ≡ ended conn self.old }
    {
        if remove(&mut self.taps, conn) {
            self.steps.closed(conn);
        }
    }
}

impl Taps for MemTaps {
    fn hold(&mut self, conn: u32, held: bool)
        ensures holds { Holds conn held (seen_of self.old) (seen_of self.new) }
        ensures no_fall { self.old.faults ≤ self.new.faults }
        ensures taps { self.new ≡ record self.old { taps = held_as conn held self.old.taps } }
    {
        hold(&mut self.taps, conn, held);
    }
}
