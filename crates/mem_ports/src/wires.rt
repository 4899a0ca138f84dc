// Connections in memory.
ghost use Rattle.std.specs.Prelude.{◌≡◌, ◌+◌, ◌≤◌, ◌||◌, Err, IfOk, OnErr, OnOk, false, if◌then◌else◌, is_err, length, min, not, suc, true};
ghost use Rattle.std.specs.Io.{WritesAtMost};
ghost use Rattle.io_ports.specs.Faults.{FailsByFault, Rose};
ghost use Rattle.io_ports.specs.Memory.{counted, is_to_fail};
ghost use Rattle.mem_ports.specs.Memory.{AreBelow, IsAbove, answer_of, called, ended, failed_at, gave, has_room, is_new, may_come, seen_of, took};
ghost use Rattle.mem_ports.specs.Steps.{steps_in};
ghost use Rattle.worker_ports.specs.Wires.{Gives, MayCome, closed, greatest_after, is_live, live_after, offered};
ghost use Rattle.worker_ports.specs.declared.wires.WireRefusal.TheVariants as refusal;

use crate::live::{has, insert, remove};
use crate::steps::{Kept, Room, Steps};
use io_ports::{Failed, NoMemory};
use std::alloc::Global;
use std::collections::{BTreeSet, VecDeque};
use std::marker::Model;
use worker_ports::{WireRefusal, Wired, Wires};

/// How many octets are given at once at most.
const MOST_READ: usize = 16_384;

/// Connections in memory. They give the answers that they were told, in order, and `Idle` once none is left and in place of one
/// that may not come. A call of `next` or `offer` whose number is in `failing` fails. Each `next` makes room in the record for
/// the offers that follow it: one that finds no room fails too.
#[derive(Drop)]
pub struct MemWires {
    alloc: Global,
    clusters: u32,
    answers: VecDeque<Wired>,
    live: BTreeSet<u32>,
    greatest: u32,
    /// How many octets an offer takes at most.
    most: usize,
    room: Room,
    calls: u64,
    failing: Vec<u64>,
    faults: u64,
    steps: Steps,
}

impl Model for MemWires {
    ghost use Rattle.mem_ports.specs.Memory.{IsKept, WiresMemory, memory_of};

    ghost Value = { WiresMemory };

    ghost view = { memory_of };

    ghost invariant = { IsKept };
}

impl MemWires {
    /// Connections to so many clusters, which give these answers and keep a record with room for so many offers between one
    /// `next` and another. The calls of `next` and `offer` whose numbers, counted together from 0, are in `failing` fail.
    pub fn new(
        alloc: Global,
        clusters: u32,
        answers: VecDeque<Wired>,
        room: Room,
        failing: Vec<u64>,
    ) -> Self
        ensures { result ≡ is_new clusters answers.items room failing.items usize.MAX }
    {
        MemWires {
            alloc,
            clusters,
            answers,
            live: BTreeSet::new(alloc),
            greatest: 0,
            most: usize::MAX,
            room,
            calls: 0,
            failing,
            faults: 0,
            steps: Steps::new(alloc),
        }
    }

    /// From now on an offer takes at most so many octets.
    pub fn take_at_most(&mut self, most: usize)
        ensures { self.new ≡ record self.old { most = most } }
    {
        self.most = most;
    }

    /// What was given, offered and closed, in order, and the pieces that were offered, one behind the other.
    pub fn record(&self) -> (&[Kept], &[u8])
        ensures { steps_in result.0.now result.1.now ≡ self.now.steps }
    {
        self.steps.record()
    }

    /// Whether a connection is live.
    pub fn is_live(&self, conn: u32) -> bool
        ensures { result ≡ is_live conn (seen_of self.now) }
    {
        has(&self.live, conn)
    }

    /// How many calls failed.
    pub fn faults(&self) -> u64
        ensures { result ≡ self.now.faults }
    {
        self.faults
    }

    // Counts a call, and answers whether it is to fail.
    fn is_to_fail(&mut self) -> bool
        ensures fails { result ≡ is_to_fail self.old.failing self.old.calls }
        ensures counts { self.new ≡ record self.old { calls = counted self.old.calls } }
    {
        let call = self.calls;
        self.calls = self.calls.saturating_add(1);
        self.failing.contains(&call)
    }

    // A call fails.
    fn fault(&mut self)
        ensures is { self.new ≡ record self.old { faults = counted self.old.faults } }
        ensures more { self.old.faults ≤ self.new.faults }
    {
        self.faults = self.faults.saturating_add(1);
    }

    // Whether an answer may come next.
    fn may_come(&self, wired: &Wired) -> bool
        ensures { result ≡ may_come (seen_of self.now) wired.now }
    {
        match wired {
            Wired::Accept(conn) => self.greatest < *conn,
            Wired::Join(conn, cluster) => self.greatest < *conn && *cluster < self.clusters,
            Wired::Read(conn, octets) => {
                self.is_live(*conn) && !octets.is_empty() && octets.len() <= MOST_READ
            }
            Wired::Lost(conn) => self.is_live(*conn),
            Wired::Idle | Wired::Stop => true,
        }
    }

    // A copy of the next answer, or `Idle` where none is left or it may not come.
    fn next_answer(&self) -> Result<Wired, NoMemory>
        ensures is { IfOk result (λ w. w ≡ answer_of (seen_of self.now) self.now.answers) }
        ensures may { IfOk result (MayCome (seen_of self.now)) }
        ensures above { IfOk result (IsAbove self.now.greatest) }
    {
        match self.answers.front() {
            Some(wired) if self.may_come(wired) => wired.copied(self.alloc),
            _ => Ok(Wired::Idle),
        }
    }
}

// A connection that comes is live, and one that is lost isn't any more. After running out of memory nothing has changed.
fn change(live: &mut BTreeSet<u32>, greatest: &mut u32, wired: &Wired) -> Result<(), NoMemory>
    requires above { IsAbove greatest.old wired.now }
    requires below { AreBelow (suc greatest.old) live.old.keys }
    ensures live { OnOk result (live.new.keys ≡ live_after wired.now live.old.keys) }
    ensures greatest { OnOk result (greatest.new ≡ greatest_after wired.now greatest.old) }
    ensures len { OnOk result (length live.new.keys ≤ length live.old.keys + 1) }
    ensures below { OnOk result (AreBelow (suc greatest.new) live.new.keys) }
    ensures err { OnErr result ((live.new.keys ≡ live.old.keys) × (greatest.new ≡ greatest.old)) }
{
    match wired {
        Wired::Accept(conn) | Wired::Join(conn, _) => {
            insert(live, *conn)?;
            *greatest = *conn;
        }
        Wired::Lost(conn) => {
            remove(live, *conn);
        }
        _ => {}
    }
    Ok(())
}

impl MemWires {
    // Gives the next answer. After running out of memory nothing has changed but the room.
    fn give(&mut self) -> Result<Wired, NoMemory>
        ensures ok { IfOk result (λ w. (w ≡ answer_of (seen_of self.old) self.old.answers) × (self.new ≡ gave w self.old)) }
        ensures err { OnErr result (self.new ≡ record self.old { offers = self.new.offers; octets = self.new.octets }) }
    {
        self.steps.prepare(self.room, self.live.len() + 2)?;
        let wired = self.next_answer()?;
        let kept = wired.copied(self.alloc)?;
        change(&mut self.live, &mut self.greatest, &wired)?;
        let _ = self.answers.pop_front();
        self.steps.gave(kept);
        Ok(wired)
    }
}

impl Wires for MemWires {
    ghost seen = { seen_of };

    ghost faults = { λ w. w.faults };

    fn next(&mut self) -> Result<Wired, WireRefusal>
        ensures ok { IfOk result (λ wired. Gives (seen_of self.old) wired (seen_of self.new)) }
        ensures err { OnErr result (seen_of self.new ≡ seen_of self.old) }
        ensures no_fall { self.old.faults ≤ self.new.faults }
        ensures cause { result ≡ Err refusal.Failed → Rose self.old.faults self.new.faults }

        // It fails exactly where it is to, and else gives the next answer.
        ensures fails { is_to_fail self.old.failing self.old.calls ≡ true → result ≡ Err refusal.Failed }
        ensures failed { result ≡ Err refusal.Failed → (is_to_fail self.old.failing self.old.calls ≡ true) × (self.new ≡ failed_at self.old) }
        ensures gives { IfOk result (λ w. (w ≡ answer_of (seen_of self.old) self.old.answers) × (self.new ≡ gave w (called self.old))) }
    {
        if self.is_to_fail() {
            self.fault();
            return Err(WireRefusal::Failed);
        }
        match self.give() {
            Ok(wired) => Ok(wired),
            Err(NoMemory) => Err(WireRefusal::NoMemory),
        }
    }

    fn offer(&mut self, conn: u32, piece: &[u8]) -> Result<usize, Failed>
        ensures bound { WritesAtMost result piece.now }
        ensures live { is_live conn (seen_of self.old) ≡ false → IfOk result (λ n. n ≡ 0) }
        ensures ok { IfOk result (λ n. seen_of self.new ≡ offered conn piece.now n (seen_of self.old)) }
        ensures err { OnErr result (seen_of self.new ≡ seen_of self.old) }
        ensures cause { FailsByFault self.old.faults self.new.faults result }

        // It fails exactly where it is to or where there is no room, and else takes as much as it may.
        ensures fails { is_err result ≡ (is_to_fail self.old.failing self.old.calls || not (has_room (length piece.now) self.old)) }
        ensures count { IfOk result (λ n. n ≡ (if is_live conn (seen_of self.old) then min (length piece.now) self.old.most else 0)) }
        ensures took { IfOk result (λ n. self.new ≡ took conn piece.now n (called self.old)) }
        ensures failed { OnErr result (self.new ≡ failed_at self.old) }
    {
        if self.is_to_fail() || !self.steps.has_room(piece.len()) {
            self.fault();
            return Err(Failed);
        }
        let taken = if self.is_live(conn) {
            piece.len().min(self.most)
        } else {
            0
        };
        self.steps.offered(conn, piece, taken);
        Ok(taken)
    }

    fn close(&mut self, conn: u32)
        ensures closes { seen_of self.new ≡ closed conn (seen_of self.old) }
        ensures no_fall { self.old.faults ≤ self.new.faults }
        ensures ended { self.new ≡ ended conn self.old }
    {
        if remove(&mut self.live, conn) {
            self.steps.closed(conn);
        }
    }
}
