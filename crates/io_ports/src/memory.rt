// Sources and sinks in memory, which fail at the calls that they are told.
ghost use Rattle.std.specs.Prelude.{◌≡◌, ◌<◌, ◌≤◌, ◌+◌, ◌-◌, ◌||◌, ◌++◌, [], length, take, drop, min, nat_lt, Some, is_err, IfOk, OnErr};
ghost use Rattle.std.specs.Io.{ReadsAtMost, WritesAtMost};
ghost use Rattle.std.specs.Io.KnownBytes.{ReadConsumes, WriteAppends};
ghost use Rattle.io_ports.specs.Faults.{FailsByFault, TakesNothingByFault};
ghost use Rattle.io_ports.specs.Memory.{is_to_fail, counted, faults_after};

use crate::{Failed, NoMemory, Sink, Source};
use std::alloc::Global;
use std::marker::Model;

/// Octets in memory, given in pieces. A read whose number is in `failing` fails and takes nothing.
#[derive(Drop)]
pub struct MemSource {
    octets: Vec<u8>,
    at: usize,
    most: usize,
    calls: u64,
    failing: Vec<u64>,
    faults: u64,
}

impl Model for MemSource {
    ghost use Rattle.std.specs.Prelude.{◌<◌, ◌≤◌, length, drop};
    ghost use Rattle.io_ports.specs.Memory.{SourceMemory};

    ghost Value = { SourceMemory };

    ghost view = { λ s. record { octets = drop s.at s.octets.items; calls = s.calls; faults = s.faults; failing = s.failing.items; most = s.most } };

    ghost invariant = { λ s. (s.at ≤ length s.octets.items) × (0 < s.most) };
}

impl MemSource {
    /// Gives these octets. The reads whose numbers, counted from 0, are in `failing` fail.
    pub fn new(octets: Vec<u8>, failing: Vec<u64>) -> Self
        ensures octets { result.octets ≡ octets.items }
        ensures calls { result.calls ≡ 0 }
        ensures faults { result.faults ≡ 0 }
        ensures failing { result.failing ≡ failing.items }
        ensures most { result.most ≡ usize.MAX }
    {
        MemSource {
            octets,
            at: 0,
            most: usize::MAX,
            calls: 0,
            failing,
            faults: 0,
        }
    }

    /// From now on a read gives at most so many octets.
    pub fn give_at_most(&mut self, most: usize)
        requires { 0 < most }
        ensures { self.new ≡ record self.old { most = most } }
    {
        self.most = most;
    }
}

// Whether the call with this number is to fail. Nearly always none is, and then no list is gone through.
#[inline(always)]
#[tactic(auto, using(crate::proofs::Failing::none_fails))]
fn is_to_fail(failing: &[u64], call: u64) -> bool
    ensures { result ≡ is_to_fail failing.now call }
{
    if failing.is_empty() {
        return false;
    }
    failing.contains(&call)
}

// Copies what fits to the front, at most so many octets.
fn copy_front(into: &mut [u8], from: &[u8], most: usize) -> usize
    ensures bound { result ≡ min (min (length into.old) (length from.now)) most }
    ensures front { take result into.new ≡ take result from.now }
{
    let n = into.len().min(from.len()).min(most);
    into[..n].copy_from_slice(&from[..n]);
    n
}

impl Source for MemSource {
    ghost left = { λ s. Some s.octets };

    ghost faults = { λ s. s.faults };

    fn read(&mut self, into: &mut [u8]) -> Result<usize, Failed>
        ensures bound { ReadsAtMost result into.new }
        ensures octets { ReadConsumes (Some self.old.octets) (Some self.new.octets) result into.new }
        ensures cause { FailsByFault self.old.faults self.new.faults result }

        // It fails exactly where it is to, and else gives as much as it may.
        ensures fails { is_err result ≡ is_to_fail self.old.failing self.old.calls }
        ensures count { IfOk result (λ n. n ≡ min (min (length into.old) (length self.old.octets)) self.old.most) }
        ensures gave { IfOk result (λ n. self.new ≡ record self.old { octets = drop n self.old.octets; calls = counted self.old.calls }) }
        ensures failed { OnErr result (self.new ≡ record self.old { calls = counted self.old.calls; faults = counted self.old.faults }) }
    {
        let call = self.calls;
        self.calls = self.calls.saturating_add(1);
        if is_to_fail(self.failing.as_slice(), call) {
            self.faults = self.faults.saturating_add(1);
            return Err(Failed);
        }
        let n = copy_front(into, &self.octets[self.at..], self.most);
        self.at += n;
        Ok(n)
    }
}

/// A sink in memory, with room for a number of octets. A write whose number is in `failing`, or
/// that finds no room for its piece, fails and writes nothing.
#[derive(Drop)]
pub struct MemSink {
    octets: Vec<u8>,
    room: usize,
    most: usize,
    calls: u64,
    failing: Vec<u64>,
    faults: u64,
}

impl Model for MemSink {
    ghost use Rattle.std.specs.Prelude.{◌≤◌, length, vec_capacity};
    ghost use Rattle.io_ports.specs.Memory.{SinkMemory};

    ghost Value = { SinkMemory };

    ghost view = { λ s. record { octets = s.octets.items; room = s.room; calls = s.calls; faults = s.faults; failing = s.failing.items; most = s.most } };

    ghost invariant = { λ s. (length s.octets.items ≤ s.room) × (s.room ≤ vec_capacity s.octets) };
}

impl MemSink {
    /// Takes the memory for `room` octets, which later writes fill. The writes whose numbers,
    /// counted from 0, are in `failing` fail.
    pub fn new(alloc: Global, room: usize, failing: Vec<u64>) -> Result<Self, NoMemory>
        ensures octets { IfOk result (λ made. made.octets ≡ []) }
        ensures room { IfOk result (λ made. made.room ≡ room) }
        ensures calls { IfOk result (λ made. made.calls ≡ 0) }
        ensures faults { IfOk result (λ made. made.faults ≡ 0) }
        ensures failing { IfOk result (λ made. made.failing ≡ failing.items) }
        ensures most { IfOk result (λ made. made.most ≡ usize.MAX) }
    {
        Ok(MemSink {
            octets: Vec::with_capacity(alloc, room)?,
            room,
            most: usize::MAX,
            calls: 0,
            failing,
            faults: 0,
        })
    }

    /// From now on a write takes at most so many octets. With 0 each write takes nothing, which
    /// counts as a fault for a nonempty piece.
    pub fn take_at_most(&mut self, most: usize)
        ensures { self.new ≡ record self.old { most = most } }
    {
        self.most = most;
    }

    /// What was written.
    pub fn octets(&self) -> &[u8]
        ensures { result.now ≡ self.now.octets }
    {
        self.octets.as_slice()
    }
}

impl Sink for MemSink {
    ghost contents = { λ s. Some s.octets };

    ghost faults = { λ s. s.faults };

    #[inline(always)]
    fn write(&mut self, piece: &[u8]) -> Result<usize, Failed>
        ensures bound { WritesAtMost result piece.now }
        ensures octets { WriteAppends (Some self.old.octets) (Some self.new.octets) result piece.now }
        ensures cause { FailsByFault self.old.faults self.new.faults result }
        ensures nothing { TakesNothingByFault self.old.faults self.new.faults result piece.now }

        // It fails exactly where it is to or where there is no room, and else takes as much as it may.
        ensures fails { is_err result ≡ (is_to_fail self.old.failing self.old.calls || nat_lt self.old.room (length self.old.octets + min (length piece.now) self.old.most)) }
        ensures count { IfOk result (λ n. n ≡ min (length piece.now) self.old.most) }
        ensures took { IfOk result (λ n. self.new ≡ record self.old { octets = self.old.octets ++ take n piece.now; calls = counted self.old.calls; faults = faults_after self.old.faults n piece.now }) }
        ensures failed { OnErr result (self.new ≡ record self.old { calls = counted self.old.calls; faults = counted self.old.faults }) }
    {
        let call = self.calls;
        self.calls = self.calls.saturating_add(1);
        let taken = &piece[..piece.len().min(self.most)];
        let room = self.room.saturating_sub(self.octets.len());
        if is_to_fail(self.failing.as_slice(), call)
            || taken.len() > room
            || self.octets.extend_from_slice(taken).is_err()
        {
            self.faults = self.faults.saturating_add(1);
            return Err(Failed);
        }
        if taken.is_empty() && !piece.is_empty() {
            self.faults = self.faults.saturating_add(1);
        }
        Ok(taken.len())
    }
}
