// The gate of one buffer: whether the buffer is above, and which of its watchers are still to be told that it drained.
ghost use Rattle.std.specs.Prelude.{◌≡◌, ◌↔◌, ◌∷◌, ◌++◌, ◌+◌, ◌≤◌, [], drop, false, true, IfOk, OnErr, None, Some, slice_get, option_map};
ghost use Rattle.std.specs.Map.{values_of};
ghost use Rattle.flow_gate.specs.Board.{times};
ghost use Rattle.flow_rules.specs.declared.ids.FlowId.{FlowId};

use crate::line::Watchers;
use crate::row::{add_last, make_whole};
use crate::stands::{Stand, between, close_up, first, leave, place_after, span};
use flow_rules::FlowId;
use io_ports::NoMemory;
use std::alloc::Global;
use std::marker::Model;

/// A buffer's mark and its watchers, each at a place in the line. Places rise, and none is used twice. The pending
/// lows are the watchers at the places from `told` to before `drained`, so a drain takes no memory, a flow that
/// leaves takes its low along, and one that comes later has none. A flow that leaves the line leaves a gap, and the
/// gaps go once they are more than the flows.
#[derive(Drop)]
pub(crate) struct Gate {
    // What a count reads comes first, so that it lies together in memory.
    above: bool,
    /// The place from which on the watchers were not told of the last drain.
    told: u64,
    /// The place of the next watcher at the last drain.
    drained: u64,
    /// The place of the next watcher.
    next: u64,
    /// How many flows stand in the line.
    standing: usize,
    line: Vec<Stand>,
    /// The flows of the line side by side, where they are as many as the stands.
    row: Vec<FlowId>,
}

impl Model for Gate {
    ghost use Rattle.flow_gate.specs.Line.{Line, IsInOrder, between, live};

    ghost Value = { Line };

    ghost view = { λ a. record { above = a.above; watchers = live a.line.items; pending = between a.told a.drained (live a.line.items) } };

    ghost invariant = { λ a. IsInOrder a.next a.told a.drained a.standing a.row.items a.line.items };
}

impl Gate {
    ghost use Rattle.flow_gate.specs.Line.{at_place, held_in, left, told};

    /// Not above, and without watchers. Takes no memory.
    pub(crate) fn new(alloc: Global) -> Self
        ensures { result ≡ record { above = false; watchers = []; pending = [] } }
    {
        Gate {
            above: false,
            line: Vec::new(alloc),
            row: Vec::new(alloc),
            standing: 0,
            next: 0,
            told: 0,
            drained: 0,
        }
    }

    /// A gate as `new` makes it, with the memory of this one.
    pub(crate) fn renewed(self) -> Self
        ensures { result ≡ record { above = false; watchers = []; pending = [] } }
    {
        let Gate {
            mut line,
            mut row,
            ..
        } = self;
        line.clear();
        row.clear();
        Gate {
            above: false,
            line,
            row,
            standing: 0,
            next: 0,
            told: 0,
            drained: 0,
        }
    }

    pub(crate) fn is_above(&self) -> bool
        ensures { result ≡ self.now.above }
    {
        self.above
    }

    pub(crate) fn is_watched(&self) -> bool
        ensures { (result ≡ false) ↔ (self.now.watchers ≡ []) }
    {
        self.standing > 0
    }

    pub(crate) fn has_pending(&self) -> bool
        ensures { (result ≡ false) ↔ (self.now.pending ≡ []) }
    {
        first(between(self.line.as_slice(), self.told, self.drained)).is_some()
    }

    /// How often the flow at a place is held back: once while the buffer is above, and once while it is to be told.
    pub(crate) fn held(&self, place: u64) -> u64
        ensures held { (flow : FlowId) → at_place place self.now.watchers ≡ Some flow → times flow (values_of self.now.watchers) ≤ 1 → result ≡ held_in flow self.now }
        ensures most { result ≤ 2 }
    {
        let pending = self.told <= place && place < self.drained;
        u64::from(self.above) + u64::from(pending)
    }

    pub(crate) fn watchers(&self) -> Watchers<'_>
        ensures { result ≡ values_of self.now.watchers }
    {
        if self.row.len() == self.line.len() {
            return Watchers::side_by_side(self.row.as_slice());
        }
        Watchers::of(self.line.as_slice())
    }

    /// The watchers that are to be told.
    pub(crate) fn lows(&self) -> Watchers<'_>
        ensures { result ≡ values_of self.now.pending }
    {
        if self.row.len() == self.line.len() {
            let (begin, len) = span(self.line.as_slice(), self.told, self.drained);
            return Watchers::side_by_side(&self.row.as_slice()[begin..][..len]);
        }
        Watchers::of(between(self.line.as_slice(), self.told, self.drained))
    }

    /// Adds a flow at the end of the line, and answers its place.
    #[inline(always)]
    pub(crate) fn add(&mut self, flow: FlowId) -> Result<u64, NoMemory>
        ensures last { IfOk result (λ place. self.new ≡ record self.old { watchers = self.old.watchers ++ (place, flow) ∷ [] }) }
        ensures new_place { IfOk result (λ place. at_place place self.old.watchers ≡ None) }
        ensures err { OnErr result (self.new ≡ self.old) }
    {
        let place = self.next;
        if place == u64::MAX {
            return Err(NoMemory);
        }
        self.line.push(Stand {
            place,
            flow: Some(flow),
        })?;
        add_last(&mut self.row, flow, self.line.as_slice());
        self.standing += 1;
        self.next = place + 1;
        Ok(place)
    }

    /// The flow at a place leaves the line, and takes its pending low along.
    #[inline(always)]
    pub(crate) fn remove(&mut self, place: u64)
        ensures { (flow : FlowId) → at_place place self.old.watchers ≡ Some flow → times flow (values_of self.old.watchers) ≤ 1 → self.new ≡ left flow self.old }
    {
        if self.standing == 1 {
            // It stands alone, so it isn't looked for.
            self.row.clear();
            self.line.clear();
            self.standing = 0;
            return;
        }
        self.remove_among(place);
    }

    // The same of one of several, which is looked for.
    #[inline(never)]
    fn remove_among(&mut self, place: u64)
        ensures { (flow : FlowId) → at_place place self.old.watchers ≡ Some flow → times flow (values_of self.old.watchers) ≤ 1 → self.new ≡ left flow self.old }
    {
        self.row.clear();
        if leave(self.line.as_mut_slice(), place) {
            self.standing -= 1;
            close_up(&mut self.line, self.standing);
        }
    }

    pub(crate) fn rise(&mut self)
        ensures { self.new ≡ record self.old { above = true } }
    {
        make_whole(&mut self.row, &mut self.line);
        self.above = true;
    }

    /// The buffer drained: each watcher is to be told.
    pub(crate) fn drain(&mut self)
        ensures { self.new ≡ record self.old { above = false; pending = self.old.watchers } }
    {
        make_whole(&mut self.row, &mut self.line);
        self.above = false;
        self.told = 0;
        self.drained = self.next;
    }

    /// The first watcher that is to be told, who is told with this.
    pub(crate) fn tell(&mut self) -> Option<FlowId>
        ensures first { result ≡ option_map (λ e. e.1) (slice_get self.old.pending 0) }
        ensures rest { self.new ≡ record self.old { pending = drop 1 self.old.pending } }
    {
        if self.told >= self.drained {
            return None;
        }
        let (place, flow) = first(between(self.line.as_slice(), self.told, self.drained))?;
        self.told = place + 1;
        Some(flow)
    }

    /// The first n watchers that are to be told, or all where there are fewer, are told with this.
    pub(crate) fn tell_first(&mut self, n: usize)
        ensures { self.new ≡ told n self.old }
    {
        self.told = place_after(
            self.line.as_slice(),
            self.told,
            self.drained,
            n,
            self.standing,
        );
    }
}
