// The gates of a worker.
ghost use Rattle.std.specs.Prelude.{◌≡◌, ◌==◌, ◌&&◌, ◌≤◌, ◌^◌, ◌↔◌, [], false, true, IfOk, Some, OnOk, OnErr, IsNone, count_by, length, not, option_map, option_to_list, slice_get, take, if◌then◌else◌};
ghost use Rattle.flow_gate.specs.Board.{IsSound, count, is_known, is_marked, is_open, pending_on, times, watchers_of};
ghost use Rattle.flow_gate.specs.Changes.{Begins, Closes, Drains, Forgets, IsEmpty, IsSeenAs, Knows, Opens, Rises, Tells, Watches};
ghost use Rattle.flow_gate.specs.Ids.{same_buffer};
ghost use Rattle.flow_gate.specs.Line.{Line, held_in, left, told};
ghost use Rattle.flow_gate.specs.Parts.{AreWatches, StandsIn, above_at, buffer_at, held, is_stage, kept, watched_in};
ghost use Rattle.flow_rules.specs.declared.ids.BufferId.{BufferId};
ghost use Rattle.flow_rules.specs.declared.ids.FlowId.{FlowId};

use crate::buffers::Buffers;
use crate::flow_map::FlowMap;
use crate::line::Watchers;
use crate::senders::{join, line_up};
use crate::spares::Spares;
use crate::watcher::{Watch, Watcher};
use flow_rules::{BufferId, FlowId};
use io_ports::NoMemory;
use std::alloc::Global;
use std::marker::Model;

/// Which flows watch which buffers, and how often each flow is held back: by each buffer above that it watches, and
/// by each drain of which it has not been told yet. No flow has a counter: its count is computed when it is asked for,
/// so a rise, a drain and a low that is told touch one buffer and no flow. A call goes through no buffers but those of
/// its flow.
#[derive(Drop)]
pub struct Gates {
    alloc: Global,
    flows: FlowMap<Watcher>,
    buffers: Buffers,
    spares: Spares,
}

impl Model for Gates {
    ghost use Rattle.flow_gate.specs.Board.{Board};

    ghost Value = { Board };

    ghost use Rattle.flow_gate.specs.Parts.{AreGates, board_of};

    ghost view = { λ a. board_of a.flows a.buffers };

    ghost invariant = { λ a. AreGates a.flows a.buffers };
}

impl Gates {
    /// No flows and no buffers. Takes no memory.
    pub fn new(alloc: Global) -> Self
        ensures empty { IsEmpty result }
        ensures sound { IsSound result }
    {
        Gates {
            alloc,
            flows: FlowMap::new(alloc),
            buffers: Buffers::new(alloc),
            spares: Spares::new(alloc),
        }
    }

    /// Whether the flow is there.
    pub fn is_open(&self, flow: FlowId) -> bool
        ensures { result ≡ is_open self.now flow }
    {
        self.flows.get(flow).is_some()
    }

    /// Whether the buffer is known.
    pub fn is_known(&self, buffer: BufferId) -> bool
        ensures { result ≡ is_known self.now buffer }
    {
        self.buffers.get(buffer).is_some()
    }

    /// Whether the buffer is above. It is false of a buffer that is not known.
    pub fn is_marked(&self, buffer: BufferId) -> bool
        ensures { result ≡ is_marked self.now buffer }
    {
        is_above(&self.buffers, buffer)
    }

    /// Whether some flow watches the buffer.
    pub fn is_watched(&self, buffer: BufferId) -> bool
        ensures { (result ≡ false) ↔ (watchers_of self.now buffer ≡ []) }
    {
        match self.buffers.get(buffer) {
            Some(gate) => gate.is_watched(),
            None => false,
        }
    }

    /// Whether some watcher of the buffer is still to be told that it drained.
    pub fn has_pending(&self, buffer: BufferId) -> bool
        ensures { (result ≡ false) ↔ (pending_on self.now buffer ≡ []) }
    {
        match self.buffers.get(buffer) {
            Some(gate) => gate.has_pending(),
            None => false,
        }
    }

    /// Whether the flow watches the buffer. Looks through what this flow watches.
    pub fn is_watching(&self, flow: FlowId, buffer: BufferId) -> bool
        ensures { (result ≡ false) ↔ (times flow (watchers_of self.now buffer) ≡ 0) }
    {
        match self.flows.get(flow) {
            Some(watcher) => watcher.watches().iter().any(|watch| watch.buffer == buffer),
            None => false,
        }
    }

    /// How often the flow is held back: it may be read where this is 0. Looks through what this flow watches.
    pub fn count(&self, flow: FlowId) -> u64
        requires { is_open self.now flow ≡ true }
        ensures { result ≡ count self.now flow }
    {
        match self.flows.get(flow) {
            Some(watcher) => held_back(&self.buffers, watcher.watches()),
            None => 0,
        }
    }

    /// Whether nothing holds the flow back and neither of two buffers is above: what `count` and `is_marked` say, with one
    /// look-up of the flow and one of each buffer. Looks through what this flow watches.
    pub fn is_clear(&self, flow: FlowId, first: BufferId, second: BufferId) -> bool
        requires { is_open self.now flow ≡ true }
        ensures { result ≡ ((count self.now flow == 0) && (not (is_marked self.now first) && not (is_marked self.now second))) }
    {
        let Some(watcher) = self.flows.get(flow) else {
            unreachable!()
        };
        let watches = watcher.watches();
        if held_back(&self.buffers, watches) > 0 {
            return false;
        }
        is_low(&self.buffers, watches, first) && is_low(&self.buffers, watches, second)
    }

    /// The watchers of a buffer, in the order in which they began to watch.
    pub fn watchers(&self, buffer: BufferId) -> Watchers<'_>
        ensures { result ≡ watchers_of self.now buffer }
    {
        match self.buffers.get(buffer) {
            Some(gate) => gate.watchers(),
            None => Watchers::none(),
        }
    }

    /// The flows that are still to be told that the buffer drained, in order.
    pub fn lows(&self, buffer: BufferId) -> Watchers<'_>
        ensures { result ≡ pending_on self.now buffer }
    {
        match self.buffers.get(buffer) {
            Some(gate) => gate.lows(),
            None => Watchers::none(),
        }
    }

    /// The i-th watcher of a buffer, from 0. Goes through those before it: to see all, take `watchers`.
    pub fn watcher(&self, buffer: BufferId, i: usize) -> Option<FlowId>
        ensures { result ≡ slice_get (watchers_of self.now buffer) i }
    {
        self.watchers(buffer).nth(i)
    }

    /// Begins a flow, which watches nothing and has the count 0. After running out of memory nothing has changed.
    pub fn open_flow(&mut self, flow: FlowId) -> Result<(), NoMemory>
        requires { is_open self.old flow ≡ false }
        ensures ok { OnOk result (Begins flow self.old self.new) }
        ensures err { OnErr result (self.new ≡ self.old) }
        ensures sound { IsSound self.new }
    {
        self.flows.put(flow, Watcher::new(self.alloc))?;
        Ok(())
    }

    /// From now on the buffer is known, unmarked and without watchers. After running out of memory nothing has changed.
    pub fn open_buffer(&mut self, buffer: BufferId) -> Result<(), NoMemory>
        requires { is_known self.old buffer ≡ false }
        ensures ok { OnOk result (Knows buffer self.old self.new) }
        ensures err { OnErr result (self.new ≡ self.old) }
        ensures sound { IsSound self.new }
    {
        self.spares.ready()?;
        let gate = self.spares.begun();
        self.buffers.put(buffer, gate)?;
        Ok(())
    }

    /// The buffer, which nobody watches, is no longer known.
    pub fn close_buffer(&mut self, buffer: BufferId)
        requires known { is_known self.old buffer ≡ true }
        requires unwatched { watchers_of self.old buffer ≡ [] }
        ensures closes { Closes buffer self.old self.new }
        ensures sound { IsSound self.new }
    {
        self.buffers.discard(buffer);
    }

    /// Begins a flow that watches its send buffer, which is known from now on, and then the write buffer of a connection: as
    /// `open_flow`, `open_buffer` and `watch` for each of them, with one look-up of each. The answer is whether the write buffer
    /// is above: then the flow's count is 1, else 0. After running out of memory nothing is seen to have changed.
    pub fn open_sender(&mut self, flow: FlowId, conn: u32) -> Result<bool, NoMemory>
        requires closed { is_open self.old flow ≡ false }
        requires unknown { is_known self.old (BufferId.Send flow) ≡ false }
        requires known { is_known self.old (BufferId.Write conn) ≡ true }
        ensures answer { IfOk result (λ above. above ≡ is_marked self.old (BufferId.Write conn)) }
        ensures ok { OnOk result (Opens flow conn self.old self.new) }
        ensures err { OnErr result (IsSeenAs self.old self.new) }
        ensures sound { IsSound self.new }
    {
        let own = line_up(&mut self.buffers, &mut self.spares, flow)?;
        let alloc = self.alloc;
        match join(&mut self.flows, &mut self.buffers, alloc, flow, own, conn) {
            Ok(above) => Ok(above),
            Err(NoMemory) => {
                self.buffers.discard(BufferId::Send(flow));
                Err(NoMemory)
            }
        }
    }

    /// Adds the flow as the last watcher of the buffer. Where the buffer is above, the flow's count grows by 1, and the answer
    /// is true. Takes the room of a pending low too. After running out of memory nothing has changed.
    pub fn watch(&mut self, flow: FlowId, buffer: BufferId) -> Result<bool, NoMemory>
        requires known { is_known self.old buffer ≡ true }
        requires open { is_open self.old flow ≡ true }
        requires apart { times flow (watchers_of self.old buffer) ≡ 0 }
        ensures answer { IfOk result (λ above. above ≡ is_marked self.old buffer) }
        ensures ok { OnOk result (Watches flow buffer self.old self.new) }
        ensures err { OnErr result (self.new ≡ self.old) }
        ensures sound { IsSound self.new }
    {
        let Some(watcher) = self.flows.get_mut(flow) else {
            unreachable!()
        };
        let Some(gate) = self.buffers.get_mut(buffer) else {
            unreachable!()
        };
        watcher.make_room()?;
        let place = gate.add(flow)?;
        watcher.add(Watch { buffer, place });
        Ok(gate.is_above())
    }

    /// The buffer rose: it is marked, and the count of each of its watchers grows by 1.
    pub fn high(&mut self, buffer: BufferId)
        requires known { is_known self.old buffer ≡ true }
        requires low { is_marked self.old buffer ≡ false }
        ensures rises { Rises buffer self.old self.new }
        ensures sound { IsSound self.new }
    {
        let Some(gate) = self.buffers.get_mut(buffer) else {
            unreachable!()
        };
        gate.rise();
    }

    /// The buffer drained: it is no longer marked, and each of its watchers has a pending low, in order. No count
    /// changes, since each watcher is now held back by its low.
    pub fn begin_low(&mut self, buffer: BufferId)
        requires high { is_marked self.old buffer ≡ true }
        requires told { pending_on self.old buffer ≡ [] }
        ensures drains { Drains buffer self.old self.new }
        ensures sound { IsSound self.new }
    {
        let Some(gate) = self.buffers.get_mut(buffer) else {
            unreachable!()
        };
        gate.drain();
    }

    /// Takes the first pending low of the buffer, and lowers the count of its flow by 1. None exactly where no low is
    /// pending on it.
    pub fn next_low(&mut self, buffer: BufferId) -> Option<FlowId>
        ensures none { IsNone result ↔ (pending_on self.old buffer ≡ []) }
        ensures tells { Tells buffer (option_to_list result) self.old self.new }
        ensures sound { IsSound self.new }
    {
        self.buffers.get_mut(buffer)?.tell()
    }

    /// Takes the first n pending lows of the buffer, or all where there are fewer, and lowers the count of each of their
    /// flows by 1.
    pub fn take_lows(&mut self, buffer: BufferId, n: usize)
        ensures tells { Tells buffer (take n (pending_on self.old buffer)) self.old self.new }
        ensures sound { IsSound self.new }
    {
        tell_first(&mut self.buffers, buffer, n);
    }

    /// Ends a flow: its watches and its pending lows go with it, and so do its own receive, stage and send buffers
    /// that nobody else watches.
    #[inline(always)]
    pub fn forget(&mut self, flow: FlowId)
        requires { is_open self.old flow ≡ true }
        ensures forgets { Forgets flow self.old self.new }
        ensures sound { IsSound self.new }
    {
        let Some(watcher) = self.flows.get(flow) else {
            unreachable!()
        };
        leave_each(&mut self.buffers, watcher.watches());
        self.flows.discard(flow);
        let spares = &mut self.spares;
        self.buffers.close_recv(flow, spares);
        close_stages(&mut self.buffers, spares, flow);
        self.buffers.close_send(flow, spares);
    }
}

// How often a flow is held back by the buffers that it watches.
fn held_back(buffers: &Buffers, watches: &[Watch]) -> u64
    requires { length watches.now ≤ 2 ^ 62 }
    ensures { (f : FlowId) → AreWatches f watches.now buffers.now → result ≡ held buffers.now f (watched_in watches.now) }
{
    let mut count = 0;
    for watch in watches {
        count += held_by(buffers, *watch);
    }
    count
}

// How often a flow is held back by a buffer that it watches.
fn held_by(buffers: &Buffers, watch: Watch) -> u64
    ensures held { (f : FlowId) (line : Line) → StandsIn f watch line buffers.now → result ≡ held_in f line }
    ensures most { result ≤ 2 }
{
    match buffers.get(watch.buffer) {
        Some(gate) => gate.held(watch.place),
        None => 0,
    }
}

// Whether a buffer isn't above, where none of these watches is of a buffer that is: it is looked up only where it isn't
// among them.
fn is_low(buffers: &Buffers, watches: &[Watch], buffer: BufferId) -> bool
    ensures { count_by (above_at buffers.now) (watched_in watches.now) ≡ 0 → result ≡ not (above_at buffers.now buffer) }
{
    watches.iter().any(|watch| watch.buffer == buffer) || !is_above(buffers, buffer)
}

fn is_above(buffers: &Buffers, buffer: BufferId) -> bool
    ensures { result ≡ above_at buffers.now buffer }
{
    match buffers.get(buffer) {
        Some(gate) => gate.is_above(),
        None => false,
    }
}

// The first watchers of a buffer that are to be told are told.
fn tell_first(buffers: &mut Buffers, buffer: BufferId, n: usize)
    ensures { (b : BufferId) → buffer_at buffers.new b ≡ (if same_buffer buffer b then option_map (told n) (buffer_at buffers.old b) else buffer_at buffers.old b) }
{
    if let Some(gate) = buffers.get_mut(buffer) {
        gate.tell_first(n);
    }
}

// A flow leaves the line of each buffer that it watches.
fn leave_each(buffers: &mut Buffers, watches: &[Watch])
    ensures { (f : FlowId) → AreWatches f watches.now buffers.old → (b : BufferId) → buffer_at buffers.new b ≡ option_map (left f) (buffer_at buffers.old b) }
{
    for watch in watches {
        leave(buffers, *watch);
    }
}

// The flow at the place of a watch leaves that line.
fn leave(buffers: &mut Buffers, watch: Watch)
    ensures { (f : FlowId) (line : Line) → StandsIn f watch line buffers.old → (b : BufferId) → buffer_at buffers.new b ≡ (if same_buffer watch.buffer b then Some (left f line) else buffer_at buffers.old b) }
{
    if let Some(gate) = buffers.get_mut(watch.buffer) {
        gate.remove(watch.place);
    }
}

// The stages of a flow are no longer known, but for those that somebody watches.
fn close_stages(buffers: &mut Buffers, spares: &mut Spares, flow: FlowId)
    ensures { (b : BufferId) → buffer_at buffers.new b ≡ (if is_stage flow b then kept (buffer_at buffers.old b) else buffer_at buffers.old b) }
{
    let mut after = None;
    'stages: while let Some(stage) = buffers.stage_after(flow, after) {
        buffers.close_stage(flow, stage, spares);
        after = Some(stage);
    }
}
