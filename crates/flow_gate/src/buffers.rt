// The gates of the buffers that are known.
ghost use Rattle.flow_gate.specs.Ids.{same_buffer, same_flow};
ghost use Rattle.flow_gate.specs.Lends.{LendsBuffer};
ghost use Rattle.flow_gate.specs.Named.{Updates};
ghost use Rattle.flow_gate.specs.Parts.{bound_after, buffer_at, flow_at, is_after, kept};
ghost use Rattle.flow_rules.specs.declared.ids.BufferId.{BufferId};
ghost use Rattle.flow_rules.specs.declared.ids.FlowId.{FlowId};
ghost use Rattle.flow_gate.specs.Parts.{stage_of};
ghost use Rattle.std.specs.Borrow.{sem};
ghost use Rattle.std.specs.Option.{option_copied, option_copied_mut};
ghost use Rattle.std.specs.Prelude.{◌≡◌, ◌<◌, [], ℕ, IfNone, IfSome, None, OnErr, OnOk, Some, if◌then◌else◌, true};

use crate::flow_map::FlowMap;
use crate::gate::Gate;
use crate::spares::Spares;
use flow_rules::{BufferId, FlowId};
use io_ports::NoMemory;
use paged_map::PagedMap;
use std::alloc::Global;
use std::collections::BTreeMap;
use std::marker::Model;
use std::ops::Bound;

/// The gates of the buffers that are known. All but stages, which few flows have, are found by number.
#[derive(Drop)]
pub(crate) struct Buffers {
    writes: PagedMap<u32, Gate>,
    recvs: FlowMap<Gate>,
    stages: BTreeMap<StageId, Gate>,
    sends: FlowMap<Gate>,
}

impl Model for Buffers {
    ghost use Rattle.flow_gate.specs.Line.{Line};
    ghost use Rattle.flow_rules.specs.declared.ids.BufferId.{BufferId};
    ghost use Rattle.std.specs.Prelude.{List};

    ghost Value = { List (BufferId × Line) };

    ghost use Rattle.flow_gate.specs.Named.{all_of};

    ghost view = { λ a. all_of a.writes.entries a.recvs a.stages.entries a.sends };
}

impl Buffers {
    /// None. Takes no memory.
    pub(crate) fn new(alloc: Global) -> Self
        ensures { result ≡ [] }
    {
        Buffers {
            writes: PagedMap::new(alloc),
            recvs: FlowMap::new(alloc),
            stages: BTreeMap::new(alloc),
            sends: FlowMap::new(alloc),
        }
    }

    /// The gate of a buffer, if it is known.
    #[inline(always)]
    pub(crate) fn get(&self, buffer: BufferId) -> Option<&Gate>
        ensures value { option_copied result ≡ buffer_at self.now buffer }
    {
        match buffer {
            BufferId::Write(conn) => self.writes.get(&conn),
            BufferId::Recv(flow) => self.recvs.get(flow),
            BufferId::Stage(flow, stage) => self.stages.get(&StageId { flow, stage }),
            BufferId::Send(flow) => self.sends.get(flow),
        }
    }

    /// The gate of a buffer, if it is known, to be changed.
    #[inline(always)]
    pub(crate) fn get_mut(&mut self, buffer: BufferId) -> Option<&mut Gate>
        ensures* writes_back { sem 𝓛 (LendsBuffer self.entry buffer result) }
        ensures value { option_copied_mut result ≡ buffer_at self.old buffer }
    {
        match buffer {
            BufferId::Write(conn) => self.writes.get_mut(&conn),
            BufferId::Recv(flow) => self.recvs.get_mut(flow),
            BufferId::Stage(flow, stage) => self.stages.get_mut(&StageId { flow, stage }),
            BufferId::Send(flow) => self.sends.get_mut(flow),
        }
    }

    /// As `get_mut`, of the write buffer of a connection.
    #[inline(always)]
    pub(crate) fn write_mut(&mut self, conn: u32) -> Option<&mut Gate>
        ensures* writes_back { sem 𝓛 (LendsBuffer self.entry (BufferId.Write conn) result) }
        ensures value { option_copied_mut result ≡ buffer_at self.old (BufferId.Write conn) }
    {
        self.writes.get_mut(&conn)
    }

    /// As `put`, of the send buffer of a flow.
    #[inline(always)]
    pub(crate) fn put_send(&mut self, flow: FlowId, gate: Gate) -> Result<(), NoMemory>
        ensures updates { OnOk result (Updates same_buffer (BufferId.Send flow) (Some gate) self.old self.new) }
        ensures err { OnErr result (self.new ≡ self.old) }
    {
        self.sends.put(flow, gate)
    }

    /// From now on the buffer has this gate. After running out of memory nothing has changed.
    pub(crate) fn put(&mut self, buffer: BufferId, gate: Gate) -> Result<(), NoMemory>
        ensures updates { OnOk result (Updates same_buffer buffer (Some gate) self.old self.new) }
        ensures err { OnErr result (self.new ≡ self.old) }
    {
        match buffer {
            BufferId::Write(conn) => self.writes.put(conn, gate),
            BufferId::Recv(flow) => self.recvs.put(flow, gate),
            BufferId::Stage(flow, stage) => match self
                .stages
                .insert(StageId { flow, stage }, gate)
            {
                Ok(_) => Ok(()),
                Err(_) => Err(NoMemory),
            },
            BufferId::Send(flow) => self.sends.put(flow, gate),
        }
    }

    /// From now on the buffer isn't known. Takes no memory.
    pub(crate) fn discard(&mut self, buffer: BufferId)
        ensures { Updates same_buffer buffer None self.old self.new }
    {
        match buffer {
            BufferId::Write(conn) => self.writes.discard(&conn),
            BufferId::Recv(flow) => self.recvs.discard(flow),
            BufferId::Stage(flow, stage) => {
                drop(self.stages.remove(&StageId { flow, stage }));
            }
            BufferId::Send(flow) => self.sends.discard(flow),
        }
    }

    /// The receive buffer of a flow is no longer known, if nobody watches it.
    pub(crate) fn close_recv(&mut self, flow: FlowId, spares: &mut Spares)
        ensures { (b : BufferId) → buffer_at self.new b ≡ (if same_buffer (BufferId.Recv flow) b then kept (buffer_at self.old b) else buffer_at self.old b) }
    {
        // No session opens the gate of a receive buffer: then there is none to look for.
        if !self.recvs.is_empty() {
            close_unwatched(&mut self.recvs, spares, flow);
        }
    }

    /// A stage of a flow is no longer known, if nobody watches it.
    pub(crate) fn close_stage(&mut self, flow: FlowId, stage: u32, spares: &mut Spares)
        ensures { (b : BufferId) → buffer_at self.new b ≡ (if same_buffer (BufferId.Stage flow stage) b then kept (buffer_at self.old b) else buffer_at self.old b) }
    {
        let buffer = BufferId::Stage(flow, stage);
        if let Some(gate) = self.get_mut(buffer) {
            if !gate.is_watched() {
                spares.keep_memory(gate);
                self.discard(buffer);
            }
        }
    }

    /// The send buffer of a flow is no longer known, if nobody watches it.
    pub(crate) fn close_send(&mut self, flow: FlowId, spares: &mut Spares)
        ensures { (b : BufferId) → buffer_at self.new b ≡ (if same_buffer (BufferId.Send flow) b then kept (buffer_at self.old b) else buffer_at self.old b) }
    {
        close_unwatched(&mut self.sends, spares, flow);
    }

    /// The first stage of a flow that is known, or the first one after another.
    #[inline(always)]
    pub(crate) fn stage_after(&self, flow: FlowId, after: Option<u32>) -> Option<u32>
        ensures later { IfSome result (λ i. is_after after i ≡ true) }
        ensures first { IfSome result (λ i. (j : ℕ) → is_after after j ≡ true → j < i → buffer_at self.now (BufferId.Stage flow j) ≡ None) }
        ensures none { IfNone result ((j : ℕ) → is_after after j ≡ true → buffer_at self.now (BufferId.Stage flow j) ≡ None) }
    {
        if self.stages.is_empty() {
            return None;
        }
        self.next_stage(flow, after)
    }

    // The same by a search. Few flows have stages, so it isn't inlined.
    #[inline(never)]
    fn next_stage(&self, flow: FlowId, after: Option<u32>) -> Option<u32>
        ensures later { IfSome result (λ i. is_after after i ≡ true) }
        ensures first { IfSome result (λ i. (j : ℕ) → is_after after j ≡ true → j < i → buffer_at self.now (BufferId.Stage flow j) ≡ None) }
        ensures none { IfNone result ((j : ℕ) → is_after after j ≡ true → buffer_at self.now (BufferId.Stage flow j) ≡ None) }
    {
        let (&stage, _) = self
            .stages
            .range((bound_after(flow, after), Bound::Unbounded))
            .next()?;
        stage_of(flow, stage)
    }
}

// The gate of a flow goes where nobody watches, and its memory is kept.
#[inline(always)]
fn close_unwatched(gates: &mut FlowMap<Gate>, spares: &mut Spares, flow: FlowId)
    ensures { (f : FlowId) → flow_at gates.new f ≡ (if same_flow flow f then kept (flow_at gates.old f) else flow_at gates.old f) }
{
    if let Some(gate) = gates.get_mut(flow) {
        if !gate.is_watched() {
            spares.keep_memory(gate);
            gates.discard(flow);
        }
    }
}

// Where the stages of a flow begin, or those after one.
fn bound_after(flow: FlowId, after: Option<u32>) -> Bound<StageId>
    ensures { result ≡ bound_after flow after }
{
    match after {
        None => Bound::Included(StageId { flow, stage: 0 }),
        Some(stage) => Bound::Excluded(StageId { flow, stage }),
    }
}

/// A stage of a flow.
#[derive(Clone, Copy, PartialEq, Eq, PartialOrd, Ord)]
pub(crate) struct StageId {
    pub(crate) flow: FlowId,
    pub(crate) stage: u32,
}

/// The number of a stage, where it is one of this flow.
pub(crate) fn stage_of(flow: FlowId, stage: StageId) -> Option<u32>
    ensures { result ≡ stage_of flow stage }
{
    if stage.flow == flow {
        Some(stage.stage)
    } else {
        None
    }
}
