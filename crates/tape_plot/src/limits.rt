// The limits that a summary tells.
ghost use Rattle.std.specs.Prelude.{◌≡◌};
ghost use Rattle.tape_plot.specs.Limits as spec;

use flow_gate::{BufferId, FlowId};
use io_ports::NoMemory;
use std::alloc::Global;
use std::collections::BTreeMap;

/// The limits of buffers by their names in the summary, each the last that it told.
#[derive(Drop)]
pub struct Limits {
    items: BTreeMap<BufferId, u32>,
}

impl Limits {
    ghost use Rattle.std.specs.Prelude.{◌≡◌, ◌+◌, ◌==◌, [], None, if◌then◌else◌, OnOk};
    ghost use Rattle.flow_rules.specs.declared.ids.BufferId.TheVariants as id;
    ghost use Rattle.tape_plot.specs.Limits.{LimitsAre, TellsLimit, limit_at, place_limit_at};

    /// None is told. Takes no memory.
    pub fn new(alloc: Global) -> Self
        ensures { LimitsAre result [] }
    {
        Limits {
            items: BTreeMap::new(alloc),
        }
    }

    /// The summary tells a limit.
    pub fn tell(&mut self, buffer: BufferId, limit: u32) -> Result<(), NoMemory>
        ensures { OnOk result (TellsLimit self.old buffer limit self.new) }
    {
        self.items.insert(buffer, limit)?;
        Ok(())
    }

    /// The limit of a place of a flow with so many: the first is its receive buffer, and each other a stage; the last is its send
    /// buffer where no such stage was told.
    pub fn of_place(&self, flow: FlowId, place: u32, count: u32) -> Option<u32>
        ensures { result ≡ place_limit_at self.now flow count place }
    {
        if place == 0 {
            return self.named(BufferId::Recv(flow));
        }
        match self.named(BufferId::Stage(flow, place)) {
            Some(limit) => Some(limit),
            None => self.of_last(flow, place, count),
        }
    }

    /// The limit of a connection's write buffer.
    pub fn of_write(&self, conn: u32) -> Option<u32>
        ensures { result ≡ limit_at self.now (id.Write conn) }
    {
        self.named(BufferId::Write(conn))
    }

    /// Whether the last of so many places of a flow is its send buffer, as far as the summary told.
    pub fn is_send(&self, flow: FlowId, count: u32) -> bool {
        let last = count.saturating_sub(1);
        self.named(BufferId::Stage(flow, last)).is_none()
            && self.named(BufferId::Send(flow)).is_some()
    }

    // The limit of the send buffer, where the place is the last of so many.
    fn of_last(&self, flow: FlowId, place: u32, count: u32) -> Option<u32>
        ensures { result ≡ (if place + 1 == count then limit_at self.now (id.Send flow) else None) }
    {
        if u64::from(place) + 1 == u64::from(count) {
            return self.named(BufferId::Send(flow));
        }
        None
    }

    fn named(&self, buffer: BufferId) -> Option<u32>
        ensures { result ≡ limit_at self.now buffer }
    {
        self.items.get(&buffer).copied()
    }
}

/// A limit that the summary told, 0 where it told none.
pub fn known(limit: Option<u32>) -> u64
    ensures { result ≡ spec.known limit }
{
    match limit {
        Some(limit) => u64::from(limit),
        None => 0,
    }
}
