// A flow that begins with its send buffer and a write buffer.
ghost use Rattle.std.specs.Prelude.{◌≡◌, IfOk, IfSome, IsSome, OnOk, OnErr, Some};
ghost use Rattle.flow_gate.specs.Ids.{same_buffer};
ghost use Rattle.flow_gate.specs.Line.{alone};
ghost use Rattle.flow_gate.specs.Named.{Updates};
ghost use Rattle.flow_gate.specs.Parts.{IsApart, Joins, buffer_at};
ghost use Rattle.flow_rules.specs.declared.ids.BufferId.{BufferId};

use crate::buffers::Buffers;
use crate::flow_map::FlowMap;
use crate::spares::Spares;
use crate::watcher::Watcher;
use flow_rules::{BufferId, FlowId};
use io_ports::NoMemory;
use std::alloc::Global;

/// The send buffer of a flow is known from now on, and the flow stands alone in its line. The answer is its place there. After
/// running out of memory nothing has changed.
#[inline(always)]
pub(crate) fn line_up(
    buffers: &mut Buffers,
    spares: &mut Spares,
    flow: FlowId,
) -> Result<u64, NoMemory>
    ensures ok { IfOk result (λ place. Updates same_buffer (BufferId.Send flow) (Some (alone place flow)) buffers.old buffers.new) }
    ensures err { OnErr result (buffers.new ≡ buffers.old) }
{
    spares.ready()?;
    let mut gate = spares.begun();
    let place = gate.add(flow)?;
    buffers.put_send(flow, gate)?;
    Ok(place)
}

/// A flow that stands at a place of the line of its send buffer is there from now on, and is the last watcher of a write buffer
/// too. The answer is whether that is above. After running out of memory nothing is seen to have changed.
#[inline(always)]
pub(crate) fn join(
    flows: &mut FlowMap<Watcher>,
    buffers: &mut Buffers,
    alloc: Global,
    flow: FlowId,
    own: u64,
    conn: u32,
) -> Result<bool, NoMemory>
    requires known { IsSome (buffer_at buffers.old (BufferId.Write conn)) }
    requires apart { IfSome (buffer_at buffers.old (BufferId.Write conn)) (IsApart flow) }
    ensures ok { IfOk result (λ above. Joins flow own conn above flows.old flows.new buffers.old buffers.new) }
    ensures flows { OnErr result (flows.new ≡ flows.old) }
    ensures buffers { OnErr result ((b : BufferId) → buffer_at buffers.new b ≡ buffer_at buffers.old b) }
{
    let Some(gate) = buffers.write_mut(conn) else {
        unreachable!()
    };
    let place = gate.add(flow)?;
    match flows.put(flow, Watcher::of_sender(alloc, flow, own, conn, place)) {
        Ok(()) => Ok(gate.is_above()),
        Err(NoMemory) => {
            gate.remove(place);
            Err(NoMemory)
        }
    }
}
