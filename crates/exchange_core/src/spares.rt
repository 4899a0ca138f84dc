// Flows of earlier exchanges, whose buffers later ones get.
ghost use Rattle.std.specs.Prelude.{◌≡◌, ◌≤◌, [], IfOk, IfSome};
ghost use Rattle.exchange_core.specs.Exchange.{begun_flow};
ghost use Rattle.exchange_core.specs.Flow.{IsSound};
ghost use Rattle.proxy_config.specs.Ranges.{AreFilters, IsBetween, most_octets};

use crate::exchange::Exchange;
use crate::flow::Flow;
use crate::flow_box::FlowBox;
use crate::start::StartSpec;
use flow_gate::FlowId;
use io_ports::NoMemory;
use proxy_config::FilterList;
use std::alloc::Global;

/// The most flows that are kept: as many as a connection with 100 streams begins at once, and some more. With the defaults each has
/// room for 163,840 octets in its two buffers, so that these have 42 million octets of room, of which a worker at rest holds what
/// bodies have filled.
const MOST: usize = 256;

/// Flows of exchanges that are gone, of which nothing but the room of their buffers is used again.
#[derive(Drop)]
pub(crate) struct Spares {
    alloc: Global,
    flows: Vec<FlowBox>,
}

impl Spares {
    /// None. Takes no memory.
    pub(crate) fn new(alloc: Global) -> Self {
        Spares {
            alloc,
            flows: Vec::new(alloc),
        }
    }

    /// Makes room for those that are kept.
    pub(crate) fn ready(&mut self) -> Result<(), NoMemory> {
        if self.flows.capacity() < MOST {
            self.flows.reserve(MOST)?;
        }
        Ok(())
    }

    /// A flow as `Flow::new` makes it, with the room of an earlier one where that fits.
    #[inline(always)]
    pub(crate) fn begun(
        &mut self,
        id: FlowId,
        filters: &FilterList,
        spec: &StartSpec,
        multiple: u32,
    ) -> Result<FlowBox, NoMemory>
        requires filters { AreFilters filters.now }
        requires recv { spec.now.recv ≤ most_octets }
        requires send { spec.now.send ≤ most_octets }
        requires quantum { IsBetween 16384 1048576 spec.now.quantum }
        ensures begun { IfOk result (λ flow. flow ≡ begun_flow id filters.now spec.entry.now multiple) }
        ensures sound { IfOk result IsSound }
    {
        if filters.is_empty()
            && let Some(flow) = self.renewed(id, spec, multiple)?
        {
            return Ok(flow);
        }
        self.made(id, filters, spec, multiple)
    }

    // A new flow. Once as many were kept as are live at a time this is rare, so it stands out of the way of those that are renewed.
    #[inline(never)]
    fn made(
        &self,
        id: FlowId,
        filters: &FilterList,
        spec: &StartSpec,
        multiple: u32,
    ) -> Result<FlowBox, NoMemory>
        requires filters { AreFilters filters.now }
        requires recv { spec.now.recv ≤ most_octets }
        requires send { spec.now.send ≤ most_octets }
        requires quantum { IsBetween 16384 1048576 spec.now.quantum }
        ensures begun { IfOk result (λ flow. flow ≡ begun_flow id filters.now spec.entry.now multiple) }
        ensures sound { IfOk result IsSound }
    {
        FlowBox::new(
            self.alloc,
            Flow::new(self.alloc, id, filters, spec, multiple)?,
        )
    }

    // A flow without stages in the room of the last one that was kept, if there is one and it fits.
    #[inline(always)]
    fn renewed(
        &mut self,
        id: FlowId,
        spec: &StartSpec,
        multiple: u32,
    ) -> Result<Option<FlowBox>, NoMemory>
        requires recv { spec.now.recv ≤ most_octets }
        requires send { spec.now.send ≤ most_octets }
        requires quantum { IsBetween 16384 1048576 spec.now.quantum }
        ensures begun { IfOk result (λ found. IfSome found (λ flow. flow ≡ begun_flow id [] spec.entry.now multiple)) }
        ensures sound { IfOk result (λ found. IfSome found IsSound) }
    {
        let Some(mut flow) = self.flows.pop() else {
            return Ok(None);
        };
        if flow.flow_mut().renew(id, spec, multiple)? {
            return Ok(Some(flow));
        }
        Ok(None)
    }

    /// The flows of an exchange that is gone are kept, if there is room for them and they hold no octets: octets may lie in a block
    /// that others wait for. Takes no memory.
    pub(crate) fn keep(&mut self, exchange: Exchange) {
        let Exchange {
            request,
            response,
            ..
        } = exchange;
        self.keep_flow(request);
        if let Some(response) = response {
            self.keep_flow(response);
        }
    }

    #[inline(always)]
    fn keep_flow(&mut self, flow: FlowBox) {
        let has_room = self.flows.len() < self.flows.capacity() && self.flows.len() < MOST;
        if has_room && flow.flow().held() == 0 {
            let _ = self.flows.push(flow);
        }
    }
}
