// Values by flow.
ghost use Rattle.flow_gate.specs.Ids.{same_flow};
ghost use Rattle.flow_gate.specs.Lends.{LendsFlow};
ghost use Rattle.flow_gate.specs.Named.{Updates};
ghost use Rattle.flow_gate.specs.Parts.{flow_at};
ghost use Rattle.std.specs.Borrow.{sem};
ghost use Rattle.std.specs.Option.{option_copied, option_copied_mut};
ghost use Rattle.std.specs.Prelude.{◌≡◌, ◌==◌, [], None, OnErr, OnOk, Some, length};

use flow_rules::FlowId;
use io_ports::NoMemory;
use paged_map::PagedMap;
use std::alloc::Global;
use std::marker::Model;

/// Values by flow. Both flows of an exchange have its number, so those of requests and those of responses lie apart.
#[derive(Drop)]
pub(crate) struct FlowMap<V> {
    requests: PagedMap<u64, V>,
    responses: PagedMap<u64, V>,
}

impl<V> Model for FlowMap<V> {
    ghost use Rattle.flow_rules.specs.declared.ids.FlowId.{FlowId};
    ghost use Rattle.std.specs.Prelude.{List};

    ghost Value = { List (FlowId × V) };

    ghost use Rattle.flow_gate.specs.Named.{both};

    ghost view = { λ m. both m.requests.entries m.responses.entries };
}

impl<V> FlowMap<V> {
    /// None. Takes no memory.
    pub(crate) fn new(alloc: Global) -> Self
        ensures { result ≡ [] }
    {
        FlowMap {
            requests: PagedMap::new(alloc),
            responses: PagedMap::new(alloc),
        }
    }

    /// Whether no flow has a value.
    #[inline(always)]
    pub(crate) fn is_empty(&self) -> bool
        ensures { result ≡ (length self.now == 0) }
    {
        self.requests.len() + self.responses.len() == 0
    }

    /// What a flow has.
    #[inline(always)]
    pub(crate) fn get(&self, flow: FlowId) -> Option<&V>
        ensures value { option_copied result ≡ flow_at self.now flow }
    {
        if flow.back {
            self.responses.get(&flow.exchange)
        } else {
            self.requests.get(&flow.exchange)
        }
    }

    /// What a flow has, to be changed.
    #[inline(always)]
    pub(crate) fn get_mut(&mut self, flow: FlowId) -> Option<&mut V>
        ensures* writes_back { sem 𝓛 (LendsFlow V.row self.entry flow result) }
        ensures value { option_copied_mut result ≡ flow_at self.old flow }
    {
        if flow.back {
            self.responses.get_mut(&flow.exchange)
        } else {
            self.requests.get_mut(&flow.exchange)
        }
    }

    /// From now on the flow has this value. After running out of memory nothing has changed.
    #[inline(always)]
    pub(crate) fn put(&mut self, flow: FlowId, value: V) -> Result<(), NoMemory>
    where
        V: Drop,
        ensures updates { OnOk result (Updates same_flow flow (Some value) self.old self.new) }
        ensures err { OnErr result (self.new ≡ self.old) }
    {
        if flow.back {
            self.responses.put(flow.exchange, value)
        } else {
            self.requests.put(flow.exchange, value)
        }
    }

    /// From now on the flow has no value. What it had is dropped where it lies. Takes no memory.
    pub(crate) fn discard(&mut self, flow: FlowId)
    where
        V: Drop,
        ensures { Updates same_flow flow None self.old self.new }
    {
        if flow.back {
            self.responses.discard(&flow.exchange);
        } else {
            self.requests.discard(&flow.exchange);
        }
    }
}
