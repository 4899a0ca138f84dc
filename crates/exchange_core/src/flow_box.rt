// A flow in a block of memory of its own.
ghost use Rattle.exchange_core.specs.Lending.{LendsBoxed};
ghost use Rattle.std.specs.Borrow.{sem};
ghost use Rattle.std.specs.Prelude.{◌≡◌, IfOk};

use crate::flow::Flow;
use io_ports::NoMemory;
use std::alloc::Global;
use std::marker::Model;

/// A flow in a block of memory of its own: an exchange is small, and moves within the map of them at little cost.
#[derive(Drop)]
pub(crate) struct FlowBox {
    flow: Box<Flow>,
}

impl Model for FlowBox {
    ghost use Rattle.exchange_core.specs.Flow.{Flow};

    ghost Value = { Flow };

    ghost view = { λ a. a.flow.value };
}

impl FlowBox {
    pub(crate) fn new(alloc: Global, flow: Flow) -> Result<Self, NoMemory>
        ensures { IfOk result (λ made. made ≡ flow) }
    {
        Ok(FlowBox {
            flow: Box::new(alloc, flow)?,
        })
    }

    pub(crate) fn flow(&self) -> &Flow
        ensures { result.now ≡ self.now }
    {
        &self.flow
    }

    /// The flow to change.
    pub(crate) fn flow_mut(&mut self) -> &mut Flow
        ensures* writes_back { sem 𝓛 (LendsBoxed self.entry result) }
        ensures value { result.now ≡ self.old }
    {
        &mut self.flow
    }
}
