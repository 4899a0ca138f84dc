// Gates of buffers that are no longer known, whose memory later ones get.
ghost use Rattle.std.specs.Prelude.{◌≡◌, [], false};

use crate::gate::Gate;
use io_ports::NoMemory;
use std::alloc::Global;
use std::mem;

/// The most gates that are kept: those of two buffers of each flow that is kept elsewhere.
const MOST: usize = 512;

/// Gates of buffers that are no longer known: a buffer that comes takes the memory of one of them. They are small, and few
/// beside the buffers, so that a worker at rest holds little.
#[derive(Drop)]
pub(crate) struct Spares {
    alloc: Global,
    gates: Vec<Gate>,
}

impl Spares {
    /// None. Takes no memory.
    pub(crate) fn new(alloc: Global) -> Self {
        Spares {
            alloc,
            gates: Vec::new(alloc),
        }
    }

    /// Makes room for those that are kept.
    #[inline(always)]
    pub(crate) fn ready(&mut self) -> Result<(), NoMemory> {
        if self.gates.capacity() < MOST {
            return self.make_room();
        }
        Ok(())
    }

    // The first gate that comes makes it, so it isn't inlined.
    #[inline(never)]
    fn make_room(&mut self) -> Result<(), NoMemory> {
        self.gates.reserve(MOST)?;
        Ok(())
    }

    /// A gate as `Gate::new` makes it, with the memory of one that was kept, if there is one.
    pub(crate) fn begun(&mut self) -> Gate
        ensures { result ≡ record { above = false; watchers = []; pending = [] } }
    {
        match self.gates.pop() {
            Some(gate) => gate.renewed(),
            None => Gate::new(self.alloc),
        }
    }

    /// Keeps the memory of a gate that goes, where there is room for it; the gate is left without. Takes no memory.
    #[inline(always)]
    pub(crate) fn keep_memory(&mut self, gate: &mut Gate) {
        if self.gates.len() < self.gates.capacity() {
            let _ = self.gates.push(mem::replace(gate, Gate::new(self.alloc)));
        }
    }
}
