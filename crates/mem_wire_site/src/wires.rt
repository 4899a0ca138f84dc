// The connections of a worker in memory.
ghost use Rattle.std.specs.Prelude.{◌≡◌};
ghost use Rattle.mem_ports.specs.Steps.{steps_in};

use crate::signs::Signs;
use io_ports::{Failed, NoMemory};
use mem_ports::Kept;
use relay_ports::MemTaps;
use std::alloc::Global;
use std::marker::Model;
use std::sync::Arc;
use worker_ports::{WireRefusal, Wired, Wires};

/// Connections in memory, which are told like those of a relay. Nothing comes before their site has made a round, as clients come by
/// rounds. Once the workers are to stop, they tell it behind what was still to come.
#[derive(Drop)]
pub struct PlayWires {
    taps: MemTaps,
    signs: Arc<Signs, Global>,
    /// How many answers are to come before they wait for a stop, if they do.
    left: Option<usize>,
    /// Whether it is to come that the worker is to stop.
    ends: bool,
}

impl Model for PlayWires {
    ghost use Rattle.relay_ports.specs.Memory.{TapsMemory};

    ghost Value = { TapsMemory };

    ghost view = { λ w. w.taps };
}

impl PlayWires {
    /// These connections, of a site that gives these signs. Behind so many answers they wait until the worker is to stop.
    pub(crate) fn new(taps: MemTaps, signs: Arc<Signs, Global>, left: Option<usize>) -> Self
        ensures { result ≡ taps }
    {
        PlayWires {
            taps,
            signs,
            left,
            ends: false,
        }
    }

    /// What was given, offered and closed, in order, and the pieces that were offered, one behind the other.
    pub fn record(&self) -> (&[Kept], &[u8])
        ensures { steps_in result.0.now result.1.now ≡ self.now.steps }
    {
        self.taps.record()
    }

    /// How many calls failed.
    pub fn faults(&self) -> u64
        ensures { result ≡ self.now.faults }
    {
        self.taps.faults()
    }

    // Waits for what the site tells.
    fn wait(&mut self)
        ensures { self.new ≡ self.old }
    {
        self.signs.wait_for_round();
        match self.left {
            Some(left) if left > 0 => self.left = Some(left - 1),
            Some(_) => self.signs.wait_for_stop(),
            None => {}
        }
    }

    // Where the workers are to stop, that is to come behind the rest. After running out of memory nothing has changed.
    fn heed(&mut self) -> Result<(), NoMemory>
        ensures { self.new ≡ record self.old { answers = self.new.answers } }
    {
        if self.ends || !self.signs.is_over() {
            return Ok(());
        }
        self.taps.tell(Wired::Stop)?;
        self.ends = true;
        Ok(())
    }
}

impl Wires for PlayWires {
    ghost use Rattle.relay_ports.specs.Memory.{seen_of};

    ghost seen = { seen_of };

    ghost faults = { λ w. w.faults };

    fn next(&mut self) -> Result<Wired, WireRefusal> {
        self.wait();
        match self.heed() {
            Ok(()) => self.taps.next(),
            Err(NoMemory) => Err(WireRefusal::NoMemory),
        }
    }

    fn offer(&mut self, conn: u32, piece: &[u8]) -> Result<usize, Failed> {
        self.taps.offer(conn, piece)
    }

    fn close(&mut self, conn: u32) {
        self.taps.close(conn);
    }
}
