// What a worker is given.
ghost use Rattle.std.specs.Prelude.{◌≡◌, IfOk};
ghost use Rattle.mem_wire_site.specs.Memory.{clock_of, fit_of, journal_of, wires_of};

use crate::journal::PlayJournal;
use crate::signs::Signs;
use crate::wires::PlayWires;
use io_ports::{MemSink, NoMemory};
use mem_ports::MemClock;
use proxy_site::RelayPlay;
use relay_ports::MemTaps;
use std::alloc::Global;
use std::collections::VecDeque;
use std::sync::Arc;
use worker_ports::Wired;

/// What a site in memory gives to a worker.
#[derive(Drop)]
pub struct WorkerPlay {
    /// What its connections give and its journal has room for, as with a relay.
    pub outside: RelayPlay,
    /// The moment at which its clock stands, in milliseconds. A greater one than 2^60 - 1 is as good as that.
    pub moment: u64,
    /// Whether the connections wait until the worker is to stop, once they have brought all.
    pub lasts: bool,
}

/// Connections, a clock and a journal.
pub type Given = (PlayWires, (MemClock, PlayJournal));

/// The last moment of a clock.
const LAST: u64 = (1 << 60) - 1;

impl WorkerPlay {
    /// What a worker is given, with connections to so many clusters that nobody has used.
    pub(crate) fn give(
        &self,
        alloc: Global,
        clusters: u32,
        signs: &Arc<Signs, Global>,
    ) -> Result<Given, NoMemory>
        ensures { IfOk result (λ given. given ≡ fit_of clusters self.now) }
    {
        let signs = Arc::try_clone(signs)?;
        let clock = clock_at(alloc, self.moment)?;
        let journal = self.journal(alloc)?;
        let taps = self.taps(alloc, clusters)?;
        Ok((PlayWires::new(taps, signs, self.left()), (clock, journal)))
    }

    // How many answers come before the connections wait, if they do.
    fn left(&self) -> Option<usize> {
        if self.lasts {
            Some(self.outside.answers.len())
        } else {
            None
        }
    }

    fn taps(&self, alloc: Global, clusters: u32) -> Result<MemTaps, NoMemory>
        ensures { IfOk result (λ taps. taps ≡ wires_of clusters self.now) }
    {
        let answers = copies(alloc, self.outside.answers.as_slice())?;
        let failing = Vec::from_slice(alloc, self.outside.failing.as_slice())?;
        let room = self.outside.room;
        Ok(MemTaps::new(alloc, clusters, answers, room, failing))
    }

    fn journal(&self, alloc: Global) -> Result<PlayJournal, NoMemory>
        ensures { IfOk result (λ journal. journal ≡ journal_of self.now) }
    {
        let failing = Vec::from_slice(alloc, self.outside.journal_failing.as_slice())?;
        let sink = MemSink::new(alloc, self.outside.journal_room, failing)?;
        Ok(PlayJournal::new(alloc, sink))
    }
}

// A clock that stands at a moment.
fn clock_at(alloc: Global, moment: u64) -> Result<MemClock, NoMemory>
    ensures { IfOk result (λ clock. clock ≡ clock_of moment) }
{
    let mut moments = Vec::new(alloc);
    moments.push(moment.min(LAST))?;
    Ok(MemClock::new(moments))
}

fn copies(alloc: Global, answers: &[Wired]) -> Result<VecDeque<Wired>, NoMemory>
    ensures { IfOk result (λ made. made.items ≡ answers.now) }
{
    let mut made = VecDeque::new(alloc);
    let mut rest = answers;
    while let Some((answer, after)) = rest.split_first() {
        made.push_back(answer.copied(alloc)?)?;
        rest = after;
    }
    Ok(made)
}
