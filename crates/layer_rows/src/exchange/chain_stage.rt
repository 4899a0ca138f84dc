// What a chain is played on: the receive buffer before it and the write buffer behind it.
use crate::exchange::answer::show_crossed;
use crate::exchange::chain_act::{ChainAct, filters_of};
use crate::exchange::stage::octets;
use crate::exchange::words::Words;
use crate::said::Said;
use filter_chain::{Chain, OfferFault};
use flow_gate::FlowId;
use io_ports::NoMemory;
use std::alloc::Global;
use wm_buffer::{Crossed, Shifted, WatermarkBuffer};

/// When chains are made, in ms.
const START: u64 = 7;

const FLOW: FlowId = FlowId {
    exchange: 1,
    back: false,
};

const QUIET: Shifted = Shifted {
    from: Crossed::Nothing,
    to: Crossed::Nothing,
};

/// A buffer without a limit that holds so many octets.
fn filled(alloc: Global, n: u32) -> Result<WatermarkBuffer, NoMemory> {
    let mut buffer = WatermarkBuffer::new(alloc, 0);
    buffer.add(&octets(alloc, 0, n)?)?;
    Ok(buffer)
}

/// A chain with its neighbours.
#[derive(Drop)]
pub struct ChainStage {
    chain: Chain,
    recv: WatermarkBuffer,
    out: WatermarkBuffer,
}

impl ChainStage {
    /// The chain that a line asks for. None where a number isn't in its range.
    pub fn of_line(alloc: Global, line: &str) -> Result<Option<Self>, NoMemory> {
        let mut words = Words { rest: line };
        let _ = words.next();
        let (Some(quantum), Some(send), Some(n)) = (words.number(), words.number(), words.number())
        else {
            return Ok(None);
        };
        if quantum < 16_384 || 1_048_576 < quantum || 16_777_216 < send {
            return Ok(None);
        }
        let filters = filters_of(alloc, &mut words)?;
        let chain = Chain::new(alloc, FLOW, &filters, send, START, quantum)?;
        Ok(Some(ChainStage {
            chain,
            recv: filled(alloc, n)?,
            out: WatermarkBuffer::new(alloc, 0),
        }))
    }

    /// What both buffers crossed. None where the act may not be done.
    fn perform(&mut self, what: ChainAct) -> Option<Result<Shifted, OfferFault>> {
        match what {
            ChainAct::Offer(n) if n <= self.recv.len() => Some(self.chain.offer(&mut self.recv, n)),
            ChainAct::Release(place, n) => self.release(place, n),
            ChainAct::Send(n) => self.send(n),
            ChainAct::Wait(now) if self.chain.time() <= now => {
                self.chain.tick(now);
                Some(Ok(QUIET))
            }
            ChainAct::Finish => {
                self.chain.finish(self.recv.is_empty());
                Some(Ok(QUIET))
            }
            _ => None,
        }
    }

    fn release(&mut self, place: u32, n: u32) -> Option<Result<Shifted, OfferFault>> {
        if place < 1 || self.chain.places() <= place {
            return None;
        }
        if n < 1 || self.chain.may_release(place) < n {
            return None;
        }
        Some(self.chain.release(place, n))
    }

    fn send(&mut self, n: u32) -> Option<Result<Shifted, OfferFault>> {
        let last = self.chain.places();
        if self.chain.len(last) < n {
            return None;
        }
        match self.chain.frame(&mut self.out, b"ab", n) {
            Ok(shifted) => Some(Ok(shifted)),
            Err(NoMemory) => Some(Err(OfferFault::NoMemory)),
        }
    }

    /// Does an act, and says its answer and what the chain is then.
    pub fn play(&mut self, said: &mut Said, what: ChainAct) {
        if let ChainAct::Out = what {
            return self.show_out(said);
        }
        match self.perform(what) {
            Some(Ok(shifted)) => show_crossed(said, shifted),
            Some(Err(OfferFault::TooLarge)) => said.say(" too large"),
            Some(Err(OfferFault::NoMemory)) => said.say(" no memory"),
            None => said.say(" refused"),
        }
        self.show_held(said);
        self.show_free(said);
        said.say(if self.chain.head_may_go() {
            ", head goes"
        } else {
            ", head waits"
        });
    }

    /// What each place holds.
    fn show_held(&self, said: &mut Said) {
        said.say(", holds");
        for place in 1..10 {
            if place <= self.chain.places() {
                said.say_with(" ", u64::from(self.chain.len(place)));
            }
        }
    }

    /// What each stage may release.
    fn show_free(&self, said: &mut Said) {
        said.say(", free");
        for place in 1..9 {
            if place < self.chain.places() {
                said.say_with(" ", u64::from(self.chain.may_release(place)));
            }
        }
    }

    fn show_out(&self, said: &mut Said) {
        for octet in self.out.front() {
            said.say_with(" ", u64::from(*octet));
        }
    }
}
