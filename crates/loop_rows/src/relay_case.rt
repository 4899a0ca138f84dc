// A case, line by line.
use io_ports::{NoMemory, Octets};
use std::alloc::Global;
use std::collections::VecDeque;
use tcp_relay::RelayFault;
use worker_ports::Wired;

/// What a live relay meets.
#[derive(Drop)]
pub struct Case {
    /// The limit of the write buffers, in octets; 0 for none.
    pub limit: u32,
    /// How many octets an offer takes at most.
    pub most: usize,
    pub turns: u64,
    /// How often the turns are run.
    pub runs: u32,
    pub answers: VecDeque<Wired>,
    /// The calls of the connections, and the writes of the journal, that fail.
    pub taps: Vec<u64>,
    pub journal: Vec<u64>,
    /// Whether what the connections give is dispatched, without turns.
    pub dispatches: bool,
    /// The faults whose text is printed.
    pub faults: Vec<RelayFault>,
}

impl Case {
    pub fn new(alloc: Global) -> Self {
        Case {
            limit: 0,
            most: usize::MAX,
            turns: 0,
            runs: 1,
            answers: VecDeque::new(alloc),
            taps: Vec::new(alloc),
            journal: Vec::new(alloc),
            dispatches: false,
            faults: Vec::new(alloc),
        }
    }

    /// Takes up a line. A number that isn't there, or doesn't fit, is 0.
    pub fn line(&mut self, alloc: Global, line: &str) -> Result<(), NoMemory> {
        let mut words = line.split(' ');
        let word = words.next().unwrap_or("");
        let first = words.next().unwrap_or("");
        let second = words.next().unwrap_or("");
        let third = words.next().unwrap_or("");
        match word {
            "$" => {
                self.limit = number(first);
                self.most = count(second);
                self.turns = count(third) as u64;
                Ok(())
            }
            "%" => self.fail(first, count(second) as u64),
            "again" => {
                self.runs = self.runs.saturating_add(1);
                Ok(())
            }
            "dispatch" => {
                self.dispatches = true;
                Ok(())
            }
            "fault" => self.tell(first, number(second)),
            "read" => {
                let octets = octets(alloc, second, third)?;
                self.answer(Wired::Read(number(first), octets))
            }
            "accept" => self.answer(Wired::Accept(number(first))),
            "join" => self.answer(Wired::Join(number(first), number(second))),
            "lost" => self.answer(Wired::Lost(number(first))),
            "stop" => self.answer(Wired::Stop),
            _ => self.answer(Wired::Idle),
        }
    }

    fn answer(&mut self, wired: Wired) -> Result<(), NoMemory> {
        self.answers.push_back(wired)?;
        Ok(())
    }

    // The text of this fault is printed.
    fn tell(&mut self, word: &str, held: u32) -> Result<(), NoMemory> {
        self.faults.push(fault_of(word, held))?;
        Ok(())
    }

    // A call of the connections fails, or a write of the journal.
    fn fail(&mut self, whose: &str, call: u64) -> Result<(), NoMemory> {
        if whose == "taps" {
            self.taps.push(call)?;
        } else {
            self.journal.push(call)?;
        }
        Ok(())
    }
}

fn fault_of(word: &str, held: u32) -> RelayFault {
    match word {
        "paused" => RelayFault::Paused { held },
        "memory" => RelayFault::NoMemory,
        _ => RelayFault::Failed,
    }
}

fn number(word: &str) -> u32 {
    word.parse::<u32>().unwrap_or(0)
}

fn count(word: &str) -> usize {
    word.parse::<usize>().unwrap_or(0)
}

// So many times one octet.
fn octets(alloc: Global, octet: &str, length: &str) -> Result<Octets, NoMemory> {
    let octet = octet.parse::<u8>().unwrap_or(0);
    let octets = vec![in alloc; octet; count(length)]?;
    Ok(Octets::from_vec(octets))
}
