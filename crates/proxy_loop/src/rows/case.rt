// A case, line by line.
use io_ports::{NoMemory, Octets};
use mem_ports::Room;
use mem_wire_site::WorkerPlay;
use proxy_site::RelayPlay;
use std::alloc::Global;
use worker_ports::Wired;

/// For how many offers of a turn the record of the connections has room.
const ROOM: Room = Room {
    offers: 100,
    octets: 100_000,
};

/// For how many octets the output and the journals have room where the case doesn't say it.
const OCTETS: usize = 100_000;

/// What the proxy meets.
#[derive(Drop)]
pub struct Case {
    pub words: Vec<String>,
    pub config: Vec<u8>,
    /// For how many octets the output has room.
    pub room: usize,
    /// What a relay is given.
    pub relay: RelayPlay,
    /// What the workers are given.
    pub workers: Vec<WorkerPlay>,
    /// The pressures of the resources, in parts per million.
    pub pressures: Vec<u32>,
    pub failing: Failing,
}

/// The calls that fail, counted from 0, but the numbers of the workers that aren't fitted.
#[derive(Drop)]
pub struct Failing {
    pub config: Vec<u64>,
    pub site: Vec<u64>,
    pub fit: Vec<u32>,
    pub round: Vec<u64>,
    pub out: Vec<u64>,
}

impl Failing {
    fn new(alloc: Global) -> Self {
        Failing {
            config: Vec::new(alloc),
            site: Vec::new(alloc),
            fit: Vec::new(alloc),
            round: Vec::new(alloc),
            out: Vec::new(alloc),
        }
    }
}

impl Case {
    pub fn new(alloc: Global) -> Self {
        Case {
            words: Vec::new(alloc),
            config: Vec::new(alloc),
            room: OCTETS,
            relay: play_of(alloc),
            workers: Vec::new(alloc),
            pressures: Vec::new(alloc),
            failing: Failing::new(alloc),
        }
    }

    /// Takes up a line. A number that isn't there, or doesn't fit, is 0.
    pub fn line(&mut self, alloc: Global, line: &str) -> Result<(), NoMemory> {
        let (word, rest) = next(line);
        match word {
            "#" => Ok(()),
            "$" => self.words_of(alloc, rest),
            "=" => self.configure(rest),
            "long" => self.lengthen(alloc, number(rest)),
            "gauge" => self.press(small(rest)),
            "worker" => self.next_worker(alloc),
            "%" => self.fail(rest),
            _ => self.give(alloc, word, rest),
        }
    }

    fn configure(&mut self, line: &str) -> Result<(), NoMemory> {
        self.config.extend_from_slice(line.as_bytes())?;
        self.config.push(b'\n')?;
        Ok(())
    }

    fn words_of(&mut self, alloc: Global, words: &str) -> Result<(), NoMemory> {
        for word in words.split(' ') {
            let word = String::from_str(alloc, word)?;
            self.words.push(word)?;
        }
        Ok(())
    }

    // Makes the configuration so long, with newlines.
    fn lengthen(&mut self, alloc: Global, len: u64) -> Result<(), NoMemory> {
        let more = (len as usize).saturating_sub(self.config.len());
        let newlines = vec![in alloc; b'\n'; more]?;
        self.config.extend_from_slice(newlines.as_slice())?;
        Ok(())
    }

    fn press(&mut self, pressure: u32) -> Result<(), NoMemory> {
        self.pressures.push(pressure)?;
        Ok(())
    }

    fn next_worker(&mut self, alloc: Global) -> Result<(), NoMemory> {
        self.workers.push(WorkerPlay {
            outside: play_of(alloc),
            moment: 0,
            lasts: false,
        })?;
        Ok(())
    }

    // What the last worker is given, or the relay before the first.
    fn play(&mut self) -> &mut RelayPlay {
        match self.workers.last_mut() {
            Some(worker) => &mut worker.outside,
            None => &mut self.relay,
        }
    }

    fn fail(&mut self, line: &str) -> Result<(), NoMemory> {
        let (part, rest) = next(line);
        let call = number(rest);
        match part {
            "fit" => self.failing.fit.push(small(rest))?,
            "config" => self.failing.config.push(call)?,
            "site" => self.failing.site.push(call)?,
            "round" => self.failing.round.push(call)?,
            "out" => self.failing.out.push(call)?,
            "journal" => self.play().journal_failing.push(call)?,
            _ => self.play().failing.push(call)?,
        }
        Ok(())
    }

    fn give(&mut self, alloc: Global, word: &str, rest: &str) -> Result<(), NoMemory> {
        match word {
            "tick" => {
                if let Some(worker) = self.workers.last_mut() {
                    worker.moment = number(rest);
                }
            }
            "wait" => {
                if let Some(worker) = self.workers.last_mut() {
                    worker.lasts = true;
                }
            }
            "room" => self.make_room(number(rest) as usize),
            _ => {
                let answer = answer_of(alloc, word, rest)?;
                self.play().answers.push(answer)?;
            }
        }
        Ok(())
    }

    fn make_room(&mut self, octets: usize) {
        if self.workers.is_empty() {
            self.room = octets;
        }
        self.play().journal_room = octets;
    }
}

/// Nothing is given, and nothing fails.
pub fn play_of(alloc: Global) -> RelayPlay {
    RelayPlay {
        answers: Vec::new(alloc),
        room: ROOM,
        failing: Vec::new(alloc),
        journal_room: OCTETS,
        journal_failing: Vec::new(alloc),
    }
}

fn answer_of(alloc: Global, word: &str, rest: &str) -> Result<Wired, NoMemory> {
    let (first, rest) = next(rest);
    let (second, third) = next(rest);
    let conn = small(first);
    Ok(match word {
        "read" => {
            let octet = u8::try_from(small(second)).unwrap_or(0);
            let octets = vec![in alloc; octet; small(third) as usize]?;
            Wired::Read(conn, Octets::from_vec(octets))
        }
        "accept" => Wired::Accept(conn),
        "join" => Wired::Join(conn, small(second)),
        "lost" => Wired::Lost(conn),
        "stop" => Wired::Stop,
        _ => Wired::Idle,
    })
}

// The next word, and the others.
fn next(words: &str) -> (&str, &str) {
    words.split_once(' ').unwrap_or((words, ""))
}

fn number(word: &str) -> u64 {
    word.parse::<u64>().unwrap_or(0)
}

fn small(word: &str) -> u32 {
    word.parse::<u32>().unwrap_or(0)
}
