// A case, line by line.
ghost use Rattle.proxy_config.specs.Ranges.{IsInRange};
ghost use Rattle.config_tables.specs.Reading.{config_of};
ghost use Rattle.std.specs.Prelude.{◌≡◌, IfSome, List, Ok, ℕ};

use config_tables::read_config;
use io_ports::NoMemory;
use proxy_config::Config;
use std::alloc::Global;

/// How many octets a configuration has at most.
const MOST_CONFIG: usize = 1 << 20;

/// What a live worker meets.
#[derive(Drop)]
pub struct Case {
    alloc: Global,
    /// The configuration's text.
    pub config: Vec<u8>,
    pub turns: u64,
    /// How many octets an offer takes at most.
    pub most: usize,
    pub permits: u64,
    /// How many tokens there are, where the client connections are metered.
    pub tokens: Option<u64>,
    /// How often the turns are run.
    pub runs: u32,
    /// The calls of the connections, and the writes of the journal, that fail.
    pub wires: Vec<u64>,
    pub journal: Vec<u64>,
    /// For how many octets behind the header the journal has room, and how many a write takes at most.
    pub room: usize,
    pub piece: usize,
    /// The lines of what happens.
    pub lines: Vec<String>,
    /// Pressures that are sampled, what the gauge has, and which of its readings fail.
    pub sample: Vec<u32>,
    pub gauge: Vec<u32>,
    pub readings: Vec<u64>,
    /// Whether two workers meet, in place of what else is said.
    pub meets: bool,
}

impl Case {
    pub fn new(alloc: Global) -> Self {
        Case {
            alloc,
            config: Vec::new(alloc),
            turns: 0,
            most: usize::MAX,
            permits: 0,
            tokens: None,
            runs: 1,
            wires: Vec::new(alloc),
            journal: Vec::new(alloc),
            room: 100_000,
            piece: usize::MAX,
            lines: Vec::new(alloc),
            sample: Vec::new(alloc),
            gauge: Vec::new(alloc),
            readings: Vec::new(alloc),
            meets: false,
        }
    }

    /// Takes up these lines. A number that isn't there, or doesn't fit, is 0.
    pub fn read(&mut self, lines: &str) -> Result<(), NoMemory> {
        for line in lines.lines() {
            self.line(line)?;
        }
        Ok(())
    }

    /// Its configuration. None also where memory is refused.
    pub fn configuration(&self, alloc: Global) -> Option<Config>
        ensures range { IfSome result IsInRange }
        ensures read { IfSome result (λ config. (text : List ℕ) × (config_of text ≡ Ok config)) }
    {
        if self.config.len() > MOST_CONFIG {
            return None;
        }
        match read_config(alloc, self.config.as_slice()) {
            Ok(config) => Some(config),
            Err(_) => None,
        }
    }

    fn line(&mut self, line: &str) -> Result<(), NoMemory> {
        let (word, words) = next(line);
        match word {
            "|" => self.configure(words),
            "$" => {
                self.turn(words);
                Ok(())
            }
            "%" => self.set(words),
            "sample" => push_all(&mut self.sample, words),
            "gauge" => push_all(&mut self.gauge, words),
            "again" => {
                self.runs = self.runs.saturating_add(1);
                Ok(())
            }
            "meet" => {
                self.meets = true;
                Ok(())
            }
            _ => self.happen(line),
        }
    }

    fn configure(&mut self, line: &str) -> Result<(), NoMemory> {
        self.config.extend_from_slice(line.as_bytes())?;
        self.config.push(b'\n')?;
        Ok(())
    }

    fn turn(&mut self, words: &str) {
        let (turns, rest) = next(words);
        let (most, permits) = next(rest);
        self.turns = number(turns);
        self.most = number(most) as usize;
        self.permits = number(permits);
    }

    fn set(&mut self, words: &str) -> Result<(), NoMemory> {
        let (word, rest) = next(words);
        let number = number(rest);
        match word {
            "tokens" => self.tokens = Some(number),
            "room" => self.room = number as usize,
            "piece" => self.piece = number as usize,
            "wires" => self.wires.push(number)?,
            "gauge" => self.readings.push(number)?,
            _ => self.journal.push(number)?,
        }
        Ok(())
    }

    fn happen(&mut self, line: &str) -> Result<(), NoMemory> {
        let line = String::from_str(self.alloc, line)?;
        self.lines.push(line)?;
        Ok(())
    }
}

fn push_all(numbers: &mut Vec<u32>, words: &str) -> Result<(), NoMemory> {
    for word in words.split(' ') {
        numbers.push(word.parse::<u32>().unwrap_or(0))?;
    }
    Ok(())
}

// The next word, and the others.
fn next(words: &str) -> (&str, &str) {
    words.split_once(' ').unwrap_or((words, ""))
}

fn number(word: &str) -> u64 {
    word.parse::<u64>().unwrap_or(0)
}
