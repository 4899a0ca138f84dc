// A case: the words of a replay, its configuration and its session, and what fails of its outside.

use io_ports::{NoMemory, Octets};
use std::alloc::Global;

/// A case under way. Its sources and its sink fail at the calls with these numbers, counted from 0.
#[derive(Drop)]
pub struct Case {
    alloc: Global,
    pub words: Vec<String>,
    pub config_reads: Vec<u64>,
    pub reads: Vec<u64>,
    pub writes: Vec<u64>,
    pub config: Octets,
    pub session: Octets,
    /// Whether of what is written only the end is shown.
    pub is_long: bool,
}

impl Case {
    /// No words, an empty configuration and session, and no faults. Takes no memory.
    pub fn new(alloc: Global) -> Self {
        Case {
            alloc,
            words: Vec::new(alloc),
            config_reads: Vec::new(alloc),
            reads: Vec::new(alloc),
            writes: Vec::new(alloc),
            config: Octets::new(alloc),
            session: Octets::new(alloc),
            is_long: false,
        }
    }

    /// Whether neither a source nor the sink fails.
    pub fn is_sound(&self) -> bool {
        self.config_reads.is_empty() && self.reads.is_empty() && self.writes.is_empty()
    }

    /// Takes up a line behind the case's name, given without its newline: the words, a fault, the cut of the last
    /// newline, a length, or a line of the configuration or of the session.
    pub fn line(&mut self, line: &str) -> Result<(), NoMemory> {
        if let Some(words) = line.strip_prefix("$ ") {
            self.take_words(words)
        } else if let Some(text) = line.strip_prefix("| ") {
            self.config_line(text)
        } else if let Some(call) = line.strip_prefix("% config ") {
            Ok(self.config_reads.push(number(call))?)
        } else if let Some(call) = line.strip_prefix("% read ") {
            Ok(self.reads.push(number(call))?)
        } else if let Some(call) = line.strip_prefix("% write ") {
            Ok(self.writes.push(number(call))?)
        } else if let Some(len) = line.strip_prefix("% long config ") {
            self.lengthen_config(number(len))
        } else if let Some(len) = line.strip_prefix("% long ") {
            self.lengthen(number(len))
        } else if line == "% cut" {
            self.session.truncate(self.session.len().saturating_sub(1));
            Ok(())
        } else if line == "$" {
            Ok(())
        } else {
            self.session_line(line)
        }
    }

    // The words, with a space between two. A dash is an empty word.
    fn take_words(&mut self, words: &str) -> Result<(), NoMemory> {
        for word in words.split(' ') {
            let word = if word == "-" { "" } else { word };
            self.words.push(String::from_str(self.alloc, word)?)?;
        }
        Ok(())
    }

    fn config_line(&mut self, text: &str) -> Result<(), NoMemory> {
        self.config.push_all(text.as_bytes())?;
        self.config.push_all(b"\n")
    }

    // Makes the configuration so long, with newlines.
    fn lengthen_config(&mut self, len: u64) -> Result<(), NoMemory> {
        for _ in self.config.len() as u64..len {
            self.config.push_all(b"\n")?;
        }
        Ok(())
    }

    // Adds the last line of the session once more, until it is longer than so many octets.
    fn lengthen(&mut self, len: u64) -> Result<(), NoMemory> {
        let mut line = Octets::new(self.alloc);
        let text = self.session.as_slice();
        let text = text.strip_suffix(b"\n").unwrap_or(text);
        line.push_all(text.rsplit(|octet| *octet == b'\n').next().unwrap_or(b""))?;
        line.push_all(b"\n")?;
        let missing = len.saturating_sub(self.session.len() as u64);
        for _ in 0..=missing / line.len().max(1) as u64 {
            self.session.push_all(line.as_slice())?;
        }
        self.is_long = true;
        Ok(())
    }

    // A line of the session. `*N` at its end says that the two digits before it stand N times.
    fn session_line(&mut self, line: &str) -> Result<(), NoMemory> {
        let Some((front, times)) = line.split_once('*') else {
            self.session.push_all(line.as_bytes())?;
            return self.session.push_all(b"\n");
        };
        self.session.push_all(front.as_bytes())?;
        let digits = front.as_bytes();
        let (_, digits) = digits.split_at(digits.len().saturating_sub(2));
        for _ in 1..number(times) {
            self.session.push_all(digits)?;
        }
        self.session.push_all(b"\n")
    }
}

fn number(word: &str) -> u64 {
    word.parse::<u64>().unwrap_or(0)
}
