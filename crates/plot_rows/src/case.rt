// A case: the words of a picture and its tape, and what fails of its outside.
use io_ports::{NoMemory, Octets};
use std::alloc::Global;

/// A case under way. Its source and its sink fail at the calls with these numbers, counted from 0.
#[derive(Drop)]
pub struct Case {
    alloc: Global,
    pub words: Vec<String>,
    pub reads: Vec<u64>,
    pub writes: Vec<u64>,
    pub tape: Octets,
}

impl Case {
    /// No words, an empty tape, and no faults. Takes no memory.
    pub fn new(alloc: Global) -> Self {
        Case {
            alloc,
            words: Vec::new(alloc),
            reads: Vec::new(alloc),
            writes: Vec::new(alloc),
            tape: Octets::new(alloc),
        }
    }

    /// Makes it as a new one.
    pub fn clear(&mut self) {
        self.words.clear();
        self.reads.clear();
        self.writes.clear();
        self.tape.clear();
    }

    /// Takes up a line behind the case's name, given without its newline: the words, a fault, the cut of the last newline, or a
    /// line of the tape.
    pub fn line(&mut self, line: &str) -> Result<(), NoMemory> {
        if let Some(words) = line.strip_prefix("$ ") {
            self.take_words(words)
        } else if let Some(call) = line.strip_prefix("% read ") {
            Ok(self.reads.push(number(call))?)
        } else if let Some(call) = line.strip_prefix("% write ") {
            Ok(self.writes.push(number(call))?)
        } else if line == "% cut" {
            self.tape.truncate(self.tape.len().saturating_sub(1));
            Ok(())
        } else if line == "$" {
            Ok(())
        } else {
            self.tape_line(line)
        }
    }

    // The words, with a space between two.
    fn take_words(&mut self, words: &str) -> Result<(), NoMemory> {
        for word in words.split(' ') {
            self.words.push(String::from_str(self.alloc, word)?)?;
        }
        Ok(())
    }

    // A line of the tape. `*N` at its end says that the two digits before it stand N times.
    fn tape_line(&mut self, line: &str) -> Result<(), NoMemory> {
        let Some((front, times)) = line.split_once('*') else {
            self.tape.push_all(line.as_bytes())?;
            return self.tape.push_all(b"\n");
        };
        self.tape.push_all(front.as_bytes())?;
        let digits = front.as_bytes();
        let (_, digits) = digits.split_at(digits.len().saturating_sub(2));
        for _ in 1..number(times) {
            self.tape.push_all(digits)?;
        }
        self.tape.push_all(b"\n")
    }
}

fn number(word: &str) -> u64 {
    word.parse::<u64>().unwrap_or(0)
}
