// Words of cases and of answers.
use anyhow::{Result, bail};
use std::alloc::Global;

/// The next word, and the others.
pub fn next(words: &str) -> (&str, &str) {
    words.split_once(' ').unwrap_or((words, ""))
}

/// The number of a word, and 0 where it is none.
pub fn number(word: &str) -> u64 {
    word.parse::<u64>().unwrap_or(0)
}

/// The number of a word that fits 32 bits, and 0 where it is none.
pub fn small_number(word: &str) -> u32 {
    word.parse::<u32>().unwrap_or(0)
}

/// What the calls of a case answer, piece by piece. Where memory runs out, `print` says so.
#[derive(Drop)]
pub struct Answers {
    alloc: Global,
    text: String,
    lacks: bool,
}

impl Answers {
    pub fn new(alloc: Global) -> Self {
        Answers {
            alloc,
            text: String::new(alloc),
            lacks: false,
        }
    }

    pub fn alloc(&self) -> Global {
        self.alloc
    }

    pub fn text(&self) -> &str {
        self.text.as_str()
    }

    /// Puts ` ; ` behind the answer before, if there is one.
    pub fn begin(&mut self) {
        if !self.text.is_empty() {
            self.say(" ; ");
        }
    }

    pub fn say(&mut self, words: &str) {
        if self.text.push_str(words).is_err() {
            self.lacks = true;
        }
    }

    pub fn say_number(&mut self, number: u64) {
        match format!(in self.alloc; "{number}") {
            Ok(digits) => self.say(digits.as_str()),
            Err(_) => self.lacks = true,
        }
    }

    pub fn say_signed(&mut self, number: i64) {
        match format!(in self.alloc; "{number}") {
            Ok(digits) => self.say(digits.as_str()),
            Err(_) => self.lacks = true,
        }
    }

    /// The words, and a number behind them.
    pub fn say_with(&mut self, words: &str, number: u64) {
        self.say(words);
        self.say_number(number);
    }

    /// The number, or other words where there is none.
    pub fn say_or(&mut self, number: Option<u64>, other: &str) {
        match number {
            Some(number) => self.say_number(number),
            None => self.say(other),
        }
    }

    pub fn say_truth(&mut self, holds: bool) {
        self.say(if holds { "true" } else { "false" });
    }

    pub fn say_done(&mut self, done: bool) {
        self.say(if done { "done" } else { "no memory" });
    }

    /// Octets in hexadecimal.
    pub fn say_hex(&mut self, octets: &[u8]) {
        match hex::encode(self.alloc, octets) {
            Ok(digits) => self.say(digits.as_str()),
            Err(_) => self.lacks = true,
        }
    }

    /// Prints the case and its answers.
    pub fn print(&self, rt: &HostRuntime, line: &str) -> Result<()> {
        if self.lacks {
            bail!("out of memory");
        }
        println!(rt; "{line}: {}", self.text.as_str())?;
        Ok(())
    }
}
