// What a case gives.
use anyhow::{Result, bail};
use std::alloc::Global;

/// What a case gives, piece by piece. Where memory runs out, `print` says so.
#[derive(Drop)]
pub struct Said {
    alloc: Global,
    text: String,
    lacks: bool,
}

impl Said {
    pub fn new(alloc: Global) -> Self {
        Said {
            alloc,
            text: String::new(alloc),
            lacks: false,
        }
    }

    pub fn alloc(&self) -> Global {
        self.alloc
    }

    pub fn text(&self) -> &str {
        self.text.as_str()
    }

    /// There is no memory for the case.
    pub fn lack(&mut self) {
        self.lacks = true;
    }

    pub fn say(&mut self, words: &str) {
        if self.text.push_str(words).is_err() {
            self.lacks = true;
        }
    }

    /// Words that end a line.
    pub fn line(&mut self, words: &str) {
        self.say(words);
        self.say("\n");
    }

    pub fn say_number(&mut self, number: u64) {
        match format!(in self.alloc; "{number}") {
            Ok(digits) => self.say(digits.as_str()),
            Err(_) => self.lacks = true,
        }
    }

    pub fn say_signed(&mut self, number: i64) {
        match format!(in self.alloc; "{number}") {
            Ok(digits) => self.say(digits.as_str()),
            Err(_) => self.lacks = true,
        }
    }

    /// The words, and a number behind them.
    pub fn say_with(&mut self, words: &str, number: u64) {
        self.say(words);
        self.say_number(number);
    }

    /// The words, and a small number behind them.
    pub fn say_small(&mut self, words: &str, number: u32) {
        self.say_with(words, u64::from(number));
    }

    /// The words, and a number behind them, or a dash where there is none.
    pub fn say_maybe(&mut self, words: &str, number: Option<u64>) {
        match number {
            Some(number) => self.say_with(words, number),
            None => {
                self.say(words);
                self.say("-");
            }
        }
    }

    /// The words, and `true` or `false` behind them.
    pub fn say_truth(&mut self, words: &str, holds: bool) {
        self.say(words);
        self.say(if holds { "true" } else { "false" });
    }

    /// Octets in hexadecimal.
    pub fn say_hex(&mut self, octets: &[u8]) {
        match hex::encode(self.alloc, octets) {
            Ok(digits) => self.say(digits.as_str()),
            Err(_) => self.lacks = true,
        }
    }

    /// What another case gave.
    pub fn say_all(&mut self, other: &Said) {
        self.say(other.text());
        self.lacks |= other.lacks;
    }

    /// Prints it.
    pub fn print<R: Print>(&self, rt: &R) -> Result<()> {
        if self.lacks {
            bail!("out of memory");
        }
        rt.print(self.text.as_str())?;
        Ok(())
    }
}
