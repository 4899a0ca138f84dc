// A line of figures.
use std::alloc::{AllocError, Global};
use std::io;

/// A line of figures, piece by piece. Where memory runs out, `print` says so.
#[derive(Drop)]
pub struct Line {
    alloc: Global,
    text: String,
    lacks: bool,
}

impl Line {
    /// An empty line.
    pub fn new(alloc: Global) -> Self {
        Line {
            alloc,
            text: String::new(alloc),
            lacks: false,
        }
    }

    /// The words alone.
    pub fn say(&mut self, words: &str) {
        if self.text.push_str(words).is_err() {
            self.lacks = true;
        }
    }

    /// The words, and a number behind them.
    pub fn say_with(&mut self, words: &str, number: u64) {
        self.say(words);
        match format!(in self.alloc; "{number}") {
            Ok(digits) => self.say(digits.as_str()),
            Err(_) => self.lacks = true,
        }
    }

    /// The words, and so many tenths behind them.
    pub fn say_tenths(&mut self, words: &str, tenths: u64) {
        self.say_with(words, tenths / 10);
        self.say_with(".", tenths % 10);
    }

    /// The words, and how many times `of` goes into `n`, in hundredths.
    pub fn say_times(&mut self, words: &str, n: u64, of: u64) {
        let hundredths = u128::from(n) * 100 / u128::from(of.max(1));
        let (whole, rest) = (hundredths / 100, hundredths % 100);
        match format!(in self.alloc; "{words}{whole}.{rest:02}") {
            Ok(text) => self.say(text.as_str()),
            Err(_) => self.lacks = true,
        }
    }

    /// Prints it, or fails where memory ran out.
    pub fn print(&self, rt: &impl Print) -> io::Result<()> {
        if self.lacks {
            return Err(io::Error::from(AllocError));
        }
        rt.println(self.text.as_str())
    }
}

/// Prints a line of numbers, each behind its words, and the words at its end.
pub fn print_line(
    rt: &(impl AllocGlobal + Print),
    numbers: &[(&str, u64)],
    end: &str,
) -> io::Result<()> {
    let mut line = Line::new(rt.alloc());
    for number in numbers {
        line.say_with(number.0, number.1);
    }
    line.say(end);
    line.print(rt)
}
