// The words of a line.
use flow_gate::FlowId;

/// The words of a line that are still to be read.
#[derive(Drop)]
pub struct Words<'a> {
    pub rest: &'a str,
}

impl<'a> Words<'a> {
    /// The next word, empty behind the last.
    pub fn next(&mut self) -> &'a str {
        let (word, rest) = self.rest.split_once(' ').unwrap_or((self.rest, ""));
        self.rest = rest;
        word
    }

    pub fn number(&mut self) -> Option<u32> {
        self.next().parse::<u32>().ok()
    }

    pub fn long(&mut self) -> Option<u64> {
        self.next().parse::<u64>().ok()
    }

    pub fn room(&mut self) -> Option<i64> {
        self.next().parse::<i64>().ok()
    }

    pub fn flow(&mut self) -> Option<FlowId> {
        let word = self.next();
        let (number, back) = match word.strip_suffix('q') {
            Some(number) => (number, false),
            None => (word.strip_suffix('r')?, true),
        };
        let exchange = number.parse::<u64>().ok()?;
        Some(FlowId { exchange, back })
    }
}
