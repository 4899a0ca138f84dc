// What of a tape is drawn.
ghost use Rattle.std.specs.Prelude.{◌≤◌, IfSome};

use crate::words::{read_flow, read_number};
use flow_gate::FlowId;

/// Which lanes are drawn.
#[derive(Clone, Copy, PartialEq, Eq)]
pub enum Lanes {
    /// The 40 that were highest against their limit.
    Highest,
    All,
    /// Those of one flow and of one connection's write buffer, where they are named.
    Named {
        flow: Option<FlowId>,
        conn: Option<u32>,
    },
}

/// What is drawn of a tape: which lanes, and the dispatches from the first to the last.
#[derive(Clone, Copy, PartialEq, Eq)]
pub struct Choice {
    pub lanes: Lanes,
    pub first: u64,
    pub last: u64,
}

// The words so far.
#[derive(Clone, Copy)]
struct Words {
    all: bool,
    flow: Option<FlowId>,
    conn: Option<u32>,
    first: Option<u64>,
    last: Option<u64>,
}

impl Words {
    ghost use Rattle.std.specs.Prelude.{◌≤◌, IfSome};

    // With an option that has a value, which isn't given twice.
    fn with(self, option: &str, value: &[u8]) -> Option<Self> {
        if option == "--flow" && self.flow.is_none() {
            let flow = Some(read_flow(value)?);
            return Some(Words { flow, ..self });
        }
        if option == "--conn" && self.conn.is_none() {
            let conn = Some(u32::try_from(read_number(value)?).ok()?);
            return Some(Words { conn, ..self });
        }
        if option == "--from" && self.first.is_none() {
            let first = Some(read_number(value)?);
            return Some(Words { first, ..self });
        }
        if option == "--to" && self.last.is_none() {
            let last = Some(read_number(value)?);
            return Some(Words { last, ..self });
        }
        None
    }

    fn lanes(self) -> Option<Lanes> {
        let named = self.flow.is_some() || self.conn.is_some();
        if self.all && named {
            return None;
        }
        if named {
            let flow = self.flow;
            let conn = self.conn;
            return Some(Lanes::Named { flow, conn });
        }
        Some(if self.all { Lanes::All } else { Lanes::Highest })
    }

    fn choice(self) -> Option<Choice>
        ensures { IfSome result (λ choice. (1 ≤ choice.first) × (choice.first ≤ choice.last)) }
    {
        let first = self.first.unwrap_or(1);
        let last = self.last.unwrap_or(u64::MAX);
        if first == 0 || last < first {
            return None;
        }
        let lanes = self.lanes()?;
        Some(Choice { lanes, first, last })
    }
}

/// What the words behind the program's name ask for: `--all`, or else `--flow F` and `--conn C`, and `--from K` and `--to K`, where
/// dispatches count from 1; each at most once, in any order. None where they have no form.
pub fn read_choice(words: &[String]) -> Option<Choice>
    ensures { IfSome result (λ choice. (1 ≤ choice.first) × (choice.first ≤ choice.last)) }
{
    let mut read = Words {
        all: false,
        flow: None,
        conn: None,
        first: None,
        last: None,
    };
    let mut rest = words;
    while let Some((word, after)) = rest.split_first() {
        if word.as_str() == "--all" && !read.all {
            read.all = true;
            rest = after;
            continue;
        }
        let (value, after) = after.split_first()?;
        read = read.with(word.as_str(), value.as_bytes())?;
        rest = after;
    }
    read.choice()
}
