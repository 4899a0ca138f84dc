// The line at which a session is refused.
use crate::player::Player;
use crate::run::{LINE, Run};

/// What stands where a session is refused.
#[derive(Clone, Copy, PartialEq, Eq)]
pub enum RefusedLine<'a> {
    /// A line that isn't one that may come, without its newline.
    Line(&'a [u8]),
    /// A line of more than 40,000 octets.
    Long,
    /// Octets behind which the session ends, without a newline.
    Cut(&'a [u8]),
    /// The end of the session, which isn't whole.
    End,
}

impl<P: Player + Drop> Run<P> {
    /// What stands where the session was refused.
    pub fn refused_line(&self) -> RefusedLine<'_> {
        let held = self.lines.held();
        let end = self.lines.line_len();
        if end.unwrap_or(held.len()) > LINE {
            return RefusedLine::Long;
        }
        match end {
            Some(n) => RefusedLine::Line(&held[..n]),
            None if held.is_empty() => RefusedLine::End,
            None => RefusedLine::Cut(held),
        }
    }
}
