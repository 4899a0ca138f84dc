// The nine octets at a frame's front, and the faults that they show.
ghost use Rattle.std.specs.Prelude.{◌≡◌, ◌<◌, length, MatchOption};
ghost use Rattle.h2_frames.specs.Head.{has_flag};
ghost use Rattle.h2_frames.specs.Frames.{Begins};
ghost use Rattle.h2_frames.specs.Fault.{forbids_stream, forbids_length, head_fault};
ghost use Rattle.h2_frames.specs.View.{head_view};

use crate::kinds::{CONTINUATION, GOAWAY, PING, PRIORITY, RST_STREAM, SETTINGS, WINDOW_UPDATE};
use crate::numbers::word_at;
use crate::types::{ACK, FrameFault};

/// What the nine octets say, without the reserved bit (RFC 9113 section 4.1).
#[derive(Clone, Copy)]
pub struct FrameHead {
    /// How many octets the payload has.
    pub len: u32,
    /// The type, as in `kinds`.
    pub kind: u8,
    pub flags: u8,
    /// The number of 31 bits of the stream, 0 for the connection.
    pub stream: u32,
}

/// The head at the front, and the octets behind it.
pub fn head_at(input: &[u8]) -> Option<(FrameHead, &[u8])>
    ensures { MatchOption result (length input.now < 9) (λ x. Begins input.now (head_view x.0) x.1.now) }
{
    if input.len() < 9 {
        return None;
    }
    let (front, rest) = input.split_at(5);
    let (_, stream, rest) = word_at(rest);
    let head = FrameHead {
        len: u32::from_be_bytes([0, front[0], front[1], front[2]]),
        kind: front[3],
        flags: front[4],
        stream,
    };
    Some((head, rest))
}

impl FrameHead {
    /// The flag of this value is set.
    pub fn has(&self, flag: u8) -> bool
        requires { 0 < flag }
        ensures { result ≡ has_flag flag (head_view self.now) }
    {
        self.flags / flag % 2 == 1
    }

    // The type forbids the stream number.
    fn forbids_stream(&self) -> bool
        ensures { result ≡ forbids_stream (head_view self.now) }
    {
        match self.kind {
            SETTINGS | PING | GOAWAY => self.stream != 0,
            WINDOW_UPDATE => false,
            kind => kind <= CONTINUATION && self.stream == 0,
        }
    }

    // The type forbids the length.
    fn forbids_length(&self) -> bool
        ensures { result ≡ forbids_length (head_view self.now) }
    {
        match self.kind {
            PRIORITY => self.len != 5,
            RST_STREAM | WINDOW_UPDATE => self.len != 4,
            SETTINGS => self.len % 6 != 0 || (self.has(ACK) && self.len != 0),
            PING => self.len != 8,
            GOAWAY => self.len < 8,
            _ => false,
        }
    }

    /// The first fault that the head shows, where `max` is the greatest length that is taken.
    pub fn fault(&self, max: u32) -> Option<FrameFault>
        ensures { result ≡ head_fault max (head_view self.now) }
    {
        if self.len > max {
            Some(FrameFault::TooLong)
        } else if self.forbids_stream() {
            Some(FrameFault::BadStream)
        } else if self.forbids_length() {
            Some(FrameFault::BadSize)
        } else {
            None
        }
    }
}
