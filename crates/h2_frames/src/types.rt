// Frames, with their payloads borrowed, and why none may stand somewhere.
ghost use Rattle.std.specs.Prelude.{◌≡◌, ◌≤◌};
ghost use Rattle.h2_frames.specs.Fault.{fault_code};
ghost use Rattle.h2_frames.specs.Frame.{content_of, padding_of};
ghost use Rattle.h2_frames.specs.Spelling.{IsWritable};
ghost use Rattle.h2_frames.specs.View.{view};

use crate::codes::{FRAME_SIZE_ERROR, PROTOCOL_ERROR};
use std::error::Error;
use std::fmt;

/// What a priority says (RFC 9113 section 6.3). The weight is the octet as it stands.
#[derive(Clone, Copy, Debug, PartialEq, Eq)]
pub struct Weighting {
    pub exclusive: bool,
    pub dependency: u32,
    pub weight: u8,
}

/// A frame, with padding left off. `padded` counts the octets of padding, the one that tells its
/// length included, and is 0 without the flag PADDED. Reserved bits, and flags that a type doesn't
/// define, are left out.
#[derive(Clone, Copy)]
pub enum Frame<'a> {
    DataFrame {
        stream: u32,
        last: bool,
        padded: u32,
        octets: &'a [u8],
    },
    Headers {
        stream: u32,
        last: bool,
        end_headers: bool,
        padded: u32,
        priority: Option<Weighting>,
        block: &'a [u8],
    },
    Priority {
        stream: u32,
        priority: Weighting,
    },
    Reset {
        stream: u32,
        code: u32,
    },
    /// The entries, of 6 octets each, as they stand.
    Settings {
        ack: bool,
        entries: &'a [u8],
    },
    Push {
        stream: u32,
        end_headers: bool,
        padded: u32,
        promised: u32,
        block: &'a [u8],
    },
    Ping {
        ack: bool,
        octets: [u8; 8],
    },
    GoAway {
        last: u32,
        code: u32,
        debug: &'a [u8],
    },
    WindowUpdate {
        stream: u32,
        increment: u32,
    },
    Continuation {
        stream: u32,
        end_headers: bool,
        block: &'a [u8],
    },
    /// A type above 9, with all its flags as they stand.
    Unknown {
        kind: u8,
        flags: u8,
        stream: u32,
        octets: &'a [u8],
    },
}

impl Frame<'_> {
    /// The octets that count against the windows of the stream and of the connection: of DATA the
    /// whole payload, its padding and the octet that tells how long it is included, and 0 of every
    /// other type.
    pub fn content(&self) -> u32
        requires writable { IsWritable (view self.now) }
        requires padding { padding_of (view self.now) ≤ 256 }
        ensures { result ≡ content_of (view self.now) }
    {
        match *self {
            Frame::DataFrame { padded, octets, .. } => padded + octets.len() as u32,
            _ => 0,
        }
    }
}

/// Why no frame can begin with some octets, in the order of the checks.
#[derive(Clone, Copy, Debug, PartialEq, Eq)]
pub enum FrameFault {
    /// The payload is longer than the greatest that is taken.
    TooLong,
    /// The type forbids the stream number.
    BadStream,
    /// The type forbids the length, or what the flags announce doesn't fit.
    BadSize,
    /// The padding leaves no room.
    BadPadding,
}

impl FrameFault {
    /// The code of the connection error that the fault is.
    pub fn code(&self) -> u32
        ensures { result ≡ fault_code self.now }
    {
        match self {
            FrameFault::TooLong | FrameFault::BadSize => FRAME_SIZE_ERROR,
            FrameFault::BadStream | FrameFault::BadPadding => PROTOCOL_ERROR,
        }
    }
}

impl fmt::Display for FrameFault {
    fn fmt<W: fmt::Write>(&self, f: &mut fmt::Formatter<W>) -> fmt::Result {
        f.write_str(match self {
            FrameFault::TooLong => "a payload that is too long",
            FrameFault::BadStream => "a stream number that the type forbids",
            FrameFault::BadSize => "a length that the type forbids",
            FrameFault::BadPadding => "more padding than payload",
        })
    }
}

impl Error for FrameFault {}

/// What stands at the front of some octets.
#[derive(Clone, Copy)]
pub enum ReadFrame<'a> {
    /// No whole frame, and no fault yet.
    Need,
    /// A frame, and how many octets it takes.
    Whole(Frame<'a>, u32),
    /// No frame.
    Bad(FrameFault),
}

pub const END_STREAM: u8 = 0x1;

pub const ACK: u8 = 0x1;

pub const END_HEADERS: u8 = 0x4;

pub const PADDED: u8 = 0x8;

pub const WITH_PRIORITY: u8 = 0x20;
