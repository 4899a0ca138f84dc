// What a flow does next.
use flow_rules::Unit;
use wm_buffer::Shifted;

/// What one step of a flow did.
#[derive(Clone, Copy, PartialEq, Eq)]
pub enum Step {
    /// No place may let octets go.
    Still,
    /// `n` octets went from place `place` to the next one. `shifted` says what both buffers crossed, and `overflow`
    /// that the buffer which they went to holds more than its multiple of its limit.
    Moved {
        place: u32,
        n: u32,
        shifted: Shifted,
        overflow: bool,
    },
    /// The next place keeps a whole body, and the octets would pass its limit. Nothing moved.
    TooLarge,
}

/// A DATA frame that is made: it carries the first `n` octets of a flow's send buffer, and the flow's end where `last` holds.
#[derive(Clone, Copy, PartialEq, Eq)]
pub struct Piece {
    pub n: u32,
    pub last: bool,
}

/// What one step of a flow did, and what of the flow goes next then.
#[derive(Clone, Copy, PartialEq, Eq)]
pub struct Advance {
    pub step: Step,
    pub unit: Unit,
}

/// What became of octets that came for a flow.
#[derive(Clone, Copy, PartialEq, Eq)]
pub enum Received {
    /// The flow isn't live.
    NotLive,
    /// They are more than its receive buffer has room for within its window.
    TooMany,
    /// They are in its receive buffer.
    Arrived,
}
