// One frame from the front of some octets.
ghost use Rattle.h2_frames.specs.Reading.{GivesWritable, IsHeadShort, IsShort, Reads, ReadsHead};

use crate::head::{FrameHead, head_at};
use crate::payload::frame_of;
use crate::types::{FrameFault, ReadFrame};

/// What stands at the front of some octets, where the payload wasn't looked at.
#[derive(Clone, Copy)]
pub enum ReadHead<'a> {
    /// No whole frame, and no fault yet.
    Need,
    /// The head of a whole frame and its payload, which alone can still show a fault.
    Whole(FrameHead, &'a [u8]),
    /// No frame.
    Bad(FrameFault),
}

/// What stands at the front: the head of a whole frame with a payload of at most `max` octets, the first fault that the head shows,
/// or neither yet: that only of an input shorter than `max` and the nine octets of a head. No octet is copied.
///
/// A caller that makes of each type what it wants asks for the head alone, and then for the frame of that type, as `data_frame`. So no
/// value in which the frames of all types meet lies in memory.
#[inline(always)]
pub fn read_head(input: &[u8], max: u32) -> ReadHead<'_>
    ensures reads { ReadsHead max input.now result }
    ensures short { IsHeadShort max input.now result }
{
    let Some((head, came)) = head_at(input) else {
        return ReadHead::Need;
    };
    if let Some(fault) = head.fault(max) {
        return ReadHead::Bad(fault);
    }
    let len = head.len as usize;
    if came.len() < len {
        return ReadHead::Need;
    }
    let (payload, _) = came.split_at(len);
    ReadHead::Whole(head, payload)
}

/// What stands at the front: a whole frame with a payload of at most `max` octets, the first fault,
/// or neither yet: that only of an input shorter than `max` and the nine octets of a head. No octet is
/// copied.
#[inline(always)]
pub fn read_frame(input: &[u8], max: u32) -> ReadFrame<'_>
    ensures reads { Reads max input.now result }
    ensures writable { GivesWritable result }
    ensures short { IsShort max input.now result }
{
    match read_head(input, max) {
        ReadHead::Need => ReadFrame::Need,
        ReadHead::Bad(fault) => ReadFrame::Bad(fault),
        ReadHead::Whole(head, payload) => match frame_of(head, payload) {
            Ok(frame) => ReadFrame::Whole(frame, head.len + 9),
            Err(fault) => ReadFrame::Bad(fault),
        },
    }
}
