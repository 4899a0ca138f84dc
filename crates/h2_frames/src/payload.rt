// What the payload of each type says.
ghost use Rattle.std.specs.Prelude.{◌≡◌, ◌<◌, ◌≤◌, length, false, if◌then◌else◌, MatchResult, Some};
ghost use Rattle.h2_frames.specs.Fault.{content_fault, forbids_length, forbids_stream};
ghost use Rattle.h2_frames.specs.Payload.{IsPadded, IsWeighted, Says};
ghost use Rattle.h2_frames.specs.Decoding.{Decodes};
ghost use Rattle.h2_frames.specs.View.{head_view, view};

use crate::head::FrameHead;
use crate::kinds::*;
use crate::numbers::{number_at, weighting_at, word_at};
use crate::types::*;

// How many octets of padding there are, and the content between them, of which so many octets
// are announced.
#[inline(always)]
fn content_of(
    has_padding: bool,
    announced: usize,
    payload: &[u8],
) -> Result<(u32, &[u8]), FrameFault>
    ensures { MatchResult result
        (λ x. IsPadded has_padding payload.now x.0 x.1.now × (announced ≤ length x.1.now))
        (λ e. content_fault has_padding announced payload.now ≡ Some e) }
{
    if !has_padding {
        if payload.len() < announced {
            return Err(FrameFault::BadSize);
        }
        return Ok((0, payload));
    }
    let Some((pad, rest)) = payload.split_first() else {
        return Err(FrameFault::BadSize);
    };
    let pad = *pad;
    if rest.len() < announced {
        return Err(FrameFault::BadSize);
    }
    if rest.len() - announced < pad as usize {
        return Err(FrameFault::BadPadding);
    }
    let (content, _) = rest.split_at(rest.len() - pad as usize);
    Ok((pad as u32 + 1, content))
}

// The priority before a block, where there is one.
#[inline(always)]
fn priority_of(weighted: bool, content: &[u8]) -> (Option<Weighting>, &[u8])
    requires { (if weighted then 5 else 0) ≤ length content.now }
    ensures { IsWeighted weighted result.0 content.now result.1.now }
{
    if !weighted {
        return (None, content);
    }
    let (weighting, block) = weighting_at(content);
    (Some(weighting), block)
}

/// What DATA says (RFC 9113 section 6.1), or the fault that the payload shows: BadSize where there is no octet that tells the length of
/// its padding, and BadPadding where the padding leaves no room. No octet is copied.
#[inline(always)]
pub fn data_frame<'a>(head: FrameHead, payload: &'a [u8]) -> Result<Frame<'a>, FrameFault>
    requires kind { head.kind ≡ 0 }
    requires stream { 0 < head.stream }
    ensures { Decodes (head_view head) payload.now result }
{
    let (padded, octets) = content_of(head.has(PADDED), 0, payload)?;
    Ok(Frame::DataFrame {
        stream: head.stream,
        last: head.has(END_STREAM),
        padded,
        octets,
    })
}

/// What HEADERS says (RFC 9113 section 6.2), or the fault that the payload shows: BadSize where there is no octet that tells the length
/// of its padding, or a priority is announced and isn't there, and BadPadding where the padding leaves no room. No octet is copied.
#[inline(always)]
pub fn headers_frame<'a>(head: FrameHead, payload: &'a [u8]) -> Result<Frame<'a>, FrameFault>
    requires kind { head.kind ≡ 1 }
    requires stream { 0 < head.stream }
    ensures { Decodes (head_view head) payload.now result }
{
    let weighted = head.has(WITH_PRIORITY);
    let announced = if weighted { 5 } else { 0 };
    let (padded, content) = content_of(head.has(PADDED), announced, payload)?;
    let (priority, block) = priority_of(weighted, content);
    Ok(Frame::Headers {
        stream: head.stream,
        last: head.has(END_STREAM),
        end_headers: head.has(END_HEADERS),
        padded,
        priority,
        block,
    })
}

fn push_frame<'a>(head: FrameHead, payload: &'a [u8]) -> Result<Frame<'a>, FrameFault>
    requires kind { head.kind ≡ 5 }
    requires stream { 0 < head.stream }
    ensures { Decodes (head_view head) payload.now result }
{
    let (padded, content) = content_of(head.has(PADDED), 4, payload)?;
    let (_, promised, block) = word_at(content);
    Ok(Frame::Push {
        stream: head.stream,
        end_headers: head.has(END_HEADERS),
        padded,
        promised,
        block,
    })
}

fn priority_frame<'a>(head: FrameHead, payload: &'a [u8]) -> Frame<'a>
    requires kind { head.kind ≡ 2 }
    requires stream { 0 < head.stream }
    requires len { length payload.now ≡ 5 }
    ensures { Says (head_view head) payload.now (view result) }
{
    let (priority, _) = weighting_at(payload);
    Frame::Priority {
        stream: head.stream,
        priority,
    }
}

fn reset_frame<'a>(head: FrameHead, payload: &'a [u8]) -> Frame<'a>
    requires kind { head.kind ≡ 3 }
    requires stream { 0 < head.stream }
    requires len { length payload.now ≡ 4 }
    ensures { Says (head_view head) payload.now (view result) }
{
    let (code, _) = number_at(payload);
    Frame::Reset {
        stream: head.stream,
        code,
    }
}

fn ping_frame<'a>(head: FrameHead, payload: &'a [u8]) -> Frame<'a>
    requires kind { head.kind ≡ 6 }
    requires stream { head.stream ≡ 0 }
    requires len { length payload.now ≡ 8 }
    ensures { Says (head_view head) payload.now (view result) }
{
    Frame::Ping {
        ack: head.has(ACK),
        octets: [
            payload[0], payload[1], payload[2], payload[3], payload[4], payload[5], payload[6],
            payload[7],
        ],
    }
}

fn goaway_frame<'a>(head: FrameHead, payload: &'a [u8]) -> Frame<'a>
    requires kind { head.kind ≡ 7 }
    requires stream { head.stream ≡ 0 }
    requires len { 8 ≤ length payload.now }
    ensures { Says (head_view head) payload.now (view result) }
{
    let (_, last, rest) = word_at(payload);
    let (code, debug) = number_at(rest);
    Frame::GoAway { last, code, debug }
}

/// What WINDOW_UPDATE says (RFC 9113 section 6.9). Its payload shows no fault: an increment of 0 is one of its stream or connection.
#[inline(always)]
pub fn window_update_frame<'a>(head: FrameHead, payload: &'a [u8]) -> Frame<'a>
    requires kind { head.kind ≡ 8 }
    requires len { length payload.now ≡ 4 }
    ensures { Says (head_view head) payload.now (view result) }
{
    let (_, increment, _) = word_at(payload);
    Frame::WindowUpdate {
        stream: head.stream,
        increment,
    }
}

/// What a frame of any type says, or the fault that its payload shows: none but DATA, HEADERS and PUSH_PROMISE, which may be padded, can
/// show one. No octet is copied. It is a call of its own, so that what it makes of the types that come seldom isn't told apart where one
/// comes that comes often.
#[cold]
#[inline(never)]
pub fn any_frame<'a>(head: FrameHead, payload: &'a [u8]) -> Result<Frame<'a>, FrameFault>
    requires whole { length payload.now ≡ head.len }
    requires on_stream { forbids_stream (head_view head) ≡ false }
    requires of_length { forbids_length (head_view head) ≡ false }
    ensures { Decodes (head_view head) payload.now result }
{
    match head.kind {
        DATA => data_frame(head, payload),
        HEADERS => headers_frame(head, payload),
        PRIORITY => Ok(priority_frame(head, payload)),
        RST_STREAM => Ok(reset_frame(head, payload)),
        SETTINGS => Ok(Frame::Settings {
            ack: head.has(ACK),
            entries: payload,
        }),
        PUSH_PROMISE => push_frame(head, payload),
        PING => Ok(ping_frame(head, payload)),
        GOAWAY => Ok(goaway_frame(head, payload)),
        WINDOW_UPDATE => Ok(window_update_frame(head, payload)),
        CONTINUATION => Ok(Frame::Continuation {
            stream: head.stream,
            end_headers: head.has(END_HEADERS),
            block: payload,
        }),
        kind => Ok(Frame::Unknown {
            kind,
            flags: head.flags,
            stream: head.stream,
            octets: payload,
        }),
    }
}

/// As `any_frame`, where the types that come most are looked at first.
#[inline(always)]
pub fn frame_of<'a>(head: FrameHead, payload: &'a [u8]) -> Result<Frame<'a>, FrameFault>
    requires whole { length payload.now ≡ head.len }
    requires on_stream { forbids_stream (head_view head) ≡ false }
    requires of_length { forbids_length (head_view head) ≡ false }
    ensures { Decodes (head_view head) payload.now result }
{
    match head.kind {
        DATA => data_frame(head, payload),
        HEADERS => headers_frame(head, payload),
        WINDOW_UPDATE => Ok(window_update_frame(head, payload)),
        _ => any_frame(head, payload),
    }
}
