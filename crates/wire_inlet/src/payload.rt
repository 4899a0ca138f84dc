// A frame whose head and payload stand whole at the front is taken.
ghost use Rattle.std.specs.Prelude.{◌≡◌, ◌⊎◌, false, true, length, IfOk, IfSome, OnErr};
ghost use Rattle.h2_frames.specs.Fault.{forbids_length, forbids_stream};
ghost use Rattle.h2_frames.specs.View.{head_view, view};
ghost use Rattle.h2_session.specs.Acts.{IsContentOf};
ghost use Rattle.wire_inlet.specs.Payloads.{CanBeTaken, EndsAt, IsTakeable, TakesPayload, TakesRead};

use crate::intake::Taken;
use crate::reader::Reader;
use crate::unread::Unread;
use h2_frames::kinds::{DATA, HEADERS, WINDOW_UPDATE};
use h2_frames::{
    Frame, FrameFault, FrameHead, any_frame, data_frame, headers_frame, window_update_frame,
};
use io_ports::{NoMemory, Octets};

// The octets of a DATA frame without padding, or the entries of SETTINGS, that ends at a place. None after running out of memory
// too: then the session copies them.
#[inline(always)]
fn content_before(unread: &Unread, end: usize, frame: &Frame) -> Option<Octets>
    requires { EndsAt end unread.now (view frame.now) }
    ensures { IfSome result (IsContentOf (view frame.now)) }
{
    match *frame {
        Frame::DataFrame {
            padded: 0,
            octets,
            ..
        } => {
            let n = octets.len();
            unread.part(end - n, n).ok()
        }
        Frame::Settings { entries, .. } => {
            let n = entries.len();
            unread.part(end - n, n).ok()
        }
        _ => None,
    }
}

// Takes what a payload gave, whose octets end at a place: what the frame means is put into `into`, or its fault is answered, and then
// nothing changed. After running out of memory nothing changed but what is in `into`, or the reader is lost.
#[inline(always)]
fn take_read(
    unread: &Unread,
    reader: &mut Reader,
    end: usize,
    read: Result<Frame, FrameFault>,
    into: &mut Taken,
) -> Result<Option<FrameFault>, NoMemory>
    requires takeable { IfOk read (λ frame. IsTakeable end unread.now (view frame)) }
    requires kept { reader.old.lost ≡ false }
    ensures taken { IfOk result (λ fault. TakesRead read.entry fault reader.old into.new reader.new) }
    ensures err { OnErr result ((reader.new ≡ reader.old) ⊎ (reader.new.lost ≡ true)) }
{
    match read {
        Err(fault) => Ok(Some(fault)),
        Ok(frame) => {
            let content = content_before(unread, end, &frame);
            let Ok(()) = reader.take(&frame, content, into) else {
                return Err(NoMemory);
            };
            Ok(None)
        }
    }
}

// As `take_payload`, of a type that comes seldom.
#[cold]
#[inline(never)]
fn take_any(
    unread: &Unread,
    reader: &mut Reader,
    end: usize,
    head: FrameHead,
    payload: &[u8],
    into: &mut Taken,
) -> Result<Option<FrameFault>, NoMemory>
    requires whole { length payload.now ≡ head.len }
    requires on_stream { forbids_stream (head_view head) ≡ false }
    requires of_length { forbids_length (head_view head) ≡ false }
    requires takeable { CanBeTaken end unread.now (head_view head) payload.now }
    requires kept { reader.old.lost ≡ false }
    ensures taken { IfOk result (λ fault. TakesPayload (head_view head) payload.now fault reader.old into.new reader.new) }
    ensures err { OnErr result ((reader.new ≡ reader.old) ⊎ (reader.new.lost ≡ true)) }
{
    take_read(unread, reader, end, any_frame(head, payload), into)
}

/// Takes a frame, of its head and its payload, whose octets end at a place: what it means is put into `into`. Where the payload shows a
/// fault, that is answered, and nothing changed. After running out of memory nothing changed but what is in `into`, or the reader is
/// lost.
///
/// A frame of a type that comes often goes on by a way of its own, so that no value in which the frames of all types meet lies in
/// memory, and nothing is asked of its type any more.
#[inline(always)]
pub fn take_payload(
    unread: &Unread,
    reader: &mut Reader,
    end: usize,
    head: FrameHead,
    payload: &[u8],
    into: &mut Taken,
) -> Result<Option<FrameFault>, NoMemory>
    requires whole { length payload.now ≡ head.len }
    requires on_stream { forbids_stream (head_view head) ≡ false }
    requires of_length { forbids_length (head_view head) ≡ false }
    requires takeable { CanBeTaken end unread.now (head_view head) payload.now }
    requires kept { reader.old.lost ≡ false }
    ensures taken { IfOk result (λ fault. TakesPayload (head_view head) payload.now fault reader.old into.new reader.new) }
    ensures err { OnErr result ((reader.new ≡ reader.old) ⊎ (reader.new.lost ≡ true)) }
{
    match head.kind {
        DATA => take_read(unread, reader, end, data_frame(head, payload), into),
        HEADERS => take_read(unread, reader, end, headers_frame(head, payload), into),
        WINDOW_UPDATE => {
            let frame = window_update_frame(head, payload);
            take_read(unread, reader, end, Ok(frame), into)
        }
        _ => take_any(unread, reader, end, head, payload, into),
    }
}
