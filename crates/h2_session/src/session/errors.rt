// Connection errors, in the order of the protocol's rules (RFC 9113 section 5.4.1).
ghost use Rattle.std.specs.Prelude.{◌≡◌, not};
ghost use Rattle.h2_frames.specs.View.{view};
ghost use Rattle.h2_session.specs.Errors.{error_by, first_of, is_empty_data, is_push, is_settings, is_zero_update, settings_error, value_error};
ghost use Rattle.h2_session.specs.Values.{code_of, outside_by};
ghost use Rattle.h2_session.specs.Summary.{is_idle_in, uses_idle_in};

use super::Session;
use crate::block::{breaks_block, is_great};
use crate::named::Outside;
use h2_frames::Frame;
use h2_frames::codes::{ENHANCE_YOUR_CALM, FLOW_CONTROL_ERROR, PROTOCOL_ERROR};

// SETTINGS that is no acknowledgement.
#[inline(always)]
fn is_settings(frame: &Frame) -> bool
    ensures { result ≡ is_settings (view frame.now) }
{
    matches!(*frame, Frame::Settings { ack: false, .. })
}

#[inline(always)]
fn is_push(frame: &Frame) -> bool
    ensures { result ≡ is_push (view frame.now) }
{
    matches!(*frame, Frame::Push { .. })
}

// A WINDOW_UPDATE of the connection by 0.
#[inline(always)]
fn is_zero_update(frame: &Frame) -> bool
    ensures { result ≡ is_zero_update (view frame.now) }
{
    match *frame {
        Frame::WindowUpdate { stream, increment } => stream == 0 && increment == 0,
        _ => false,
    }
}

// A DATA frame without octets and padding that doesn't end its stream.
#[inline(always)]
fn is_empty_data(frame: &Frame) -> bool
    ensures { result ≡ is_empty_data (view frame.now) }
{
    match *frame {
        Frame::DataFrame {
            last,
            padded,
            octets,
            ..
        } => octets.is_empty() && padded == 0 && !last,
        _ => false,
    }
}

// A setting out of its range: the code of the first rule that is broken.
#[inline(always)]
fn settings_error(frame: &Frame, client_side: bool, outside: Outside) -> Option<u32>
    requires { outside ≡ outside_by client_side (view frame.now) }
    ensures { result ≡ settings_error client_side (view frame.now) }
{
    let Frame::Settings { .. } = *frame else {
        return None;
    };
    code_of(outside)
}

fn code_of(outside: Outside) -> Option<u32>
    ensures { result ≡ code_of outside }
{
    if outside.push {
        Some(PROTOCOL_ERROR)
    } else if outside.initial_window {
        Some(FLOW_CONTROL_ERROR)
    } else if outside.frame_size {
        Some(PROTOCOL_ERROR)
    } else {
        None
    }
}

impl Session {
    // A stream that was never opened. A number that a client skipped isn't idle.
    #[inline(always)]
    fn is_idle(&self, stream: u32) -> bool
        ensures { result ≡ is_idle_in self.now stream }
    {
        let is_odd = stream % 2 == 1;
        if self.client_side {
            !(stream < self.next && is_odd)
        } else {
            stream > self.greatest || !is_odd
        }
    }

    // DATA, HEADERS, RST_STREAM or WINDOW_UPDATE on an idle stream, but for HEADERS by which a
    // client may open it.
    #[inline(always)]
    fn uses_idle(&self, frame: &Frame) -> bool
        ensures { result ≡ uses_idle_in self.now (view frame.now) }
    {
        match *frame {
            Frame::Headers { stream, .. } => {
                let may_open = !self.client_side && stream % 2 == 1;
                !may_open && self.is_idle(stream)
            }
            Frame::DataFrame { stream, .. } | Frame::Reset { stream, .. } => self.is_idle(stream),
            Frame::WindowUpdate { stream, .. } => stream != 0 && self.is_idle(stream),
            _ => false,
        }
    }

    /// The code of the connection error that a frame is, if it is one or an earlier one was.
    #[inline(always)]
    pub(super) fn error(&self, frame: &Frame, outside: Outside) -> Option<u32>
        requires { outside ≡ outside_by self.now.side.client_side (view frame.now) }
        ensures { result ≡ first_of self.now.failed (error_by self.now.side (view frame.now) (not self.now.started)
            self.now.block (uses_idle_in self.now (view frame.now)) self.now.empties) }
    {
        if self.failed.is_some() {
            return self.failed;
        }
        // Section 3.4.
        if !self.started && !is_settings(frame) {
            return Some(PROTOCOL_ERROR);
        }
        // Sections 4.3 and 6.10.
        if breaks_block(frame, &self.block) {
            return Some(PROTOCOL_ERROR);
        }
        // Section 10.5.1.
        if is_great(frame, &self.block) {
            return Some(ENHANCE_YOUR_CALM);
        }
        // Section 8.4: push isn't enabled.
        if is_push(frame) {
            return Some(PROTOCOL_ERROR);
        }
        // Section 5.1.
        if self.uses_idle(frame) {
            return Some(PROTOCOL_ERROR);
        }
        self.late_error(frame, outside)
    }

    // The errors of the values in a frame.
    #[inline(always)]
    fn late_error(&self, frame: &Frame, outside: Outside) -> Option<u32>
        requires { outside ≡ outside_by self.now.side.client_side (view frame.now) }
        ensures { result ≡ value_error self.now.side (view frame.now) self.now.empties }
    {
        // Section 6.5.2.
        if let Some(code) = settings_error(frame, self.client_side, outside) {
            return Some(code);
        }
        // Section 6.9.
        if is_zero_update(frame) {
            return Some(PROTOCOL_ERROR);
        }
        // Section 10.5.
        if is_empty_data(frame) && self.empties >= self.empty_frames {
            return Some(ENHANCE_YOUR_CALM);
        }
        None
    }
}
