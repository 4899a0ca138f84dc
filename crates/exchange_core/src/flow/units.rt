// What of a flow goes next into a write buffer, and its frames.
ghost use Rattle.std.specs.Prelude.{◌≡◌, ◌+◌, ◌≤◌, ◌++◌, false, true, IfOk, IsOk, IsTrue, OnOk, OnErr, length, take};
ghost use Rattle.std.specs.Option.{option_copied};
ghost use Rattle.exchange_core.specs.Effects.{body_framed, list_framed};
ghost use Rattle.exchange_core.specs.Flow.{IsSound, last_place, send};
ghost use Rattle.exchange_core.specs.Message.{fields_of, head_waits};
ghost use Rattle.exchange_core.specs.Units.{IsFrameable, carried, carries_end, empty_before, ends_after, next_head, next_unit};
ghost use Rattle.filter_chain.specs.Chain.{above_at};
ghost use Rattle.wm_buffer.specs.Buffer.{AppendsOctets};
ghost use Rattle.wm_buffer.specs.Watermark.{crossing};

use super::Flow;
use crate::step::Piece;
use flow_rules::Unit;
use hpack_codec::FieldList;
use io_ports::NoMemory;
use wm_buffer::{Shifted, WatermarkBuffer};

impl Flow {
    /// What goes next into the write buffer, where the windows let `room` octets go and the peer takes `frame` octets in
    /// one frame.
    pub(crate) fn next_unit(&self, room: i64, frame: u32) -> Unit
        ensures unit { result ≡ next_unit room frame self.now }
        ensures frameable { IsFrameable result self.now }
    {
        if self.message.head_waits() {
            return self.next_head();
        }
        let sent = self.sent();
        let n = self.carried(sent, room, frame);
        if n > 0 {
            let last = self.ends_after(n, sent) && !self.message.trailers_wait();
            return Unit::Body { n, last };
        }
        if !self.ends_after(0, sent) || self.message.end_framed {
            return Unit::Nothing;
        }
        if self.message.trailers_wait() {
            Unit::Trailers
        } else {
            Unit::Body { n: 0, last: true }
        }
    }

    /// The head that waits, where it may go.
    fn next_head(&self) -> Unit
        ensures { result ≡ next_head self.now }
    {
        if self.chain.head_may_go() {
            Unit::Head {
                last: self.message.head_ends,
            }
        } else {
            Unit::Nothing
        }
    }

    /// The octets in the send buffer.
    fn sent(&self) -> u32
        ensures { result ≡ length (send self.now) }
    {
        self.chain.len(self.chain.places())
    }

    /// How many of the octets `sent` in the send buffer a DATA frame carries now.
    fn carried(&self, sent: u32, room: i64, frame: u32) -> u32
        requires { sent ≡ length (send self.now) }
        ensures carried { result ≡ carried room frame self.now }
        ensures few { result ≤ length (send self.now) }
    {
        let most = room.min(i64::from(frame)).max(0);
        // It lies between 0 and `frame`, so it always fits.
        let most = u32::try_from(most).unwrap_or(frame);
        self.quantum.min(most).min(sent)
    }

    /// Whether the flow's end came, and nothing is left of its body but the first n of the octets `sent` in the send
    /// buffer.
    fn ends_after(&self, n: u32, sent: u32) -> bool
        requires { sent ≡ length (send self.now) }
        ensures { result ≡ ends_after n self.now }
    {
        self.message.ended && self.is_all_in_send() && sent == n
    }

    /// Whether every place before the send buffer is empty.
    fn is_all_in_send(&self) -> bool
        ensures { result ≡ empty_before self.now (last_place self.now) }
    {
        for place in 1..self.chain.places() {
            if self.chain.len(place) > 0 {
                return false;
            }
        }
        self.recv.is_empty()
    }

    /// The head or the trailers that are framed next.
    pub(crate) fn fields(&self) -> Option<&FieldList>
        ensures { option_copied result ≡ fields_of self.now.message }
    {
        self.message.fields()
    }

    /// These were framed, and with them the flow's end where `last` holds.
    pub(crate) fn list_framed(&mut self, last: bool)
        ensures framed { self.new ≡ list_framed last self.old }
        ensures sound { IsSound self.new }
    {
        self.message.list_framed(last);
    }

    /// Appends `head` and the first n octets of the send buffer to `out`.
    pub(crate) fn frame_body(
        &mut self,
        out: &mut WatermarkBuffer,
        head: &[u8],
        n: u32,
        last: bool,
    ) -> Result<Shifted, NoMemory>
        requires headed { head_waits self.old.message ≡ false }
        requires octets { n ≤ length (send self.old) }
        ensures frames { OnOk result (self.new ≡ body_framed n last self.old) }
        ensures appends { OnOk result (AppendsOctets out.old out.new (head.now ++ take n (send self.old))) }
        ensures from { IfOk result (λ shifted. shifted.from ≡ crossing (above_at self.old.chain (last_place self.old)) (above_at self.new.chain (last_place self.new))) }
        ensures to { IfOk result (λ shifted. shifted.to ≡ crossing out.old.above out.new.above) }
        ensures covered { length head.now + n ≤ out.old.spare → IsOk result }
        ensures sound { IsSound self.new }
        ensures err { OnErr result ((self.new ≡ self.old) × (out.new ≡ out.old)) }
    {
        let shifted = self.chain.frame(out, head, n)?;
        self.message.body_framed(last);
        Ok(shifted)
    }

    /// As `frame_body` with this piece, and then what goes next.
    pub(crate) fn frame_unit(
        &mut self,
        out: &mut WatermarkBuffer,
        head: &[u8],
        piece: Piece,
        room: i64,
        frame: u32,
    ) -> Result<(Shifted, Unit), NoMemory>
        requires headed { head_waits self.old.message ≡ false }
        requires octets { piece.n ≤ length (send self.old) }
        requires all { piece.last ≡ true → IsTrue (carries_end piece.n self.old) }
        ensures frames { OnOk result (self.new ≡ body_framed piece.n piece.last self.old) }
        ensures appends { OnOk result (AppendsOctets out.old out.new (head.now ++ take piece.n (send self.old))) }
        ensures from { IfOk result (λ framed. framed.0.from ≡ crossing (above_at self.old.chain (last_place self.old)) (above_at self.new.chain (last_place self.new))) }
        ensures to { IfOk result (λ framed. framed.0.to ≡ crossing out.old.above out.new.above) }
        ensures unit { IfOk result (λ framed. framed.1 ≡ next_unit room frame self.new) }
        ensures frameable { IfOk result (λ framed. IsFrameable framed.1 self.new) }
        ensures covered { length head.now + piece.n ≤ out.old.spare → IsOk result }
        ensures sound { IsSound self.new }
        ensures err { OnErr result ((self.new ≡ self.old) × (out.new ≡ out.old)) }
    {
        let shifted = self.frame_body(out, head, piece.n, piece.last)?;
        if piece.last {
            // Nothing is behind the end.
            return Ok((shifted, Unit::Nothing));
        }
        Ok((shifted, self.next_unit(room, frame)))
    }
}
