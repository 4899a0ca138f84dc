// What goes out on a connection.
ghost use Rattle.std.specs.Prelude.{◌≡◌, ◌==◌, ◌+◌, ◌<◌, ◌≤◌, ◌^◌, ◌∷◌, [], ℕ, List, false, true, length, nat_lt, take, IfOk, IfSome, IsOk, OnErr, OnOk};
ghost use Rattle.h2_frames.specs.Frame.{WindowUpdate};
ghost use Rattle.h2_frames.specs.Spelling.{spelling};
ghost use Rattle.h2_heads.specs.Replies.{status_list};
ghost use Rattle.hpack_codec.specs.Sections.{list_size};
ghost use Rattle.std.specs.Borrow.{sem};
ghost use Rattle.wm_buffer.specs.Buffer.{DropsOctets, IsWithinMarks, empty_buffer};
ghost use Rattle.wm_buffer.specs.Watermark.{crossing};
ghost use Rattle.wire_outlet.specs.Control.{goaway_octets};
ghost use Rattle.wire_outlet.specs.Heads.{head_most, section_octets};
ghost use Rattle.wire_outlet.specs.Outgoing.{FramesFirst, IsReady, Outgoing, Writes, has_place, put_unit};
ghost use Rattle.wire_outlet.specs.View.{LendsWrite};
ghost use Rattle.wire_outlet.specs.Waiting.{IsFrameable, octets_of};
ghost use Rattle.wire_outlet.specs.declared.waiting.Waiting.TheVariants as waits;

use crate::control::Control;
use crate::heads::HeadWriter;
use crate::waiting::{Waiting, WaitingList};
use h2_frames::frame_head;
use h2_heads::status_fields;
use hpack_codec::FieldList;
use io_ports::{NoMemory, Octets};
use std::alloc::Global;
use std::marker::Model;
use wm_buffer::{Crossed, WatermarkBuffer};

/// A unit of the waiting list, as it was framed.
#[derive(Drop)]
pub enum Framed {
    /// Control octets.
    Answer(Octets),
    /// The frames of a reply.
    Reply { stream: u32, octets: Octets },
}

/// The octets for the socket of one connection, the units that wait to be framed, and the encoder of
/// its field blocks.
#[derive(Drop)]
pub struct Outlet {
    alloc: Global,
    write: WatermarkBuffer,
    waiting: WaitingList,
    heads: HeadWriter,
}

impl Model for Outlet {
    ghost use Rattle.wire_outlet.specs.Outgoing.{Outgoing};

    ghost Value = { Outgoing };

    ghost view = { λ a. record { write = a.write; waiting = a.waiting; anew = a.heads } };
}

impl Outlet {
    /// Nothing to write and nothing that waits. The write buffer has this limit in octets, 0 for
    /// none, and room for it and for one unit more, the most octets of a framed unit: where the
    /// buffer has a limit and isn't above, a unit takes no memory there.
    pub fn new(alloc: Global, limit: u32, unit: u32) -> Result<Self, NoMemory>
        requires { limit + unit < 2 ^ 31 }
        ensures empty { IfOk result (λ o. o ≡ record { write = record (empty_buffer limit) { spare = o.write.spare }; waiting = []; anew = true }) }
        ensures ready { IfOk result (λ o. IsReady unit o.write) }
    {
        let mut write = WatermarkBuffer::new(alloc, limit);
        write.ready(unit)?;
        Ok(Outlet {
            alloc,
            write,
            waiting: WaitingList::new(alloc),
            heads: HeadWriter::new(alloc),
        })
    }

    /// Puts a unit at the end of the waiting list, where fewer than `most` wait. Else the answer is
    /// false and nothing changes, as after running out of memory.
    pub fn put(&mut self, unit: Waiting, most: u32) -> Result<bool, NoMemory>
        requires { IsFrameable unit }
        ensures taken { IfOk result (λ taken. taken ≡ has_place most self.old) }
        ensures put { OnOk result (self.new ≡ put_unit most unit self.old) }
        ensures err { OnErr result (self.new ≡ self.old) }
    {
        if self.waiting.len() >= most {
            return Ok(false);
        }
        self.waiting.push(unit)?;
        Ok(true)
    }

    /// How many units wait.
    pub fn waits(&self) -> u32
        ensures { result ≡ length self.now.waiting }
    {
        self.waiting.len()
    }

    /// Whether a unit waits.
    pub fn has_waiting(&self) -> bool
        ensures { result ≡ nat_lt 0 (length self.now.waiting) }
    {
        self.waiting.len() > 0
    }

    /// Drops all units that wait: the connection is closed.
    pub fn drop_waiting(&mut self)
        ensures { self.new ≡ record self.old { waiting = [] } }
    {
        self.waiting.clear();
    }

    /// The peer named a size for the table of its decoder: the next block begins with the size
    /// update 0 (RFC 7541 section 4.2).
    pub fn table_size_named(&mut self)
        ensures { self.new ≡ record self.old { anew = true } }
    {
        self.heads.begin_anew();
    }

    /// Frames the first unit that waits, and gives it as it was framed. A reply's block is encoded
    /// here. It answers None where none waits. An answer takes no memory where the buffer has room.
    pub fn frame_waiting(&mut self) -> Result<Option<(Framed, Crossed)>, NoMemory>
        requires { self.old.write.above ≡ false }
        ensures first { IfOk result (λ framed. FramesFirst self.old.waiting self.old self.new framed) }
        ensures unit { IfOk result (λ framed. IfSome framed (λ f. length (octets_of f.0) ≤ 16417)) }
        ensures ready { (unit : ℕ) → 65536 ≤ unit → IsReady unit self.old.write → OnOk result (IsReady unit self.new.write) }
        ensures covered { (octets : List ℕ) (later : List Waiting) → self.old.waiting ≡ waits.Answer octets ∷ later
            → length octets ≤ self.old.write.spare → IsOk result }
        ensures err { OnErr result (self.new ≡ self.old) }
    {
        match self.waiting.first() {
            None => Ok(None),
            Some(Waiting::Answer(control)) => {
                let crossed = self.write.add(control.as_slice())?;
                let octets = self.take_answer();
                Ok(Some((Framed::Answer(octets), crossed)))
            }
            Some(Waiting::Reply { stream, status }) => {
                let (stream, status) = (*stream, *status);
                let (octets, crossed) = self.write_reply(stream, status)?;
                self.waiting.pop();
                Ok(Some((Framed::Reply { stream, octets }, crossed)))
            }
        }
    }

    // Takes the octets of the first unit, which is an answer.
    fn take_answer(&mut self) -> Octets
        requires { (octets : List ℕ) × (later : List Waiting) × (self.old.waiting ≡ waits.Answer octets ∷ later) }
        ensures { (later : List Waiting) × (self.old.waiting ≡ waits.Answer result ∷ later) × (self.new ≡ record self.old { waiting = later }) }
    {
        let Some(Waiting::Answer(control)) = self.waiting.pop() else {
            unreachable!()
        };
        control.into_octets()
    }

    // Frames a reply.
    fn write_reply(&mut self, stream: u32, status: u16) -> Result<(Octets, Crossed), NoMemory>
        requires open { self.old.write.above ≡ false }
        requires on_stream { 0 < stream }
        requires fits { stream < 2 ^ 31 }
        ensures octets { IfOk result (λ framed. framed.0 ≡ section_octets self.old.anew stream true (status_list status)) }
        ensures crossed { IfOk result (λ framed. framed.1 ≡ crossing self.old.write.above self.new.write.above) }
        ensures writes { OnOk result (Writes (section_octets self.old.anew stream true (status_list status)) self.old (record self.old { anew = false }) self.new) }
        ensures few { IfOk result (λ framed. length framed.0 ≤ 16417) }
        ensures ready { (unit : ℕ) → 65536 ≤ unit → IsReady unit self.old.write → OnOk result (IsReady unit self.new.write) }
        ensures err { OnErr result (self.new ≡ self.old) }
    {
        let fields = status_fields(self.alloc, status)?;
        self.frame_block(stream, true, &fields)
    }

    /// Frames a list of fields as a head or as trailers: HEADERS, with END_STREAM where it is the
    /// last of the stream, and CONTINUATION, each with 16,384 octets of the block but the last. The
    /// frames are given too. Of a list that counts at most 61,440 octets they are at most 61,477.
    pub fn frame_block(
        &mut self,
        stream: u32,
        last: bool,
        fields: &FieldList,
    ) -> Result<(Octets, Crossed), NoMemory>
        requires open { self.old.write.above ≡ false }
        requires on_stream { 0 < stream }
        requires fits { stream < 2 ^ 31 }
        ensures octets { IfOk result (λ framed. framed.0 ≡ section_octets self.old.anew stream last fields.now) }
        ensures crossed { IfOk result (λ framed. framed.1 ≡ crossing self.old.write.above self.new.write.above) }
        ensures writes { OnOk result (Writes (section_octets self.old.anew stream last fields.now) self.old (record self.old { anew = false }) self.new) }
        ensures most { IfOk result (λ framed. length framed.0 ≤ head_most (list_size fields.now)) }
        ensures unit { list_size fields.now ≤ 61440 → IfOk result (λ framed. length framed.0 ≤ 61477) }
        ensures ready { (unit : ℕ) → 65536 ≤ unit → list_size fields.now ≤ 61440 → IsReady unit self.old.write → OnOk result (IsReady unit self.new.write) }
        ensures err { OnErr result (self.new ≡ self.old) }
    {
        let anew = self.heads.is_anew();
        let octets = self.heads.frames(stream, last, fields)?;
        match self.write.add(octets.as_slice()) {
            Ok(crossed) => Ok((octets, crossed)),
            Err(no_memory) => {
                self.heads.undo(anew);
                Err(no_memory)
            }
        }
    }

    /// Frames a WINDOW_UPDATE on a stream, or with stream 0 on the connection (RFC 9113 section 6.9).
    /// It takes no memory where the buffer has room.
    pub fn frame_update(&mut self, stream: u32, increment: u32) -> Result<Crossed, NoMemory>
        requires open { self.old.write.above ≡ false }
        requires stream { stream < 2 ^ 31 }
        requires increment { increment < 2 ^ 31 }
        ensures writes { OnOk result (Writes (spelling (WindowUpdate stream increment)) self.old self.old self.new) }
        ensures crossed { IfOk result (λ crossed. crossed ≡ crossing self.old.write.above self.new.write.above) }
        ensures unit { length (spelling (WindowUpdate stream increment)) ≡ 13 }
        ensures ready { (unit : ℕ) → 65536 ≤ unit → IsReady unit self.old.write → OnOk result (IsReady unit self.new.write) }
        ensures covered { 13 ≤ self.old.write.spare → IsOk result }
        ensures err { OnErr result (self.new ≡ self.old) }
    {
        self.write.add(&update_octets(stream, increment))
    }

    /// Frames the GOAWAY before a close, ahead of all that waits (RFC 9113 section 6.8). The frame is given too. After running
    /// out of memory nothing has changed.
    pub fn farewell(&mut self, last: u32, code: u32) -> Result<(Octets, Crossed), NoMemory>
        requires open { self.old.write.above ≡ false }
        requires last { last < 2 ^ 31 }
        ensures octets { IfOk result (λ framed. framed.0 ≡ goaway_octets last code) }
        ensures crossed { IfOk result (λ framed. framed.1 ≡ crossing self.old.write.above self.new.write.above) }
        ensures writes { OnOk result (Writes (goaway_octets last code) self.old self.old self.new) }
        ensures unit { length (goaway_octets last code) ≡ 17 }
        ensures ready { (unit : ℕ) → 65536 ≤ unit → IsReady unit self.old.write → OnOk result (IsReady unit self.new.write) }
        ensures err { OnErr result (self.new ≡ self.old) }
    {
        let octets = Control::goaway(self.alloc, last, code)?.into_octets();
        let crossed = self.write.add(octets.as_slice())?;
        Ok((octets, crossed))
    }

    /// The write buffer, for DATA frames: what is left there is the outlet's.
    pub fn write_mut(&mut self) -> &mut WatermarkBuffer
        ensures* writes_back { sem 𝓛 (LendsWrite self.entry result) }
        ensures value { result.now ≡ self.old.write }
    {
        &mut self.write
    }

    /// A prefix of the octets for the socket, nonempty where there are any.
    pub fn front(&self) -> &[u8]
        ensures prefix { result.now ≡ take (length result.now) self.now.write.octets }
        ensures nonempty { 0 < length self.now.write.octets → 0 < length result.now }
    {
        self.write.front()
    }

    /// How many octets there are for the socket.
    pub fn len(&self) -> u32
        ensures len { result ≡ length self.now.write.octets }
        ensures within { result + self.now.write.spare < 2 ^ 31 }
    {
        self.write.len()
    }

    /// Whether there are no octets for the socket.
    pub fn is_empty(&self) -> bool
        ensures { result ≡ (length self.now.write.octets == 0) }
    {
        self.write.is_empty()
    }

    /// Whether the write buffer is above: then nothing is framed.
    pub fn is_above(&self) -> bool
        ensures above { result ≡ self.now.write.above }
        ensures marks { IsWithinMarks self.now.write }
    {
        self.write.is_above()
    }

    /// The first n octets went to the socket. The answer is low where the buffer was above and has
    /// drained.
    pub fn leave(&mut self, n: u32) -> Crossed
        requires { n ≤ length self.old.write.octets }
        ensures drops { DropsOctets self.old.write self.new.write n }
        ensures rest { self.new ≡ record self.old { write = self.new.write } }
        ensures crossed { result ≡ crossing self.old.write.above self.new.write.above }
        ensures ready { (unit : ℕ) → IsReady unit self.old.write → IsReady unit self.new.write }
    {
        self.write.take(n)
    }

    /// Drops the octets for the socket and all units that wait: the connection is lost. What this
    /// crosses nobody is told.
    pub fn drop_all(&mut self)
        ensures empty { self.new ≡ record self.old { write = record (empty_buffer self.old.write.limit) { spare = self.new.write.spare }; waiting = [] } }
        ensures spare { self.new.write.spare ≡ self.old.write.spare + length self.old.write.octets }
        ensures ready { (unit : ℕ) → IsReady unit self.old.write → IsReady unit self.new.write }
    {
        let _low = self.write.take(self.write.len());
        self.waiting.clear();
    }
}

// The octets of a WINDOW_UPDATE frame.
fn update_octets(stream: u32, increment: u32) -> [u8; 13]
    requires stream { stream < 2 ^ 31 }
    requires increment { increment < 2 ^ 31 }
    ensures { result ≡ spelling (WindowUpdate stream increment) }
{
    let head = frame_head(4, 8, 0, stream);
    let number = increment.to_be_bytes();
    [
        head[0], head[1], head[2], head[3], head[4], head[5], head[6], head[7], head[8], number[0],
        number[1], number[2], number[3],
    ]
}
