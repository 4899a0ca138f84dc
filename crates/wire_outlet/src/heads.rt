// Field lists as HEADERS and CONTINUATION frames.
ghost use Rattle.std.specs.Prelude.{◌≡◌, ◌≤◌, ◌<◌, ◌++◌, ◌^◌, drop, length, true, IfOk, OnErr, OnOk, false};
ghost use Rattle.h2_frames.specs.Blocks.{block_frames, spellings};
ghost use Rattle.hpack_codec.specs.Sections.{list_size};
ghost use Rattle.wire_outlet.specs.Heads.{head_most, section_octets};

use crate::laws::heads_fit;
use h2_frames::{block_frames, block_head};
use hpack_codec::{Encoder, FieldList};
use io_ports::{NoMemory, Octets};
use std::alloc::Global;
use std::marker::Model;

/// The encoder of a connection's field blocks, and whether the next one begins with the size update
/// 0, so that an encoding whose octets don't go out can be undone.
#[derive(Drop)]
pub(crate) struct HeadWriter {
    alloc: Global,
    encoder: Encoder,
    anew: bool,
}

impl Model for HeadWriter {
    ghost use Rattle.std.specs.Prelude.{Bool, ◌≡◌};

    ghost Value = { Bool };

    ghost view = { λ a. a.anew };

    ghost invariant = { λ a. a.encoder ≡ a.anew };
}

impl HeadWriter {
    pub fn new(alloc: Global) -> Self
        ensures { result ≡ true }
    {
        HeadWriter {
            alloc,
            encoder: Encoder::new(alloc),
            anew: true,
        }
    }

    /// The next block begins with the size update 0.
    pub fn begin_anew(&mut self)
        ensures { self.new ≡ true }
    {
        self.encoder.table_size_named();
        self.anew = true;
    }

    /// Whether the next block begins with the size update 0.
    pub fn is_anew(&self) -> bool
        ensures { result ≡ self.now }
    {
        self.anew
    }

    /// The frames of a list. After running out of memory nothing has changed.
    pub fn frames(
        &mut self,
        stream: u32,
        last: bool,
        fields: &FieldList,
    ) -> Result<Octets, NoMemory>
        requires on_stream { 0 < stream }
        requires fits { stream < 2 ^ 31 }
        ensures octets { IfOk result (λ octets. octets ≡ section_octets self.old stream last fields.now) }
        ensures bound { IfOk result (λ octets. length octets ≤ head_most (list_size fields.now)) }
        ensures ok { OnOk result (self.new ≡ false) }
        ensures err { OnErr result (self.new ≡ self.old) }
    {
        heads_fit();
        if fields.size() < PIECE {
            return self.one_frame(stream, last, fields);
        }
        let anew = self.anew;
        let block = self.encoder.encode(fields)?;
        self.anew = false;
        let framed = frames_of(self.alloc, stream, last, block.as_slice());
        if framed.is_err() {
            self.undo(anew);
        }
        framed
    }

    // The one frame of a list whose block is at most a piece: the block is encoded behind the head's octets.
    fn one_frame(&mut self, stream: u32, last: bool, fields: &FieldList) -> Result<Octets, NoMemory>
        requires on_stream { 0 < stream }
        requires fits { stream < 2 ^ 31 }
        requires few { list_size fields.now < 16384 }
        ensures octets { IfOk result (λ octets. octets ≡ section_octets self.old stream last fields.now) }
        ensures ok { OnOk result (self.new ≡ false) }
        ensures err { OnErr result (self.new ≡ self.old) }
    {
        let room = FRAME_HEAD + fields.size() + 1;
        let mut octets = Vec::with_capacity(self.alloc, room)?;
        octets.extend_from_slice(&[0u8; FRAME_HEAD])?;
        self.encoder.encode_onto(fields, &mut octets)?;
        self.anew = false;
        write_head(octets.as_mut_slice(), stream, last);
        Ok(Octets::from_vec(octets))
    }

    /// Takes back that a list was encoded, before which the writer was like this.
    pub fn undo(&mut self, anew: bool)
        requires { self.old ≡ false }
        ensures { self.new ≡ anew }
    {
        if anew {
            self.begin_anew();
        }
    }
}

// The octets of a frame's head.
const FRAME_HEAD: usize = 9;

// The greatest payload that every peer takes (RFC 9113 section 4.2).
const PIECE: usize = 16_384;

// Writes the head of the one frame of a block before the block, where there are nine octets for it.
fn write_head(octets: &mut [u8], stream: u32, last: bool)
    requires on_stream { 0 < stream }
    requires fits { stream < 2 ^ 31 }
    requires head { 9 ≤ length octets.old }
    requires few { length octets.old ≤ 16393 }
    ensures len { length octets.new ≡ length octets.old }
    ensures frame { octets.new ≡ spellings (block_frames stream last (drop 9 octets.old)) }
{
    let n = octets.len() - FRAME_HEAD;
    let head = block_head(stream, n as u32, last);
    write_front(octets, &head);
}

// Writes octets over the first of a slice.
fn write_front(octets: &mut [u8], front: &[u8])
    requires { length front.now ≤ length octets.old }
    ensures { octets.new ≡ front.now ++ drop (length front.now) octets.old }
{
    octets[..front.len()].copy_from_slice(front);
}

// The frames of a block.
fn frames_of(alloc: Global, stream: u32, last: bool, block: &[u8]) -> Result<Octets, NoMemory>
    requires on_stream { 0 < stream }
    requires fits { stream < 2 ^ 31 }
    ensures { IfOk result (λ octets. octets ≡ spellings (block_frames stream last block.now)) }
{
    let room = Vec::with_capacity(alloc, block.len().saturating_add(FRAME_HEAD))?;
    let mut octets = Octets::from_vec(room);
    block_frames(stream, last, block, &mut octets)?;
    Ok(octets)
}
