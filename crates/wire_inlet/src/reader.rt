// What the frames of a connection mean, and what their header blocks give.
ghost use Rattle.std.specs.Prelude.{◌≡◌, ◌≤◌, ◌<◌, ◌^◌, ◌⊎◌, [], None, Some, false, true, IfSome, MatchOption, OnErr, OnOk};
ghost use Rattle.h2_frames.specs.Frame.{padding_of};
ghost use Rattle.h2_frames.specs.Spelling.{IsWritable};
ghost use Rattle.h2_frames.specs.View.{view};
ghost use Rattle.h2_session.specs.Acts.{IsContentOf, stream_of};
ghost use Rattle.h2_session.specs.Preface.{Begins};
ghost use Rattle.h2_session.specs.Summary.{StandsFor};
ghost use Rattle.hpack_codec.specs.Decoding.{decoder_with};
ghost use Rattle.hpack_codec.specs.Table.{empty_table};
ghost use Rattle.wire_inlet.specs.Meaning.{IsKnown, Means, ReadsBlock, ReadsBlockOf, block_of};

use crate::intake::{Reading, Taken};
use h2_frames::Frame;
use h2_session::{Act, Prefaced, Session};
use hpack_codec::{Decoder, HpackFault};
use io_ports::{NoMemory, Octets};
use std::alloc::Global;
use std::marker::Model;

/// The size in octets of the dynamic table of header blocks: the first value of the setting
/// (RFC 9113 section 6.5.2), which this side never changes.
const TABLE: u32 = 4096;

/// The session of a connection, and the decoder of its header blocks.
#[derive(Drop)]
pub struct Reader {
    pub session: Session,
    decoder: Decoder,
    lost: bool,
}

impl Model for Reader {
    ghost use Rattle.wire_inlet.specs.Meaning.{Meaning};

    ghost Value = { Meaning };

    ghost view = { λ r. record { session = r.session; table = r.decoder; lost = r.lost } };
}

// The header block that an act carries.
#[inline(always)]
fn block_of(act: &Act) -> Option<&[u8]>
    ensures { MatchOption result (block_of act.now ≡ None) (λ block. block_of act.now ≡ Some block.now) }
{
    match act {
        Act::Head { block, .. } => Some(block.as_slice()),
        Act::Trailers { block, .. } => Some(block.as_slice()),
        Act::OldBlock { block } => Some(block.as_slice()),
        Act::StreamError { block, .. } if !block.is_empty() => Some(block.as_slice()),
        _ => None,
    }
}

// What a block gives. Each is decoded, once and in their order.
#[inline(never)]
fn read_block(decoder: &mut Decoder, block: &[u8], into: &mut Reading) -> Result<(), NoMemory>
    ensures reads { OnOk result (ReadsBlock decoder.old block.now into.new decoder.new) }
    ensures few { OnOk result (IsKnown into.new) }
{
    match decoder.decode(block) {
        Ok(fields) => {
            *into = Reading::Fields(fields);
            Ok(())
        }
        Err(HpackFault::ListTooLong) => {
            *into = Reading::TooLong;
            Ok(())
        }
        Err(HpackFault::NoMemory) => Err(NoMemory),
        Err(_) => {
            *into = Reading::Refused;
            Ok(())
        }
    }
}

impl Reader {
    /// No frame came yet. `client_side` is true towards a cluster; lists of fields have at most
    /// `field_list` octets. Takes no memory.
    pub fn new(
        alloc: Global,
        client_side: bool,
        max_streams: u32,
        empty_frames: u32,
        field_list: u32,
    ) -> Self
        ensures side { result.session.side ≡ record { client_side = client_side; max_streams = max_streams; empty_frames = empty_frames } }
        ensures stands { StandsFor [] result.session }
        ensures table { result.table ≡ decoder_with 4096 field_list (empty_table 4096) }
        ensures kept { result.lost ≡ false }
    {
        Reader {
            session: Session::new(alloc, client_side, max_streams, empty_frames),
            decoder: Decoder::new(alloc, TABLE, field_list),
            lost: false,
        }
    }

    /// Whether memory ran out within a block, which the decoder can't go on without.
    pub fn is_lost(&self) -> bool
        ensures { result ≡ self.now.lost }
    {
        self.lost
    }

    /// How the octets that came first compare with the preface. Nothing changes.
    pub fn take_preface(&mut self, octets: &[u8]) -> Prefaced
        ensures preface { Begins octets.now result }
        ensures same { self.new ≡ self.old }
    {
        self.session.take_preface(octets)
    }

    /// What a frame means is put into `into`. The octets of a DATA frame may be handed in as octets that share a block. After
    /// running out of memory nothing changed but what is in `into`, or the reader is lost.
    #[inline(always)]
    pub fn take(
        &mut self,
        frame: &Frame,
        content: Option<Octets>,
        into: &mut Taken,
    ) -> Result<(), NoMemory>
        requires writable { IsWritable (view frame.now) }
        requires padding { padding_of (view frame.now) ≤ 256 }
        requires content { IfSome content (IsContentOf (view frame.now)) }
        requires kept { self.old.lost ≡ false }
        ensures means { OnOk result (Means (view frame.now) self.old into.new self.new) }
        ensures numbered { OnOk result (stream_of into.new.act < 2 ^ 31) }
        ensures few { OnOk result (IsKnown into.new.reading) }
        ensures err { OnErr result ((self.new ≡ self.old) ⊎ (self.new.lost ≡ true)) }
    {
        let Ok(()) = self.session.accept_into(frame, content, &mut into.act) else {
            return Err(NoMemory);
        };
        let Ok(()) = self.read(&into.act, &mut into.reading) else {
            return Err(NoMemory);
        };
        into.content = frame.content();
        into.is_update = matches!(*frame, Frame::WindowUpdate { .. });
        Ok(())
    }

    // What the header block of an act gives. After running out of memory the reader is lost.
    #[inline(always)]
    fn read(&mut self, act: &Act, into: &mut Reading) -> Result<(), NoMemory>
        ensures reads { OnOk result (ReadsBlockOf (block_of act.now) self.old.table into.new self.new.table) }
        ensures few { OnOk result (IsKnown into.new) }
        ensures kept { OnOk result (self.new ≡ record self.old { table = self.new.table }) }
        ensures err { OnErr result (self.new.lost ≡ true) }
    {
        let Some(block) = block_of(act) else {
            *into = Reading::Nothing;
            return Ok(());
        };
        let read = read_block(&mut self.decoder, block, into);
        if read.is_err() {
            self.lost = true;
        }
        read
    }
}
