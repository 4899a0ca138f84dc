// A header block that is open (RFC 9113 sections 4.3 and 6.10).
ghost use Rattle.std.specs.Prelude.{◌≡◌, Option, OnOk, OnErr};
ghost use Rattle.h2_frames.specs.View.{view};
ghost use Rattle.h2_session.specs.Blocks.{block_with};
ghost use Rattle.h2_session.specs.Errors.{breaks_block, is_great};

use h2_frames::Frame;
use io_ports::{NoMemory, Octets};

// The most that a header block may have, in octets and in frames.
const MOST_OCTETS: usize = 65_536;

const MOST_FRAMES: u32 = 128;

/// The octets of a HEADERS frame and the CONTINUATION frames so far.
#[derive(Drop)]
pub struct HeaderBlock {
    pub stream: u32,
    pub last: bool,
    pub octets: Octets,
    pub frames: u32,
}

impl HeaderBlock {
    ghost use Rattle.h2_session.specs.Blocks.{grown_in};

    /// One more frame of the block. After running out of memory the block is as it was.
    pub fn grow(&mut self, more: &[u8]) -> Result<(), NoMemory>
        ensures ok { OnOk result (self.new ≡ grown_in more.now self.old) }
        ensures err { OnErr result (self.new ≡ self.old) }
    {
        self.octets.push_all(more)?;
        self.frames = self.frames.saturating_add(1);
        Ok(())
    }
}

/// A frame within an open block that doesn't go on with it, or a CONTINUATION outside one.
#[inline(always)]
pub(crate) fn breaks_block(frame: &Frame, block: &Option<HeaderBlock>) -> bool
    ensures { result ≡ breaks_block (view frame.now) block.now }
{
    match (*frame, block) {
        (Frame::Continuation { stream, .. }, Some(block)) => stream != block.stream,
        (Frame::Continuation { .. }, None) => true,
        (_, Some(_)) => true,
        (_, None) => false,
    }
}

/// The block with the frame is too great.
#[inline(always)]
pub(crate) fn is_great(frame: &Frame, before: &Option<HeaderBlock>) -> bool
    ensures { result ≡ is_great (block_with (view frame.now) before.now) }
{
    match *frame {
        Frame::Headers { block, .. } => block.len() > MOST_OCTETS,
        Frame::Continuation { block, .. } => match before {
            Some(before) => {
                before.octets.len() > MOST_OCTETS
                    || block.len() > MOST_OCTETS - before.octets.len()
                    || before.frames >= MOST_FRAMES
            }
            None => false,
        },
        _ => false,
    }
}
