// A field block in HEADERS and CONTINUATION frames.
ghost use Rattle.std.specs.Prelude.{◌≡◌, ◌++◌, ◌+◌, ◌<◌, ◌≤◌, ◌^◌, ℕ, List, length, take, OnErr, OnOk};
ghost use Rattle.h2_frames.specs.Blocks.{block_frames, continued, pieces, spellings};
ghost use Rattle.h2_frames.specs.Spelling.{flag_when};

use crate::kinds::HEADERS;
use crate::types::{END_HEADERS, END_STREAM, Frame};
use crate::writing::{frame_head, write_frame};
use io_ports::{NoMemory, Octets};

// The greatest payload that every peer takes (RFC 9113 section 4.2).
const PIECE: usize = 16_384;

/// The nine octets of the head of a HEADERS frame with a whole block of `n` octets: with the block behind it, it is the one
/// frame of that block, as `block_frames` writes it.
pub fn block_head(stream: u32, n: u32, last: bool) -> [u8; 9]
    requires on_stream { 0 < stream }
    requires fits { stream < 2 ^ 31 }
    requires few { n ≤ 16384 }
    ensures len { length result ≡ 9 }
    ensures frame { (block : List ℕ) → length block ≡ n → result ++ block ≡ spellings (block_frames stream last block) }
{
    frame_head(n, HEADERS, flags_of_whole(last), stream)
}

// The flags of HEADERS with a whole block.
fn flags_of_whole(last: bool) -> u8
    ensures { result ≡ flag_when 0x1 last + 0x4 }
{
    if last {
        END_STREAM + END_HEADERS
    } else {
        END_HEADERS
    }
}

/// Appends the frames of a field block on a stream: HEADERS, with END_STREAM where it is the last
/// of the stream, and CONTINUATION. Each has 16,384 octets of the block but the last one, which has
/// what is left and END_HEADERS. None has padding or a priority. After running out of memory the octets are
/// as they were.
pub fn block_frames(
    stream: u32,
    last: bool,
    block: &[u8],
    into: &mut Octets,
) -> Result<(), NoMemory>
    requires on_stream { 0 < stream }
    requires fits { stream < 2 ^ 31 }
    ensures ok { OnOk result (into.new ≡ into.old ++ spellings (block_frames stream last block.now)) }
    ensures err { OnErr result (into.new ≡ into.old) }
{
    let before = into.len();
    let written = put_block(stream, last, block, into);
    if written.is_err() {
        into.truncate(before);
    }
    written
}

// After running out of memory some frames may stand behind what was there.
fn put_block(stream: u32, last: bool, block: &[u8], into: &mut Octets) -> Result<(), NoMemory>
    requires on_stream { 0 < stream }
    requires fits { stream < 2 ^ 31 }
    ensures ok { OnOk result (into.new ≡ into.old ++ spellings (block_frames stream last block.now)) }
    ensures err { OnErr result (take (length into.old) into.new ≡ into.old) }
{
    let (piece, rest) = block.split_at(block.len().min(PIECE));
    let headers = Frame::Headers {
        stream,
        last,
        end_headers: rest.is_empty(),
        padded: 0,
        priority: None,
        block: piece,
    };
    write_frame(&headers, into)?;
    put_rest(stream, rest, into)
}

// The pieces behind the first.
fn put_rest(stream: u32, octets: &[u8], into: &mut Octets) -> Result<(), NoMemory>
    requires on_stream { 0 < stream }
    requires fits { stream < 2 ^ 31 }
    ensures ok { OnOk result (into.new ≡ into.old ++ spellings (continued (pieces octets.now) stream octets.now)) }
    ensures err { OnErr result (take (length into.old) into.new ≡ into.old) }
{
    let mut rest = octets;
    while !rest.is_empty() {
        let (piece, behind) = rest.split_at(rest.len().min(PIECE));
        let continuation = Frame::Continuation {
            stream,
            end_headers: behind.is_empty(),
            block: piece,
        };
        write_frame(&continuation, into)?;
        rest = behind;
    }
    Ok(())
}
