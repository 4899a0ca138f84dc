// The one spelling of a frame without padding.
ghost use Rattle.std.specs.Prelude.{◌≡◌, ◌++◌, ◌+◌, ◌<◌, ◌^◌, false, length, take, OnOk, OnErr, IfSome};
ghost use Rattle.std.specs.Int.{to_be_bytes, w32};
ghost use Rattle.h2_frames.specs.Head.{data_head, frame_head, head_octets, word};
ghost use Rattle.h2_frames.specs.Payload.{weighting_octets};
ghost use Rattle.h2_frames.specs.Spelling.{IsWritable, flag_when, priority_octets, spelling};
ghost use Rattle.h2_frames.specs.View.{view};

use crate::kinds::*;
use crate::types::*;
use io_ports::{NoMemory, Octets};

/// The nine octets of a frame's head, with the reserved bit 0.
pub fn frame_head(len: u32, kind: u8, flags: u8, stream: u32) -> [u8; 9]
    requires len { len < 2 ^ 24 }
    requires stream { stream < 2 ^ 31 }
    ensures { result ≡ frame_head len kind flags stream }
{
    let length = len.to_be_bytes();
    let number = stream.to_be_bytes();
    [
        length[1], length[2], length[3], kind, flags, number[0], number[1], number[2], number[3],
    ]
}

/// The nine octets of the head of a DATA frame with `n` octets and no padding. Of a stream above
/// 2^31 - 1 they show the reserved bit too.
pub fn data_head(stream: u32, n: u32, last: bool) -> [u8; 9]
    requires { n < 2 ^ 24 }
    ensures { result ≡ data_head stream n last }
{
    let length = n.to_be_bytes();
    let number = stream.to_be_bytes();
    [
        length[1],
        length[2],
        length[3],
        DATA,
        flag_when(END_STREAM, last),
        number[0],
        number[1],
        number[2],
        number[3],
    ]
}

// A flag's value, where it is set.
fn flag_when(flag: u8, set: bool) -> u8
    ensures { result ≡ flag_when flag set }
{
    if set { flag } else { 0 }
}

fn word_octets(bit: bool, n: u32) -> [u8; 4]
    requires { n < 2 ^ 31 }
    ensures { result ≡ word bit n }
{
    let number = if bit { 0x8000_0000 + n } else { n };
    number.to_be_bytes()
}

// A frame with this head, whose payload is the front and the rest. After running out of memory the octets
// are as they were.
fn put(
    into: &mut Octets,
    kind: u8,
    flags: u8,
    stream: u32,
    front: &[u8],
    rest: &[u8],
) -> Result<(), NoMemory>
    requires len { length front.now + length rest.now < 2 ^ 24 }
    requires stream { stream < 2 ^ 31 }
    ensures ok { OnOk result (into.new ≡ into.old ++ (head_octets false
        (record { len = length front.now + length rest.now; kind = kind; flags = flags; stream = stream })
        ++ (front.now ++ rest.now))) }
    ensures err { OnErr result (into.new ≡ into.old) }
{
    let before = into.len();
    let head = frame_head((front.len() + rest.len()) as u32, kind, flags, stream);
    let written = put_parts(into, &head, front, rest);
    if written.is_err() {
        into.truncate(before);
    }
    written
}

fn put_parts(into: &mut Octets, head: &[u8], front: &[u8], rest: &[u8]) -> Result<(), NoMemory>
    ensures ok { OnOk result (into.new ≡ into.old ++ (head.now ++ (front.now ++ rest.now))) }
    ensures err { OnErr result (take (length into.old) into.new ≡ into.old) }
{
    into.push_all(head)?;
    into.push_all(front)?;
    into.push_all(rest)
}

fn put_headers(
    into: &mut Octets,
    flags: u8,
    stream: u32,
    priority: Option<Weighting>,
    block: &[u8],
) -> Result<(), NoMemory>
    requires len { length (priority_octets priority) + length block.now < 2 ^ 24 }
    requires stream { stream < 2 ^ 31 }
    requires dependency { IfSome priority (λ w. w.dependency < 2 ^ 31) }
    ensures ok { OnOk result (into.new ≡ into.old ++ (head_octets false
        (record { len = length (priority_octets priority ++ block.now); kind = 1; flags = flags; stream = stream })
        ++ (priority_octets priority ++ block.now))) }
    ensures err { OnErr result (into.new ≡ into.old) }
{
    match priority {
        None => put(into, HEADERS, flags, stream, &[], block),
        Some(weighting) => put(
            into,
            HEADERS,
            flags,
            stream,
            &weighting_octets(weighting),
            block,
        ),
    }
}

fn weighting_octets(weighting: Weighting) -> [u8; 5]
    requires { weighting.dependency < 2 ^ 31 }
    ensures { result ≡ weighting_octets weighting }
{
    let stream = word_octets(weighting.exclusive, weighting.dependency);
    [stream[0], stream[1], stream[2], stream[3], weighting.weight]
}

fn goaway_octets(last: u32, code: u32) -> [u8; 8]
    requires { last < 2 ^ 31 }
    ensures { result ≡ word false last ++ to_be_bytes w32 code }
{
    let stream = word_octets(false, last);
    let code = code.to_be_bytes();
    [
        stream[0], stream[1], stream[2], stream[3], code[0], code[1], code[2], code[3],
    ]
}

/// Appends the one spelling of the frame without padding, and with the reserved bit 0. After want
/// of memory the octets are as they were.
pub fn write_frame(frame: &Frame, into: &mut Octets) -> Result<(), NoMemory>
    requires { IsWritable (view frame.now) }
    ensures ok { OnOk result (into.new ≡ into.old ++ spelling (view frame.now)) }
    ensures err { OnErr result (into.new ≡ into.old) }
{
    match *frame {
        Frame::DataFrame {
            stream,
            last,
            octets,
            padded: _,
        } => put(into, DATA, flag_when(END_STREAM, last), stream, &[], octets),
        Frame::Headers {
            stream,
            last,
            end_headers,
            priority,
            block,
            padded: _,
        } => {
            let flags = flag_when(END_STREAM, last)
                + flag_when(END_HEADERS, end_headers)
                + flag_when(WITH_PRIORITY, priority.is_some());
            put_headers(into, flags, stream, priority, block)
        }
        Frame::Priority { stream, priority } => {
            put(into, PRIORITY, 0, stream, &weighting_octets(priority), &[])
        }
        Frame::Reset { stream, code } => {
            put(into, RST_STREAM, 0, stream, &code.to_be_bytes(), &[])
        }
        Frame::Settings { ack, entries } => {
            put(into, SETTINGS, flag_when(ACK, ack), 0, &[], entries)
        }
        Frame::Push {
            stream,
            end_headers,
            promised,
            block,
            padded: _,
        } => {
            let flags = flag_when(END_HEADERS, end_headers);
            put(
                into,
                PUSH_PROMISE,
                flags,
                stream,
                &word_octets(false, promised),
                block,
            )
        }
        Frame::Ping { ack, octets } => put(into, PING, flag_when(ACK, ack), 0, &octets, &[]),
        Frame::GoAway { last, code, debug } => {
            put(into, GOAWAY, 0, 0, &goaway_octets(last, code), debug)
        }
        Frame::WindowUpdate { stream, increment } => {
            put(
                into,
                WINDOW_UPDATE,
                0,
                stream,
                &word_octets(false, increment),
                &[],
            )
        }
        Frame::Continuation {
            stream,
            end_headers,
            block,
        } => {
            let flags = flag_when(END_HEADERS, end_headers);
            put(into, CONTINUATION, flags, stream, &[], block)
        }
        Frame::Unknown {
            kind,
            flags,
            stream,
            octets,
        } => put(into, kind, flags, stream, &[], octets),
    }
}
