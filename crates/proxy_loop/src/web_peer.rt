// One end of a connection of HTTP/2.

use h2_frames::{Frame, ReadFrame, block_frames, data_head, read_frame};
use io_ports::{NoMemory, Octets};
use mio::net::TcpStream;
use std::alloc::Global;
use std::io::{Read, Write};

/// How many octets are read at once at most.
const PIECE: usize = 10_000;

/// The greatest payload of a frame.
const MOST: u32 = 16_384;

/// Streams have numbers below this one.
const STREAMS: u32 = 0x8000_0000;

/// SETTINGS with an initial window of 1,048,576 octets, and WINDOW_UPDATE that makes the connection's window as great (RFC 9113 sections
/// 6.5 and 6.9). So whoever sends less than that needn't look at windows.
const WINDOWS: &[u8] = b"\0\0\x06\x04\0\0\0\0\0\0\x04\0\x10\0\0\0\0\x04\x08\0\0\0\0\0\0\x0f\0\x01";

/// The acknowledgement of SETTINGS.
const ACKNOWLEDGED: &[u8] = b"\0\0\0\x04\x01\0\0\0\0";

/// What a frame tells.
#[derive(Drop)]
pub enum Told {
    /// A whole field block on a stream, and whether it ends the stream.
    Head(u32, Octets, bool),
    /// Content on a stream, and whether it ends the stream.
    Content(u32, Octets, bool),
    /// Nothing that matters here.
    Other,
}

/// One end of a connection of HTTP/2, which doesn't block.
#[derive(Drop)]
pub struct Peer {
    alloc: Global,
    stream: TcpStream,
    /// What is to be sent, and how much of it was.
    out: Octets,
    sent: usize,
    /// What came, and how much of it was taken.
    came: Octets,
    taken: usize,
    block: Vec<u8>,
}

impl Peer {
    /// An end that sends these octets first, and opens its windows. Of the octets that come so many stand before the first frame.
    pub fn new(
        alloc: Global,
        stream: TcpStream,
        first: &[u8],
        before: usize,
    ) -> Result<Self, NoMemory> {
        let mut out = Octets::from_slice(alloc, first)?;
        out.push_all(WINDOWS)?;
        Ok(Peer {
            alloc,
            stream,
            out,
            sent: 0,
            came: Octets::new(alloc),
            taken: before,
            block: vec![in alloc; 0; PIECE]?,
        })
    }

    /// Sends a field block on a stream behind the others, and ends the stream if it is the last.
    pub fn say_head(&mut self, stream: u32, last: bool, block: &[u8]) -> Result<(), NoMemory> {
        if stream == 0 || stream >= STREAMS {
            return Ok(());
        }
        block_frames(stream, last, block, &mut self.out)
    }

    /// Sends content on a stream behind the others, and ends the stream.
    pub fn say_all(&mut self, stream: u32, octets: &[u8]) -> Result<(), NoMemory> {
        for piece in octets.chunks(MOST as usize) {
            self.say_content(stream, false, piece)?;
        }
        self.say_content(stream, true, &[])
    }

    /// Sends content of at most 16,384 octets on a stream behind the others, and ends the stream if it is the last.
    pub fn say_content(&mut self, stream: u32, last: bool, octets: &[u8]) -> Result<(), NoMemory> {
        let piece = octets.get(..MOST as usize).unwrap_or(octets);
        let Ok(n) = u16::try_from(piece.len()) else {
            return Ok(());
        };
        self.out.push_all(&data_head(stream, u32::from(n), last))?;
        self.out.push_all(piece)
    }

    /// Sends once, reads once, and answers what the next frame tells, if it has come whole.
    pub fn step(&mut self) -> Result<Option<Told>, NoMemory> {
        let rest = self.out.as_slice().get(self.sent..).unwrap_or(&[]);
        if !rest.is_empty() {
            if let Ok(n) = self.stream.write(rest) {
                self.sent = self.sent.saturating_add(n);
            }
        }
        if let Ok(n) = self.stream.read(&mut self.block) {
            self.came.push_all(self.block.get(..n).unwrap_or(&[]))?;
        }
        self.next()
    }

    // What the next frame tells. SETTINGS are acknowledged.
    fn next(&mut self) -> Result<Option<Told>, NoMemory> {
        let Some(rest) = self.came.as_slice().get(self.taken..) else {
            return Ok(None);
        };
        let ReadFrame::Whole(frame, n) = read_frame(rest, MOST) else {
            return Ok(None);
        };
        let told = told_of(self.alloc, &frame)?;
        let is_asked = matches!(frame, Frame::Settings { ack: false, .. });
        self.taken = self.taken.saturating_add(n as usize);
        if is_asked {
            self.out.push_all(ACKNOWLEDGED)?;
        }
        Ok(Some(told))
    }
}

fn told_of(alloc: Global, frame: &Frame) -> Result<Told, NoMemory> {
    match *frame {
        Frame::Headers {
            stream,
            last,
            block,
            ..
        } => Ok(Told::Head(stream, Octets::from_slice(alloc, block)?, last)),
        Frame::DataFrame {
            stream,
            last,
            octets,
            ..
        } => Ok(Told::Content(stream, Octets::from_slice(alloc, octets)?, last)),
        _ => Ok(Told::Other),
    }
}
