// What is kept of a connection.
ghost use Rattle.std.specs.Prelude.{◌≡◌, ◌+◌, ◌∷◌, [], List, if◌then◌else◌, is_some, length, Some, None, IfOk, OnErr, IsNone, MatchOption};
ghost use Rattle.h2_session.specs.Happened.{Happening, Opened, Ended, Closed, Interim, next_stream};
ghost use Rattle.h2_session.specs.Preface.{Begins};
ghost use Rattle.h2_session.specs.Streams.{greatest_of_peer, is_open, open_count};
ghost use Rattle.h2_session.specs.Summary.{StandsFor, noted};
ghost use Rattle.h2_session.specs.Table.{stream_at};

mod acts;
mod data;
mod errors;
mod heads;

use crate::block::HeaderBlock;
use crate::preface::{Prefaced, preface_of};
use crate::streams::{Stream, Streams};
use io_ports::NoMemory;
use std::alloc::Global;
use std::marker::Model;

const GREATEST_STREAM: u32 = 0x7fff_ffff;

/// The protocol state of one connection.
#[derive(Drop)]
pub struct Session {
    alloc: Global,
    client_side: bool,
    max_streams: u32,
    empty_frames: u32,
    failed: Option<u32>,
    started: bool,
    block: Option<HeaderBlock>,
    greatest: u32,
    next: u32,
    empties: u32,
    streams: Streams,
}

impl Model for Session {
    ghost use Rattle.std.specs.Prelude.{◌<◌, length, if◌then◌else◌};
    ghost use Rattle.h2_session.specs.Summary.{Summary};
    ghost use Rattle.h2_session.specs.Kept.{IsKept};

    ghost Value = { Summary };

    ghost view = { λ s. record {
      side = record { client_side = s.client_side; max_streams = s.max_streams; empty_frames = s.empty_frames };
      failed = s.failed;
      started = s.started;
      block = s.block;
      greatest = s.greatest;
      next = s.next;
      empties = s.empties;
      streams = s.streams;
    } };

    ghost invariant = { λ s. IsKept s.client_side s.next (length s.streams) };
}

impl Session {
    /// A connection on which nothing happened yet. `client_side` is true towards a cluster. Of the
    /// streams that a client opens, `max_streams` may be open, and of empty DATA frames
    /// `empty_frames` may come in a row. Takes no memory.
    pub fn new(alloc: Global, client_side: bool, max_streams: u32, empty_frames: u32) -> Self
        ensures side { result.side ≡ record { client_side = client_side; max_streams = max_streams; empty_frames = empty_frames } }
        ensures stands { StandsFor [] result }
    {
        Session {
            alloc,
            client_side,
            max_streams,
            empty_frames,
            failed: None,
            started: false,
            block: None,
            greatest: 0,
            next: 1,
            empties: 0,
            streams: Streams::new(alloc),
        }
    }

    /// How the octets that came first on the connection compare with the 24 of the preface: all that
    /// came so far, or more of them. `Bad` at the first octet that differs.
    pub fn take_preface(&mut self, input: &[u8]) -> Prefaced
        ensures preface { Begins input.now result }
        ensures same { self.new ≡ self.old }
    {
        preface_of(input)
    }

    /// How many streams are open: towards a cluster those of this side, from a client those of the client.
    pub fn streams(&self) -> u32
        ensures { (past : List Happening) → StandsFor past self.now → result ≡ open_count self.now.side past }
    {
        self.streams.len() as u32
    }

    /// Whether a stream is open, half-closed too. It isn't where it is idle or closed: on such a stream
    /// nothing is answered.
    pub fn is_open(&self, stream: u32) -> bool
        ensures open { (past : List Happening) → StandsFor past self.now → result ≡ is_open self.now.side stream past }
        ensures kept { result ≡ is_some (stream_at stream self.now.streams) }
    {
        self.streams.get(stream).is_some()
    }

    /// The greatest stream that the peer opened, also one that was refused, and 0 where it opened
    /// none: the number of a GOAWAY. Towards a cluster it is 0.
    pub fn greatest(&self) -> u32
        ensures greatest { (past : List Happening) → StandsFor past self.now → result ≡ greatest_of_peer self.now.side past }
        ensures kept { result ≡ (if self.now.side.client_side then 0 else self.now.greatest) }
    {
        if self.client_side { 0 } else { self.greatest }
    }

    /// Opens the next stream of this side: 1, 3, 5 and so on, and none where 2^31 - 1 was given. On a connection from a client
    /// this side has no streams: the numbers are given, and nothing is opened. After running out of memory nothing has changed.
    pub fn open_stream(&mut self) -> Result<Option<u32>, NoMemory>
        ensures given { (past : List Happening) → StandsFor past self.old → IfOk result (λ given. given ≡ next_stream past) }
        ensures stands { (past : List Happening) → StandsFor past self.old → IfOk result (λ given.
            MatchOption given (self.new ≡ self.old) (λ s. StandsFor (Opened s ∷ past) self.new)) }
        ensures side { self.new.side ≡ self.old.side }
        ensures err { OnErr result (self.new ≡ self.old) }
    {
        if self.next > GREATEST_STREAM {
            return Ok(None);
        }
        let stream = self.next;
        if self.client_side {
            let state = Stream {
                peer_ended: false,
                ended: false,
                head: false,
            };
            self.streams.open(stream, state)?;
        }
        self.next = stream + 2;
        Ok(Some(stream))
    }

    /// This side has sent END_STREAM on an open stream: it is half-closed (local) then, or closed where the peer had ended it
    /// (RFC 9113 section 5.1). Where it isn't open nothing changes. The answer is what `is_open` answers from then on.
    pub fn end_local(&mut self, stream: u32) -> bool
        ensures stands { (past : List Happening) → StandsFor past self.old → StandsFor (noted self.old.side stream (Ended stream) past) self.new }
        ensures side { self.new.side ≡ self.old.side }
        ensures other { IsNone (stream_at stream self.old.streams) → self.new ≡ self.old }
        ensures open { result ≡ is_some (stream_at stream self.new.streams) }
    {
        self.streams.end(stream)
    }

    /// An open stream is closed, as by a RST_STREAM frame of this side (RFC 9113 section 5.1). Where it isn't open nothing
    /// changes.
    pub fn close_stream(&mut self, stream: u32)
        ensures stands { (past : List Happening) → StandsFor past self.old → StandsFor (noted self.old.side stream (Closed stream) past) self.new }
        ensures side { self.new.side ≡ self.old.side }
        ensures other { IsNone (stream_at stream self.old.streams) → self.new ≡ self.old }
    {
        self.streams.close(stream);
    }

    /// The last head on an open stream was an interim one, so the next block on it is a head again.
    pub fn interim(&mut self, stream: u32)
        ensures stands { (past : List Happening) → StandsFor past self.old → StandsFor (noted self.old.side stream (Interim stream) past) self.new }
        ensures side { self.new.side ≡ self.old.side }
        ensures other { IsNone (stream_at stream self.old.streams) → self.new ≡ self.old }
    {
        self.streams.interim(stream);
    }
}
