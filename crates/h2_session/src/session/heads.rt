// Header blocks: HEADERS and CONTINUATION frames (RFC 9113 sections 4.3, 6.2 and 6.10).
ghost use Rattle.std.specs.Prelude.{◌≡◌, ◌<◌, ◌≤◌, ◌++◌, ℕ, false, List, Option, None, Some, option_map, IfOk, OnOk, OnErr};
ghost use Rattle.h2_frames.specs.Frame.{Continuation, Headers};
ghost use Rattle.h2_frames.specs.declared.types.Weighting.{Weighting};
ghost use Rattle.h2_session.specs.Acts.{block_act, stream_of};
ghost use Rattle.h2_session.specs.Blocks.{block_stream, grown_in};
ghost use Rattle.h2_session.specs.Errors.{error_of};
ghost use Rattle.h2_session.specs.declared.act.Act.TheVariants as act;
ghost use Rattle.h2_session.specs.Happened.{Happening};
ghost use Rattle.h2_session.specs.Summary.{EndsBlock, FinishesBlock, StandsFor, Takes};

use super::Session;
use super::data::put_error;
use crate::act::Act;
use crate::block::HeaderBlock;
use crate::streams::Stream;
use h2_frames::codes::{PROTOCOL_ERROR, REFUSED_STREAM, STREAM_CLOSED};
use io_ports::{NoMemory, Octets};

// What a whole block means on a stream that is open, in a state, or isn't, is put into `into`.
#[inline(always)]
fn block_act(state: Option<Stream>, stream: u32, last: bool, block: Octets, into: &mut Act)
    ensures { into.new ≡ block_act (record { stream = stream; last = last; octets = block; frames = 1 }) state }
{
    if let Some(state) = state
        && !state.peer_ended
        && !state.head
    {
        put_head(stream, last, block, into);
    } else {
        later_act(state, stream, last, block, into);
    }
}

#[inline(always)]
fn put_head(stream: u32, last: bool, block: Octets, into: &mut Act)
    ensures { into.new ≡ act.Head stream block last }
{
    *into = Act::Head {
        stream,
        block,
        last,
    };
}

// As `block_act`, where the block is no first one mostly.
#[cold]
#[inline(never)]
fn later_act(state: Option<Stream>, stream: u32, last: bool, block: Octets, into: &mut Act)
    ensures { into.new ≡ block_act (record { stream = stream; last = last; octets = block; frames = 1 }) state }
{
    let Some(state) = state else {
        *into = Act::OldBlock { block };
        return;
    };
    if state.peer_ended {
        let code = STREAM_CLOSED;
        *into = Act::StreamError {
            stream,
            code,
            block,
        };
    } else if !state.head {
        *into = Act::Head {
            stream,
            block,
            last,
        };
    } else if last {
        *into = Act::Trailers { stream, block };
    } else {
        let code = PROTOCOL_ERROR;
        *into = Act::StreamError {
            stream,
            code,
            block,
        };
    }
}

impl Session {
    // A whole block on a client's new stream, which is opened if there is room.
    #[inline(always)]
    fn begin_stream(
        &mut self,
        stream: u32,
        last: bool,
        block: Octets,
        into: &mut Act,
    ) -> Result<(), NoMemory>
        requires client { self.old.side.client_side ≡ false }
        requires new { self.old.greatest < stream }
        ensures ends { OnOk result (EndsBlock (record { stream = stream; last = last; octets = block; frames = 1 }) self.old self.new into.new) }
        ensures err { OnErr result (self.new ≡ self.old) }
    {
        if self.streams.len() >= self.max_streams as usize {
            self.greatest = stream;
            put_error(stream, REFUSED_STREAM, block, into);
            return Ok(());
        }
        let state = Stream {
            peer_ended: last,
            ended: false,
            head: true,
        };
        self.streams.open(stream, state)?;
        self.greatest = stream;
        put_head(stream, last, block, into);
        Ok(())
    }

    // A whole block on any stream.
    #[inline(always)]
    fn end_block(
        &mut self,
        stream: u32,
        last: bool,
        block: Octets,
        into: &mut Act,
    ) -> Result<(), NoMemory>
        ensures ends { OnOk result (EndsBlock (record { stream = stream; last = last; octets = block; frames = 1 }) self.old self.new into.new) }
        ensures err { OnErr result (self.new ≡ self.old) }
    {
        if !self.client_side && stream > self.greatest {
            return self.begin_stream(stream, last, block, into);
        }
        let state = self.streams.get(stream);
        block_act(state, stream, last, block, into);
        self.streams.block_came(stream, state, last);
        self.greatest = self.greatest.max(stream);
        Ok(())
    }

    #[inline(always)]
    pub(super) fn take_headers(
        &mut self,
        stream: u32,
        last: bool,
        end_headers: bool,
        block: &[u8],
        into: &mut Act,
    ) -> Result<(), NoMemory>
        ensures takes { (padded : ℕ) (priority : Option Weighting) (past : List Happening) → StandsFor past self.old
            → error_of self.old.side (Headers stream last end_headers padded priority block.now) past ≡ None
            → OnOk result (Takes (Headers stream last end_headers padded priority block.now) self.old self.new into.new past) }
        ensures side { self.new.side ≡ self.old.side }
        ensures of { OnOk result (stream_of into.new ≤ stream) }
        ensures err { OnErr result (self.new ≡ self.old) }
    {
        let octets = Octets::from_slice(self.alloc, block)?;
        if !end_headers {
            self.begin_block(stream, last, octets, into);
            return Ok(());
        }
        self.end_block(stream, last, octets, into)?;
        self.empties = 0;
        Ok(())
    }

    // A block begins with these octets, and goes on.
    #[cold]
    #[inline(never)]
    fn begin_block(&mut self, stream: u32, last: bool, octets: Octets, into: &mut Act)
        ensures begins { self.new ≡ record self.old {
          block = Some (record { stream = stream; last = last; octets = octets; frames = 1 });
          empties = 0;
        } }
        ensures act { into.new ≡ act.Ignore }
    {
        self.block = Some(HeaderBlock {
            stream,
            last,
            octets,
            frames: 1,
        });
        self.empties = 0;
        *into = Act::Ignore;
    }

    #[cold]
    #[inline(never)]
    pub(super) fn take_continuation(
        &mut self,
        stream: u32,
        end_headers: bool,
        block: &[u8],
        into: &mut Act,
    ) -> Result<(), NoMemory>
        ensures takes { (past : List Happening) → StandsFor past self.old
            → error_of self.old.side (Continuation stream end_headers block.now) past ≡ None
            → OnOk result (Takes (Continuation stream end_headers block.now) self.old self.new into.new past) }
        ensures side { self.new.side ≡ self.old.side }
        ensures of { OnOk result (stream_of into.new ≤ block_stream self.old.block) }
        ensures err { OnErr result (self.new ≡ self.old) }
    {
        if end_headers {
            self.finish_block(block, into)
        } else {
            self.go_on(block)?;
            *into = Act::Ignore;
            Ok(())
        }
    }

    // The open block has one more frame.
    fn go_on(&mut self, block: &[u8]) -> Result<(), NoMemory>
        ensures ok { OnOk result (self.new ≡ record self.old { block = option_map (grown_in block.now) self.old.block }) }
        ensures err { OnErr result (self.new ≡ self.old) }
    {
        let Some(mut begun) = self.block.take() else {
            return Ok(());
        };
        let grown = begun.grow(block);
        self.block = Some(begun);
        grown
    }

    // The open block ends with these octets.
    fn finish_block(&mut self, block: &[u8], into: &mut Act) -> Result<(), NoMemory>
        ensures ends { OnOk result (FinishesBlock block.now self.old self.new into.new) }
        ensures of { OnOk result (stream_of into.new ≤ block_stream self.old.block) }
        ensures err { OnErr result (self.new ≡ self.old) }
    {
        let Some(begun) = self.block.take() else {
            *into = Act::Ignore;
            return Ok(());
        };
        match self.end_begun(&begun, block, into) {
            Ok(()) => Ok(()),
            Err(error) => {
                self.block = Some(begun);
                Err(error)
            }
        }
    }

    fn end_begun(
        &mut self,
        begun: &HeaderBlock,
        block: &[u8],
        into: &mut Act,
    ) -> Result<(), NoMemory>
        ensures ends { OnOk result (EndsBlock (record {
          stream = begun.now.stream;
          last = begun.now.last;
          octets = begun.now.octets ++ block.now;
          frames = 1;
        }) self.old self.new into.new) }
        ensures err { OnErr result (self.new ≡ self.old) }
    {
        let mut whole = Octets::from_slice(self.alloc, begun.octets.as_slice())?;
        whole.push_all(block)?;
        self.end_block(begun.stream, begun.last, whole, into)
    }
}
