// Content: DATA frames (RFC 9113 section 6.1).
ghost use Rattle.std.specs.Prelude.{◌≡◌, ◌==◌, ◌<◌, ◌≤◌, ◌+◌, ◌-◌, ◌^◌, ◌&&◌, not, min, List, if◌then◌else◌, length, None, IfSome, OnOk, OnErr};
ghost use Rattle.h2_frames.specs.Frame.{DataFrame};
ghost use Rattle.h2_session.specs.Acts.{data_act, stream_of};
ghost use Rattle.h2_session.specs.Errors.{error_of};
ghost use Rattle.h2_session.specs.Happened.{Happening};
ghost use Rattle.h2_session.specs.declared.act.Act.TheVariants as act;
ghost use Rattle.h2_session.specs.Summary.{StandsFor, Takes};

use super::Session;
use crate::act::Act;
use crate::streams::Stream;
use h2_frames::codes::STREAM_CLOSED;
use io_ports::{NoMemory, Octets};
use std::alloc::Global;

// The empty DATA frames in a row after one more DATA frame, of which so many are counted.
#[inline(always)]
fn run_after(run: u32, most: u32, octets: &[u8], padded: u32, last: bool) -> u32
    ensures { result ≡ (if (length octets.now == 0) && (padded == 0) && not last then min (run + 1) most else 0) }
{
    if octets.is_empty() && padded == 0 && !last {
        run.saturating_add(1).min(most)
    } else {
        0
    }
}

// What DATA means on a stream that is open, in a state, or isn't, is put into `into`.
#[inline(always)]
fn data_act(
    alloc: Global,
    state: Option<Stream>,
    stream: u32,
    last: bool,
    padded: u32,
    octets: &[u8],
    content: Option<Octets>,
    into: &mut Act,
) -> Result<(), NoMemory>
    requires len { length octets.now + padded < 2 ^ 32 }
    requires content { IfSome content (λ shared. shared ≡ octets.now) }
    ensures { OnOk result (into.new ≡ data_act stream last padded octets.now state) }
{
    let Some(state) = state else {
        let n = padded + octets.len() as u32;
        put_late(stream, n, into);
        return Ok(());
    };
    if state.peer_ended {
        put_error(stream, STREAM_CLOSED, Octets::new(alloc), into);
        return Ok(());
    }
    match content {
        Some(shared) => {
            put_body(stream, last, padded, shared, into);
            Ok(())
        }
        None => copy_body(alloc, stream, last, padded, octets, into),
    }
}

// Content of a closed stream.
#[cold]
#[inline(never)]
fn put_late(stream: u32, n: u32, into: &mut Act)
    ensures { into.new ≡ act.Late stream n }
{
    *into = Act::Late { stream, n };
}

// A stream error, with the field block that the decoder still needs.
#[cold]
#[inline(never)]
pub(super) fn put_error(stream: u32, code: u32, block: Octets, into: &mut Act)
    ensures { into.new ≡ act.StreamError stream code block }
{
    *into = Act::StreamError {
        stream,
        code,
        block,
    };
}

// Content of an open stream.
#[inline(always)]
fn put_body(stream: u32, last: bool, padded: u32, octets: Octets, into: &mut Act)
    ensures { into.new ≡ act.Body stream octets padded last }
{
    *into = Act::Body {
        stream,
        octets,
        padded,
        last,
    };
}

// The same where the octets are copied.
#[inline(never)]
fn copy_body(
    alloc: Global,
    stream: u32,
    last: bool,
    padded: u32,
    octets: &[u8],
    into: &mut Act,
) -> Result<(), NoMemory>
    ensures { OnOk result (into.new ≡ act.Body stream octets.now padded last) }
{
    let octets = Octets::from_slice(alloc, octets)?;
    put_body(stream, last, padded, octets, into);
    Ok(())
}

impl Session {
    #[inline(always)]
    pub(super) fn take_data(
        &mut self,
        stream: u32,
        last: bool,
        padded: u32,
        octets: &[u8],
        content: Option<Octets>,
        into: &mut Act,
    ) -> Result<(), NoMemory>
        requires len { length octets.now + padded < 2 ^ 32 }
        requires content { IfSome content (λ shared. shared ≡ octets.now) }
        ensures takes { (past : List Happening) → StandsFor past self.old
            → error_of self.old.side (DataFrame stream last padded octets.now) past ≡ None
            → OnOk result (Takes (DataFrame stream last padded octets.now) self.old self.new into.new past) }
        ensures side { self.new.side ≡ self.old.side }
        ensures of { OnOk result (stream_of into.new ≤ stream) }
        ensures err { OnErr result (self.new ≡ self.old) }
    {
        let state = self.streams.get(stream);
        data_act(
            self.alloc, state, stream, last, padded, octets, content, into,
        )?;
        self.streams.data_came(stream, state, last);
        self.empties = run_after(self.empties, self.empty_frames, octets, padded, last);
        Ok(())
    }
}
