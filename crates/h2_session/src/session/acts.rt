// The one act of each frame.
ghost use Rattle.std.specs.Prelude.{◌≡◌, ◌==◌, ◌<◌, ◌≤◌, ◌^◌, false, List, Some, if◌then◌else◌, None, IfOk, IfSome, OnOk, OnErr};
ghost use Rattle.h2_frames.specs.Frame.{padding_of, Reset, Settings};
ghost use Rattle.h2_frames.specs.Spelling.{IsWritable};
ghost use Rattle.h2_frames.specs.View.{view};
ghost use Rattle.h2_session.specs.Acts.{IsContentOf, act_of, is_bulk, reset_act, stream_of, update_act};
ghost use Rattle.h2_session.specs.Errors.{after, breaks_block, error_of, settings_of};
ghost use Rattle.h2_session.specs.Happened.{Happening};
ghost use Rattle.h2_session.specs.Table.{stream_at};
ghost use Rattle.h2_session.specs.declared.act.Act.TheVariants as act;
ghost use Rattle.h2_session.specs.Summary.{StandsFor, Takes};
ghost use Rattle.h2_session.specs.Values.{named_by, named_in, outside_by};

use super::Session;
use crate::act::{Act, SettingList};
use crate::named::{Named, Outside, read_named};
use crate::settings::read_settings;
use crate::streams::Stream;
use h2_frames::Frame;
use h2_frames::codes::PROTOCOL_ERROR;
use io_ports::{NoMemory, Octets};
use std::alloc::Global;

impl Session {
    /// What a frame means, after all that came before it. Once one was a connection error, each has
    /// the same error again. The streams of acts are numbers of 31 bits. After running out of memory the
    /// session is as it was, and the frame may be given again.
    pub fn accept(&mut self, frame: &Frame) -> Result<Act, NoMemory>
        requires writable { IsWritable (view frame.now) }
        requires padding { padding_of (view frame.now) ≤ 256 }
        ensures act { (past : List Happening) → StandsFor past self.old
            → IfOk result (λ act. act ≡ act_of self.old.side (view frame.now) past) }
        ensures stands { (past : List Happening) → StandsFor past self.old
            → OnOk result (StandsFor (after self.old.side (view frame.now) past) self.new) }
        ensures side { self.new.side ≡ self.old.side }
        ensures numbered { IfOk result (λ act. stream_of act < 2 ^ 31) }
        ensures err { OnErr result (self.new ≡ self.old) }
    {
        self.accept_with(frame, None)
    }

    /// As `accept`, where the octets of a DATA frame and the entries of SETTINGS may be handed in as octets that share a block, so
    /// that none is copied.
    pub fn accept_with(&mut self, frame: &Frame, content: Option<Octets>) -> Result<Act, NoMemory>
        requires writable { IsWritable (view frame.now) }
        requires padding { padding_of (view frame.now) ≤ 256 }
        requires content { IfSome content (IsContentOf (view frame.now)) }
        ensures act { (past : List Happening) → StandsFor past self.old
            → IfOk result (λ act. act ≡ act_of self.old.side (view frame.now) past) }
        ensures stands { (past : List Happening) → StandsFor past self.old
            → OnOk result (StandsFor (after self.old.side (view frame.now) past) self.new) }
        ensures side { self.new.side ≡ self.old.side }
        ensures numbered { IfOk result (λ act. stream_of act < 2 ^ 31) }
        ensures err { OnErr result (self.new ≡ self.old) }
    {
        let mut act = Act::Ignore;
        self.accept_into(frame, content, &mut act)?;
        Ok(act)
    }

    /// As `accept_with`, where what the frame means is put into `into`, so that it needn't be moved on from call to call. After running
    /// out of memory nothing is told of what is in `into`.
    #[inline(always)]
    pub fn accept_into(
        &mut self,
        frame: &Frame,
        content: Option<Octets>,
        into: &mut Act,
    ) -> Result<(), NoMemory>
        requires writable { IsWritable (view frame.now) }
        requires padding { padding_of (view frame.now) ≤ 256 }
        requires content { IfSome content (IsContentOf (view frame.now)) }
        ensures act { (past : List Happening) → StandsFor past self.old
            → OnOk result (into.new ≡ act_of self.old.side (view frame.now) past) }
        ensures stands { (past : List Happening) → StandsFor past self.old
            → OnOk result (StandsFor (after self.old.side (view frame.now) past) self.new) }
        ensures side { self.new.side ≡ self.old.side }
        ensures numbered { OnOk result (stream_of into.new < 2 ^ 31) }
        ensures err { OnErr result (self.new ≡ self.old) }
    {
        if let Frame::Settings { .. } = *frame {
            return self.accept_settings(frame, content, into);
        }
        self.accept_judged(frame, content, None, Outside::none(), into)
    }

    // As `accept_into`, where SETTINGS are read first. It isn't inlined, so that nothing is made ready for them where another frame comes.
    #[cold]
    #[inline(never)]
    fn accept_settings(
        &mut self,
        frame: &Frame,
        content: Option<Octets>,
        into: &mut Act,
    ) -> Result<(), NoMemory>
        requires writable { IsWritable (view frame.now) }
        requires padding { padding_of (view frame.now) ≤ 256 }
        requires content { IfSome content (IsContentOf (view frame.now)) }
        ensures act { (past : List Happening) → StandsFor past self.old
            → OnOk result (into.new ≡ act_of self.old.side (view frame.now) past) }
        ensures stands { (past : List Happening) → StandsFor past self.old
            → OnOk result (StandsFor (after self.old.side (view frame.now) past) self.new) }
        ensures side { self.new.side ≡ self.old.side }
        ensures numbered { OnOk result (stream_of into.new < 2 ^ 31) }
        ensures err { OnErr result (self.new ≡ self.old) }
    {
        let Frame::Settings { entries, .. } = *frame else {
            return self.accept_judged(frame, content, None, Outside::none(), into);
        };
        let (named, outside) = read_named(entries, if self.client_side { 0 } else { 1 });
        self.accept_judged(frame, content, Some(named), outside, into)
    }

    // As `accept_into`, where it is known what SETTINGS come to, and which of them are outside their ranges. It is inlined, so that
    // nothing is handed on where another frame comes.
    #[inline(always)]
    fn accept_judged(
        &mut self,
        frame: &Frame,
        content: Option<Octets>,
        named: Option<Named>,
        outside: Outside,
        into: &mut Act,
    ) -> Result<(), NoMemory>
        requires writable { IsWritable (view frame.now) }
        requires padding { padding_of (view frame.now) ≤ 256 }
        requires content { IfSome content (IsContentOf (view frame.now)) }
        requires named { named ≡ named_by (view frame.now) }
        requires outside { outside ≡ outside_by self.old.side.client_side (view frame.now) }
        ensures act { (past : List Happening) → StandsFor past self.old
            → OnOk result (into.new ≡ act_of self.old.side (view frame.now) past) }
        ensures stands { (past : List Happening) → StandsFor past self.old
            → OnOk result (StandsFor (after self.old.side (view frame.now) past) self.new) }
        ensures side { self.new.side ≡ self.old.side }
        ensures numbered { OnOk result (stream_of into.new < 2 ^ 31) }
        ensures err { OnErr result (self.new ≡ self.old) }
    {
        if let Some(code) = self.error(frame, outside) {
            self.fail(code, into);
            return Ok(());
        }
        self.take_with(frame, content, named, into)?;
        self.started = true;
        Ok(())
    }

    // What a frame that is no connection error means, with the octets of a DATA frame or the entries of SETTINGS where they are handed
    // in, and what these come to.
    #[inline(always)]
    fn take_with(
        &mut self,
        frame: &Frame,
        content: Option<Octets>,
        named: Option<Named>,
        into: &mut Act,
    ) -> Result<(), NoMemory>
        requires writable { IsWritable (view frame.now) }
        requires padding { padding_of (view frame.now) ≤ 256 }
        requires content { IfSome content (IsContentOf (view frame.now)) }
        requires named { named ≡ named_by (view frame.now) }
        ensures takes { (past : List Happening) → StandsFor past self.old → error_of self.old.side (view frame.now) past ≡ None
            → OnOk result (Takes (view frame.now) self.old self.new into.new past) }
        ensures side { self.new.side ≡ self.old.side }
        ensures numbered { breaks_block (view frame.now) self.old.block ≡ false → OnOk result (stream_of into.new < 2 ^ 31) }
        ensures err { OnErr result (self.new ≡ self.old) }
    {
        match *frame {
            Frame::DataFrame {
                stream,
                last,
                padded,
                octets,
            } => self.take_data(stream, last, padded, octets, content, into),
            Frame::Headers {
                stream,
                last,
                end_headers,
                block,
                ..
            } => self.take_headers(stream, last, end_headers, block, into),
            Frame::Continuation {
                stream,
                end_headers,
                block,
            } => self.take_continuation(stream, end_headers, block, into),
            Frame::Settings {
                ack: false,
                entries,
            } => self.take_settings(entries, content, named, into),
            _ => self.take_small(frame, into),
        }
    }

    // The connection fails with this code.
    #[cold]
    #[inline(never)]
    fn fail(&mut self, code: u32, into: &mut Act)
        ensures fails { self.new ≡ record self.old { failed = Some code } }
        ensures act { into.new ≡ act.ConnError code }
    {
        self.failed = Some(code);
        *into = Act::ConnError { code };
    }

    // As `take`, where what the frame means is put into a place.
    #[inline(always)]
    fn take_small(&mut self, frame: &Frame, into: &mut Act) -> Result<(), NoMemory>
        requires writable { IsWritable (view frame.now) }
        requires padding { padding_of (view frame.now) ≤ 256 }
        requires small { is_bulk (view frame.now) ≡ false }
        ensures takes { (past : List Happening) → StandsFor past self.old → error_of self.old.side (view frame.now) past ≡ None
            → OnOk result (Takes (view frame.now) self.old self.new into.new past) }
        ensures side { self.new.side ≡ self.old.side }
        ensures numbered { breaks_block (view frame.now) self.old.block ≡ false → OnOk result (stream_of into.new < 2 ^ 31) }
        ensures err { OnErr result (self.new ≡ self.old) }
    {
        *into = self.take(frame)?;
        Ok(())
    }

    // What a frame that is no connection error means, of a type that has neither content nor a header block.
    #[inline(always)]
    fn take(&mut self, frame: &Frame) -> Result<Act, NoMemory>
        requires writable { IsWritable (view frame.now) }
        requires padding { padding_of (view frame.now) ≤ 256 }
        requires small { is_bulk (view frame.now) ≡ false }
        ensures takes { (past : List Happening) → StandsFor past self.old → error_of self.old.side (view frame.now) past ≡ None
            → IfOk result (λ act. Takes (view frame.now) self.old self.new act past) }
        ensures side { self.new.side ≡ self.old.side }
        ensures numbered { breaks_block (view frame.now) self.old.block ≡ false → IfOk result (λ act. stream_of act < 2 ^ 31) }
        ensures err { OnErr result (self.new ≡ self.old) }
    {
        match *frame {
            Frame::Reset { stream, code } => Ok(self.take_reset(stream, code)),
            Frame::Settings { ack: true, .. } => Ok(Act::Ack),
            Frame::Settings {
                ack: false,
                entries,
            } => {
                let list = read_settings(self.alloc, entries)?;
                Ok(Act::Settings { list })
            }
            Frame::Ping { ack: true, .. } => Ok(Act::Ignore),
            Frame::Ping { ack: false, octets } => {
                let octets = Octets::from_slice(self.alloc, &octets)?;
                Ok(Act::Ping { octets })
            }
            Frame::GoAway { last, code, .. } => Ok(Act::GoAway { last, code }),
            Frame::WindowUpdate { stream, increment } => Ok(self.window_update(stream, increment)),
            Frame::Priority { .. } | Frame::Push { .. } | Frame::Unknown { .. } => Ok(Act::Ignore),
            Frame::DataFrame { .. } | Frame::Headers { .. } | Frame::Continuation { .. } => {
                unreachable!()
            }
        }
    }
}

// What RST_STREAM means on a stream that is open, in a state, or isn't.
fn reset_act(state: Option<Stream>, stream: u32, code: u32) -> Act
    ensures { result ≡ reset_act stream code state }
{
    if state.is_some() {
        Act::PeerReset { stream, code }
    } else {
        Act::Ignore
    }
}

// The settings of entries, in the octets that are handed in or else in a copy.
fn list_with(
    alloc: Global,
    entries: &[u8],
    content: Option<Octets>,
    named: Option<Named>,
) -> Result<SettingList, NoMemory>
    requires content { IfSome content (λ shared. shared ≡ entries.now) }
    requires named { IfSome named (λ n. n ≡ named_in (settings_of entries.now)) }
    ensures { IfOk result (λ list. list ≡ settings_of entries.now) }
{
    let octets = content_or_copy(alloc, entries, content)?;
    Ok(match named {
        Some(named) => SettingList::of(octets, named),
        None => SettingList::from_octets(octets),
    })
}

// The octets that are handed in, or else a copy.
#[inline(always)]
fn content_or_copy(
    alloc: Global,
    octets: &[u8],
    content: Option<Octets>,
) -> Result<Octets, NoMemory>
    requires { IfSome content (λ shared. shared ≡ octets.now) }
    ensures { IfOk result (λ made. made ≡ octets.now) }
{
    match content {
        Some(shared) => Ok(shared),
        None => Octets::from_slice(alloc, octets),
    }
}

impl Session {
    // SETTINGS with these entries.
    #[cold]
    #[inline(never)]
    fn take_settings(
        &self,
        entries: &[u8],
        content: Option<Octets>,
        named: Option<Named>,
        into: &mut Act,
    ) -> Result<(), NoMemory>
        requires content { IfSome content (λ shared. shared ≡ entries.now) }
        requires named { IfSome named (λ n. n ≡ named_in (settings_of entries.now)) }
        ensures takes { (past : List Happening) → StandsFor past self.now
            → error_of self.now.side (Settings false entries.now) past ≡ None
            → OnOk result (Takes (Settings false entries.now) self.now self.now into.new past) }
        ensures of { OnOk result (stream_of into.new ≡ 0) }
    {
        let list = list_with(self.alloc, entries, content, named)?;
        *into = Act::Settings { list };
        Ok(())
    }

    fn take_reset(&mut self, stream: u32, code: u32) -> Act
        ensures takes { (past : List Happening) → StandsFor past self.old
            → error_of self.old.side (Reset stream code) past ≡ None → Takes (Reset stream code) self.old self.new result past }
        ensures side { self.new.side ≡ self.old.side }
        ensures of { stream_of result ≤ stream }
    {
        let act = reset_act(self.streams.get(stream), stream, code);
        self.streams.close(stream);
        act
    }

    #[inline(always)]
    fn window_update(&self, stream: u32, n: u32) -> Act
        ensures { result ≡ (if stream == 0 then act.WindowUp 0 n else update_act stream n (stream_at stream self.now.streams)) }
    {
        if stream == 0 {
            return Act::WindowUp { stream, n };
        }
        if self.streams.get(stream).is_none() {
            return Act::Ignore;
        }
        if n == 0 {
            return Act::StreamError {
                stream,
                code: PROTOCOL_ERROR,
                block: Octets::new(self.alloc),
            };
        }
        Act::WindowUp { stream, n }
    }
}
