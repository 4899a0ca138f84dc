// One connection's octets in.
ghost use Rattle.std.specs.Prelude.{◌≡◌, ◌==◌, ◌++◌, ◌∷◌, ◌⊎◌, [], List, false, true, is_some, if◌then◌else◌, length, IfErr, IfOk, IsErr, IsNone, MatchOption, OnErr, OnOk};
ghost use Rattle.h2_session.specs.Happened.{Happening, Opened, Ended, Closed, Interim, next_stream};
ghost use Rattle.h2_session.specs.Streams.{greatest_of_peer, is_open};
ghost use Rattle.h2_session.specs.Summary.{StandsFor, noted};
ghost use Rattle.h2_session.specs.Table.{stream_at};
ghost use Rattle.hpack_codec.specs.Decoding.{decoder_with};
ghost use Rattle.hpack_codec.specs.Table.{empty_table};
ghost use Rattle.wire_inlet.specs.Incoming.{HasSessionOf, is_cluster, preface_left};
ghost use Rattle.wire_inlet.specs.Next.{IsInside, IsShort, LacksPreface, NextOf, intake_of};

use crate::intake::{Front, Intake, Peer, Taken};
use crate::payload::take_payload;
use crate::reader::Reader;
use crate::unread::Unread;
use h2_frames::codes::PROTOCOL_ERROR;
use h2_frames::{ReadHead, read_head};
use h2_session::Prefaced;
use io_ports::{NoMemory, Octets};
use std::alloc::Global;
use std::marker::Model;

/// The octets of the preface (RFC 9113 section 3.4).
const PREFACE_LEN: usize = 24;

/// The octets of a frame's head (RFC 9113 section 4.1).
const HEAD_LEN: usize = 9;

// The frames behind the preface, where it was read or stands whole at the front, or what is answered else.
fn behind_preface<'a>(
    reader: &mut Reader,
    prefaced: bool,
    unread: &'a [u8],
) -> Result<&'a [u8], Front>
    ensures frames { IfOk result (λ frames. unread.now ≡ preface_left prefaced ++ frames.now) }
    ensures answer { IfErr result (λ answer. (prefaced ≡ false) × ((taken : Taken) → LacksPreface unread.now (intake_of answer taken))) }
    ensures same { reader.new ≡ reader.old }
{
    if prefaced {
        return Ok(unread);
    }
    match reader.take_preface(unread) {
        Prefaced::Need => Err(Front::Need),
        Prefaced::Bad => Err(Front::Fault(PROTOCOL_ERROR)),
        Prefaced::Done => {
            let (_, frames) = unread.split_at(PREFACE_LEN);
            Ok(frames)
        }
    }
}

/// The octets that come in on one connection, and what its frames meant so far.
#[derive(Drop)]
pub struct Inlet {
    unread: Unread,
    prefaced: bool,
    reader: Reader,
}

impl Model for Inlet {
    ghost use Rattle.wire_inlet.specs.Incoming.{Incoming};

    ghost Value = { Incoming };

    ghost view = { λ i. record {
      unread = i.unread;
      prefaced = i.prefaced;
      session = i.reader.session;
      table = i.reader.table;
      lost = i.reader.lost;
    } };
}

impl Inlet {
    /// A connection on which nothing came yet, from this peer. Of the streams that a client opens,
    /// `max_streams` may be open, and of empty DATA frames `empty_frames` may come in a row; a list
    /// of fields may have `field_list` octets. Takes no memory.
    pub fn new(
        alloc: Global,
        peer: Peer,
        max_streams: u32,
        empty_frames: u32,
        field_list: u32,
    ) -> Self
        ensures unread { result.unread ≡ [] }
        ensures prefaced { result.prefaced ≡ is_cluster peer }
        ensures side { result.session.side ≡ record { client_side = is_cluster peer; max_streams = max_streams; empty_frames = empty_frames } }
        ensures stands { StandsFor [] result.session }
        ensures table { result.table ≡ decoder_with 4096 field_list (empty_table 4096) }
        ensures kept { result.lost ≡ false }
    {
        let to_cluster = peer == Peer::Cluster;
        Inlet {
            unread: Unread::new(alloc),
            prefaced: to_cluster,
            reader: Reader::new(alloc, to_cluster, max_streams, empty_frames, field_list),
        }
    }

    /// Octets came. Where they share a block and all that came before is read, they stay there. After
    /// running out of memory nothing changed.
    pub fn push(&mut self, octets: &Octets) -> Result<(), NoMemory>
        ensures ok { OnOk result (self.new ≡ record self.old { unread = self.old.unread ++ octets.now }) }
        ensures err { OnErr result (self.new ≡ self.old) }
    {
        self.unread.push_all(octets)
    }

    /// What stands at the front of the octets that aren't read, where frames have at most `max`
    /// octets of payload; a client's frames stand behind its preface. A frame is taken with what it
    /// means, and with its header block decoded, also where its stream is refused or closed.
    /// Nothing changes at `Need` and at a fault.
    ///
    /// After running out of memory nothing changed, or the inlet is lost: then each call answers it, and
    /// the connection can only be dropped.
    pub fn next(&mut self, max: u32) -> Result<Intake, NoMemory>
        ensures next { IfOk result (λ intake. NextOf max self.old intake self.new) }
        ensures short { IfOk result (λ intake. IsShort max self.new intake) }
        ensures inside { IfOk result (λ intake. IsInside max self.old intake self.new) }
        ensures lost { self.old.lost ≡ true → IsErr result × (self.new ≡ self.old) }
        ensures err { OnErr result ((self.new ≡ self.old) ⊎ (self.new.lost ≡ true)) }
    {
        let mut taken = Taken::none();
        let Ok(front) = self.next_into(max, &mut taken) else {
            return Err(NoMemory);
        };
        match front {
            Front::Need => Ok(Intake::Need),
            Front::Fault(code) => Ok(Intake::Fault(code)),
            Front::Taken => Ok(Intake::Taken(taken)),
        }
    }

    /// As `next`, where a frame that is taken is put into `into`, so that it needn't be moved on from call to call. At `Need`, at a
    /// fault and after running out of memory nothing is told of what is in `into`.
    #[inline(always)]
    pub fn next_into(&mut self, max: u32, into: &mut Taken) -> Result<Front, NoMemory>
        ensures next { IfOk result (λ front. NextOf max self.old (intake_of front into.new) self.new) }
        ensures short { IfOk result (λ front. IsShort max self.new (intake_of front into.new)) }
        ensures inside { IfOk result (λ front. IsInside max self.old (intake_of front into.new) self.new) }
        ensures lost { self.old.lost ≡ true → IsErr result × (self.new ≡ self.old) }
        ensures err { OnErr result ((self.new ≡ self.old) ⊎ (self.new.lost ≡ true)) }
    {
        if self.reader.is_lost() {
            return Err(NoMemory);
        }
        let unread = self.unread.as_slice();
        let frames = match behind_preface(&mut self.reader, self.prefaced, unread) {
            Ok(frames) => frames,
            Err(answer) => return Ok(answer),
        };
        match read_head(frames, max) {
            ReadHead::Need => Ok(Front::Need),
            ReadHead::Bad(fault) => Ok(Front::Fault(fault.code())),
            ReadHead::Whole(head, payload) => {
                let read = unread.len() - frames.len() + HEAD_LEN + payload.len();
                match take_payload(&self.unread, &mut self.reader, read, head, payload, into) {
                    Err(error) => Err(error),
                    Ok(Some(fault)) => Ok(Front::Fault(fault.code())),
                    Ok(None) => {
                        self.unread.take(read);
                        self.prefaced = true;
                        Ok(Front::Taken)
                    }
                }
            }
        }
    }

    /// Whether all octets that came are read.
    pub fn is_read(&self) -> bool
        ensures { result ≡ (length self.now.unread == 0) }
    {
        self.unread.is_empty()
    }

    /// Whether a stream is open, half-closed too. It isn't where it is idle or closed: on such a
    /// stream nothing is answered.
    pub fn is_open(&self, stream: u32) -> bool
        ensures open { (past : List Happening) → StandsFor past self.now.session → result ≡ is_open self.now.session.side stream past }
        ensures kept { result ≡ is_some (stream_at stream self.now.session.streams) }
    {
        self.reader.session.is_open(stream)
    }

    /// The greatest stream that the peer opened, also one that was refused, and 0 where it opened
    /// none: the number of a GOAWAY. Towards a cluster it is 0.
    pub fn greatest(&self) -> u32
        ensures greatest { (past : List Happening) → StandsFor past self.now.session → result ≡ greatest_of_peer self.now.session.side past }
        ensures kept { result ≡ (if self.now.session.side.client_side then 0 else self.now.session.greatest) }
    {
        self.reader.session.greatest()
    }

    /// Opens the next stream of this side: 1, 3, 5 and so on, and none where 2^31 - 1 was given. On
    /// a connection from a client the numbers are given, and nothing is opened. After running out of memory
    /// nothing changed.
    pub fn open_stream(&mut self) -> Result<Option<u32>, NoMemory>
        ensures given { (past : List Happening) → StandsFor past self.old.session → IfOk result (λ given. given ≡ next_stream past) }
        ensures stands { (past : List Happening) → StandsFor past self.old.session → IfOk result (λ given.
            MatchOption given (self.new ≡ self.old) (λ s. StandsFor (Opened s ∷ past) self.new.session)) }
        ensures side { self.new.session.side ≡ self.old.session.side }
        ensures same { HasSessionOf self.old self.new }
        ensures err { OnErr result (self.new ≡ self.old) }
    {
        self.reader.session.open_stream()
    }

    /// This side has ended an open stream. The answer is what `is_open` answers from then on.
    #[inline(always)]
    pub fn end_local(&mut self, stream: u32) -> bool
        ensures stands { (past : List Happening) → StandsFor past self.old.session
            → StandsFor (noted self.old.session.side stream (Ended stream) past) self.new.session }
        ensures side { self.new.session.side ≡ self.old.session.side }
        ensures same { HasSessionOf self.old self.new }
        ensures other { IsNone (stream_at stream self.old.session.streams) → self.new ≡ self.old }
        ensures open { result ≡ is_some (stream_at stream self.new.session.streams) }
    {
        self.reader.session.end_local(stream)
    }

    /// An open stream is closed.
    pub fn close_stream(&mut self, stream: u32)
        ensures stands { (past : List Happening) → StandsFor past self.old.session
            → StandsFor (noted self.old.session.side stream (Closed stream) past) self.new.session }
        ensures side { self.new.session.side ≡ self.old.session.side }
        ensures same { HasSessionOf self.old self.new }
        ensures other { IsNone (stream_at stream self.old.session.streams) → self.new ≡ self.old }
    {
        self.reader.session.close_stream(stream);
    }

    /// The last head on an open stream was an interim one, so the next block on it is a head again.
    pub fn interim(&mut self, stream: u32)
        ensures stands { (past : List Happening) → StandsFor past self.old.session
            → StandsFor (noted self.old.session.side stream (Interim stream) past) self.new.session }
        ensures side { self.new.session.side ≡ self.old.session.side }
        ensures same { HasSessionOf self.old self.new }
        ensures other { IsNone (stream_at stream self.old.session.streams) → self.new ≡ self.old }
    {
        self.reader.session.interim(stream);
    }
}
