// The streams that are open, and how each moves (RFC 9113 section 5.1).
//
//                   a client's head, or open_stream
//          idle ------------------------------------> open
//            |                                        |  |
//            | a greater number          END_STREAM   |  |   this side
//            | is opened                 came         |  |   ended it
//            v                                        v  v
//          closed               half-closed (remote)    half-closed (local)
//            ^                           |                      |
//            |    this side ended it     |    END_STREAM came   |
//            +---------------------------+----------------------+
//            |
//            +---- RST_STREAM came, or close_stream: from each of the three
//
// Only the three states on the right have an entry. A closed stream is known by not being idle and
// having none.
ghost use Rattle.std.specs.Prelude.{◌≡◌, Some, None, [], is_some, length, IsSome, IsNone, OnOk, OnErr};
ghost use Rattle.h2_session.specs.Table.{Puts, after_block, after_data, after_end, after_interim, stream_at, unless_ended};

use io_ports::NoMemory;
use number_set::NumberMap;
use std::alloc::Global;
use std::marker::Model;

/// What is known of an open stream.
#[derive(Clone, Copy)]
pub struct Stream {
    /// The peer sent END_STREAM.
    pub peer_ended: bool,
    /// This side ended it.
    pub ended: bool,
    /// The peer's last header block was a whole head.
    pub head: bool,
}

/// The open streams by number.
#[derive(Drop)]
pub struct Streams {
    open: NumberMap<Stream>,
}

impl Model for Streams {
    ghost use Rattle.std.specs.Prelude.{List, ℕ};
    ghost use Rattle.h2_session.specs.declared.streams.Stream.{Stream};

    ghost Value = { List (ℕ × Stream) };

    ghost view = { λ a. a.open };
}

impl Streams {
    pub fn new(alloc: Global) -> Self
        ensures { result ≡ [] }
    {
        Streams {
            open: NumberMap::new(alloc),
        }
    }

    pub fn len(&self) -> usize
        ensures { result ≡ length self.now }
    {
        self.open.len()
    }

    /// What is known of a stream, if it is open.
    #[inline(always)]
    pub fn get(&self, stream: u32) -> Option<Stream>
        ensures { result ≡ stream_at stream self.now }
    {
        self.open.get(u64::from(stream))
    }

    /// Opens a stream. After running out of memory nothing is changed.
    #[inline(always)]
    pub fn open(&mut self, stream: u32, state: Stream) -> Result<(), NoMemory>
        ensures ok { OnOk result (Puts stream (Some state) self.old self.new) }
        ensures err { OnErr result (self.new ≡ self.old) }
    {
        self.open.insert(u64::from(stream), state)
    }

    // Moves an open stream. It is closed once both sides have ended it. The answer is whether it is still open.
    #[inline(always)]
    fn set(&mut self, stream: u32, state: Stream) -> bool
        requires { IsSome (stream_at stream self.old) }
        ensures moves { Puts stream (unless_ended state) self.old self.new }
        ensures open { result ≡ is_some (unless_ended state) }
    {
        let is_open = !(state.peer_ended && state.ended);
        if is_open {
            self.open.set(u64::from(stream), state);
        } else {
            self.open.remove(u64::from(stream));
        }
        is_open
    }

    /// DATA came on a stream, of which `get` gives this state. `last` is its END_STREAM, which closes the peer's half.
    #[inline(always)]
    pub fn data_came(&mut self, stream: u32, state: Option<Stream>, last: bool)
        requires { state ≡ stream_at stream self.old }
        ensures moves { Puts stream (after_data last (stream_at stream self.old)) self.old self.new }
        ensures other { IsNone (stream_at stream self.old) → self.new ≡ self.old }
    {
        if let Some(state) = state {
            let peer_ended = state.peer_ended || last;
            self.set(
                stream,
                Stream {
                    peer_ended,
                    ..state
                },
            );
        }
    }

    /// A header block came on a stream, of which `get` gives this state. It is its last one perhaps.
    #[inline(always)]
    pub fn block_came(&mut self, stream: u32, state: Option<Stream>, last: bool)
        requires { state ≡ stream_at stream self.old }
        ensures moves { Puts stream (after_block last (stream_at stream self.old)) self.old self.new }
        ensures other { IsNone (stream_at stream self.old) → self.new ≡ self.old }
    {
        if let Some(state) = state {
            let state = Stream {
                peer_ended: state.peer_ended || last,
                ended: state.ended,
                head: true,
            };
            self.set(stream, state);
        }
    }

    /// This side ended a stream. The answer is whether it is still open.
    #[inline(always)]
    pub fn end(&mut self, stream: u32) -> bool
        ensures moves { Puts stream (after_end (stream_at stream self.old)) self.old self.new }
        ensures other { IsNone (stream_at stream self.old) → self.new ≡ self.old }
        ensures open { result ≡ is_some (after_end (stream_at stream self.old)) }
    {
        let Some(state) = self.get(stream) else {
            return false;
        };
        let ended = true;
        self.set(stream, Stream { ended, ..state })
    }

    /// The last head on a stream was an interim one.
    pub fn interim(&mut self, stream: u32)
        ensures moves { Puts stream (after_interim (stream_at stream self.old)) self.old self.new }
        ensures other { IsNone (stream_at stream self.old) → self.new ≡ self.old }
    {
        if let Some(state) = self.get(stream) {
            let head = false;
            self.set(stream, Stream { head, ..state });
        }
    }

    /// A stream was reset or closed.
    pub fn close(&mut self, stream: u32)
        ensures moves { Puts stream None self.old self.new }
        ensures other { IsNone (stream_at stream self.old) → self.new ≡ self.old }
    {
        self.open.remove(u64::from(stream));
    }
}
