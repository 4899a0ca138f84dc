// What the octets of a connection give.
ghost use Rattle.std.specs.Prelude.{◌≡◌, false};

use h2_session::Act;
use hpack_codec::FieldList;

/// Who is at the other end.
#[derive(Clone, Copy, PartialEq, Eq)]
pub enum Peer {
    /// A client: its octets begin with the preface (RFC 9113 section 3.4), and it opens the streams.
    Client,
    /// A server of a cluster: its octets begin with a frame, and this side opens the streams.
    Cluster,
}

/// What stands at the front of the octets that aren't read.
#[derive(Drop)]
pub enum Intake {
    /// No whole frame, and no fault yet.
    Need,
    /// No frame: the code of the connection error that it is (RFC 9113 section 7).
    Fault(u32),
    /// A frame, which was taken.
    Taken(Taken),
}

/// The same, where a frame that was taken is put elsewhere.
#[derive(Clone, Copy)]
pub enum Front {
    /// No whole frame, and no fault yet.
    Need,
    /// No frame: the code of the connection error that it is (RFC 9113 section 7).
    Fault(u32),
    /// A frame, which was taken.
    Taken,
}

/// A frame that was taken.
#[derive(Drop)]
pub struct Taken {
    /// What it means.
    pub act: Act,
    /// Its octets that count against the windows of the stream and of the connection, padding counted.
    pub content: u32,
    /// What the header block of the act gives.
    pub reading: Reading,
    /// Whether it is a WINDOW_UPDATE. It concerns what goes to the peer on its stream, where each
    /// other frame concerns what comes from there, also where its act is a stream error.
    pub is_update: bool,
}

impl Taken {
    /// What stands where a frame is to be put: one that means nothing. Takes no memory.
    pub fn none() -> Self
        ensures { result ≡ record { act = Act.Ignore; content = 0; reading = Reading.Nothing; is_update = false } }
    {
        Taken {
            act: Act::Ignore,
            content: 0,
            reading: Reading::Nothing,
            is_update: false,
        }
    }
}

/// What the header block of an act gives.
#[derive(Drop)]
pub enum Reading {
    /// The act has no header block.
    Nothing,
    /// Its fields, in their order.
    Fields(FieldList),
    /// Its list is longer than the greatest list size.
    TooLong,
    /// It can't be decoded: a connection error COMPRESSION_ERROR, and no later block can be.
    Refused,
}
