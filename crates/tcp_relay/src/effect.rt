// What an event did to the connections of a relay.

use flow_gate::FlowId;

/// What an event did.
#[derive(Clone, Copy)]
pub enum Effect {
    /// Nothing that a tape shows.
    Nothing,
    /// A client's connection was paired with one to a cluster.
    Paired { exchange: u64, conn: u32, to: u32 },
    /// No connection to a cluster was free for it.
    Refused { conn: u32 },
    /// Octets of the flow entered the write buffer of connection `to`, which rose or didn't.
    Carried { flow: FlowId, to: u32, rose: bool },
    /// Octets left the write buffer of a connection.
    Left(Left),
    /// A connection was lost, and its pair, if it was in one, is doomed.
    Lost { conn: u32, ended: Option<Ended> },
}

/// What the leaving of octets did.
#[derive(Clone, Copy, PartialEq, Eq)]
pub struct Left {
    pub conn: u32,
    /// How many left, at least 1.
    pub n: u32,
    /// The flow that goes on since the write buffer has drained.
    pub resumed: Option<FlowId>,
    /// Whether the connection is closed, since its pair was doomed and all has left.
    pub closed: bool,
}

/// A pair that is doomed.
#[derive(Clone, Copy, PartialEq, Eq)]
pub struct Ended {
    pub exchange: u64,
    /// The connection that wasn't lost, and whether it is closed, since nothing waits for it.
    pub other: u32,
    pub closed: bool,
}
