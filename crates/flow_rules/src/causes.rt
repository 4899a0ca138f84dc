// Why an exchange is over.

/// The kind of a timer: of an exchange's response, of an exchange without progress, or of a client
/// connection without exchanges.
#[derive(Clone, Copy, Debug, PartialEq, Eq)]
pub enum FireKind {
    Route,
    StreamIdle,
    ConnectionIdle,
}

/// Why an exchange was doomed.
#[derive(Clone, Copy, Debug, PartialEq, Eq)]
pub enum Cause {
    /// Both ends are framed.
    Done,
    /// A peer reset the stream, with this code.
    PeerReset { code: u32 },
    /// A peer broke a rule of one stream.
    StreamError { code: u32 },
    /// A body would pass the limit of a stage that holds it.
    TooLarge,
    /// A timer of the exchange fired.
    Timeout { kind: FireKind },
    /// The overload manager gave the exchange up.
    Overload,
    /// A buffer of the exchange passed its multiple of the limit.
    Overflow,
    /// A connection of the exchange is lost, closed or going away.
    ConnLost { conn: u32 },
    /// The response ended before the request.
    EarlyEnd,
    /// A post asked for it.
    Posted { poster: u32, number: u64 },
    /// The request head was answered with this status.
    Refused { status: u16 },
}
