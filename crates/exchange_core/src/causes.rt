// What the peers are told of a doom, by its cause.
ghost use Rattle.std.specs.Prelude.{◌≡◌};
ghost use Rattle.exchange_core.specs.Replies.{answer, is_target, reckoning, reply_down, reply_up, said};
ghost use Rattle.exchange_core.specs.Replies.Word.{ReplyOr};

use crate::exchange::Exchange;
use flow_rules::Cause;

/// The codes of RST_STREAM (RFC 9113 section 7).
const NO_ERROR: u32 = 0;

const INTERNAL_ERROR: u32 = 2;

const CANCEL: u32 = 8;

const ENHANCE_YOUR_CALM: u32 = 11;

/// What one peer is told of a doom.
#[derive(Clone, Copy, PartialEq, Eq)]
pub enum Reply {
    Nothing,
    /// A head of this status alone, with END_STREAM. Where `reset` holds, RST_STREAM with NO_ERROR follows.
    Answer { status: u16, reset: bool },
    /// RST_STREAM with this code.
    Reset { code: u32 },
}

/// What a doom leaves to do.
#[derive(Clone, Copy, PartialEq, Eq)]
pub struct Doomed {
    /// The octets that were dropped from the receive buffer of the request, and from that of the response.
    pub request_left: u32,
    pub response_left: u32,
    /// What the client is told, and what the cluster.
    pub down: Reply,
    pub up: Reply,
}

impl Exchange {
    /// What its doom leaves to do. Of a reset, a fault of a stream and a body that is too large, `back` says that the
    /// cluster or the response gave the cause.
    pub(crate) fn reckoning(&self, cause: Cause, back: bool) -> Doomed
        ensures { result ≡ reckoning cause back self.now }
    {
        let response_left = match &self.response {
            Some(response) => response.flow().left(),
            None => 0,
        };
        Doomed {
            request_left: self.request.flow().left(),
            response_left,
            down: self.reply_down(cause, back),
            up: self.reply_up(cause, back),
        }
    }

    /// What the client is told.
    fn reply_down(&self, cause: Cause, back: bool) -> Reply
        ensures { result ≡ reply_down cause back self.now }
    {
        match cause {
            Cause::Done => Reply::Nothing,
            Cause::PeerReset { code: _ } if back => self.reply_or(502, INTERNAL_ERROR),
            Cause::PeerReset { code: _ } => Reply::Nothing,
            Cause::StreamError { code: _ } if back => self.reply_or(502, INTERNAL_ERROR),
            Cause::StreamError { code } => Reply::Reset { code },
            Cause::TooLarge if back => self.answer(500),
            Cause::TooLarge => self.reply_or(413, INTERNAL_ERROR),
            Cause::Timeout { kind: _ } => self.reply_or(504, INTERNAL_ERROR),
            Cause::Overload => self.reply_or(503, ENHANCE_YOUR_CALM),
            Cause::Overflow => self.reply_or(500, INTERNAL_ERROR),
            Cause::ConnLost { conn } if self.is_target(conn) => self.reply_or(502, INTERNAL_ERROR),
            Cause::ConnLost { conn: _ } => Reply::Nothing,
            Cause::EarlyEnd if self.request_ended() => Reply::Nothing,
            Cause::EarlyEnd => Reply::Reset { code: NO_ERROR },
            Cause::Posted {
                poster: _,
                number: _,
            } => Reply::Reset { code: CANCEL },
            Cause::Refused { status } => self.answer(status),
        }
    }

    /// What the cluster is told.
    fn reply_up(&self, cause: Cause, back: bool) -> Reply
        ensures { result ≡ reply_up cause back self.now }
    {
        if self.to_conn.is_none() {
            return Reply::Nothing;
        }
        match cause {
            Cause::Done | Cause::Refused { status: _ } => Reply::Nothing,
            Cause::PeerReset { code: _ } if back => Reply::Nothing,
            Cause::StreamError { code } if back => Reply::Reset { code },
            Cause::ConnLost { conn } if self.is_target(conn) => Reply::Nothing,
            _ => Reply::Reset { code: CANCEL },
        }
    }

    /// Whether the request goes to this connection.
    fn is_target(&self, conn: u32) -> bool
        ensures { result ≡ is_target conn self.now.to_conn }
    {
        self.to_conn == Some(conn)
    }

    /// A reply of this status, or RST_STREAM with this code where a response head was framed.
    fn reply_or(&self, status: u16, code: u32) -> Reply
        ensures { result ≡ said (ReplyOr status code) self.now }
    {
        if self.head_framed() {
            Reply::Reset { code }
        } else {
            self.answer(status)
        }
    }

    /// A reply of this status, with RST_STREAM behind it where the request's end hasn't come.
    fn answer(&self, status: u16) -> Reply
        ensures { result ≡ answer status self.now }
    {
        Reply::Answer {
            status,
            reset: !self.request_ended(),
        }
    }
}
