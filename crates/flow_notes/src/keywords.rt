// The words that lines are told apart by.

pub const ACCEPT: &[u8] = b"accept";

pub const ANSWER: &[u8] = b"answer";

pub const CANCEL: &[u8] = b"cancel";

pub const CLOSE: &[u8] = b"close";

pub const CONN_LOST: &[u8] = b"conn-lost";

pub const CONNECTION_IDLE: &[u8] = b"connection-idle";

pub const CREDIT: &[u8] = b"credit";

pub const DONE: &[u8] = b"done";

pub const DOOM: &[u8] = b"doom";

pub const DRAIN: &[u8] = b"drain";

pub const DRAINED: &[u8] = b"drained";

pub const EARLY_END: &[u8] = b"early-end";

pub const END: &[u8] = b"end";

pub const FIRE: &[u8] = b"fire";

pub const FLOOD: &[u8] = b"flood";

pub const FRAME: &[u8] = b"frame";

pub const GONE: &[u8] = b"gone";

pub const HEAD: &[u8] = b"head";

pub const IDLE: &[u8] = b"idle";

pub const IN: &[u8] = b"in";

pub const JOIN: &[u8] = b"join";

pub const LOOK: &[u8] = b"look";

pub const LOST: &[u8] = b"lost";

pub const MORE: &[u8] = b"more";

pub const MOVE: &[u8] = b"move";

pub const OBEY: &[u8] = b"obey";

pub const OPEN: &[u8] = b"open";

pub const OUT: &[u8] = b"out";

pub const OVERFLOW: &[u8] = b"overflow";

pub const OVERLOAD: &[u8] = b"overload";

pub const PAIR: &[u8] = b"pair";

pub const PAUSE: &[u8] = b"pause";

pub const PEER_RESET: &[u8] = b"peer-reset";

pub const POST: &[u8] = b"post";

pub const POSTED: &[u8] = b"posted";

pub const PROTOCOL: &[u8] = b"protocol";

pub const READ: &[u8] = b"read";

pub const REFUSED: &[u8] = b"refused";

pub const RESET: &[u8] = b"reset";

pub const RESUME: &[u8] = b"resume";

pub const ROOM: &[u8] = b"room";

pub const ROUTE: &[u8] = b"route";

pub const SEND: &[u8] = b"send";

pub const STAGE: &[u8] = b"stage";

pub const START: &[u8] = b"start";

pub const STREAM_ERROR: &[u8] = b"stream-error";

pub const STREAM_IDLE: &[u8] = b"stream-idle";

pub const TICK: &[u8] = b"tick";

pub const TIMEOUT: &[u8] = b"timeout";

pub const TOO_LARGE: &[u8] = b"too-large";

pub const TURN: &[u8] = b"turn";

pub const WASTE: &[u8] = b"waste";

pub const WRITE: &[u8] = b"write";
