//! The types of frames (RFC 9113 section 6). A peer may send any other.

/// Octets of a body.
pub const DATA: u8 = 0;

/// The field block of a stream's head or trailers, or its first part.
pub const HEADERS: u8 = 1;

/// What a stream depends on, and its weight. It is deprecated.
pub const PRIORITY: u8 = 2;

/// A stream ends at once.
pub const RST_STREAM: u8 = 3;

/// Settings of the connection, or that they are acknowledged.
pub const SETTINGS: u8 = 4;

/// A stream that the peer is going to open.
pub const PUSH_PROMISE: u8 = 5;

/// Eight octets that are sent back.
pub const PING: u8 = 6;

/// The connection takes no more streams.
pub const GOAWAY: u8 = 7;

/// A window of a stream or of the connection grows.
pub const WINDOW_UPDATE: u8 = 8;

/// A further part of a field block.
pub const CONTINUATION: u8 = 9;
