//! The error codes of RST_STREAM and GOAWAY (RFC 9113 section 7). A peer may send any other.

/// No error: a graceful shutdown, or a stream that isn't wanted any more.
pub const NO_ERROR: u32 = 0;

/// The peer broke a rule that has no code of its own.
pub const PROTOCOL_ERROR: u32 = 1;

/// Something unexpected happened on the sender's side.
pub const INTERNAL_ERROR: u32 = 2;

/// The peer sent more than a window left, or made one too large.
pub const FLOW_CONTROL_ERROR: u32 = 3;

/// The peer didn't acknowledge settings in time.
pub const SETTINGS_TIMEOUT: u32 = 4;

/// A frame came on a stream that was half-closed.
pub const STREAM_CLOSED: u32 = 5;

/// A frame had a size that it may not have.
pub const FRAME_SIZE_ERROR: u32 = 6;

/// The stream was refused before anything was done for it.
pub const REFUSED_STREAM: u32 = 7;

/// The stream isn't needed any more.
pub const CANCEL: u32 = 8;

/// The decoder of field blocks can't go on.
pub const COMPRESSION_ERROR: u32 = 9;

/// The connection of a CONNECT request was reset or closed.
pub const CONNECT_ERROR: u32 = 10;

/// The peer does what may be a flood.
pub const ENHANCE_YOUR_CALM: u32 = 11;

/// The transport isn't secure enough.
pub const INADEQUATE_SECURITY: u32 = 12;

/// The request has to be made over HTTP/1.1.
pub const HTTP_1_1_REQUIRED: u32 = 13;
