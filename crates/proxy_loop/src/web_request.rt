// What a client of HTTP/2 asks.

/// What a client sends before its first frame (RFC 9113 section 3.4).
pub const PREFACE: &[u8] = b"PRI * HTTP/2.0\r\n\r\nSM\r\n\r\n";

/// A request.
#[derive(Clone, Copy)]
pub struct Request {
    pub what: &'static str,
    pub stream: u32,
    /// Its field block: entries of the static table and literals (RFC 7541 section 6).
    pub block: &'static [u8],
    /// Its content is this, so many times over.
    pub content: &'static [u8],
    pub times: usize,
}

/// The request that is made behind the one on this stream, or the first one behind 0.
pub fn next_request(stream: u32) -> Option<Request> {
    match stream {
        0 => Some(Request {
            what: "GET /hello",
            stream: 1,
            block: b"\x82\x86\x04\x06/hello\x41\x04loop",
            content: b"",
            times: 0,
        }),
        1 => Some(Request {
            what: "POST /hello",
            stream: 3,
            block: b"\x83\x86\x04\x06/hello\x41\x04loop",
            content: b"what was posted now ",
            times: 5_000,
        }),
        3 => Some(Request {
            what: "GET /nowhere",
            stream: 5,
            block: b"\x82\x86\x04\x08/nowhere\x41\x04loop",
            content: b"",
            times: 0,
        }),
        _ => None,
    }
}

/// The status of an answer by its field block, if it is 200 or 404, and else 0 (RFC 7541 appendix A). Before it the block may have
/// the size of the table.
pub fn status_of(block: &[u8]) -> u16 {
    for octet in block {
        match *octet {
            0x88 => return 200,
            0x8d => return 404,
            _ => {}
        }
    }
    0
}
