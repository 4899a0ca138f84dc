// Lines that end badly, and headers.
use crate::fault::Mistake;

const PLAIN: [&[u8]; 2] = [b"h2replay-session 1 plain", b"h2replay-session 2 plain"];

const WIRE: &[u8] = b"h2replay-session 1 wire";

/// What is wrong with every line of this kind, whatever may come.
pub fn line_mistake(line: &[u8]) -> Option<Mistake> {
    if line.is_empty() {
        Some(Mistake::Empty)
    } else if line.ends_with(b"\r") {
        Some(Mistake::CarriageReturn)
    } else {
        None
    }
}

/// What is wrong with the first line of a plain session.
pub fn plain_header_mistake(line: &[u8]) -> Mistake {
    if line == WIRE {
        Mistake::WireHeader
    } else {
        Mistake::NoPlainHeader
    }
}

/// What is wrong with the first line of a wire session.
pub fn wire_header_mistake(line: &[u8]) -> Mistake {
    if PLAIN.iter().any(|header| *header == line) {
        Mistake::PlainHeader
    } else {
        Mistake::NoWireHeader
    }
}
