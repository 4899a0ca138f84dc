// Words of a line.
use flow_gate::FlowId;
use memchr::memchr;

/// The first word of a line, and the line behind it; nothing where no space follows.
pub fn first_word(line: &[u8]) -> (&[u8], &[u8]) {
    match memchr(b' ', line) {
        Some(space) => (&line[..space], &line[space + 1..]),
        None => (line, b""),
    }
}

/// A number below 2^64, without sign and without leading zeros.
pub fn read_number(word: &[u8]) -> Option<u64> {
    let first = *word.first()?;
    if first == b'+' {
        return None;
    }
    if first == b'0' && word.len() > 1 {
        return None;
    }
    let text = std::str::from_utf8(word).ok()?;
    text.parse::<u64>().ok()
}

/// A number below 2^32.
pub fn read_u32(word: &[u8]) -> Option<u32> {
    u32::try_from(read_number(word)?).ok()
}

/// A flow: its exchange, and q for the request or r for the response.
pub fn read_flow(word: &[u8]) -> Option<FlowId> {
    let (last, number) = word.split_last()?;
    let exchange = read_number(number)?;
    match *last {
        b'q' => Some(FlowId {
            exchange,
            back: false,
        }),
        b'r' => Some(FlowId {
            exchange,
            back: true,
        }),
        _ => None,
    }
}
