// Elements of an SVG file. Running out of memory may leave some of one.
use io_ports::{NoMemory, Octets};
use tape_summary::{put_behind, put_number};

/// A rectangle of a class, without its end.
pub fn open_rect(
    into: &mut Octets,
    class: &[u8],
    x: u64,
    y: u64,
    w: u64,
    h: u64,
) -> Result<(), NoMemory> {
    into.push_all(b"<rect class=\"")?;
    into.push_all(class)?;
    put_behind(into, b"\" x=\"", x)?;
    put_behind(into, b"\" y=\"", y)?;
    put_behind(into, b"\" width=\"", w)?;
    put_behind(into, b"\" height=\"", h)?;
    into.push_all(b"\"")
}

/// A rectangle of a class.
pub fn put_rect(
    into: &mut Octets,
    class: &[u8],
    x: u64,
    y: u64,
    w: u64,
    h: u64,
) -> Result<(), NoMemory> {
    open_rect(into, class, x, y, w, h)?;
    into.push_all(b"/>\n")
}

/// A line from left to right.
pub fn put_level_line(
    into: &mut Octets,
    class: &[u8],
    x: u64,
    y: u64,
    to: u64,
) -> Result<(), NoMemory> {
    into.push_all(b"<path class=\"")?;
    into.push_all(class)?;
    put_behind(into, b"\" d=\"M", x)?;
    put_behind(into, b" ", y)?;
    put_behind(into, b"H", to)?;
    into.push_all(b"\"/>\n")
}

/// The front of a text of a class, up to its words.
pub fn open_text(into: &mut Octets, class: &[u8], x: u64, y: u64) -> Result<(), NoMemory> {
    into.push_all(b"<text class=\"")?;
    into.push_all(class)?;
    put_behind(into, b"\" x=\"", x)?;
    put_behind(into, b"\" y=\"", y)?;
    into.push_all(b"\">")
}

/// The end of a text.
pub fn end_text(into: &mut Octets) -> Result<(), NoMemory> {
    into.push_all(b"</text>\n")
}

/// A text of a class.
pub fn put_text(
    into: &mut Octets,
    class: &[u8],
    x: u64,
    y: u64,
    words: &[u8],
) -> Result<(), NoMemory> {
    open_text(into, class, x, y)?;
    into.push_all(words)?;
    end_text(into)
}

/// A text that is a number.
pub fn put_number_text(
    into: &mut Octets,
    class: &[u8],
    x: u64,
    y: u64,
    n: u64,
) -> Result<(), NoMemory> {
    open_text(into, class, x, y)?;
    put_number(into, n)?;
    end_text(into)
}
