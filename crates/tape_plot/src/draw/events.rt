// Marks, and what began each dispatch.
use super::frame::{AXIS, Frame, WORDS};
use super::put::{open_rect, put_text};
use crate::mark::Mark;
use io_ports::{NoMemory, Octets};
use tape_summary::put_behind;

/// A triangle, a square and a diamond, whose middle is the point that a path begins with.
#[derive(Clone, Copy, PartialEq, Eq)]
pub enum Shape {
    Triangle,
    Square,
    Diamond,
}

impl Shape {
    fn class(self) -> &'static [u8] {
        match self {
            Shape::Triangle => b"d",
            Shape::Square => b"c",
            Shape::Diamond => b"t",
        }
    }

    // What it stands for.
    fn words(self) -> &'static [u8] {
        match self {
            Shape::Triangle => b"doom of an exchange",
            Shape::Square => b"close of a connection",
            Shape::Diamond => b"timer",
        }
    }

    fn path(self) -> &'static [u8] {
        match self {
            Shape::Triangle => b"m-5-4h10l-5 9z",
            Shape::Square => b"m-4-4h8v8h-8z",
            Shape::Diamond => b"m0-5l5 5l-5 5l-5-5z",
        }
    }
}

// A mark of a shape at the beginning of its column, with what it says as its title.
fn put_mark(
    into: &mut Octets,
    frame: &Frame,
    y: u64,
    shape: Shape,
    mark: &Mark,
) -> Result<(), NoMemory> {
    into.push_all(b"<path class=\"")?;
    into.push_all(shape.class())?;
    put_behind(into, b"\" d=\"M", frame.x(frame.column(mark.turn)))?;
    put_behind(into, b" ", y)?;
    into.push_all(shape.path())?;
    into.push_all(b"\"><title>")?;
    put_behind(into, b"dispatch ", mark.turn)?;
    into.push_all(b": ")?;
    put_words(into, mark)?;
    into.push_all(b"</title></path>\n")
}

/// The doom of a flow's exchange beside its bar, where that is drawn.
pub fn put_doom(into: &mut Octets, frame: &Frame, y: u64, mark: &Mark) -> Result<(), NoMemory> {
    if mark.turn < frame.first {
        return Ok(());
    }
    put_mark(into, frame, y.saturating_add(4), Shape::Triangle, mark)
}

/// A row of marks of a shape, with what it stands for before them.
pub fn put_row(
    into: &mut Octets,
    frame: &Frame,
    y: u64,
    shape: Shape,
    marks: &[Mark],
) -> Result<(), NoMemory> {
    put_text(into, b"e", WORDS, y.saturating_add(10), shape.words())?;
    put_marks(into, frame, y.saturating_add(6), shape, marks)
}

// A mark for each column that has any.
fn put_marks(
    into: &mut Octets,
    frame: &Frame,
    y: u64,
    shape: Shape,
    marks: &[Mark],
) -> Result<(), NoMemory> {
    for mark in marks {
        put_mark(into, frame, y, shape, mark)?;
    }
    Ok(())
}

/// What began the dispatches of each column, as the title of the whole column.
pub fn put_turns(
    into: &mut Octets,
    frame: &Frame,
    marks: &[Mark],
    end: u64,
) -> Result<(), NoMemory> {
    for mark in marks {
        put_turn(into, frame, mark, end)?;
    }
    Ok(())
}

fn put_turn(into: &mut Octets, frame: &Frame, mark: &Mark, end: u64) -> Result<(), NoMemory> {
    let from = frame.x(mark.column);
    let to = frame.x(mark.column.saturating_add(1));
    let w = to.saturating_sub(from);
    open_rect(into, b"n", from, AXIS, w, end.saturating_sub(AXIS))?;
    into.push_all(b"><title>")?;
    put_words(into, mark)?;
    into.push_all(b"</title></rect>\n")
}

// The words of a mark, and how many more there are.
fn put_words(into: &mut Octets, mark: &Mark) -> Result<(), NoMemory> {
    into.push_all(mark.words())?;
    if mark.is_cut() {
        into.push_all(b"..")?;
    }
    if mark.more > 0 {
        put_behind(into, b" and ", mark.more)?;
        into.push_all(b" more")?;
    }
    Ok(())
}
