// What stands above the lanes: the file's head, a title and a legend.
use super::frame::{AXIS, END, Frame, LEFT, WIDTH};
use super::pick::Pick;
use super::put::{end_text, open_text, put_text};
use crate::report::Line;
use crate::tape::Part;
use io_ports::{NoMemory, Octets};
use tape_summary::put_behind;

const STYLE: &[u8] = b"<style>
text{font:11px 'DejaVu Sans',Verdana,sans-serif;fill:#222}
.T{font-size:16px;font-weight:bold}
.b{font-weight:bold;text-anchor:end}
.e{font-size:10px;text-anchor:end}
.s,.k{font-size:9px}
.k{text-anchor:middle}
.f{fill:none;stroke:#ccc;pointer-events:none}
.l{fill:#004488;fill-opacity:.15;stroke:#004488;stroke-width:1.2;pointer-events:none}
.o{fill:#ddaa33;pointer-events:none}
.m,.h{fill:none;stroke:#222;stroke-width:.7;pointer-events:none}
.m{stroke-dasharray:7 3}
.h{stroke-dasharray:2 3}
.p1{fill:#bbb}
.p2{fill:#777}
.p3{fill:#222}
.d{fill:#bb5566;stroke:#fff;stroke-width:.6}
.c{fill:#222;stroke:#fff;stroke-width:.6}
.t{fill:#ddaa33;stroke:#222;stroke-width:.6}
.g{fill:none;stroke:#e6e6e6}
.x{fill:none;stroke:#222}
.n{fill:#fff;fill-opacity:0}
</style>
";

// The legend, whose middle is at 66 points.
const LEGEND: &[u8] = b"<path class=\"l\" d=\"M190 72V66H198V60 64H206V72\"/>
<text x=\"212\" y=\"70\">octets in a buffer</text>
<path class=\"m\" d=\"M330 66H356\"/>
<text x=\"362\" y=\"70\">limit</text>
<path class=\"h\" d=\"M400 66H426\"/>
<text x=\"432\" y=\"70\">half of it</text>
<rect class=\"o\" x=\"496\" y=\"61\" width=\"20\" height=\"10\"/>
<text x=\"522\" y=\"70\">above the limit</text>
<rect class=\"p1\" x=\"622\" y=\"62\" width=\"14\" height=\"9\"/>
<rect class=\"p2\" x=\"636\" y=\"62\" width=\"14\" height=\"9\"/>
<rect class=\"p3\" x=\"650\" y=\"62\" width=\"14\" height=\"9\"/>
<text x=\"670\" y=\"70\">read-disable count 1, 2, 3 or more</text>
<path class=\"d\" d=\"M880 66m-5-4h10l-5 9z\"/>
<text x=\"890\" y=\"70\">doom</text>
<path class=\"c\" d=\"M940 66m-4-4h8v8h-8z\"/>
<text x=\"950\" y=\"70\">close</text>
<path class=\"t\" d=\"M998 66m0-5l5 5l-5 5l-5-5z\"/>
<text x=\"1008\" y=\"70\">timer</text>
<text x=\"1052\" y=\"70\">(point at things for their words)</text>
";

/// The head of the file, for rows that end at `end`.
pub fn put_head(
    into: &mut Octets,
    frame: &Frame,
    end: u64,
    pick: &Pick,
    lanes: u64,
    part: Part,
) -> Result<(), NoMemory> {
    let height = end.saturating_add(44);
    put_behind(
        into,
        b"<svg xmlns=\"http://www.w3.org/2000/svg\" width=\"",
        WIDTH,
    )?;
    put_behind(into, b"\" height=\"", height)?;
    put_behind(into, b"\" viewBox=\"0 0 ", WIDTH)?;
    put_behind(into, b" ", height)?;
    into.push_all(b"\">\n<title>The buffers of a tape</title>\n")?;
    into.push_all(STYLE)?;
    into.push_all(b"<rect width=\"100%\" height=\"100%\" fill=\"#fff\"/>\n")?;
    put_text(into, b"T", 16, 26, b"The buffers of a tape")?;
    put_facts(into, frame, pick, lanes, part)?;
    into.push_all(LEGEND)?;
    let below = end.saturating_add(16);
    put_text(into, b"e", LEFT - 30, AXIS - 8, b"dispatch (number)")?;
    put_text(into, b"e", LEFT - 30, below, b"dispatch (number)")?;
    put_text(into, b"s", END + 40, AXIS - 8, b"octets")?;
    put_text(into, b"s", END + 40, below, b"octets")
}

// How much of the tape is drawn.
fn put_facts(
    into: &mut Octets,
    frame: &Frame,
    pick: &Pick,
    lanes: u64,
    part: Part,
) -> Result<(), NoMemory> {
    open_text(into, b"", 16, 46)?;
    put_behind(into, b"dispatches ", frame.first)?;
    put_behind(into, b" to ", frame.end)?;
    put_behind(into, b", ", frame.width.turns())?;
    into.push_all(b" in a column; ")?;
    put_behind(into, b"", lanes)?;
    put_behind(into, b" of the ", pick.buffers())?;
    into.push_all(b" buffers that ever held an octet; ")?;
    put_end(into, part)?;
    end_text(into)
}

// How the tape ends.
fn put_end(into: &mut Octets, part: Part) -> Result<(), NoMemory> {
    match part {
        Part::Ended(Line::Done { .. }) => into.push_all(b"the tape is whole"),
        Part::Ended(Line::RefusedLine { number }) => {
            put_behind(into, b"the session was refused at line ", u64::from(number))
        }
        Part::Ended(_) => into.push_all(b"the session was refused for its length"),
        _ => into.push_all(b"the tape was cut"),
    }
}
