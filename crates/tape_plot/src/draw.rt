// The picture as an SVG file.
ghost use Rattle.std.specs.List.{Contains};
ghost use Rattle.std.specs.Prelude.{IfOk, min};
ghost use Rattle.tape_plot.specs.Sheets.{LevelsDrawn, TextDrawn};

mod bar;
mod events;
mod frame;
mod head;
mod line;
mod name;
mod pick;
mod put;
mod rows;
mod sheet;
mod ticks;

use crate::choice::Lanes;
use crate::plot::Plot;
use crate::tape::Part;
use events::put_turns;
use frame::Frame;
use head::put_head;
use io_ports::{NoMemory, Octets};
use pick::Pick;
use rows::Rows;
use std::alloc::Global;
use ticks::put_ticks;

/// The SVG file of a tape that was read so far.
pub fn draw(alloc: Global, plot: &mut Plot, part: Part, lanes: Lanes) -> Result<Octets, NoMemory>
    ensures { IfOk result (λ text. TextDrawn text plot.old.clock.first (min plot.old.clock.turn plot.old.clock.last) plot.old.limits lanes plot.old.levels) }
{
    plot.fit_marks()?;
    let pick = Pick::new(alloc, &plot.levels, &plot.limits, lanes)?;
    let rows = put_rows(alloc, plot, &pick)?;
    let mut text = Octets::new(alloc);
    put_head(
        &mut text,
        &rows.sheet.frame,
        rows.y,
        &pick,
        rows.lanes,
        part,
    )?;
    put_ticks(&mut text, &rows.sheet.frame, rows.y)?;
    put_turns(&mut text, &rows.sheet.frame, plot.turns.marks(), rows.y)?;
    rows.sheet.put_onto(&mut text)?;
    text.push_all(b"</svg>\n")?;
    Ok(text)
}

// All rows.
fn put_rows(alloc: Global, plot: &Plot, pick: &Pick) -> Result<Rows, NoMemory>
    ensures { IfOk result (λ rows. LevelsDrawn (Contains rows.sheet.pieces.items) plot.now.clock.first (min plot.now.clock.turn plot.now.clock.last) plot.now.limits pick.now plot.now.levels) }
{
    let mut rows = Rows::new(alloc, Frame::new(&plot.clock));
    rows.put_events(plot)?;
    rows.put_levels(&plot.levels, &plot.limits, pick)?;
    Ok(rows)
}
