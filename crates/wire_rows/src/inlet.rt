// The octets that come in on one connection.
mod acts;
mod play;

use crate::inlet::play::{Cut, play};
use anyhow::Result;

/// How many places a case is cut at, at most.
const PLACES: usize = 4096;

/// Plays a case whole and cut, and prints what it gives.
pub fn show(rt: &HostRuntime, line: &str) -> Result<()> {
    let (answers, len) = play(rt.alloc(), line, Cut::Never);
    answers.print(rt, line)?;
    compare(rt, line, answers.text(), Cut::Every(1))?;
    compare(rt, line, answers.text(), Cut::Every(16_384))?;
    let stride = (len / PLACES).saturating_add(1);
    let mut place = 1usize;
    for _ in 0..len / stride {
        compare(rt, line, answers.text(), Cut::At(place))?;
        place = place.saturating_add(stride);
    }
    Ok(())
}

// Prints what a case gives with its octets cut, where that is something else.
fn compare(rt: &HostRuntime, line: &str, wanted: &str, cut: Cut) -> Result<()> {
    let (answers, _) = play(rt.alloc(), line, cut);
    if answers.text() == wanted {
        return Ok(());
    }
    answers.print(rt, way_of(cut))
}

fn way_of(cut: Cut) -> &'static str {
    match cut {
        Cut::Never => "  whole",
        Cut::Every(_) => "  in pieces",
        Cut::At(_) => "  in two",
    }
}
