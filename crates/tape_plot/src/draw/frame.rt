// Where things stand in the picture, in points.
ghost use Rattle.std.specs.Prelude.{◌≡◌, ◌≤◌};
ghost use Rattle.tape_plot.specs.Scale.{height_of};

use crate::clock::Clock;
use crate::width::Width;

/// The width of the picture.
pub const WIDTH: u64 = 1240;

/// Where the columns begin.
pub const LEFT: u64 = 190;

/// Where words end that stand before the columns.
pub const WORDS: u64 = LEFT - 8;

/// How wide all columns are together.
pub const PLOT: u64 = 960;

/// Where they end.
pub const END: u64 = 1150;

/// Where the axis stands, below the title and the legend.
pub const AXIS: u64 = 104;

/// How high a lane is.
pub const LANE: u64 = 40;

/// How dispatches go to columns, and these to points.
#[derive(Clone, Copy, PartialEq, Eq)]
pub struct Frame {
    pub first: u64,
    /// The last dispatch that is drawn.
    pub end: u64,
    /// How many dispatches a column has.
    pub width: Width,
    /// How many columns there are.
    pub columns: u64,
    ghost some: { 1 ≤ columns },
}

impl Frame {
    ghost use Rattle.std.specs.Prelude.{◌≡◌, min};
    ghost use Rattle.tape_plot.specs.Scale.{column_x, columns_of};

    /// The columns of the clock.
    pub fn new(clock: &Clock) -> Self
        ensures first { result.first ≡ clock.now.first }
        ensures end { result.end ≡ min clock.now.turn clock.now.last }
    {
        Frame::of(clock.first, clock.end(), clock.width)
    }

    /// The same dispatches in columns of this width.
    pub fn in_columns(&self, width: Width) -> Self
        ensures { result.columns ≡ columns_of self.now.first self.now.end width.turns }
    {
        Frame::of(self.first, self.end, width)
    }

    fn of(first: u64, end: u64, width: Width) -> Self
        ensures first { result.first ≡ first }
        ensures end { result.end ≡ end }
        ensures columns { result.columns ≡ columns_of first end width.turns }
    {
        let behind = end.saturating_sub(first);
        Frame {
            first,
            end,
            width,
            columns: width.column(behind).saturating_add(1),
        }
    }

    /// Where a column begins; behind the last, where that ends.
    pub fn x(&self, column: u64) -> u64
        ensures { result ≡ column_x self.now.columns column }
    {
        let column = column.min(self.columns);
        LEFT + (column.saturating_mul(PLOT) / self.columns).min(PLOT)
    }

    /// The column of a dispatch.
    pub fn column(&self, turn: u64) -> u64 {
        self.width.column(turn.saturating_sub(self.first))
    }
}

/// How high a level stands in a lane whose height is `top`.
pub fn height(level: u64, top: u64) -> u64
    ensures { result ≡ height_of level top }
{
    if top == 0 {
        return 0;
    }
    (level.saturating_mul(LANE) / top).min(LANE)
}
