// A number that changes from dispatch to dispatch, in columns.
ghost use Rattle.std.specs.Prelude.{◌≡◌, [], IfOk, OnOk};
ghost use Rattle.tape_plot.specs.Lanes as spec;

use crate::clock::Clock;
use crate::width::Width;
use io_ports::NoMemory;
use std::alloc::Global;

/// How a number changed in a column: the least, the greatest and the last that it changed to.
#[derive(Clone, Copy, PartialEq, Eq)]
pub struct Point {
    pub column: u64,
    pub low: u64,
    pub high: u64,
    pub last: u64,
}

impl Point {
    ghost use Rattle.std.specs.Prelude.{◌≡◌};
    ghost use Rattle.tape_plot.specs.Lanes as spec;

    // The same in columns twice as wide.
    fn halved(self) -> Self
        ensures { result ≡ spec.halved self }
    {
        Point {
            column: self.column / 2,
            ..self
        }
    }

    // With what came behind it in the same column.
    fn joined(self, later: Point) -> Self
        ensures { result ≡ spec.joined self later }
    {
        Point {
            column: self.column,
            low: self.low.min(later.low),
            high: self.high.max(later.high),
            last: later.last,
        }
    }
}

/// A number over the dispatches, 0 at first. A point is kept for each column in which it changed.
#[derive(Drop)]
pub struct Lane {
    /// What it was before the first column.
    base: u64,
    points: Vec<Point>,
    /// How many dispatches a column of its points has.
    width: Width,
}

impl Lane {
    ghost use Rattle.std.specs.Prelude.{◌≡◌, ◌≤◌, ◌*◌, IfOk, OnOk};
    ghost use Rattle.tape_plot.specs.Lanes.{Fits, Sets, drawn_of, fresh, last_of, most_of};

    /// 0 so far. Takes no memory.
    pub fn new(alloc: Global) -> Self
        ensures { drawn_of result ≡ fresh }
    {
        Lane {
            base: 0,
            points: Vec::new(alloc),
            width: Width::one(),
        }
    }

    /// What it is.
    pub fn level(&self) -> u64
        ensures { result ≡ last_of self.now.base self.now.points.items }
    {
        match self.points.last().copied() {
            Some(point) => point.last,
            None => self.base,
        }
    }

    /// What it was before the first column.
    pub fn base(&self) -> u64
        ensures { result ≡ self.now.base }
    {
        self.base
    }

    /// The points, by columns.
    pub fn points(&self) -> &[Point]
        ensures { result.now ≡ self.now.points.items }
    {
        self.points.as_slice()
    }

    /// How many dispatches a column of its points has.
    pub fn width(&self) -> Width
        ensures { result ≡ self.now.width }
    {
        self.width
    }

    /// The most that it was, before the first column or in any.
    pub fn most(&self) -> u64
        ensures { result ≡ most_of self.now.base self.now.points.items }
    {
        let points = self.points.as_slice();
        let mut most = self.base;
        for point in points {
            most = most.max(point.high);
        }
        most
    }

    /// It is this from now on. After running out of memory the lane is to be let go.
    pub fn set(&mut self, level: u64, clock: &Clock) -> Result<(), NoMemory>
        ensures { OnOk result (Sets (drawn_of self.old) level clock.now (drawn_of self.new)) }
    {
        if level == self.level() {
            return Ok(());
        }
        let Some(behind) = clock.turn.checked_sub(clock.first) else {
            self.base = level;
            return Ok(());
        };
        self.fit(clock.width)?;
        let point = Point {
            column: self.width.column(behind),
            low: level,
            high: level,
            last: level,
        };
        put_point(&mut self.points, point)
    }

    /// The same number in columns at least so wide.
    pub fn fitted(&self, width: Width) -> Result<Lane, NoMemory>
        ensures { IfOk result (λ lane. Fits (drawn_of self.now) (drawn_of lane)) }
    {
        let mut lane = self.copied()?;
        lane.fit(width)?;
        Ok(lane)
    }

    fn copied(&self) -> Result<Lane, NoMemory>
        ensures { IfOk result (λ lane. drawn_of lane ≡ drawn_of self.now) }
    {
        let points = Vec::from_slice(*self.points.allocator(), self.points())?;
        Ok(Lane {
            base: self.base,
            points,
            width: self.width,
        })
    }

    /// Its columns get so wide, if they aren't. After running out of memory the lane is to be let go.
    pub fn fit(&mut self, width: Width) -> Result<(), NoMemory>
        ensures same { OnOk result (Fits (drawn_of self.old) (drawn_of self.new)) }
        ensures wide { OnOk result (width.turns ≤ self.new.width.turns) }
    {
        while self.width.turns() < width.turns() {
            self.halve()?;
        }
        Ok(())
    }

    // Its columns get twice as wide.
    fn halve(&mut self) -> Result<(), NoMemory>
        ensures same { OnOk result (Fits (drawn_of self.old) (drawn_of self.new)) }
        ensures wide { OnOk result (self.new.width.turns ≡ self.old.width.turns * 2) }
    {
        let Some(width) = self.width.doubled() else {
            return Err(NoMemory);
        };
        self.points = halve_points(*self.points.allocator(), self.points.as_slice())?;
        self.width = width;
        Ok(())
    }
}

// The points in columns twice as wide.
fn halve_points(alloc: Global, points: &[Point]) -> Result<Vec<Point>, NoMemory>
    ensures { IfOk result (λ made. made.items ≡ spec.halves [] points.now) }
{
    let mut made = Vec::new(alloc);
    let mut rest = points;
    while let Some((point, after)) = rest.split_first() {
        put_point(&mut made, point.halved())?;
        rest = after;
    }
    Ok(made)
}

// Appends a point, or joins it with the last, where that has the same column.
fn put_point(points: &mut Vec<Point>, point: Point) -> Result<(), NoMemory>
    ensures { OnOk result (points.new.items ≡ spec.put point points.old.items) }
{
    let Some(last) = points.pop() else {
        points.push(point)?;
        return Ok(());
    };
    if last.column == point.column {
        points.push(last.joined(point))?;
        return Ok(());
    }
    points.push(last)?;
    points.push(point)?;
    Ok(())
}
