//! The positions of entries as a core sees them: on H with the coordinates exchanged. Sums saturate at 64 bits, so all of this is defined
//! for all numbers.

ghost use Rattle.std.specs.Prelude.{◌↔◌, IsTrue};
ghost use Rattle.mpw_geom.specs.Plane.{IsCoordinate, IsInPlane};

use mpw_edges::Axis;
use mpw_geom::{Box2, Placing, Point};

/// The greatest coordinate that is placed, in nm.
const LONGEST: i64 = 1 << 48;

/// An interval along x, or along y.
#[derive(Clone, Copy, PartialEq, Eq)]
pub(crate) struct Span {
    pub low: i64,
    pub high: i64,
}

impl Span {
    /// Whether a position lies strictly inside.
    pub fn has(self, at: i64) -> bool {
        self.low < at && at < self.high
    }

    /// Its length.
    pub fn length(self) -> u64 {
        self.low.abs_diff(self.high)
    }

    /// The position in the middle.
    pub fn middle(self) -> i64 {
        self.low
            .saturating_add(self.high.saturating_sub(self.low) / 2)
    }

    /// The half in the middle.
    pub fn middle_half(self) -> Span {
        let quarter = self.high.saturating_sub(self.low) / 4;
        self.moved_apart(quarter.saturating_neg())
    }

    /// The interval extended on both sides.
    pub fn moved_apart(self, by: i64) -> Span {
        Span {
            low: self.low.saturating_sub(by),
            high: self.high.saturating_add(by),
        }
    }

    /// The distance of a position from the nearer end.
    pub fn depth(self, at: i64) -> u64 {
        at.abs_diff(self.low).min(at.abs_diff(self.high))
    }

    /// The interval that covers this one and all its displacements by up to `by`.
    fn stretched(self, by: i64) -> Span {
        Span {
            low: self.low.saturating_add(by.min(0)),
            high: self.high.saturating_add(by.max(0)),
        }
    }
}

/// The interval of a box along y, or along x.
pub(crate) fn span_of(b: &Box2, are_rows: bool) -> Span {
    if are_rows {
        Span {
            low: b.y0,
            high: b.y1,
        }
    } else {
        Span {
            low: b.x0,
            high: b.x1,
        }
    }
}

/// A box as it is seen along an axis.
pub(crate) fn seen_box(axis: Axis, b: Box2) -> Box2 {
    match axis {
        Axis::V => b,
        Axis::H => Box2 {
            x0: b.y0,
            y0: b.x0,
            x1: b.y1,
            y1: b.x1,
        },
    }
}

/// A step as it is seen along an axis.
pub(crate) fn seen_step(axis: Axis, step: Point) -> Point {
    match axis {
        Axis::V => step,
        Axis::H => Point {
            x: step.y,
            y: step.x,
        },
    }
}

/// Whether a coordinate is at most 2^48 nm in magnitude.
fn is_coordinate(z: i64) -> bool
    ensures { IsTrue result ↔ IsCoordinate z }
{
    -LONGEST <= z && z <= LONGEST
}

/// Whether both coordinates are at most 2^48 nm in magnitude.
fn is_in_plane(point: Point) -> bool
    ensures { IsTrue result ↔ IsInPlane point }
{
    is_coordinate(point.x) && is_coordinate(point.y)
}

/// The image of a point under a placing. `None` if either exceeds 2^48 nm.
fn placed_point(placing: Placing, point: Point) -> Option<Point> {
    if is_in_plane(placing.by) && is_in_plane(point) {
        Some(placing.apply(point))
    } else {
        None
    }
}

/// The image of a box under a placing, seen along an axis. `None` if either exceeds 2^48 nm.
pub(crate) fn seen_where_placed(axis: Axis, placing: Placing, b: Box2) -> Option<Box2> {
    let p = placed_point(placing, Point { x: b.x0, y: b.y0 })?;
    let q = placed_point(placing, Point { x: b.x1, y: b.y1 })?;
    Some(seen_box(axis, Box2::between(p, q)))
}

/// Positions at equal distances along x, or along y.
#[derive(Clone, Copy)]
pub(crate) struct Series {
    /// The first.
    pub from: i64,
    /// The distance from one to the next.
    pub step: i64,
    /// How many there are.
    pub count: u16,
}

impl Series {
    /// The distance from the first to the last.
    pub fn reach(self) -> i64 {
        self.step
            .saturating_mul(i64::from(self.count.saturating_sub(1)))
    }
}

/// The position of an entry: a shape, or the instances of an array in columns and rows.
#[derive(Clone, Copy)]
pub(crate) struct Room {
    /// The box of the shape, or of the first instance.
    pub first: Box2,
    /// The number of columns.
    pub columns: u16,
    /// The number of rows.
    pub rows: u16,
    /// The displacement from one column to the next.
    pub column_step: Point,
    /// The displacement from one row to the next.
    pub row_step: Point,
}

impl Room {
    /// How many instances there are.
    pub fn count(&self) -> u64 {
        u64::from(self.columns).saturating_mul(u64::from(self.rows))
    }

    /// The positions of the columns along y, or along x.
    fn column_series(&self, are_rows: bool) -> Series {
        let step = if are_rows {
            self.column_step.y
        } else {
            self.column_step.x
        };
        Series {
            from: span_of(&self.first, are_rows).low,
            step,
            count: self.columns,
        }
    }

    /// The positions of the rows along y, or along x.
    fn row_series(&self, are_rows: bool) -> Series {
        let step = if are_rows {
            self.row_step.y
        } else {
            self.row_step.x
        };
        Series {
            from: span_of(&self.first, are_rows).low,
            step,
            count: self.rows,
        }
    }

    /// The positions of the columns along y, or along x; or those of the rows if all columns are at one position.
    pub fn series(&self, are_rows: bool) -> Series {
        let columns = self.column_series(are_rows);
        if columns.step != 0 && columns.count > 1 {
            columns
        } else {
            self.row_series(are_rows)
        }
    }

    /// The length of an instance along y, or along x.
    pub fn reach(&self, are_rows: bool) -> u64 {
        span_of(&self.first, are_rows).length()
    }

    /// The interval of all instances along y, or along x.
    pub fn span(&self, are_rows: bool) -> Span {
        span_of(&self.first, are_rows)
            .stretched(self.column_series(are_rows).reach())
            .stretched(self.row_series(are_rows).reach())
    }

    /// The box of all instances.
    pub fn whole(&self) -> Box2 {
        let (x, y) = (self.span(false), self.span(true));
        Box2 {
            x0: x.low,
            y0: y.low,
            x1: x.high,
            y1: y.high,
        }
    }
}
