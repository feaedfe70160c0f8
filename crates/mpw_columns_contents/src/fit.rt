//! Finds which part of an entry may touch a window. Nothing here takes memory.
//!
//! The instances of an array are at equal steps. If the rows don't lead along an axis, a division finds the columns that miss the window
//! along that axis; and the other way round for rows.

ghost use Rattle.std.specs.Prelude.{◌≡◌, ◌<◌, ◌≤◌, ◌*◌, ℕ, pos, neg_ℤ, ◌+ℤ◌, ◌<ℤ◌, false, true, option_map, IfSome, IfNone, IsSomeAnd, IsTrue, MatchBool};
ghost use Rattle.mpw_geom.specs.Plane.{IsInPlane};
ghost use Rattle.mpw_hier.specs.Boxes.{is_box_near, placed_box};
ghost use Rattle.mpw_walk.specs.Window.{do_meet, is_met};
ghost use Rattle.mpw_columns_contents.specs.Internal.Fitting.{IsOutside, IsEither, SpansMissed, AlongMissed, ColumnsMissed, RowsMissed, IsCut, IsFitted, IsAway};

use crate::placed::{is_in_plane, placed_box, point_after};
use crate::thing::Array;
use mpw_geom::{Box2, Placing, Point};
use mpw_hier::is_box_near;

/// A closed interval, in nm.
#[derive(Clone, Copy)]
pub struct Span {
    /// Its least number.
    pub low: i64,
    /// Its greatest number.
    pub high: i64,
}

/// Consecutive indices.
#[derive(Clone, Copy)]
pub struct Places {
    /// The first.
    pub from: u16,
    /// The one after the last.
    pub end: u16,
}

/// Along one axis, the step from one column to the next and from one row to the next; or the other way round.
#[derive(Clone, Copy)]
struct Steps {
    along: i64,
    across: i64,
}

/// Whether the closed boxes share a point.
fn do_meet(a: Box2, b: Box2) -> bool
    ensures { result ≡ do_meet a b }
{
    a.meets(b)
}

/// The image of a box under a placing, if its coordinates are small enough.
pub fn area_of(placing: Placing, b: Box2) -> Option<Box2>
    requires { IsInPlane placing.by }
    ensures { IfSome result (λ area. area ≡ placed_box placing b) }
{
    if is_box_near(b) {
        Some(placed_box(placing, b))
    } else {
        None
    }
}

/// Whether a box may touch a window. Both are in the coordinates of a placed structure. The answer is yes if the window isn't known.
pub fn is_own_met(b: Box2, own: &Option<Box2>) -> bool
    ensures { result ≡ false → IsSomeAnd own.now (λ own. do_meet b own ≡ false) }
{
    let Some(own) = own else {
        return true;
    };
    do_meet(b, *own)
}

/// Whether a shape with that area may touch a window. The answer is yes if the area isn't known.
pub fn is_area_met(area: &Option<Box2>, window: &Box2) -> bool
    ensures { result ≡ false → IsSomeAnd area.now (λ area. do_meet area window.now ≡ false) }
{
    match *area {
        Some(area) => do_meet(area, *window),
        None => true,
    }
}

/// Whether a box, if there is one, may touch a window when it is placed. For near boxes the answer is exact.
pub fn may_meet(window: &Box2, placing: &Placing, b: Option<Box2>) -> bool
    requires { IsInPlane placing.now.by }
    ensures { result ≡ false → is_met window.now (option_map (placed_box placing.now) b) ≡ false }
{
    let Some(b) = b else {
        return false;
    };
    if !is_box_near(b) {
        return true;
    }
    do_meet(placed_box(*placing, b), *window)
}

/// How many k from 0 on, at most `most`, have k steps shorter than a gap.
fn steps_short(gap: u64, step: u64, most: u16) -> u16
    requires { 1 ≤ step }
    ensures few { result ≤ most }
    ensures short { (k : ℕ) → k < result → k * step < gap }
{
    if gap == 0 {
        return 0;
    }
    let steps = (gap - 1) / step;
    if steps < u64::from(most) {
        steps as u16 + 1
    } else {
        most
    }
}

/// How many k from 0 on, at most `most`, have k steps no longer than a gap.
fn steps_within(gap: u64, step: u64, most: u16) -> u16
    requires { 1 ≤ step }
    ensures few { result ≤ most }
    ensures beyond { (k : ℕ) → k < most → result ≤ k → gap < k * step }
{
    let steps = gap / step;
    if steps < u64::from(most) {
        steps as u16 + 1
    } else {
        most
    }
}

/// Intervals follow one another upwards in equal steps. How many of the first `most` end before interval `b` begins.
fn before(a: Span, b: Span, step: u64, most: u16) -> u16
    requires { 1 ≤ step }
    ensures few { result ≤ most }
    ensures before { (k : ℕ) → k < result → (a.high +ℤ pos (k * step)) <ℤ b.low }
{
    if a.high < b.low {
        steps_short(b.low.abs_diff(a.high), step, most)
    } else {
        0
    }
}

/// Intervals follow one another upwards in equal steps. How many of the first `most` begin before interval `b` has ended.
fn begun(a: Span, b: Span, step: u64, most: u16) -> u16
    requires { 1 ≤ step }
    ensures few { result ≤ most }
    ensures behind { (k : ℕ) → k < most → result ≤ k → b.high <ℤ (a.low +ℤ pos (k * step)) }
{
    if a.low <= b.high {
        steps_within(b.high.abs_diff(a.low), step, most)
    } else {
        0
    }
}

/// Which of `most` intervals may share a number with a window, if each is a step above the one before.
fn upwards(there: Span, window: Span, step: u64, most: u16) -> Places
    requires { 1 ≤ step }
    ensures few { result.end ≤ most }
    ensures missed { SpansMissed there window (pos step) most result }
{
    Places {
        from: before(there, window, step, most),
        end: begun(there, window, step, most),
    }
}

/// Which of `most` intervals may share a number with a window, if each is a step below the one before.
fn downwards(there: Span, window: Span, step: u64, most: u16) -> Places
    requires { 1 ≤ step }
    ensures few { result.end ≤ most }
    ensures missed { SpansMissed there window (neg_ℤ (pos step)) most result }
{
    Places {
        from: before(window, there, step, most),
        end: begun(window, there, step, most),
    }
}

/// Which of `most` intervals may share a number with a window, if all are equal.
fn in_place(there: Span, window: Span, most: u16) -> Places
    ensures few { result.end ≤ most }
    ensures missed { SpansMissed there window (pos 0) most result }
{
    if there.low.max(window.low) <= there.high.min(window.high) {
        Places { from: 0, end: most }
    } else {
        Places { from: 0, end: 0 }
    }
}

/// Which of `most` intervals may share a number with a window, if each is a step from the one before.
fn places_met(there: Span, window: Span, steps: Steps, most: u16) -> Places
    ensures few { result.end ≤ most }
    ensures missed { SpansMissed there window steps.along most result }
{
    if steps.along > 0 {
        return upwards(there, window, steps.along.unsigned_abs(), most);
    }
    if steps.along < 0 {
        return downwards(there, window, steps.along.unsigned_abs(), most);
    }
    in_place(there, window, most)
}

/// Which columns may share a number with a window along an axis, in any row; or which rows, in any column.
fn along(there: Span, window: Span, steps: Steps, most: u16) -> Places
    ensures few { result.end ≤ most }
    ensures missed { AlongMissed there window steps.along steps.across most result }
{
    if steps.across == 0 {
        places_met(there, window, steps, most)
    } else {
        Places { from: 0, end: most }
    }
}

fn span_x(b: Box2) -> Span
    ensures { result ≡ record { low = b.x0; high = b.x1 } }
{
    Span {
        low: b.x0,
        high: b.x1,
    }
}

fn span_y(b: Box2) -> Span
    ensures { result ≡ record { low = b.y0; high = b.y1 } }
{
    Span {
        low: b.y0,
        high: b.y1,
    }
}

fn steps_x(own: Point, other: Point) -> Steps
    ensures { result ≡ record { along = own.x; across = other.x } }
{
    Steps {
        along: own.x,
        across: other.x,
    }
}

fn steps_y(own: Point, other: Point) -> Steps
    ensures { result ≡ record { along = own.y; across = other.y } }
{
    Steps {
        along: own.y,
        across: other.y,
    }
}

/// The indices in both.
fn both(a: Places, b: Places) -> Places
    ensures few { (most : ℕ) → a.end ≤ most → result.end ≤ most }
    ensures outside { (k : ℕ) → IsOutside result k → IsEither a b k }
{
    Places {
        from: a.from.max(b.from),
        end: a.end.min(b.end),
    }
}

/// The columns of an array that may touch a window, given the box of the first instance.
fn columns_met(there: Box2, window: Box2, array: &Array) -> Places
    ensures few { result.end ≤ array.now.columns }
    ensures missed { ColumnsMissed there window array.now result }
{
    let own = array.column_step;
    let other = array.row_step;
    let x = along(
        span_x(there),
        span_x(window),
        steps_x(own, other),
        array.columns,
    );
    let y = along(
        span_y(there),
        span_y(window),
        steps_y(own, other),
        array.columns,
    );
    both(x, y)
}

/// The rows of an array that may touch a window, given the box of the first instance.
fn rows_met(there: Box2, window: Box2, array: &Array) -> Places
    ensures few { result.end ≤ array.now.rows }
    ensures missed { RowsMissed there window array.now result }
{
    let own = array.row_step;
    let other = array.column_step;
    let x = along(
        span_x(there),
        span_x(window),
        steps_x(own, other),
        array.rows,
    );
    let y = along(
        span_y(there),
        span_y(window),
        steps_y(own, other),
        array.rows,
    );
    both(x, y)
}

/// An array reduced to these columns and rows. `None` if its first instance would be beyond 2^48 nm.
fn cut(array: &Array, columns: Places, rows: Places) -> Option<Array>
    requires columns { columns.from < columns.end }
    requires rows { rows.from < rows.end }
    ensures { IfSome result (IsCut array.now columns rows) }
{
    let first = point_after(array.first.by, columns.from, array.column_step)?;
    let by = point_after(first, rows.from, array.row_step)?;
    if !is_in_plane(by) {
        return None;
    }
    Some(Array {
        first: Placing {
            orient: array.first.orient,
            by,
        },
        columns: columns.end - columns.from,
        rows: rows.end - rows.from,
        ..*array
    })
}

/// An array without the columns and the rows that, by division, miss a window.
fn divided(array: &Array, window: Box2, extent: Box2) -> Option<Array>
    requires near { is_box_near extent ≡ true }
    requires first { IsInPlane array.now.first.by }
    ensures some { IfSome result (IsFitted array.now window extent) }
    ensures none { IfNone result (IsAway array.now window extent) }
{
    let there = placed_box(array.first, extent);
    let columns = columns_met(there, window, array);
    let rows = rows_met(there, window, array);
    if columns.from >= columns.end || rows.from >= rows.end {
        return None;
    }
    match cut(array, columns, rows) {
        Some(array) => Some(array),
        None => Some(*array),
    }
}

/// Whether an array is one instance.
pub fn is_single(array: &Array) -> bool
    ensures columns { IsTrue result → array.now.columns ≡ 1 }
    ensures rows { IsTrue result → array.now.rows ≡ 1 }
{
    array.columns == 1 && array.rows == 1
}

/// Whether the only instance of an array may touch a window. Its box is compared with the window, without a division.
pub fn is_single_met(array: &Array, window: &Box2, extent: Box2) -> bool
    requires near { is_box_near extent ≡ true }
    requires first { IsInPlane array.now.first.by }
    requires columns { array.now.columns ≡ 1 }
    requires rows { array.now.rows ≡ 1 }
    ensures { MatchBool result (IsFitted array.now window.now extent array.now) (IsAway array.now window.now extent) }
{
    do_meet(placed_box(array.first, extent), *window)
}

/// An array without the columns and the rows that, by division, miss a window, given its structure's extent. `None` if
/// none are left. Some that miss the window may be left, as when columns and rows lead along one axis. For an array of
/// one instance, its box is compared with the window, without a division.
pub fn fitted(array: &Array, window: &Box2, extent: Box2) -> Option<Array>
    requires near { is_box_near extent ≡ true }
    requires first { IsInPlane array.now.first.by }
    ensures some { IfSome result (IsFitted array.now window.now extent) }
    ensures none { IfNone result (IsAway array.now window.now extent) }
{
    if !is_single(array) {
        return divided(array, *window, extent);
    }
    if is_single_met(array, window, extent) {
        Some(*array)
    } else {
        None
    }
}
