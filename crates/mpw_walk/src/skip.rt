//! Counts the consecutive instances of an array that miss a window, by division. Nothing here takes memory.
//!
//! The boxes of an array are at equal steps. So along an axis the gap and the step determine how many miss the window before it or
//! after it.

ghost use Rattle.std.specs.Prelude.{◌≡◌, ◌≤◌, ◌<◌, ℕ, pos, ◌*ℤ◌, ◌<ℤ◌, false};
ghost use Rattle.mpw_geom.specs.Plane.{IsCoordinate, IsInPlane};
ghost use Rattle.mpw_walk.specs.Internal.Skips.{span_on, do_share, MissColumns, MissRows};

use mpw_geom::{Box2, Point};

/// A closed interval, in nm.
#[derive(Clone, Copy)]
pub struct Span {
    /// Its least number.
    pub low: i64,
    /// Its greatest number.
    pub high: i64,
}

/// How many k from 0 on, at most `most`, have k steps shorter than a gap.
fn steps_short(gap: u64, step: i64, most: u16) -> u16
    requires { 1 ≤ gap }
    ensures few { result ≤ most }
    ensures short { (k : ℕ) → k < result → (pos k *ℤ step) <ℤ pos gap }
{
    if step <= 0 {
        return most;
    }
    let steps = (gap - 1) / step.unsigned_abs();
    if steps < u64::from(most) {
        steps as u16 + 1
    } else {
        most
    }
}

/// How many consecutive intervals, from the given one on, share no number with a window, if each is a step from the one before: at most `most`.
fn spans_missed(there: Span, window: Span, step: i64, most: u16) -> u16
    requires { IsCoordinate step }
    ensures few { result ≤ most }
    ensures missed { (k : ℕ) → k < result → do_share (span_on there step k) window ≡ false }
{
    if there.high < window.low {
        return steps_short(window.low.abs_diff(there.high), step, most);
    }
    if window.high < there.low {
        return steps_short(there.low.abs_diff(window.high), -step, most);
    }
    0
}

fn span_x(b: Box2) -> Span
    ensures { result ≡ record { low = b.x0; high = b.x1 } }
{
    Span {
        low: b.x0,
        high: b.x1,
    }
}

fn span_y(b: Box2) -> Span
    ensures { result ≡ record { low = b.y0; high = b.y1 } }
{
    Span {
        low: b.y0,
        high: b.y1,
    }
}

/// How many consecutive boxes of a row, from the given one on, miss a window: at most `most`.
pub fn columns_missed(there: Box2, window: Box2, across: Point, most: u16) -> u16
    requires { IsInPlane across }
    ensures few { result ≤ most }
    ensures missed { MissColumns there window across result }
{
    let x = spans_missed(span_x(there), span_x(window), across.x, most);
    let y = spans_missed(span_y(there), span_y(window), across.y, most);
    x.max(y)
}

/// How many consecutive rows share no number with a window along an axis, in every column: 0 if columns lead along that axis.
fn rows_along(there: Span, window: Span, across: i64, up: i64, most: u16) -> u16
    requires { IsCoordinate up }
    ensures few { result ≤ most }
    ensures still { 0 < result → across ≡ pos 0 }
    ensures missed { (k : ℕ) → k < result → do_share (span_on there up k) window ≡ false }
{
    if across == 0 {
        spans_missed(there, window, up, most)
    } else {
        0
    }
}

/// How many consecutive rows, from that of the given box on, miss a window in every column: at most `most`, and 0 if columns lead along both axes.
pub fn rows_missed(there: Box2, window: Box2, across: Point, up: Point, most: u16) -> u16
    requires { IsInPlane up }
    ensures few { result ≤ most }
    ensures missed { MissRows there window across up result }
{
    let x = rows_along(span_x(there), span_x(window), across.x, up.x, most);
    let y = rows_along(span_y(there), span_y(window), across.y, up.y, most);
    x.max(y)
}
