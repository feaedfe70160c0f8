//! Computes one band: the columns of the boxes that have its rows, as intervals that don't touch.

ghost use Rattle.std.specs.Prelude.{◌≡◌, ◌≤ℤ◌, ◌<ℤ◌, ◌∷◌, OnOk, All, AllPairs, MatchBool};
ghost use Rattle.mpw_region.specs.Internal.Sweep.{BeginsLeft};
ghost use Rattle.mpw_region.specs.Banded.{AreBands};
ghost use Rattle.mpw_region.specs.Internal.Swept.{interval_of, lengthened, AddsBand};

use mpw_geom::Box2;
use std::alloc::AllocError;

/// The rows from `y0` to before `y1`, in nm.
#[derive(Clone, Copy)]
pub(crate) struct Rows {
    pub(crate) y0: i64,
    pub(crate) y1: i64,
}

/// The columns of the box in the rows.
fn interval(b: &Box2, rows: Rows) -> Box2
    ensures { result ≡ interval_of b.now rows }
{
    Box2 {
        x0: b.x0,
        y0: rows.y0,
        x1: b.x1,
        y1: rows.y1,
    }
}

/// Whether the next box begins inside this one or where it ends.
fn reaches(last: &Box2, next: &Box2) -> bool
    ensures { MatchBool result (next.now.x0 ≤ℤ last.now.x1) (last.now.x1 <ℤ next.now.x0) }
{
    next.x0 <= last.x1
}

/// The box, extended to the end of the next.
fn lengthen(last: &Box2, next: &Box2) -> Box2
    ensures { result ≡ lengthened last.now next.now }
{
    Box2 {
        x0: last.x0,
        y0: last.y0,
        x1: last.x1.max(next.x1),
        y1: last.y1,
    }
}

/// Adds the intervals of boxes in order from the left, beginning with `first`.
fn add_intervals(
    out: &mut Vec<Box2>,
    first: &Box2,
    rest: &[Box2],
    rows: Rows,
) -> Result<(), AllocError>
    requires rows { rows.y0 <ℤ rows.y1 }
    requires filled { All (λ b. b.x0 <ℤ b.x1) (first.now ∷ rest.now) }
    requires ordered { AllPairs BeginsLeft (first.now ∷ rest.now) }
    requires banded { AreBands out.old.items }
    requires below { All (λ b. b.y1 ≤ℤ rows.y0) out.old.items }
    ensures { OnOk result (AddsBand out.old.items out.new.items (first.now ∷ rest.now) rows) }
{
    let mut last = interval(first, rows);
    for b in rest {
        if reaches(&last, b) {
            last = lengthen(&last, b);
        } else {
            out.push(last)?;
            last = interval(b, rows);
        }
    }
    out.push(last)?;
    Ok(())
}

/// Adds the band of the rows, with the columns of the boxes, which must be sorted from left to right. One
/// pass over them.
pub(crate) fn add_band(out: &mut Vec<Box2>, boxes: &[Box2], rows: Rows) -> Result<(), AllocError>
    requires rows { rows.y0 <ℤ rows.y1 }
    requires filled { All (λ b. b.x0 <ℤ b.x1) boxes.now }
    requires ordered { AllPairs BeginsLeft boxes.now }
    requires banded { AreBands out.old.items }
    requires below { All (λ b. b.y1 ≤ℤ rows.y0) out.old.items }
    ensures { OnOk result (AddsBand out.old.items out.new.items boxes.now rows) }
{
    match boxes {
        [] => Ok(()),
        [first, rest @ ..] => add_intervals(out, first, rest, rows),
    }
}
