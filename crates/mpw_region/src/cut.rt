//! Computes the bands of a list of boxes, by a sweep upwards from border to border.
//!
//! Each border of a box is a row at which a band may begin or end. The sweep goes from one to the next,
//! and in each band the columns of the boxes that have it are joined.
//!
//! Cost for `n` boxes: a sort of them, and then, in each of fewer than `2n` bands, a few passes over the boxes
//! that have it and a sort of those that begin with it. The result has at most one box for each box and each
//! band that it has. That is a few times `n` if boxes share few rows, and up to `n * n` if all share rows that
//! all their borders cut. So a window should have few boxes, since a band reaches across it.

ghost use Rattle.std.specs.Prelude.{◌≡◌, ◌<ℤ◌, ◌↔◌, [], ℤ, IfOk, OnOk, All, MatchBool, map};
ghost use Rattle.std.specs.List.Sorted.{IsPermutation};
ghost use Rattle.mpw_geom.specs.Plane.{Square, HasArea, any_has_square};
ghost use Rattle.mpw_region.specs.Banded.{AreBands};
ghost use Rattle.mpw_region.specs.Internal.Sweep.{HoldsJust};
ghost use Rattle.mpw_region.specs.Squares.{covers};
ghost use Rattle.mpw_region.specs.Internal.Swept.{IsCovered, HasNoBorderWithin, SweepsUp};
ghost use Rattle.mpw_region.specs.Exchange.{exchanged_box};

use crate::merge::{Rows, add_band};
use crate::region::Bands;
use crate::sweep::Sweep;
use mpw_geom::Box2;
use std::alloc::{AllocError, Global};

/// The unit squares of the boxes, as bands of rows. A box has the squares from `(x0, y0)` to before
/// `(x1, y1)`; one without area has none. Boxes may overlap, touch and come in any order.
///
/// The region also stores the bands of the exchanged boxes, so that a check along columns needs no bands of
/// its own. Cost: two sweeps, which is `n log n` for `n` boxes, and in each of fewer than `2n` bands the
/// boxes that have it.
///
/// # Errors
/// Out of memory.
pub fn bands(alloc: Global, boxes: &[Box2]) -> Result<Bands, AllocError>
    ensures squares { IfOk result (λ b. (s : Square) →
        any_has_square b s ≡ any_has_square boxes.now s) }
    ensures banded { IfOk result AreBands }
{
    let rows = row_bands(alloc, boxes)?;
    let exchanged = exchange(alloc, boxes)?;
    let columns = row_bands(alloc, exchanged.as_slice())?;
    Ok(Bands::of(rows, columns))
}

/// The box with its coordinates exchanged. Takes no memory.
pub fn exchanged_box(b: &Box2) -> Box2
    ensures { result ≡ exchanged_box b.now }
{
    Box2 {
        x0: b.y0,
        y0: b.x0,
        x1: b.y1,
        y1: b.x1,
    }
}

/// The boxes with their coordinates exchanged, in order. One pass.
///
/// # Errors
/// Out of memory.
pub fn exchange(alloc: Global, boxes: &[Box2]) -> Result<Vec<Box2>, AllocError>
    ensures { IfOk result (λ v. v.items ≡ map exchanged_box boxes.now) }
{
    boxes.iter().map(|b| exchanged_box(b)).collect(alloc)
}

/// Whether the box has squares. Takes no memory.
pub fn has_area(b: &Box2) -> bool
    ensures { MatchBool result (HasArea b.now) (HasArea b.now → ⊥) }
{
    b.x0 < b.x1 && b.y0 < b.y1
}

/// The boxes that have squares.
fn boxes_with_area(alloc: Global, boxes: &[Box2]) -> Result<Vec<Box2>, AllocError>
    ensures { IfOk result (λ v. HoldsJust boxes.now HasArea v.items) }
{
    let mut kept = Vec::with_capacity(alloc, boxes.len())?;
    for b in boxes {
        if has_area(b) {
            kept.push(*b)?;
        }
    }
    Ok(kept)
}

/// The unit squares of the boxes as the boxes of bands, for a caller that needs rows alone. It is half
/// of [`bands`], at half its cost.
///
/// # Errors
/// Out of memory.
pub fn row_bands(alloc: Global, boxes: &[Box2]) -> Result<Vec<Box2>, AllocError>
    ensures squares { IfOk result (λ v. (i j : ℤ) → covers v.items i j ≡ covers boxes.now i j) }
    ensures banded { IfOk result (λ v. AreBands v.items) }
{
    let boxes = boxes_with_area(alloc, boxes)?;
    sweep_up(alloc, boxes)
}

/// Adds the band from the sweep's row to the next border, and goes up to that border.
fn add_next(out: &mut Vec<Box2>, sweep: &mut Sweep, next: i64) -> Result<(), AllocError>
    requires sweeps { SweepsUp sweep.old out.old.items }
    requires up { sweep.old.row <ℤ next }
    requires between { All (HasNoBorderWithin (record { y0 = sweep.old.row; y1 = next })) sweep.old.boxes.items }
    ensures sweeps { OnOk result (SweepsUp sweep.new out.new.items) }
    ensures row { OnOk result (sweep.new.row ≡ next) }
    ensures boxes { sweep.new.boxes ≡ sweep.old.boxes }
{
    let rows = Rows {
        y0: sweep.row(),
        y1: next,
    };
    add_band(out, sweep.active(), rows)?;
    sweep.step(next)?;
    Ok(())
}

/// A sweep of the boxes at the lowest of their rows.
fn sweep_of(alloc: Global, boxes: Vec<Box2>) -> Result<Sweep, AllocError>
    requires { All HasArea boxes.items }
    ensures sweeps { IfOk result (λ s. SweepsUp s []) }
    ensures moved { IfOk result (λ s. IsPermutation boxes.items s.boxes.items) }
{
    let mut sweep = Sweep::new(alloc, boxes)?;
    let lowest = sweep.lowest();
    sweep.step(lowest)?;
    Ok(sweep)
}

/// The bands between the borders of the boxes.
fn sweep_up(alloc: Global, boxes: Vec<Box2>) -> Result<Vec<Box2>, AllocError>
    requires { All HasArea boxes.items }
    ensures squares { IfOk result (λ v. (i j : ℤ) → IsCovered v.items i j ↔ IsCovered boxes.items i j) }
    ensures banded { IfOk result (λ v. AreBands v.items) }
{
    let mut out = Vec::with_capacity(alloc, boxes.len())?;
    let mut sweep = sweep_of(alloc, boxes)?;
    while let Some(next) = sweep.next_border() {
        add_next(&mut out, &mut sweep, next)?;
    }
    Ok(out)
}
