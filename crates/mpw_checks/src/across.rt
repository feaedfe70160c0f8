//! Merges boxes that reach across a window from side to side into as few as possible.
//!
//! Of the boxes in a strip only those that begin or end in it bound its bands from left to right.
//! The others are whole rows. However many they are, few are left once those that overlap or touch
//! are joined.

ghost use Rattle.std.specs.Prelude.{◌≡◌, ◌↔◌, ◌⊎◌, ◌<ℤ◌, ℤ, All, IfOk, OnOk, IsTrue};
ghost use Rattle.mpw_region.specs.Runs.{IsFilled};
ghost use Rattle.mpw_region.specs.Squares.{covers};
ghost use Rattle.mpw_region.specs.Internal.Swept.{IsCovered};
ghost use Rattle.mpw_checks.specs.Internal.Across.{IsAcross};

use mpw_geom::Box2;
use mpw_region::{Line, Run, join_runs};
use std::alloc::{AllocError, Global};

/// The boxes of a window that begin or end within it, and the rows of those that reach across it.
#[derive(Drop)]
struct Apart {
    within: Vec<Box2>,
    across: Vec<Run>,
}

/// Whether the box reaches from side to side of the window.
fn reaches_across(b: &Box2, window: &Box2) -> bool
    ensures { IsTrue result →
        (b.now.x0 ≡ window.now.x0) × (b.now.x1 ≡ window.now.x1) × (b.now.y0 <ℤ b.now.y1) }
{
    b.x0 == window.x0 && b.x1 == window.x1 && b.y0 < b.y1
}

/// The rows of the box.
fn rows(b: &Box2) -> Run
    ensures from { result.from ≡ b.now.y0 }
    ensures to { result.to ≡ b.now.y1 }
{
    Run {
        line: Line {
            side: 0,
            first: 0,
            second: 0,
        },
        from: b.y0,
        to: b.y1,
    }
}

/// The boxes that begin or end within the window, and the rows of the others.
fn separate(alloc: Global, boxes: &[Box2], window: &Box2) -> Result<Apart, AllocError>
    ensures squares { IfOk result (λ a. (i j : ℤ) →
        IsCovered boxes.now i j ↔ (IsCovered a.within.items i j ⊎ IsAcross window.now a.across.items i j)) }
    ensures filled { IfOk result (λ a. All IsFilled a.across.items) }
{
    let mut within = Vec::new(alloc);
    let mut across = Vec::new(alloc);
    for b in boxes {
        if reaches_across(b, window) {
            across.push(rows(b))?;
        } else {
            within.push(*b)?;
        }
    }
    Ok(Apart { within, across })
}

/// The box across the window with the rows of the run.
fn across(window: &Box2, run: &Run) -> Box2
    ensures left { result.x0 ≡ window.now.x0 }
    ensures right { result.x1 ≡ window.now.x1 }
    ensures from { run.now.from ≡ result.y0 }
    ensures to { run.now.to ≡ result.y1 }
{
    Box2 {
        x0: window.x0,
        y0: run.from,
        x1: window.x1,
        y1: run.to,
    }
}

/// Adds a box across the window for each run of rows.
fn add_across(boxes: &mut Vec<Box2>, runs: &[Run], window: &Box2) -> Result<(), AllocError>
    ensures { OnOk result ((i j : ℤ) → IsCovered boxes.new.items i j
        ↔ (IsCovered boxes.old.items i j ⊎ IsAcross window.now runs.now i j)) }
{
    for run in runs {
        boxes.push(across(window, run))?;
    }
    Ok(())
}

/// Whether many of the boxes reach across the window: more than one, and at least one in four.
pub(crate) fn are_many(boxes: &[Box2], window: &Box2) -> bool {
    let across = boxes.iter().filter(|b| reaches_across(b, window)).count();
    across > 1 && across >= boxes.len() / 4
}

/// The squares of the boxes, by boxes of which no two that reach across the window overlap or
/// touch. Cost: a sort of their rows.
pub(crate) fn merge_across(
    alloc: Global,
    boxes: &[Box2],
    window: &Box2,
) -> Result<Vec<Box2>, AllocError>
    ensures { IfOk result (λ v. (i j : ℤ) → covers v.items i j ≡ covers boxes.now i j) }
{
    let Apart { within, across } = separate(alloc, boxes, window)?;
    let across = join_runs(alloc, across)?;
    let mut within = within;
    add_across(&mut within, across.as_slice(), window)?;
    Ok(within)
}
