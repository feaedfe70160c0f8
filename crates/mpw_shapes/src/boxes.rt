//! Lists of boxes, by their unit squares.

ghost use Rattle.std.specs.Prelude.{◌≡◌, ◌↔◌, ◌||◌, All, IsTrue, OnOk};
ghost use Rattle.mpw_geom.specs.Plane.{Square, HasArea, any_has_square, has_square};

use mpw_geom::Box2;
use std::alloc::AllocError;

/// Adds the box to the list, unless it has no area.
pub(crate) fn push_box(boxes: &mut Vec<Box2>, b: Box2) -> Result<(), AllocError>
    ensures squares { OnOk result ((s : Square) → any_has_square boxes.new.items s ≡ (any_has_square boxes.old.items s || has_square b s)) }
    ensures area { All HasArea boxes.old.items → All HasArea boxes.new.items }
{
    if b.x0 < b.x1 && b.y0 < b.y1 {
        boxes.push(b)?;
    }
    Ok(())
}

/// Adds the box to the list, unless it has no area. If it lies on the last one and has the same width, the two are joined.
pub(crate) fn stack_box(boxes: &mut Vec<Box2>, b: Box2) -> Result<(), AllocError>
    requires area { All HasArea boxes.old.items }
    ensures squares { OnOk result ((s : Square) → any_has_square boxes.new.items s ≡ (any_has_square boxes.old.items s || has_square b s)) }
    ensures area { All HasArea boxes.new.items }
{
    let count = boxes.len();
    if count == 0 {
        return push_box(boxes, b);
    }
    let lower = boxes[count - 1];
    if b.y0 < b.y1 && is_continued_by(lower, b) {
        boxes[count - 1] = lower.join(b);
        return Ok(());
    }
    push_box(boxes, b)
}

/// Whether the second box lies on the first and has the same width.
fn is_continued_by(lower: Box2, upper: Box2) -> bool
    ensures { IsTrue result ↔ ((lower.x0 ≡ upper.x0) × (lower.x1 ≡ upper.x1) × (lower.y1 ≡ upper.y0)) }
{
    lower.x0 == upper.x0 && lower.x1 == upper.x1 && lower.y1 == upper.y0
}
