//! Cuts rectangles to a window.

ghost use Rattle.std.specs.Prelude.{◌≡◌, ◌+◌, IfOk};
ghost use Rattle.mpw_job.specs.Answers.{listed_on};
ghost use Rattle.mpw_columns_keys.specs.Columns.{across};
ghost use Rattle.mpw_columns.specs.Internal.Found.{AgreeAll, IsUpright};

use mpw_geom::Box2;
use mpw_region::has_area;
use mpw_tiles::Rectangle;
use std::alloc::{AllocError, Global};

/// The window of a core that is seen along its axis: wider to the left and to the right by the distance plus 1, and no wider up or
/// down.
pub(crate) fn window_of(core: &Box2, distance: u32) -> Box2
    requires { IsUpright core.now }
    ensures { result ≡ across core.now (distance + 1) }
{
    let margin = i64::from(distance) + 1;
    Box2 {
        x0: core.x0 - margin,
        y0: core.y0,
        x1: core.x1 + margin,
        y1: core.y1,
    }
}

/// The parts of the rectangles in the window, in their order. One pass.
pub(crate) fn parts_in(
    alloc: Global,
    rectangles: &[Rectangle],
    window: &Box2,
) -> Result<Vec<Rectangle>, AllocError>
    ensures { IfOk result (λ v. AgreeAll window.now (listed_on rectangles.now) (listed_on v.items)) }
{
    let mut found = Vec::with_capacity(alloc, rectangles.len())?;
    for rectangle in rectangles {
        let area = rectangle.area.intersection(*window);
        if has_area(&area) {
            found.push(Rectangle {
                area,
                layer: rectangle.layer,
                origin: rectangle.origin,
            })?;
        }
    }
    Ok(found)
}
