//! Lists shapes: the rectangles of each, placed, go into the lists of the windows with which they share squares.

ghost use Rattle.std.specs.Prelude.{◌≡◌, length, All, OnOk};
ghost use Rattle.mpw_structures.specs.Element.{IsElement};
ghost use Rattle.mpw_geom.specs.Plane.{HasArea};
ghost use Rattle.mpw_walk.specs.Turns.{given};
ghost use Rattle.mpw_walk.specs.Way.{item_of};
ghost use Rattle.mpw_tiles.specs.Internal.Listing.{AddsSquares, HasPlacedSquare};
ghost use Rattle.mpw_tiles.specs.Placed.{WindowsLieInPlane};
ghost use Rattle.mpw_tiles.specs.Plan.{tiles};
ghost use Rattle.mpw_tiles.specs.Shown.{ShowsSquare, IsShown};

use crate::fill::list_rectangle;
use crate::listing::Listed;
use crate::place::PlacedShape;
use crate::plan::Plan;
use mpw_geom::Box2;
use mpw_shapes::rectangles;
use mpw_walk::{Placed, Walk};
use std::alloc::{AllocError, Global};

/// Lists the rectangles of a shape's boxes. The only error is out of memory.
fn list_boxes(
    lists: &mut Vec<Listed>,
    plan: &Plan,
    boxes: &[Box2],
    shape: &PlacedShape,
) -> Result<(), AllocError>
    requires count { length lists.old.items ≡ tiles plan.now }
    requires plane { WindowsLieInPlane plan.now }
    requires area { All HasArea boxes.now }
    ensures ok { OnOk result (AddsSquares plan.now lists.old.items lists.new.items
        (HasPlacedSquare boxes.now shape.now)) }
{
    for b in boxes {
        list_rectangle(lists, plan, &shape.rectangle(b))?;
    }
    Ok(())
}

/// Lists the rectangles of a shape. The only error is out of memory.
fn list_shape(
    alloc: Global,
    lists: &mut Vec<Listed>,
    plan: &Plan,
    placed: &Placed<'_>,
) -> Result<(), AllocError>
    requires count { length lists.old.items ≡ tiles plan.now }
    requires plane { WindowsLieInPlane plan.now }
    requires element { IsElement placed.now.element.now }
    ensures ok { OnOk result (AddsSquares plan.now lists.old.items lists.new.items (ShowsSquare (item_of placed.now))) }
{
    let Some(shape) = PlacedShape::of(placed) else {
        return Ok(());
    };
    let boxes = rectangles(alloc, placed.element)?;
    list_boxes(lists, plan, boxes.as_slice(), &shape)?;
    Ok(())
}

/// Lists the rectangles of the remaining shapes of the walk. The only error is out of memory.
pub(crate) fn list_shapes(
    alloc: Global,
    lists: &mut Vec<Listed>,
    plan: &Plan,
    walk: &mut Walk<'_>,
) -> Result<(), AllocError>
    requires count { length lists.old.items ≡ tiles plan.now }
    requires plane { WindowsLieInPlane plan.now }
    ensures ok { OnOk result (AddsSquares plan.now lists.old.items lists.new.items (IsShown (given walk.old.left))) }
{
    while let Some(placed) = walk.next() {
        list_shape(alloc, lists, plan, &placed)?;
    }
    Ok(())
}
