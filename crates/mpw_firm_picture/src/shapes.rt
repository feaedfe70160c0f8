//! Finds the rectangles of shapes in a window: the parts in it of each shape that the walk finds.

ghost use Rattle.std.specs.Prelude.{◌≡◌, All, IfOk, OnOk};
ghost use Rattle.mpw_structures.specs.Element.{IsElement};
ghost use Rattle.mpw_geom.specs.Plane.{HasArea, IsBoxInPlane};
ghost use Rattle.mpw_tiles.specs.Listing.{HasSquareOf};
ghost use Rattle.mpw_tiles.specs.Shown.{ShowsSquare, IsShown};
ghost use Rattle.mpw_walk.specs.Turns.{given};
ghost use Rattle.mpw_walk.specs.Way.{item_of};
ghost use Rattle.mpw_firm_picture.specs.Drawn.{ShowShapes};
ghost use Rattle.mpw_tiles.specs.Internal.Listing.{HasPlacedSquare};
ghost use Rattle.mpw_firm_picture.specs.Internal.Adding.{AddsIn};

use mpw_geom::Box2;
use mpw_region::has_area;
use mpw_tiles::{PlacedShape, Rectangle, Snapshot, squares_lie_in_boxes};
use mpw_walk::{Placed, Walk};
use std::alloc::{AllocError, Global};

/// Adds the part of a rectangle in the window. The only error is out of memory.
fn add_rectangle(
    rectangles: &mut Vec<Rectangle>,
    window: &Box2,
    rectangle: &Rectangle,
) -> Result<(), AllocError>
    ensures ok { OnOk result (AddsIn window.now rectangles.old.items rectangles.new.items (HasSquareOf rectangle.now)) }
{
    let area = window.intersection(rectangle.area);
    if has_area(&area) {
        rectangles.push(Rectangle {
            area,
            layer: rectangle.layer,
            origin: rectangle.origin,
        })?;
    }
    Ok(())
}

/// Adds the parts in the window of the rectangles of a shape's boxes. The only error is out of memory.
fn add_boxes(
    rectangles: &mut Vec<Rectangle>,
    window: &Box2,
    boxes: &[Box2],
    shape: &PlacedShape,
) -> Result<(), AllocError>
    requires plane { IsBoxInPlane window.now }
    requires area { All HasArea boxes.now }
    ensures ok { OnOk result (AddsIn window.now rectangles.old.items rectangles.new.items
        (HasPlacedSquare boxes.now shape.now)) }
{
    for b in boxes {
        add_rectangle(rectangles, window, &shape.rectangle(b))?;
    }
    Ok(())
}

/// Adds the part of a shape in the window. The only error is out of memory.
fn add_shape(
    alloc: Global,
    rectangles: &mut Vec<Rectangle>,
    window: &Box2,
    placed: &Placed<'_>,
) -> Result<(), AllocError>
    requires plane { IsBoxInPlane window.now }
    requires element { IsElement placed.now.element.now }
    ensures ok { OnOk result (AddsIn window.now rectangles.old.items rectangles.new.items
        (ShowsSquare (item_of placed.now))) }
{
    let Some(shape) = PlacedShape::of(placed) else {
        return Ok(());
    };
    let boxes = mpw_shapes::rectangles(alloc, placed.element)?;
    add_boxes(rectangles, window, boxes.as_slice(), &shape)?;
    Ok(())
}

/// Adds the parts in the window of the remaining shapes of the walk. The only error is out of memory.
fn add_shapes(
    alloc: Global,
    rectangles: &mut Vec<Rectangle>,
    window: &Box2,
    walk: &mut Walk<'_>,
) -> Result<(), AllocError>
    requires plane { IsBoxInPlane window.now }
    ensures ok { OnOk result (AddsIn window.now rectangles.old.items rectangles.new.items
        (IsShown (given walk.old.left))) }
{
    while let Some(placed) = walk.next() {
        add_shape(alloc, rectangles, window, &placed)?;
    }
    Ok(())
}

/// The rectangles of a snapshot in a window. They have exactly the squares that the shapes of the roots have in the window, by
/// layer and submission, and lie in it.
///
/// # Errors
/// Out of memory.
pub(crate) fn rectangles_in(
    alloc: Global,
    snapshot: &Snapshot,
    window: &Box2,
) -> Result<Vec<Rectangle>, AllocError>
    requires plane { IsBoxInPlane window.now }
    ensures { IfOk result (λ rectangles. ShowShapes snapshot.now window.now rectangles.items) }
{
    squares_lie_in_boxes();
    snapshot.is_snapshot();
    let mut rectangles = Vec::new(alloc);
    let mut walk = Walk::within(snapshot.shelf(), snapshot.roots(), *window);
    add_shapes(alloc, &mut rectangles, window, &mut walk)?;
    Ok(rectangles)
}
