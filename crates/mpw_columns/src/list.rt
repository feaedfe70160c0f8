//! Lists the rectangles of the shapes that a walk finds, seen along an axis.

ghost use Rattle.std.specs.Prelude.{◌≡◌, All, IfOk, OnOk};
ghost use Rattle.mpw_structures.specs.Element.{IsElement};
ghost use Rattle.mpw_geom.specs.Plane.{HasArea};
ghost use Rattle.mpw_walk.specs.Turns.{given};
ghost use Rattle.mpw_walk.specs.Way.{item_of};
ghost use Rattle.mpw_tiles.specs.Internal.Listing.{HasPlacedSquare};
ghost use Rattle.mpw_tiles.specs.Shown.{ShowsSquare};
ghost use Rattle.mpw_columns_keys.specs.Columns.{seen_box};
ghost use Rattle.mpw_columns.specs.Internal.Listed.{seen_rectangle, AddsSeen, AddsShown, ShowSeen};

use crate::look::has_layer;
use mpw_edges::Axis;
use mpw_geom::{Box2, Layer};
use mpw_region::exchanged_box;
use mpw_shapes::rectangles;
use mpw_tiles::{PlacedShape, Rectangle};
use mpw_walk::{Placed, Walk};
use std::alloc::{AllocError, Global};

/// The box, seen along the axis. The same function leads back.
pub(crate) fn seen_box(axis: Axis, b: &Box2) -> Box2
    ensures { result ≡ seen_box axis b.now }
{
    match axis {
        Axis::V => *b,
        Axis::H => exchanged_box(b),
    }
}

/// The rectangle, seen along the axis.
fn seen_rectangle(axis: Axis, rectangle: &Rectangle) -> Rectangle
    ensures { result ≡ seen_rectangle axis rectangle.now }
{
    Rectangle {
        area: seen_box(axis, &rectangle.area),
        layer: rectangle.layer,
        origin: rectangle.origin,
    }
}

/// Lists the rectangles of a shape's boxes. The only error is out of memory.
fn list_boxes(
    listed: &mut Vec<Rectangle>,
    axis: Axis,
    boxes: &[Box2],
    shape: &PlacedShape,
) -> Result<(), AllocError>
    requires { All HasArea boxes.now }
    ensures { OnOk result (AddsSeen axis listed.old.items listed.new.items (HasPlacedSquare boxes.now shape.now)) }
{
    for b in boxes {
        listed.push(seen_rectangle(axis, &shape.rectangle(b)))?;
    }
    Ok(())
}

/// Lists the rectangles of a shape if it is on one of the layers. The only error is out of memory.
pub(crate) fn list_shape(
    alloc: Global,
    listed: &mut Vec<Rectangle>,
    layers: &[Layer],
    axis: Axis,
    placed: &Placed<'_>,
) -> Result<(), AllocError>
    requires { IsElement placed.now.element.now }
    ensures { OnOk result (AddsShown layers.now axis listed.old.items listed.new.items (ShowsSquare (item_of placed.now))) }
{
    let Some(shape) = PlacedShape::of(placed) else {
        return Ok(());
    };
    if !has_layer(layers, shape.layer) {
        return Ok(());
    }
    let boxes = rectangles(alloc, placed.element)?;
    list_boxes(listed, axis, boxes.as_slice(), &shape)?;
    Ok(())
}

/// The rectangles of the remaining shapes of the walk that are on these layers, seen along the axis. The only error is out of memory.
pub(crate) fn list_shapes(
    alloc: Global,
    layers: &[Layer],
    axis: Axis,
    walk: &mut Walk<'_>,
) -> Result<Vec<Rectangle>, AllocError>
    ensures { IfOk result (λ v. ShowSeen layers.now axis (given walk.old.left) v.items) }
{
    let mut listed = Vec::new(alloc);
    while let Some(placed) = walk.next() {
        list_shape(alloc, &mut listed, layers, axis, &placed)?;
    }
    Ok(listed)
}
