//! The lines of shapes.
//!
//! A listing gives its shapes one by one. Each is written at once, and no line is stored.
ghost use Rattle.std.specs.Prelude.{◌≡◌, All};
ghost use Rattle.std.specs.List.{flat_map};
ghost use Rattle.mpw_geom.specs.Plane.{IsInPlane};
ghost use Rattle.mpw_structures.specs.Element.{IsPointWithinReach, IsBoundary, IsPath};
ghost use Rattle.mpw_structures.specs.declared.element.Element.TheVariants as ElementTold;
ghost use Rattle.mpw_replies.specs.Shapes.{IsPlaceableView, line_of};
ghost use Rattle.mpw_reply_text.specs.Reply.{point_text, points_text, shape_end, boundary_head, path_head, shape_text, listed_text};
ghost use Rattle.mpw_wire.specs.Writing.{Writes};

use crate::write::write_parts;
use itoa::Buffer;
use mpw_devices::Sink;
use mpw_geom::{Layer, Name, Placing, Point};
use mpw_replies::{ShapeListing, ShapeView};
use mpw_structures::{Boundary, Element, Path, Points};
use mpw_wire::WireFault;

/// Writes a point, after a space.
fn write_point<W: Sink>(writer: &mut W, point: Point) -> Result<(), WireFault>
    ensures { Writes W.contents W.failures writer.old writer.new result (point_text point) }
{
    let mut x = Buffer::new();
    let mut y = Buffer::new();
    write_parts(writer, &[" ", x.format(point.x), " ", y.format(point.y)])
}

/// Writes points after a placing.
#[tactic(auto, unfolding(crate::specs::Reply::points_text))]
fn write_points<W: Sink>(writer: &mut W, placing: Placing, points: &Points) -> Result<(), WireFault>
    requires points { All IsPointWithinReach points.now }
    requires displacement { IsInPlane placing.by }
    ensures { Writes W.contents W.failures writer.old writer.new result (points_text placing points.now) }
{
    for index in 0..points.len() {
        write_point(writer, placing.apply(points.at(index)))?;
    }
    Ok(())
}

/// Writes the points of a shape, and the end of its line.
#[tactic(auto, unfolding(crate::specs::Reply::shape_end))]
fn write_end<W: Sink>(writer: &mut W, placing: Placing, points: &Points) -> Result<(), WireFault>
    requires points { All IsPointWithinReach points.now }
    requires displacement { IsInPlane placing.by }
    ensures { Writes W.contents W.failures writer.old writer.new result (shape_end placing points.now) }
{
    write_points(writer, placing, points)?;
    write_parts(writer, &["\n"])
}

/// Writes the beginning of the line of a boundary.
fn write_boundary_head<W: Sink>(
    writer: &mut W,
    cell: &Name,
    version: u32,
    layer: Layer,
) -> Result<(), WireFault>
    ensures { Writes W.contents W.failures writer.old writer.new result (boundary_head cell.now version layer) }
{
    write_parts(
        writer,
        &[
            cell.as_str(),
            " ",
            Buffer::new().format(version),
            " ",
            Buffer::new().format(layer.layer),
            "/",
            Buffer::new().format(layer.datatype),
            " boundary",
        ],
    )
}

/// Writes the beginning of the line of a path.
fn write_path_head<W: Sink>(
    writer: &mut W,
    cell: &Name,
    version: u32,
    path: &Path,
) -> Result<(), WireFault>
    ensures { Writes W.contents W.failures writer.old writer.new result (path_head cell.now version path.now) }
{
    write_parts(
        writer,
        &[
            cell.as_str(),
            " ",
            Buffer::new().format(version),
            " ",
            Buffer::new().format(path.layer.layer),
            "/",
            Buffer::new().format(path.layer.datatype),
            " path ",
            Buffer::new().format(path.width),
            " ",
            Buffer::new().format(path.begin),
            " ",
            Buffer::new().format(path.end),
        ],
    )
}

/// Writes the line of a boundary.
#[tactic(auto, unfolding(crate::specs::Reply::shape_text))]
fn write_boundary<W: Sink>(
    writer: &mut W,
    shape: &ShapeView<'_>,
    boundary: &Boundary,
) -> Result<(), WireFault>
    requires boundary { IsBoundary boundary.now }
    requires displacement { IsInPlane shape.now.placing.by }
    ensures { Writes W.contents W.failures writer.old writer.new result (shape_text shape.now.cell.now shape.now.version shape.now.placing (ElementTold.Boundary boundary.now)) }
{
    write_boundary_head(writer, shape.cell, shape.version, boundary.layer)?;
    write_end(writer, shape.placing, &boundary.points)
}

/// Writes the line of a path.
#[tactic(auto, unfolding(crate::specs::Reply::shape_text))]
fn write_path<W: Sink>(writer: &mut W, shape: &ShapeView<'_>, path: &Path) -> Result<(), WireFault>
    requires path { IsPath path.now }
    requires displacement { IsInPlane shape.now.placing.by }
    ensures { Writes W.contents W.failures writer.old writer.new result (shape_text shape.now.cell.now shape.now.version shape.now.placing (ElementTold.Path path.now)) }
{
    write_path_head(writer, shape.cell, shape.version, path)?;
    write_end(writer, shape.placing, &path.points)
}

/// Writes the line of a shape.
#[tactic(auto, unfolding(crate::specs::Reply::shape_text))]
fn write_shape<W: Sink>(writer: &mut W, shape: &ShapeView<'_>) -> Result<(), WireFault>
    requires { IsPlaceableView shape.now }
    ensures { Writes W.contents W.failures writer.old writer.new result (listed_text (line_of shape.now)) }
{
    match shape.element {
        Element::Boundary(boundary) => write_boundary(writer, shape, boundary),
        Element::Path(path) => write_path(writer, shape, path.get()),
        Element::Reference(_) => Ok(()),
    }
}

/// Writes the lines of a listing, one by one. It takes no memory. Cost: the listing's walk and the size of the text.
pub(crate) fn write_shapes<W: Sink>(writer: &mut W, listing: &ShapeListing) -> Result<(), WireFault>
    ensures { Writes W.contents W.failures writer.old writer.new result (flat_map listed_text listing.now) }
{
    let mut views = listing.views();
    while let Some(shape) = views.next() {
        write_shape(writer, &shape)?;
    }
    Ok(())
}
