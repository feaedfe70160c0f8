//! The least boxes that contain the shapes of elements. Nothing here takes memory.

ghost use Rattle.std.specs.Prelude.{◌≡◌, ◌≤◌, All, drop, length, if◌then◌else◌, Some, None};
ghost use Rattle.mpw_structures.specs.Element.{IsElement, IsPath, IsPointWithinReach, IsWithinReach};
ghost use Rattle.mpw_structures.specs.declared.element.Element.TheVariants as elements;
ghost use Rattle.mpw_hier.specs.Boxes.{hull, hull_of_points, has_area, element_box};
ghost use Rattle.mpw_hier.specs.Internal.SizeParts.{wires_box};

use crate::size_box::{has_area, hull};
use mpw_geom::Box2;
use mpw_shapes::{Wire, first_wire};
use mpw_structures::{Element, Path, Points, PointsView};

/// The least box that contains the points.
fn points_box(points: &Points) -> Option<Box2>
    ensures { result ≡ hull_of_points points.now }
{
    let mut extent = None;
    for index in 0..points.len() {
        extent = hull(extent, Some(Box2::at(points.at(index))));
    }
    extent
}

/// The box, if it has an area.
fn if_area(b: Box2) -> Option<Box2>
    ensures { result ≡ (if has_area b then Some b else None) }
{
    if has_area(b) { Some(b) } else { None }
}

/// The rectangle of the first of these segments, if it has an area. The last segment has the extension of the path's end.
fn segment_box(path: &Path, wire: Wire, rest: &PointsView<'_>) -> Option<Box2>
    requires path { IsPath path.now }
    requires half { IsWithinReach wire.half }
    requires before { IsWithinReach wire.before }
    requires behind { wire.behind ≡ wire.half }
    requires points { All IsPointWithinReach rest.now }
    requires least { 2 ≤ length rest.now }
    ensures { wires_box wire.half wire.before path.now.end rest.now ≡ hull result (wires_box wire.half wire.half path.now.end (drop 1 rest.now)) }
{
    let segment = if rest.len() == 2 {
        wire.to_end_of(path)
    } else {
        wire
    };
    if_area(segment.box_along(rest.at(0), rest.at(1)))
}

/// The box of the points of a path, and of those of its rectangles that have an area.
fn path_box(path: &Path) -> Option<Box2>
    requires { IsPath path.now }
    ensures { result ≡ element_box (elements.Path path.now) }
{
    let mut rest = path.points.view();
    let mut extent = points_box(&path.points);
    let mut wire = first_wire(path);
    while rest.len() >= 2 {
        extent = hull(extent, segment_box(path, wire, &rest));
        wire = wire.from_inner();
        rest = rest.behind();
    }
    extent
}

/// The least box that contains an element's points and, for a path, those of its rectangles that have an area. `None` for a reference.
/// Cost: linear in the points.
#[tactic(auto, unfolding(crate::specs::Boxes::element_box))]
pub fn element_box(element: &Element) -> Option<Box2>
    requires { IsElement element.now }
    ensures { result ≡ element_box element.now }
{
    match element {
        Element::Boundary(boundary) => points_box(&boundary.points),
        Element::Path(path) => path_box(path.get()),
        Element::Reference(_) => None,
    }
}
