//! Places shapes and rectangles.

ghost use Rattle.std.specs.Prelude.{◌≡◌, true, ◌+ℤ◌, neg_ℤ, IfNone, IfSome, None};
ghost use Rattle.mpw_hier.specs.Boxes.{placed_box, is_box_near};
ghost use Rattle.mpw_walk.specs.Way.{item_of};
ghost use Rattle.mpw_geom.specs.Plane.{Square, IsBoxInPlane, IsOrdered, has_square};
ghost use Rattle.mpw_geom.specs.Placing.{placed_point, placed_square};
ghost use Rattle.mpw_tiles.specs.Placed.{IsSquareInPlane, IsShapeOf, IsRectangleOf, nearest};
ghost use Rattle.mpw_tiles.specs.Shown.{layer_of};
ghost use Rattle.mpw_tiles.specs.Internal.Placed.{nearest_point};

use crate::listing::Rectangle;
use mpw_geom::{Box2, Layer, Orient, Placing, Point};
use mpw_structures::Element;
use mpw_walk::Placed;

/// What the rectangles of a shape have in common: its layer, the number of the submission from which it comes, and its
/// placing.
#[derive(Clone, Copy)]
pub struct PlacedShape {
    /// The layer of the shape, with its datatype.
    pub layer: Layer,
    /// The number of the submission from which it comes, from 0.
    pub origin: u32,
    /// The placing from the coordinates of the shape's structure to those of the rectangles.
    pub placing: Placing,
}

/// The layer of a shape; `None` for a reference.
fn layer_of(element: &Element) -> Option<Layer>
    ensures { result ≡ layer_of element.now }
{
    match element {
        Element::Boundary(boundary) => Some(boundary.layer),
        Element::Path(path) => Some(path.get().layer),
        Element::Reference(_) => None,
    }
}

impl PlacedShape {
    /// What the rectangles of a shape of a walk have in common; `None` for a reference. Takes no memory.
    pub fn of(placed: &Placed<'_>) -> Option<PlacedShape>
        ensures some { IfSome result (IsShapeOf (item_of placed.now)) }
        ensures none { IfNone result (layer_of placed.now.element.now ≡ None) }
    {
        let layer = layer_of(placed.element)?;
        Some(PlacedShape {
            layer,
            origin: placed.origin,
            placing: placed.placing,
        })
    }

    /// The rectangle of one of the shape's boxes, cut to the plane of coordinates from -2^48 to 2^48. Takes no memory.
    pub fn rectangle(&self, b: &Box2) -> Rectangle
        requires { IsOrdered b.now }
        ensures { IsRectangleOf self.now b.now result }
    {
        Rectangle {
            area: placed_area(&self.placing, b),
            layer: self.layer,
            origin: self.origin,
        }
    }
}

/// The greatest absolute coordinate of the plane, in nm.
const MAX_COORDINATE: i64 = 1 << 48;

/// The sum, or the nearest coordinate of the plane.
fn plus(z: i64, by: i64) -> i64
    ensures { result ≡ nearest (z +ℤ by) }
{
    z.saturating_add(by)
        .max(-MAX_COORDINATE)
        .min(MAX_COORDINATE)
}

/// The difference `by - z`, or the nearest coordinate of the plane.
fn minus(z: i64, by: i64) -> i64
    ensures { result ≡ nearest (neg_ℤ z +ℤ by) }
{
    by.saturating_sub(z)
        .max(-MAX_COORDINATE)
        .min(MAX_COORDINATE)
}

/// The image of the point under the placing, or the nearest coordinates of the plane.
#[tactic(auto, using(mpw_geom::proofs::Turns::negations), unfolding(mpw_geom::specs::Placing::placed_point, mpw_geom::specs::Placing::oriented_point))]
fn placed_coordinates(placing: &Placing, p: &Point) -> (i64, i64)
    ensures x { result.0 ≡ nearest (placed_point placing.now p.now).x }
    ensures y { result.1 ≡ nearest (placed_point placing.now p.now).y }
{
    let by = placing.by;
    match placing.orient {
        Orient::R0 => (plus(p.x, by.x), plus(p.y, by.y)),
        Orient::R90 => (minus(p.y, by.x), plus(p.x, by.y)),
        Orient::R180 => (minus(p.x, by.x), minus(p.y, by.y)),
        Orient::R270 => (plus(p.y, by.x), minus(p.x, by.y)),
        Orient::M0 => (plus(p.x, by.x), minus(p.y, by.y)),
        Orient::M90 => (plus(p.y, by.x), plus(p.x, by.y)),
        Orient::M180 => (minus(p.x, by.x), plus(p.y, by.y)),
        Orient::M270 => (minus(p.y, by.x), minus(p.x, by.y)),
    }
}

/// The image of the point under the placing, or the nearest point of the plane.
fn placed_point(placing: &Placing, p: &Point) -> Point
    ensures { result ≡ nearest_point (placed_point placing.now p.now) }
{
    let (x, y) = placed_coordinates(placing, p);
    Point { x, y }
}

/// The image of the rectangle under the placing, cut to -2^48 to 2^48 nm. It is exact if it lies within -2^30 to
/// 2^30. Takes no memory.
pub(crate) fn placed_area(placing: &Placing, b: &Box2) -> Box2
    requires { IsOrdered b.now }
    ensures squares { (s : Square) → IsSquareInPlane (placed_square placing.now s) →
        has_square result (placed_square placing.now s) ≡ has_square b.now s }
    ensures near { is_box_near (placed_box placing.now b.now) ≡ true → result ≡ placed_box placing.now b.now }
    ensures ordered { IsOrdered result }
    ensures plane { IsBoxInPlane result }
{
    let p = placed_point(placing, &Point { x: b.x0, y: b.y0 });
    let q = placed_point(placing, &Point { x: b.x1, y: b.y1 });
    Box2::between(p, q)
}
