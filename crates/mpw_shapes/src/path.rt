//! Computes the rectangles of a path.

ghost use Rattle.std.specs.Prelude.{◌≡◌, ℤ, pos, All, IfOk, int_div};
ghost use Rattle.mpw_geom.specs.Plane.{Square, HasArea, any_has_square};
ghost use Rattle.mpw_structures.specs.Element.{IsPath, IsWithinReach, IsPointWithinReach};
ghost use Rattle.mpw_shapes.specs.Path.{path_has, wire_box};
ghost use Rattle.mpw_shapes.specs.Internal.Wire.{along, across, framed};

use crate::boxes::push_box;
use mpw_geom::{Box2, Point};
use mpw_structures::Path;
use std::alloc::{AllocError, Global};

/// An interval of an axis, in nm.
#[derive(Clone, Copy)]
pub(crate) struct Stretch {
    /// The coordinate where it begins.
    pub low: i64,
    /// The coordinate where it ends. It is below `low` if a negative extension is longer than the segment.
    pub high: i64,
}

/// The box with these intervals along the axes.
fn framed(x: Stretch, y: Stretch) -> Box2
    ensures { result ≡ framed x y }
{
    Box2 {
        x0: x.low,
        y0: y.low,
        x1: x.high,
        y1: y.high,
    }
}

/// How far a segment of a centre line extends to its sides, before its first point and after its
/// second point, in nm.
#[derive(Clone, Copy)]
pub struct Wire {
    /// Half the width of the path.
    pub half: i64,
    /// The extension before the first point. It may be negative at the first point of the path.
    pub before: i64,
    /// The extension after the second point. It may be negative at the last point of the path.
    pub behind: i64,
}

impl Wire {
    /// The interval of a segment along its direction, from one coordinate to another.
    #[tactic(auto, unfolding(crate::specs::Internal::Wire::along))]
    fn along(self, from: i64, to: i64) -> Stretch
        requires before { IsWithinReach self.before }
        requires behind { IsWithinReach self.behind }
        requires from { IsWithinReach from }
        requires to { IsWithinReach to }
        ensures { result ≡ along self.before self.behind from to }
    {
        if from < to {
            Stretch {
                low: from - self.before,
                high: to + self.behind,
            }
        } else {
            Stretch {
                low: to - self.behind,
                high: from + self.before,
            }
        }
    }

    /// The interval of a segment across its direction, at its coordinate.
    fn across(self, at: i64) -> Stretch
        requires half { IsWithinReach self.half }
        requires at { IsWithinReach at }
        ensures { result ≡ across self.half at }
    {
        Stretch {
            low: at - self.half,
            high: at + self.half,
        }
    }

    /// The box of the segment from one point to another. If an extension is negative, it may have no
    /// area. Takes no memory.
    pub fn box_along(self, from: Point, to: Point) -> Box2
        requires half { IsWithinReach self.half }
        requires before { IsWithinReach self.before }
        requires behind { IsWithinReach self.behind }
        requires from { IsPointWithinReach from }
        requires to { IsPointWithinReach to }
        ensures { result ≡ wire_box self.half self.before self.behind from to }
    {
        if from.y == to.y {
            framed(self.along(from.x, to.x), self.across(from.y))
        } else {
            framed(self.across(from.x), self.along(from.y, to.y))
        }
    }

    /// The same extensions for a segment that begins at an inner point.
    pub fn from_inner(self) -> Wire
        ensures { result ≡ record { half = self.half; before = self.half; behind = self.behind } }
    {
        Wire {
            before: self.half,
            ..self
        }
    }

    /// The same extensions for a segment that ends at the end of the path.
    pub fn to_end_of(self, path: &Path) -> Wire
        ensures { result ≡ record { half = self.half; before = self.before; behind = path.now.end } }
    {
        Wire {
            behind: path.end,
            ..self
        }
    }
}

/// The first segment of a path, up to an inner point.
pub fn first_wire(path: &Path) -> Wire
    ensures { result ≡ record { half = int_div path.now.width (pos 2); before = path.now.begin; behind = int_div path.now.width (pos 2) } }
{
    let half = path.width / 2;
    Wire {
        half,
        before: path.begin,
        behind: half,
    }
}

/// One rectangle for each segment of the centre line (GDSII Stream release 6, PATH), without those
/// that have no area. The only error is out of memory. Cost: linear in the points.
pub(crate) fn path_rectangles(alloc: Global, path: &Path) -> Result<Vec<Box2>, AllocError>
    requires { IsPath path.now }
    ensures squares { IfOk result (λ boxes. (s : Square) → any_has_square boxes.items s ≡ path_has path.now s) }
    ensures area { IfOk result (λ boxes. All HasArea boxes.items) }
{
    let mut boxes = Vec::new(alloc);
    let mut wire = first_wire(path);
    let points = path.points.to_vec(alloc)?;
    let mut rest = points.as_slice();
    while rest.len() > 2 {
        push_box(&mut boxes, wire.box_along(rest[0], rest[1]))?;
        wire = wire.from_inner();
        rest = &rest[1..];
    }
    if rest.len() == 2 {
        let last = wire.to_end_of(path);
        push_box(&mut boxes, last.box_along(rest[0], rest[1]))?;
    }
    Ok(boxes)
}
