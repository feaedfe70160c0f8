//! Computes the positions of entries. Nothing here takes memory.

ghost use Rattle.std.specs.Prelude.{◌≡◌, ◌↔◌, ◌+ℤ◌, ◌*ℤ◌, pos, true, IsTrue, IfSome};
ghost use Rattle.mpw_geom.specs.Plane.{IsCoordinate, IsInPlane};
ghost use Rattle.mpw_hier.specs.Boxes.{is_box_near, placed_box};
ghost use Rattle.mpw_hier.specs.Items.{instance, stepped};
ghost use Rattle.mpw_columns_contents.specs.Things.{reference_of};

use crate::thing::Array;
use mpw_geom::{Box2, Placing, Point};

/// The greatest coordinate of a displacement, in nm.
const LONGEST: i64 = 1 << 48;

/// The coordinate `count` steps after another. `None` if 64 bits are too few.
fn coordinate_after(from: i64, count: u16, step: i64) -> Option<i64>
    ensures { IfSome result (λ z. z ≡ from +ℤ (pos count *ℤ step)) }
{
    let way = i64::from(count).checked_mul(step)?;
    from.checked_add(way)
}

/// The point `count` steps after another. `None` if 64 bits are too few.
pub fn point_after(point: Point, count: u16, step: Point) -> Option<Point>
    ensures { IfSome result (λ p. p ≡ stepped point count step) }
{
    let x = coordinate_after(point.x, count, step.x)?;
    let y = coordinate_after(point.y, count, step.y)?;
    Some(Point { x, y })
}

/// Whether a coordinate is at most 2^48 nm in magnitude.
fn is_coordinate(z: i64) -> bool
    ensures { IsTrue result ↔ IsCoordinate z }
{
    -LONGEST <= z && z <= LONGEST
}

/// Whether both coordinates are at most 2^48 nm in magnitude.
pub fn is_in_plane(point: Point) -> bool
    ensures { IsTrue result ↔ IsInPlane point }
{
    is_coordinate(point.x) && is_coordinate(point.y)
}

/// The placing of the instance in a row and a column. `None` if it exceeds 2^48 nm.
pub fn instance(array: &Array, row: u16, column: u16) -> Option<Placing>
    ensures placing { IfSome result (λ t. t ≡ instance (reference_of array.now) row column) }
    ensures near { IfSome result (λ t. IsInPlane t.by) }
{
    let first = point_after(array.first.by, column, array.column_step)?;
    let by = point_after(first, row, array.row_step)?;
    if !is_in_plane(by) {
        return None;
    }
    Some(Placing {
        orient: array.first.orient,
        by,
    })
}

/// The image of a near box under a placing.
pub fn placed_box(placing: Placing, b: Box2) -> Box2
    requires near { is_box_near b ≡ true }
    requires displacement { IsInPlane placing.by }
    ensures { result ≡ placed_box placing b }
{
    let p = placing.apply(Point { x: b.x0, y: b.y0 });
    let q = placing.apply(Point { x: b.x1, y: b.y1 });
    Box2::between(p, q)
}
