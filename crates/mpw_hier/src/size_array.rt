//! Computes the least box of all instances of an array. Nothing here takes memory.
//!
//! The instances at the four corners of an array have the same least box as all of them. So the first instance and the displacements to the last
//! column and the last row are enough. Sums are computed in 128 bits, since the last instance of a wide array may lie beyond 64 bits.

ghost use Rattle.std.specs.Prelude.{◌≡◌, ◌-◌, ◌+ℤ◌, ◌*ℤ◌, pos, true, Some, IfSome, IfNone};
ghost use Rattle.std.specs.Int.{int_min, int_max};
ghost use Rattle.mpw_geom.specs.declared.plane.Box2.{Box2};
ghost use Rattle.mpw_structures.specs.Element.{IsCount, IsWithinReach, IsPointWithinReach, IsReference};
ghost use Rattle.mpw_hier.specs.Boxes.{is_box_near, placed_box};
ghost use Rattle.mpw_hier.specs.Internal.Sizes.{IsExtentFar};
ghost use Rattle.mpw_hier.specs.Internal.SizeParts.{IsWide, IsWideBox, array_extent};

use crate::size_box::is_near;
use mpw_geom::{Box2, Placing, Point};
use mpw_structures::Reference;

/// A box in nm whose corners may lie beyond 64 bits.
#[derive(Clone, Copy)]
struct WideBox {
    x0: i128,
    y0: i128,
    x1: i128,
    y1: i128,
}

/// A displacement in nm, which may need more than 64 bits.
#[derive(Clone, Copy)]
struct WidePoint {
    x: i128,
    y: i128,
}

impl WideBox {
    #[tactic(auto, unfolding(crate::specs::Boxes::is_box_near))]
    fn is_near(self) -> bool
        ensures { result ≡ is_box_near (record { x0 = self.x0; y0 = self.y0; x1 = self.x1; y1 = self.y1 }) }
    {
        is_near(self.x0) & is_near(self.y0) & is_near(self.x1) & is_near(self.y1)
    }

    /// The same box in 64 bits.
    fn narrow(self) -> Box2
        requires { is_box_near (record { x0 = self.x0; y0 = self.y0; x1 = self.x1; y1 = self.y1 }) ≡ true }
        ensures { result ≡ record { x0 = self.x0; y0 = self.y0; x1 = self.x1; y1 = self.y1 } }
    {
        Box2 {
            x0: self.x0 as i64,
            y0: self.y0 as i64,
            x1: self.x1 as i64,
            y1: self.y1 as i64,
        }
    }
}

/// The distance from the first to the last of `count` instances in a line.
fn last_along(count: u16, step: i64) -> i128
    requires count { IsCount count }
    requires step { IsWithinReach step }
    ensures made { result ≡ pos (count - 1) *ℤ step }
    ensures wide { IsWide result }
{
    i128::from(count - 1) * i128::from(step)
}

/// The displacement from the first to the last of `count` instances.
fn last_origin(count: u16, step: Point) -> WidePoint
    requires count { IsCount count }
    requires step { IsPointWithinReach step }
    ensures x { result.x ≡ pos (count - 1) *ℤ step.x }
    ensures y { result.y ≡ pos (count - 1) *ℤ step.y }
    ensures wide_x { IsWide result.x }
    ensures wide_y { IsWide result.y }
{
    WidePoint {
        x: last_along(count, step.x),
        y: last_along(count, step.y),
    }
}

/// The least coordinate of the origins of instances in a line whose first is at 0.
fn least(last: i128) -> i128
    requires { IsWide last }
    ensures made { result ≡ int_min last (pos 0) }
    ensures wide { IsWide result }
{
    last.min(0)
}

/// The greatest coordinate of the origins of instances in a line whose first is at 0.
fn greatest(last: i128) -> i128
    requires { IsWide last }
    ensures made { result ≡ int_max last (pos 0) }
    ensures wide { IsWide result }
{
    last.max(0)
}

/// The box of the origins of instances in a line whose first is at 0.
fn origins(last: WidePoint) -> WideBox
    requires x { IsWide last.x }
    requires y { IsWide last.y }
    ensures made { result ≡ record { x0 = int_min last.x (pos 0); y0 = int_min last.y (pos 0); x1 = int_max last.x (pos 0); y1 = int_max last.y (pos 0) } }
    ensures wide { IsWideBox result }
{
    WideBox {
        x0: least(last.x),
        y0: least(last.y),
        x1: greatest(last.x),
        y1: greatest(last.y),
    }
}

fn low_corner(b: Box2) -> Point
    ensures { result ≡ record { x = b.x0; y = b.y0 } }
{
    Point { x: b.x0, y: b.y0 }
}

fn high_corner(b: Box2) -> Point
    ensures { result ≡ record { x = b.x1; y = b.y1 } }
{
    Point { x: b.x1, y: b.y1 }
}

/// The box of the first instance.
fn first_box(reference: &Reference, b: Box2) -> Box2
    requires reference { IsReference reference.now }
    requires near { is_box_near b ≡ true }
    ensures { result ≡ placed_box (record { orient = reference.now.orient; by = reference.now.origin }) b }
{
    let placing = Placing {
        orient: reference.orient,
        by: reference.origin,
    };
    let p = placing.apply(low_corner(b));
    let q = placing.apply(high_corner(b));
    Box2::between(p, q)
}

/// The coordinate of an array's corner, from the first instance's and the displacements to a column and a row.
fn corner(first: i64, column: i128, row: i128) -> i128
    requires column { IsWide column }
    requires row { IsWide row }
    ensures { result ≡ (first +ℤ column) +ℤ row }
{
    i128::from(first) + column + row
}

/// The box of all corners of an array, from that of its first instance.
fn corners(first: Box2, columns: WideBox, rows: WideBox) -> WideBox
    requires columns { IsWideBox columns }
    requires rows { IsWideBox rows }
    ensures x0 { result.x0 ≡ (first.x0 +ℤ columns.x0) +ℤ rows.x0 }
    ensures y0 { result.y0 ≡ (first.y0 +ℤ columns.y0) +ℤ rows.y0 }
    ensures x1 { result.x1 ≡ (first.x1 +ℤ columns.x1) +ℤ rows.x1 }
    ensures y1 { result.y1 ≡ (first.y1 +ℤ columns.y1) +ℤ rows.y1 }
{
    WideBox {
        x0: corner(first.x0, columns.x0, rows.x0),
        y0: corner(first.y0, columns.y0, rows.y0),
        x1: corner(first.x1, columns.x1, rows.x1),
        y1: corner(first.y1, columns.y1, rows.y1),
    }
}

/// The least box of all instances of a box; `None` if it exceeds 2^30 nm.
pub fn array_box(reference: &Reference, b: Box2) -> Option<Box2>
    requires reference { IsReference reference.now }
    requires near { is_box_near b ≡ true }
    ensures near { IfSome result (λ box. is_box_near box ≡ true) }
    ensures whole { IfSome result (λ box. array_extent reference.now (Some b) ≡ Some box) }
    ensures far { IfNone result (IsExtentFar (array_extent reference.now (Some b))) }
{
    let first = first_box(reference, b);
    let columns = origins(last_origin(reference.columns, reference.column_step));
    let rows = origins(last_origin(reference.rows, reference.row_step));
    let whole = corners(first, columns, rows);
    if whole.is_near() {
        Some(whole.narrow())
    } else {
        None
    }
}
