//! Tests whether contents are other contents, displaced. Nothing here takes memory.

ghost use Rattle.std.specs.Prelude.{◌≡◌, ◌↔◌, IsTrue, IfSome, IfNone, List, [], length, map, pos, Some, All};
ghost use Rattle.mpw_geom.specs.Plane.{IsCoordinate, IsInPlane};
ghost use Rattle.mpw_geom.specs.Placing.{moved_point};
ghost use Rattle.mpw_geom.specs.declared.plane.Point.{Point};
ghost use Rattle.mpw_hier.specs.declared.submission.Submission.{Submission};
ghost use Rattle.mpw_columns_contents.specs.Contents.{IsNear};
ghost use Rattle.mpw_columns_contents.specs.Displaced.{place_of_thing, bare, bare_shape, moved, moved_placing, moved_shape, moved_array, moved_thing, AreMoved};
ghost use Rattle.mpw_columns_contents.specs.Things.{things_items};
ghost use Rattle.mpw_columns_contents.specs.Internal.Moving.{IsWay, IsWayBetween, way_between};

use crate::contents::Contents;
use crate::thing::{Array, Shape, Thing};
use mpw_geom::{Placing, Point};

/// The position of an entry.
pub fn place(thing: &Thing) -> Point
    requires { IsNear thing.now }
    ensures place { result ≡ place_of_thing thing.now }
    ensures near { IsInPlane result }
{
    match thing {
        Thing::Shape(shape) => shape.placing.by,
        Thing::Array(array) => array.first.by,
    }
}

/// The displacement from one point to another.
fn way(from: Point, to: Point) -> Point
    requires from { IsInPlane from }
    requires to { IsInPlane to }
    ensures way { result ≡ way_between from to }
    ensures short { IsWayBetween result }
{
    Point {
        x: to.x - from.x,
        y: to.y - from.y,
    }
}

/// A point, displaced.
fn moved(point: Point, d: Point) -> Point
    requires point { IsInPlane point }
    requires way { IsWayBetween d }
    ensures { result ≡ moved_point d point }
{
    Point {
        x: point.x + d.x,
        y: point.y + d.y,
    }
}

fn is_same_point(p: Point, q: Point) -> bool
    ensures { IsTrue result ↔ (p ≡ q) }
{
    p == q
}

/// Whether a placing is another one, displaced.
fn is_moved_placing(a: Placing, b: Placing, d: Point) -> bool
    requires near { IsInPlane a.by }
    requires way { IsWayBetween d }
    ensures { IsTrue result ↔ (b ≡ moved_placing d a) }
{
    b.orient == a.orient && is_same_point(b.by, moved(a.by, d))
}

/// Whether a shape is another one, displaced. Its area follows from the rest.
fn is_moved_shape(a: &Shape, b: &Shape, d: Point) -> bool
    requires near { IsInPlane a.now.placing.by }
    requires way { IsWayBetween d }
    ensures { IsTrue result ↔ (bare_shape b.now ≡ moved_shape d a.now) }
{
    b.structure == a.structure
        && b.element == a.element
        && is_moved_placing(a.placing, b.placing, d)
}

/// Whether an array has the same instances as another one, apart from their position.
fn is_same_array(a: &Array, b: &Array) -> bool
    ensures { IsTrue result ↔ ((b.now.structure ≡ a.now.structure) × (b.now.node ≡ a.now.node) × (b.now.columns ≡ a.now.columns) × (b.now.rows ≡ a.now.rows) × (b.now.column_step ≡ a.now.column_step) × (b.now.row_step ≡ a.now.row_step)) }
{
    b.structure == a.structure
        && b.node == a.node
        && b.columns == a.columns
        && b.rows == a.rows
        && b.column_step == a.column_step
        && b.row_step == a.row_step
}

/// Whether an array is another one, displaced.
fn is_moved_array(a: &Array, b: &Array, d: Point) -> bool
    requires near { IsInPlane a.now.first.by }
    requires way { IsWayBetween d }
    ensures { IsTrue result ↔ (b.now ≡ moved_array d a.now) }
{
    is_same_array(a, b) && is_moved_placing(a.first, b.first, d)
}

/// Whether an entry is another one, displaced.
fn is_moved(a: &Thing, b: &Thing, d: Point) -> bool
    requires near { IsNear a.now }
    requires way { IsWayBetween d }
    ensures { IsTrue result ↔ (bare b.now ≡ moved_thing d a.now) }
{
    match (a, b) {
        (Thing::Shape(a), Thing::Shape(b)) => is_moved_shape(a, b, d),
        (Thing::Array(a), Thing::Array(b)) => is_moved_array(a, b, d),
        _ => false,
    }
}

/// Whether all entries are those of another list, displaced by the same vector.
fn are_moved(a: &[Thing], b: &[Thing], d: Point) -> bool
    requires same { length a.now ≡ length b.now }
    requires near { All IsNear a.now }
    requires way { IsWayBetween d }
    ensures { IsTrue result ↔ AreMoved d a.now b.now }
{
    for place in 0..a.len() {
        if !is_moved(&a[place], &b[place], d) {
            return false;
        }
    }
    true
}

/// The displacement that takes contents to others, entry by entry. It is zero if both are empty. `None` if there is no displacement. Displaced contents have
/// the same flat shapes, displaced.
///
/// Cost: linear in the entries. Takes no memory.
pub fn displacement(a: &Contents, b: &Contents) -> Option<Point>
    ensures things { IfSome result (λ d. AreMoved d a.now b.now) }
    ensures shown { IfSome result (λ d. (ss : List Submission) → things_items ss b.now ≡ map (moved d) (things_items ss a.now)) }
    ensures none { IfNone result ((d : Point) → AreMoved d a.now b.now → ⊥) }
    ensures empty { a.now ≡ [] → b.now ≡ [] → result ≡ Some (record { x = pos 0; y = pos 0 }) }
{
    let from = a.things();
    let to = b.things();
    if from.len() != to.len() {
        return None;
    }
    if from.is_empty() {
        return Some(Point { x: 0, y: 0 });
    }
    let d = way(place(&from[0]), place(&to[0]));
    if are_moved(from, to, d) {
        Some(d)
    } else {
        None
    }
}
