//! The conditions on lists of markers, numbers, rectangles and boxes, as tests.

ghost use Rattle.std.specs.Prelude.{◌≡◌, true, All};
ghost use Rattle.mpw_geom.specs.Plane.{HasArea, IsOrdered};
ghost use Rattle.mpw_markers.specs.Met.{IsAscending};
ghost use Rattle.mpw_markers.specs.Markers.{IsFilled};

use anyhow::{Result, bail};
use mpw_geom::Box2;
use mpw_markers::{Marker, Met, Rectangle, TileMarkers, met_origins};
use std::alloc::Global;

/// Whether each number is less than the next.
fn is_ascending(numbers: &[u32]) -> bool
    ensures { result ≡ true → IsAscending numbers.now }
{
    for i in 1..numbers.len() {
        if numbers[i - 1] >= numbers[i] {
            return false;
        }
    }
    true
}

/// Whether the marker has a row.
fn is_filled(marker: &Marker) -> bool
    ensures { result ≡ true → IsFilled marker.now }
{
    marker.key.piece.y0 < marker.key.piece.y1
}

/// Whether each marker has a row.
fn all_filled(markers: &[Marker]) -> bool
    ensures { result ≡ true → All IsFilled markers.now }
{
    markers.iter().all(is_filled)
}

/// The numbers, which must be ascending.
pub fn met(alloc: Global, numbers: &[u32]) -> Result<Met> {
    if !is_ascending(numbers) {
        bail!("ascending numbers");
    }
    Ok(Met::of(alloc, numbers)?)
}

/// The list of a tile's markers, which must have rows.
pub fn tile(alloc: Global, markers: Vec<Marker>) -> Result<TileMarkers> {
    if !all_filled(markers.as_slice()) {
        bail!("markers with rows");
    }
    Ok(TileMarkers::from_vec(alloc, markers)?)
}

/// Whether the rectangle has a unit square.
fn has_area(rectangle: &Rectangle) -> bool
    ensures { result ≡ true → HasArea rectangle.now.area }
{
    rectangle.area.x0 < rectangle.area.x1 && rectangle.area.y0 < rectangle.area.y1
}

fn all_have_area(rectangles: &[Rectangle]) -> bool
    ensures { result ≡ true → All (λ r. HasArea r.area) rectangles.now }
{
    rectangles.iter().all(has_area)
}

/// Whether the box's first corner is its lower left one.
fn is_ordered(b: &Box2) -> bool
    ensures { result ≡ true → IsOrdered b.now }
{
    b.x0 <= b.x1 && b.y0 <= b.y1
}

fn all_ordered(boxes: &[Box2]) -> bool
    ensures { result ≡ true → All IsOrdered boxes.now }
{
    boxes.iter().all(is_ordered)
}

/// The origins that the boxes touch. The rectangles must have area, and the boxes must be ordered.
pub fn origins(alloc: Global, rectangles: &[Rectangle], boxes: &[Box2]) -> Result<Vec<Met>> {
    if !all_have_area(rectangles) || !all_ordered(boxes) {
        bail!("rectangles with area, and ordered boxes");
    }
    Ok(met_origins(alloc, rectangles, boxes)?)
}
