//! Reads the points of an element from its XY record.

ghost use Rattle.std.specs.Prelude.{◌≡◌, ◌+◌, ◌*◌, ◌<◌, ◌≤◌, ◌^◌, unsigned_abs, length, IfOk, IsTrue};
ghost use Rattle.std.specs.List.{dedup};
ghost use Rattle.mpw_structures.specs.Element.{same_point, is_manhattan_step, each_step, closed};
ghost use Rattle.mpw_records.specs.Records.{raw};
ghost use Rattle.mpw_elements.specs.Reading.{GivesValue};
ghost use Rattle.mpw_structures.specs.Coordinates.{scaled};
ghost use Rattle.mpw_elements.specs.Values.{point_at, points_of, is_closing, without_closing, corners_of, centre_of};
ghost use Rattle.mpw_elements.specs.Internal.Values.{IsNear};

use crate::fault::ReadError;
use crate::reading::fault_of;
use mpw_geom::Point;
use mpw_records::{Code, Record};
use mpw_structures::{Points, Storage, scale};
use std::alloc::{AllocError, Global};

/// The bytes before a record's data (GDSII Stream release 6, record header).
const HEADER: usize = 4;

/// The point at an index of XY.
pub fn point(unit: u16, bytes: &[u8], index: usize) -> Point
    requires unit { unit ≤ 1000 }
    requires bytes { 8 * index + 8 ≤ length bytes.now }
    ensures point { result ≡ point_at unit bytes.now index }
    ensures near { IsNear result }
{
    let x = 8 * index;
    let y = 8 * index + 4;
    Point {
        x: scale(unit, &bytes[x..]),
        y: scale(unit, &bytes[y..]),
    }
}

/// The points of XY in file order.
#[tactic(auto, unfolding(crate::specs::Values::points_of))]
fn all_points(alloc: Global, unit: u16, bytes: &[u8]) -> Result<Vec<Point>, AllocError>
    requires { unit ≤ 1000 }
    ensures { IfOk result (λ points. points.items ≡ points_of unit bytes.now) }
{
    let count = bytes.len() / 8;
    let mut points = Vec::with_capacity(alloc, count)?;
    for index in 0..count {
        points.push(point(unit, bytes, index))?;
    }
    Ok(points)
}

fn is_step(from: Point, to: Point) -> bool
    ensures { result ≡ is_manhattan_step from to }
{
    from.x == to.x || from.y == to.y
}

/// Whether each step from a point to the next is horizontal or vertical.
fn is_manhattan(points: &[Point]) -> bool
    ensures { result ≡ each_step is_manhattan_step points.now }
{
    for index in 1..points.len() {
        if !is_step(points[index - 1], points[index]) {
            return false;
        }
    }
    true
}

/// Whether each step is, including the step from the last point to the first.
fn is_ring(points: &[Point]) -> bool
    ensures { result ≡ each_step is_manhattan_step (closed points.now) }
{
    if points.is_empty() {
        return true;
    }
    if !is_manhattan(points) {
        return false;
    }
    is_step(points[points.len() - 1], points[0])
}

/// Whether there are at least two points, and the last equals the first.
#[tactic(auto, unfolding(crate::specs::Values::is_closing))]
fn has_closing(points: &[Point]) -> bool
    ensures closing { result ≡ is_closing points.now }
    ensures long { IsTrue result → 2 ≤ length points.now }
{
    points.len() >= 2 && points[0] == points[points.len() - 1]
}

#[tactic(auto, unfolding(crate::specs::Values::without_closing))]
fn drop_closing(mut points: Vec<Point>) -> Vec<Point>
    ensures { result.items ≡ without_closing points.items }
{
    if has_closing(&points) {
        points.truncate(points.len() - 1);
    }
    points
}

/// Merges consecutive equal points.
fn merge_repeats(mut points: Vec<Point>) -> Vec<Point>
    ensures { result.items ≡ dedup same_point points.items }
{
    points.dedup();
    points
}

/// The corners of a boundary.
///
/// # Errors
/// `NotManhattan` if an edge, or the closing edge, is neither horizontal nor vertical; or out of memory.
#[tactic(auto, unfolding(crate::specs::Values::corners_of))]
pub fn corners(storage: Storage<'_>, unit: u16, xy: Record<'_>) -> Result<Points, ReadError>
    requires { unit ≤ 1000 }
    ensures { GivesValue (λ points. points) result (corners_of unit (raw xy.entry)) }
{
    let points = drop_closing(all_points(storage.alloc, unit, xy.bytes)?);
    if !is_ring(&points) {
        return Err(ReadError::Fault(fault_of(Code::NotManhattan, xy)));
    }
    Ok(storage.points(xy.offset.saturating_add(HEADER), points)?)
}

/// The centre line of a path.
///
/// # Errors
/// `PointPath` if all points are equal, and then `NotManhattan` if a segment is neither horizontal nor vertical; or
/// out of memory.
#[tactic(auto, unfolding(crate::specs::Values::centre_of))]
pub fn centre(storage: Storage<'_>, unit: u16, xy: Record<'_>) -> Result<Points, ReadError>
    requires { unit ≤ 1000 }
    ensures { GivesValue (λ points. points) result (centre_of unit (raw xy.entry)) }
{
    let points = merge_repeats(all_points(storage.alloc, unit, xy.bytes)?);
    if points.len() < 2 {
        return Err(ReadError::Fault(fault_of(Code::PointPath, xy)));
    }
    if !is_manhattan(&points) {
        return Err(ReadError::Fault(fault_of(Code::NotManhattan, xy)));
    }
    Ok(storage.points(xy.offset.saturating_add(HEADER), points)?)
}
