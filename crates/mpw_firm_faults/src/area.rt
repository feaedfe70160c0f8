//! Computes the box of an element's points.
ghost use Rattle.std.specs.Prelude.{◌≡◌, ◌≤◌, ◌+◌, ◌*◌, length};
ghost use Rattle.mpw_elements.specs.Values.{point_at};
ghost use Rattle.mpw_firm_faults.specs.Areas.{box_of, boxed, holding, own_area};
ghost use Rattle.mpw_records.specs.Records.{front};

use mpw_firm_skipping::record_at;
use mpw_geom::{Box2, Point};
use mpw_records::kind::XY;
use mpw_structures::scale;

/// The point at index `place` in XY's data.
fn point_of(unit: u16, bytes: &[u8], place: usize) -> Point
    requires unit { unit ≤ 1000 }
    requires bytes { 8 * place + 8 ≤ length bytes.now }
    ensures { result ≡ point_at unit bytes.now place }
{
    Point {
        x: scale(unit, &bytes[8 * place..]),
        y: scale(unit, &bytes[8 * place + 4..]),
    }
}

/// The least box with the points so far and one more.
fn holding(so_far: Option<Box2>, point: Point) -> Option<Box2>
    ensures { result ≡ holding so_far point }
{
    match so_far {
        Some(area) => Some(area.join(Box2::at(point))),
        None => Some(Box2::at(point)),
    }
}

/// The least box with all points of XY's data.
#[tactic(auto, unfolding(mpw_elements::specs::Values::points_of))]
fn box_of(unit: u16, bytes: &[u8]) -> Option<Box2>
    requires { unit ≤ 1000 }
    ensures { result ≡ box_of unit bytes.now }
{
    let mut area = None;
    for place in 0..bytes.len() / 8 {
        area = holding(area, point_of(unit, bytes, place));
    }
    area
}

/// The least box of the XY at an offset of a text with that unit.
fn box_at(unit: u16, text: &[u8], at: usize) -> Option<Box2>
    requires { unit ≤ 1000 }
    ensures { result ≡ boxed unit (front text.now at) }
{
    match record_at(text, at) {
        Ok(found) if found.kind == XY => box_of(unit, found.bytes),
        _ => None,
    }
}

/// The least box with all points of the XY at that offset of a text with that unit, if there is one, in nm. Cost: linear in the points.
pub(crate) fn own_area(unit: u16, text: &[u8], place: Option<usize>) -> Option<Box2>
    requires { unit ≤ 1000 }
    ensures { result ≡ own_area unit text.now place }
{
    match place {
        Some(at) => box_at(unit, text, at),
        None => None,
    }
}
