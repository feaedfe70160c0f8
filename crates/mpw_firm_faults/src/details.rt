//! Finds the structure and the position of an element.
ghost use Rattle.std.specs.Prelude.{◌≡◌, ◌≤◌, length, IfOk};
ghost use Rattle.mpw_elements.specs.Values.{point_at};
ghost use Rattle.mpw_firm_faults.specs.Details.{first_point, pointed, structure_of};
ghost use Rattle.mpw_records.specs.Records.{front};

use mpw_elements::{ReadError, read_name};
use mpw_firm_skipping::record_at;
use mpw_geom::{Name, Point};
use mpw_records::kind::XY;
use mpw_structures::scale;
use std::alloc::{AllocError, Global};

/// The name of the structure whose STRNAME is at an offset of a text, if it is a valid name. Constant time except for the name.
///
/// # Errors
/// Out of memory.
pub fn structure_of(alloc: Global, text: &[u8], at: usize) -> Result<Option<Name>, AllocError>
    ensures { IfOk result (λ name. name ≡ structure_of text.now at) }
{
    let Ok(found) = record_at(text, at) else {
        return Ok(None);
    };
    match read_name(alloc, found) {
        Ok(name) => Ok(Some(name)),
        Err(ReadError::Fault(_)) => Ok(None),
        Err(ReadError::Memory) => Err(AllocError),
    }
}

/// The first point of XY's data.
fn point(unit: u16, bytes: &[u8]) -> Point
    requires unit { unit ≤ 1000 }
    requires bytes { 8 ≤ length bytes.now }
    ensures { result ≡ point_at unit bytes.now 0 }
{
    Point {
        x: scale(unit, &bytes[0..]),
        y: scale(unit, &bytes[4..]),
    }
}

/// The first point of the XY at an offset of a text with that unit.
#[tactic(auto, unfolding(mpw_records::specs::Format::least_size))]
fn point_at(unit: u16, text: &[u8], at: usize) -> Option<Point>
    requires { unit ≤ 1000 }
    ensures { result ≡ pointed unit (front text.now at) }
{
    match record_at(text, at) {
        Ok(found) if found.kind == XY => Some(point(unit, found.bytes)),
        _ => None,
    }
}

/// The first point of the XY at that offset of a text with that unit, if there is one, in nm. Constant time.
pub fn first_point(unit: u16, text: &[u8], place: Option<usize>) -> Option<Point>
    requires { unit ≤ 1000 }
    ensures { result ≡ first_point unit text.now place }
{
    match place {
        Some(at) => point_at(unit, text, at),
        None => None,
    }
}
