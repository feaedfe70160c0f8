//! Reads the value of an element's record, and finds the faults of the value.

ghost use Rattle.std.specs.Prelude.{◌≡◌, ◌<◌, ◌≤◌, ◌^◌, ◌-ℤ◌, unsigned_abs, ℕ, pos, length, IfOk, IfSome};
ghost use Rattle.mpw_structures.specs.Element.{IsWithinReach, IsPointWithinReach, IsCount};
ghost use Rattle.mpw_records.specs.Records.{raw, IsSized};
ghost use Rattle.mpw_geom.specs.Name.{IsName};
ghost use Rattle.mpw_elements.specs.Internal.Element.{IsWidth};
ghost use Rattle.mpw_elements.specs.Reading.{GivesValue};
ghost use Rattle.mpw_elements.specs.Values.{short_of, origin_of, path_type_of, width_of, lengthening, without_nuls, name_of, mirrored_of, magnification_of, turns, turns_of, orient_of, counts_of, part_of, both, step_of, grid_of};
ghost use Rattle.mpw_elements.specs.Internal.Values.{IsGrid, IsNear};

use crate::fault::ReadError;
use crate::reading::fault_of;
use crate::shape::point;
use byteorder::{BigEndian, ByteOrder};
use mpw_geom::{Name, NameFault, Orient, Point};
use mpw_real8::Real8;
use mpw_records::{Code, ReadFault, Record};
use mpw_structures::scale;
use std::alloc::Global;

/// The origin and the steps of an array, in nm.
#[derive(Clone, Copy)]
pub struct Grid {
    /// The origin of the instance in the first column and the first row.
    pub origin: Point,
    /// The step from one column to the next, in any direction.
    pub column_step: Point,
    /// The step from one row to the next, in any direction.
    pub row_step: Point,
}

/// The two-byte number of a record, 0 to 65535.
pub fn short(from: Record<'_>) -> u16
    requires { 2 ≤ length from.bytes.now }
    ensures { result ≡ short_of (raw from.entry) }
{
    BigEndian::read_u16(from.bytes)
}

/// The one point of a reference.
///
/// # Errors
/// `BadSize` unless there is exactly one point.
#[tactic(auto, using(crate::proofs::Shapes::near_point), unfolding(crate::specs::Values::origin_of))]
pub fn place(unit: u16, xy: Record<'_>) -> Result<Point, ReadFault>
    requires { unit ≤ 1000 }
    ensures place { result ≡ origin_of unit (raw xy.entry) }
    ensures reach { IfOk result IsPointWithinReach }
{
    if xy.bytes.len() != 8 {
        return Err(fault_of(Code::BadSize, xy));
    }
    Ok(point(unit, xy.bytes, 0))
}

/// PATHTYPE: 0, 2 or 4.
///
/// # Errors
/// `RoundPath` for another type.
#[tactic(auto, unfolding(crate::specs::Values::path_type_of))]
pub fn path_type(from: Record<'_>) -> Result<u16, ReadFault>
    requires { 2 ≤ length from.bytes.now }
    ensures { result ≡ path_type_of (raw from.entry) }
{
    match short(from) {
        0 => Ok(0),
        2 => Ok(2),
        4 => Ok(4),
        _ => Err(fault_of(Code::RoundPath, from)),
    }
}

/// WIDTH as an absolute value in nm.
///
/// # Errors
/// `OddWidth` if it is odd in nm.
#[tactic(auto, unfolding(crate::specs::Values::width_of))]
pub fn width(unit: u16, from: Record<'_>) -> Result<i64, ReadFault>
    requires unit { unit ≤ 1000 }
    requires bytes { 4 ≤ length from.bytes.now }
    ensures width { result ≡ width_of unit (raw from.entry) }
    ensures even { IfOk result IsWidth }
{
    let width = scale(unit, from.bytes).unsigned_abs();
    if width % 2 != 0 {
        return Err(fault_of(Code::OddWidth, from));
    }
    Ok(width as i64)
}

/// The extension of an end of a path, for its path type and width, and the number in BGNEXTN or ENDEXTN.
pub fn lengthening(path_type: u16, width: i64, given: i64) -> i64
    ensures lengthening { result ≡ lengthening path_type width given }
    ensures reach { IsWidth width → IsWithinReach given → IsWithinReach result }
{
    match path_type {
        4 => given,
        2 => width / 2,
        _ => 0,
    }
}

/// The bytes without the NULs at their end.
fn trim_nuls(bytes: &[u8]) -> &[u8]
    ensures { result.now ≡ without_nuls bytes.now }
{
    let mut end = bytes.len();
    while end > 0 && bytes[end - 1] == 0 {
        end -= 1;
    }
    &bytes[..end]
}

/// The name in a STRNAME or SNAME record, without the NULs at its end.
///
/// # Errors
/// `BadName` at the record, or out of memory.
#[tactic(auto, unfolding(crate::specs::Values::name_of))]
pub fn read_name(alloc: Global, from: Record<'_>) -> Result<Name, ReadError>
    ensures name { GivesValue (λ name. name) result (name_of (raw from.entry)) }
    ensures is_name { IfOk result IsName }
{
    match Name::read(alloc, trim_nuls(from.bytes)) {
        Ok(name) => Ok(name),
        Err(NameFault::Memory) => Err(ReadError::Memory),
        Err(NameFault::BadName) => Err(ReadError::Fault(fault_of(Code::BadName, from))),
    }
}

/// Whether STRANS mirrors.
///
/// # Errors
/// `Absolute` if bit 0002 hex makes the angle absolute. All other bits except 8000 are ignored.
#[tactic(auto, unfolding(crate::specs::Values::mirrored_of))]
pub fn is_mirrored(from: Record<'_>) -> Result<bool, ReadFault>
    requires { 2 ≤ length from.bytes.now }
    ensures { result ≡ mirrored_of (raw from.entry) }
{
    let flags = short(from);
    if flags & 0x0002 != 0 {
        return Err(fault_of(Code::Absolute, from));
    }
    Ok(flags & 0x8000 != 0)
}

/// A magnification of 1.
///
/// # Errors
/// `Magnification` if it isn't exactly 1.
#[tactic(auto, unfolding(crate::specs::Values::magnification_of))]
pub fn magnification(from: Record<'_>) -> Result<(), ReadFault>
    requires { 8 ≤ length from.bytes.now }
    ensures { result ≡ magnification_of (raw from.entry) }
{
    if !Real8::read(from.bytes).is_whole(1) {
        return Err(fault_of(Code::Magnification, from));
    }
    Ok(())
}

/// The quarter turns of an angle.
#[tactic(auto, unfolding(crate::specs::Values::turns))]
fn quarter_turns(angle: &Real8) -> Option<u8>
    ensures { result ≡ turns angle.now }
{
    if angle.is_whole(0) || angle.is_whole(360) || angle.is_whole(-360) {
        return Some(0);
    }
    if angle.is_whole(90) || angle.is_whole(-270) {
        return Some(1);
    }
    if angle.is_whole(180) || angle.is_whole(-180) {
        return Some(2);
    }
    if angle.is_whole(270) || angle.is_whole(-90) {
        return Some(3);
    }
    None
}

/// The quarter turns of ANGLE.
///
/// # Errors
/// `Angle` if it isn't a multiple of 90 degrees from -360 to 360.
pub fn turns(from: Record<'_>) -> Result<u8, ReadFault>
    requires { 8 ≤ length from.bytes.now }
    ensures { result ≡ turns_of (raw from.entry) }
{
    match quarter_turns(&Real8::read(from.bytes)) {
        Some(turns) => Ok(turns),
        None => Err(fault_of(Code::Angle, from)),
    }
}

/// The orientation that mirrors about the x axis, or doesn't, and then turns.
pub fn orient(mirrored: bool, turns: u8) -> Orient
    ensures { result ≡ orient_of mirrored turns }
{
    match (mirrored, turns) {
        (false, 0) => Orient::R0,
        (false, 1) => Orient::R90,
        (false, 2) => Orient::R180,
        (false, _) => Orient::R270,
        (true, 0) => Orient::M0,
        (true, 1) => Orient::M90,
        (true, 2) => Orient::M180,
        (true, _) => Orient::M270,
    }
}

/// The columns and the rows of COLROW.
///
/// # Errors
/// `Columns` unless both are from 1 to 32767.
#[tactic(auto, unfolding(crate::specs::Values::counts_of))]
pub fn counts(from: Record<'_>) -> Result<(u16, u16), ReadFault>
    requires { 4 ≤ length from.bytes.now }
    ensures counts { result ≡ counts_of (raw from.entry) }
    ensures columns { IfOk result (λ n. IsCount n.0) }
    ensures rows { IfOk result (λ n. IsCount n.1) }
{
    let columns = BigEndian::read_u16(from.bytes);
    let rows = BigEndian::read_u16(&from.bytes[2..]);
    if !(1..=32767).contains(&columns) || !(1..=32767).contains(&rows) {
        return Err(fault_of(Code::Columns, from));
    }
    Ok((columns, rows))
}

/// The whole number of nm that is one `count`-th of a length, if there is one.
fn part(count: u16, whole: i64) -> Option<i64>
    requires count { 1 ≤ count }
    requires whole { unsigned_abs whole < 2 ^ 43 }
    ensures part { result ≡ part_of count whole }
    ensures reach { IfSome result IsWithinReach }
{
    let count = i64::from(count);
    if whole % count != 0 {
        return None;
    }
    Some(whole / count)
}

/// The distance from one coordinate to another.
fn difference(from: i64, to: i64) -> i64
    requires from { unsigned_abs from < 2 ^ 42 }
    requires to { unsigned_abs to < 2 ^ 42 }
    ensures difference { result ≡ to -ℤ from }
    ensures bound { unsigned_abs result < 2 ^ 43 }
{
    to - from
}

fn both(x: Option<i64>, y: Option<i64>) -> Option<Point>
    ensures both { result ≡ both x y }
    ensures reach { IfSome x IsWithinReach → IfSome y IsWithinReach → IfSome result IsPointWithinReach }
{
    match (x, y) {
        (Some(x), Some(y)) => Some(Point { x, y }),
        _ => None,
    }
}

/// The step that leads from one point to another in `count` steps, if it is whole.
fn step(count: u16, from: Point, to: Point) -> Option<Point>
    requires count { 1 ≤ count }
    requires from { IsNear from }
    requires to { IsNear to }
    ensures step { result ≡ step_of count from to }
    ensures reach { IfSome result IsPointWithinReach }
{
    let across = difference(from.x, to.x);
    let up = difference(from.y, to.y);
    both(part(count, across), part(count, up))
}

/// The origin and the steps of an array with `columns` columns and `rows` rows.
///
/// # Errors
/// `BadSize` unless there are three points, and then `Pitch` if a step isn't a whole number of nm.
#[tactic(auto, unfolding(crate::specs::Values::grid_of))]
pub fn read_grid(unit: u16, columns: u16, rows: u16, xy: Record<'_>) -> Result<Grid, ReadFault>
    requires unit { unit ≤ 1000 }
    requires columns { 1 ≤ columns }
    requires rows { 1 ≤ rows }
    ensures grid { result ≡ grid_of unit columns rows (raw xy.entry) }
    ensures reach { IfOk result IsGrid }
{
    if xy.bytes.len() != 24 {
        return Err(fault_of(Code::BadSize, xy));
    }
    let origin = point(unit, xy.bytes, 0);
    let last_column = point(unit, xy.bytes, 1);
    let last_row = point(unit, xy.bytes, 2);
    let Some(column_step) = step(columns, origin, last_column) else {
        return Err(fault_of(Code::Pitch, xy));
    };
    let Some(row_step) = step(rows, origin, last_row) else {
        return Err(fault_of(Code::Pitch, xy));
    };
    Ok(Grid {
        origin,
        column_step,
        row_step,
    })
}
