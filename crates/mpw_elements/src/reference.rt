//! Reads SREF and AREF.

ghost use Rattle.std.specs.Prelude.{◌≡◌, ◌≤◌, length, IfOk, IfSome};
ghost use Rattle.mpw_structures.specs.Element.{IsElement};
ghost use Rattle.mpw_records.specs.declared.kind.TheConstants.{MAG, ANGLE};
ghost use Rattle.mpw_records.specs.Records.{raw, IsSized};
ghost use Rattle.mpw_elements.specs.Reading.{GivesReading, optional};
ghost use Rattle.mpw_elements.specs.Values.{magnification_of, turns_of};
ghost use Rattle.mpw_geom.specs.Name.{IsName};
ghost use Rattle.mpw_elements.specs.Grammar.{orientation};
ghost use Rattle.mpw_elements.specs.Internal.Grammar.{single_behind, array_behind, reference};

use crate::fault::ReadError;
use crate::reading::{demand, end_element, expect, is_kind, next_field, value_and_next};
use crate::values::{
    counts, is_mirrored, magnification, orient, place, read_grid, read_name, turns,
};
use mpw_geom::{Name, Orient, Point};
use mpw_records::{Record, Records, kind};
use mpw_structures::{Boxed, Element, Reference};
use std::alloc::Global;

/// Skips MAG if the record is one. Returns the record after it.
#[tactic(auto, unfolding(crate::specs::Reading::optional, mpw_records::specs::Format::least_size))]
fn optional_magnification<'a>(
    records: &mut Records<'a>,
    start: usize,
    found: Record<'a>,
) -> Result<Record<'a>, ReadError>
    requires { IsSized (raw found) }
    ensures value { GivesReading (λ x. (tt, raw x)) result records.new (optional start MAG magnification_of tt (raw found.entry) records.old) }
    ensures rest { length records.new ≤ length records.old }
    ensures sized { IfOk result (λ x. IsSized (raw x)) }
{
    if !is_kind(found, kind::MAG) {
        return Ok(found);
    }
    magnification(found)?;
    next_field(records, start)
}

/// The quarter turns of ANGLE if the record is one, else 0; and the record after it.
#[tactic(auto, unfolding(crate::specs::Reading::optional, mpw_records::specs::Format::least_size))]
fn optional_turns<'a>(
    records: &mut Records<'a>,
    start: usize,
    found: Record<'a>,
) -> Result<(u8, Record<'a>), ReadError>
    requires { IsSized (raw found) }
    ensures value { GivesReading (λ x. (x.0, raw x.1)) result records.new (optional start ANGLE turns_of 0 (raw found.entry) records.old) }
    ensures rest { length records.new ≤ length records.old }
    ensures sized { IfOk result (λ x. IsSized (raw x.1)) }
{
    if !is_kind(found, kind::ANGLE) {
        return Ok((0, found));
    }
    value_and_next(records, start, turns(found))
}

/// The orientation, and the record after it.
#[tactic(auto, unfolding(crate::specs::Grammar::orientation, mpw_records::specs::Format::least_size))]
fn orientation<'a>(
    records: &mut Records<'a>,
    start: usize,
    found: Record<'a>,
) -> Result<(Orient, Record<'a>), ReadError>
    requires { IsSized (raw found) }
    ensures value { GivesReading (λ x. (x.0, raw x.1)) result records.new (orientation start (raw found.entry) records.old) }
    ensures rest { length records.new ≤ length records.old }
    ensures sized { IfOk result (λ x. IsSized (raw x.1)) }
{
    if !is_kind(found, kind::STRANS) {
        return Ok((Orient::R0, found));
    }
    let (mirrored, found) = value_and_next(records, start, is_mirrored(found))?;
    let found = optional_magnification(records, start, found)?;
    let (turns, found) = optional_turns(records, start, found)?;
    Ok((orient(mirrored, turns), found))
}

/// The name of the structure that is placed, and its orientation.
struct Instance {
    name: Name,
    orient: Orient,
}

impl Drop for Instance {
    fn drop(self) {
        let Instance { name, orient: _ } = self;
        drop(name);
    }
}

impl Instance {
    /// The name and the orientation.
    fn into_parts(self) -> (Name, Orient)
        ensures name { result.0 ≡ self.name }
        ensures orient { result.1 ≡ self.orient }
    {
        let Instance { name, orient } = self;
        (name, orient)
    }
}

/// The reference of an SREF, as an element. Its name, its orientation and one record after them were read.
#[tactic(auto, unfolding(crate::specs::Internal::Grammar::single_behind, mpw_records::specs::Format::least_size))]
fn read_single(
    alloc: Global,
    records: &mut Records<'_>,
    start: usize,
    unit: u16,
    instance: Instance,
    found: Record<'_>,
) -> Result<Option<Element>, ReadError>
    requires unit { unit ≤ 1000 }
    requires name { IsName instance.name }
    requires found { IsSized (raw found) }
    ensures single { GivesReading (λ e. e) result records.new (single_behind start unit instance.name instance.orient (raw found.entry) records.old) }
    ensures shape { IfOk result (λ found. IfSome found IsElement) }
    ensures rest { length records.new ≤ length records.old }
{
    let origin = place(unit, demand(found, kind::XY)?)?;
    let (name, orient) = instance.into_parts();
    let reference = Reference {
        name,
        orient,
        origin,
        columns: 1,
        rows: 1,
        column_step: Point { x: 0, y: 0 },
        row_step: Point { x: 0, y: 0 },
    };
    let reference = Boxed::new(alloc, reference)?;
    end_element(records, start, Element::Reference(reference))
}

/// The reference of an AREF, as an element. Its name, its orientation and one record after them were read.
#[tactic(auto, unfolding(crate::specs::Internal::Grammar::array_behind, mpw_records::specs::Format::least_size))]
fn read_array(
    alloc: Global,
    records: &mut Records<'_>,
    start: usize,
    unit: u16,
    instance: Instance,
    found: Record<'_>,
) -> Result<Option<Element>, ReadError>
    requires unit { unit ≤ 1000 }
    requires name { IsName instance.name }
    requires found { IsSized (raw found) }
    ensures array { GivesReading (λ e. e) result records.new (array_behind start unit instance.name instance.orient (raw found.entry) records.old) }
    ensures shape { IfOk result (λ found. IfSome found IsElement) }
    ensures rest { length records.new ≤ length records.old }
{
    let (columns, rows) = counts(demand(found, kind::COLROW)?)?;
    let xy = expect(records, start, kind::XY)?;
    let grid = read_grid(unit, columns, rows, xy)?;
    let (name, orient) = instance.into_parts();
    let reference = Reference {
        name,
        orient,
        origin: grid.origin,
        columns,
        rows,
        column_step: grid.column_step,
        row_step: grid.row_step,
    };
    let reference = Boxed::new(alloc, reference)?;
    end_element(records, start, Element::Reference(reference))
}

/// The reference that begins at `start`, as an element. Its SREF or AREF was read.
///
/// # Errors
/// The first fault of its records, or out of memory.
#[tactic(auto, unfolding(crate::specs::Internal::Grammar::reference, mpw_records::specs::Format::least_size))]
pub fn read_reference(
    alloc: Global,
    records: &mut Records<'_>,
    start: usize,
    unit: u16,
    is_array: bool,
) -> Result<Option<Element>, ReadError>
    requires { unit ≤ 1000 }
    ensures reference { GivesReading (λ e. e) result records.new (reference start unit is_array records.old) }
    ensures shape { IfOk result (λ found. IfSome found IsElement) }
    ensures rest { length records.new ≤ length records.old }
{
    let name = read_name(alloc, expect(records, start, kind::SNAME)?)?;
    let found = next_field(records, start)?;
    let (orient, found) = orientation(records, start, found)?;
    let instance = Instance { name, orient };
    if is_array {
        read_array(alloc, records, start, unit, instance, found)
    } else {
        read_single(alloc, records, start, unit, instance, found)
    }
}
