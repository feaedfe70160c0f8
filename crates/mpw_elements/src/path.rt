//! Reads PATH.

ghost use Rattle.std.specs.Prelude.{◌≤◌, length, IfOk, IfSome, pos};
ghost use Rattle.mpw_structures.specs.Element.{IsWithinReach, IsElement};
ghost use Rattle.mpw_records.specs.declared.kind.TheConstants.{PATHTYPE, WIDTH};
ghost use Rattle.mpw_records.specs.Format.{least_size};
ghost use Rattle.mpw_records.specs.Records.{raw, IsSized};
ghost use Rattle.mpw_elements.specs.Internal.Element.{IsWidth, IsBreadth};
ghost use Rattle.mpw_elements.specs.Internal.Grammar.{breadth, path_by_breadth};
ghost use Rattle.mpw_elements.specs.Reading.{GivesReading, optional};
ghost use Rattle.mpw_elements.specs.Values.{path_type_of, width_of, extension_of};

use crate::fault::ReadError;
use crate::layer::read_layer;
use crate::reading::{demand, end_element, is_kind, next_field, value_and_next};
use crate::shape::centre;
use crate::values::{lengthening, path_type, width};
use mpw_records::{Record, Records, kind};
use mpw_structures::{Boxed, Element, Path, Storage, scale};

/// The width of a path and the extensions of its ends, in nm.
#[derive(Clone, Copy)]
pub struct Breadth {
    /// The whole width, even and not negative; 0 if there is no WIDTH.
    pub width: i64,
    /// The extension beyond the first point, by PATHTYPE and BGNEXTN. It may be negative.
    pub begin: i64,
    /// The extension beyond the last point, by PATHTYPE and ENDEXTN. It may be negative.
    pub end: i64,
}

/// PATHTYPE if the record is one, else 0; and the record after it.
#[tactic(auto, unfolding(crate::specs::Reading::optional, mpw_records::specs::Format::least_size))]
fn optional_path_type<'a>(
    records: &mut Records<'a>,
    start: usize,
    found: Record<'a>,
) -> Result<(u16, Record<'a>), ReadError>
    requires { IsSized (raw found) }
    ensures value { GivesReading (λ x. (x.0, raw x.1)) result records.new (optional start PATHTYPE path_type_of 0 (raw found.entry) records.old) }
    ensures rest { length records.new ≤ length records.old }
    ensures sized { IfOk result (λ x. IsSized (raw x.1)) }
{
    if !is_kind(found, kind::PATHTYPE) {
        return Ok((0, found));
    }
    value_and_next(records, start, path_type(found))
}

/// WIDTH if the record is one, else 0; and the record after it.
#[tactic(auto, unfolding(crate::specs::Reading::optional, mpw_records::specs::Format::least_size))]
fn optional_width<'a>(
    records: &mut Records<'a>,
    start: usize,
    unit: u16,
    found: Record<'a>,
) -> Result<(i64, Record<'a>), ReadError>
    requires unit { unit ≤ 1000 }
    requires found { IsSized (raw found) }
    ensures value { GivesReading (λ x. (x.0, raw x.1)) result records.new (optional start WIDTH (width_of unit) (pos 0) (raw found.entry) records.old) }
    ensures even { IfOk result (λ x. IsWidth x.0) }
    ensures rest { length records.new ≤ length records.old }
    ensures sized { IfOk result (λ x. IsSized (raw x.1)) }
{
    if !is_kind(found, kind::WIDTH) {
        return Ok((0, found));
    }
    value_and_next(records, start, width(unit, found))
}

/// BGNEXTN or ENDEXTN if the record is one, else 0; and the record after it.
#[tactic(auto, unfolding(crate::specs::Reading::optional, mpw_records::specs::Format::least_size))]
fn optional_extension<'a>(
    records: &mut Records<'a>,
    start: usize,
    unit: u16,
    kind: u8,
    found: Record<'a>,
) -> Result<(i64, Record<'a>), ReadError>
    requires unit { unit ≤ 1000 }
    requires kind { 4 ≤ least_size kind }
    requires found { IsSized (raw found) }
    ensures value { GivesReading (λ x. (x.0, raw x.1)) result records.new (optional start kind (extension_of unit) (pos 0) (raw found.entry) records.old) }
    ensures reach { IfOk result (λ x. IsWithinReach x.0) }
    ensures rest { length records.new ≤ length records.old }
    ensures sized { IfOk result (λ x. IsSized (raw x.1)) }
{
    if !is_kind(found, kind) {
        return Ok((0, found));
    }
    value_and_next(records, start, Ok(scale(unit, found.bytes)))
}

/// The width of a path and the extensions of its ends, and the record after these.
#[tactic(auto, unfolding(crate::specs::Internal::Grammar::breadth, mpw_records::specs::Format::least_size))]
fn read_breadth<'a>(
    records: &mut Records<'a>,
    start: usize,
    unit: u16,
) -> Result<(Breadth, Record<'a>), ReadError>
    requires { unit ≤ 1000 }
    ensures breadth { GivesReading (λ x. (x.0, raw x.1)) result records.new (breadth start unit records.old) }
    ensures shape { IfOk result (λ x. IsBreadth x.0) }
    ensures rest { length records.new ≤ length records.old }
    ensures sized { IfOk result (λ x. IsSized (raw x.1)) }
{
    let found = next_field(records, start)?;
    let (path_type, found) = optional_path_type(records, start, found)?;
    let (width, found) = optional_width(records, start, unit, found)?;
    let (begin, found) = optional_extension(records, start, unit, kind::BGNEXTN, found)?;
    let (end, found) = optional_extension(records, start, unit, kind::ENDEXTN, found)?;
    let breadth = Breadth {
        width,
        begin: lengthening(path_type, width, begin),
        end: lengthening(path_type, width, end),
    };
    Ok((breadth, found))
}

/// The path that begins at `start`, as an element. Its first record was read.
///
/// # Errors
/// The first fault of its records, or out of memory.
#[tactic(auto, unfolding(crate::specs::Internal::Grammar::path_by_breadth, mpw_records::specs::Format::least_size))]
pub fn read_path(
    storage: Storage<'_>,
    records: &mut Records<'_>,
    start: usize,
    unit: u16,
) -> Result<Option<Element>, ReadError>
    requires { unit ≤ 1000 }
    ensures path { GivesReading (λ e. e) result records.new (path_by_breadth start unit records.old) }
    ensures shape { IfOk result (λ found. IfSome found IsElement) }
    ensures rest { length records.new ≤ length records.old }
{
    let layer = read_layer(records, start, kind::DATATYPE)?;
    let (breadth, found) = read_breadth(records, start, unit)?;
    let points = centre(storage, unit, demand(found, kind::XY)?)?;
    let path = Path {
        layer,
        width: breadth.width,
        begin: breadth.begin,
        end: breadth.end,
        points,
    };
    let path = Boxed::new(storage.alloc, path)?;
    end_element(records, start, Element::Path(path))
}
