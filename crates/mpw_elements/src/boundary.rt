//! Reads BOUNDARY and BOX.

ghost use Rattle.std.specs.Prelude.{◌≤◌, length, IfOk, IfSome};
ghost use Rattle.mpw_structures.specs.Element.{IsElement};
ghost use Rattle.mpw_records.specs.Format.{least_size};
ghost use Rattle.mpw_elements.specs.Reading.{GivesReading};
ghost use Rattle.mpw_elements.specs.Internal.Grammar.{boundary_by_layer};

use crate::fault::ReadError;
use crate::layer::read_layer;
use crate::reading::{end_element, expect};
use crate::shape::corners;
use mpw_records::{Records, kind};
use mpw_structures::{Boundary, Element, Storage};

/// The boundary that begins at `start`, as an element. Its first record was read. A box has BOXTYPE instead
/// of DATATYPE.
///
/// # Errors
/// The first fault of its records, or out of memory.
#[tactic(auto, unfolding(crate::specs::Internal::Grammar::boundary_by_layer, mpw_records::specs::Format::least_size))]
pub fn read_boundary(
    storage: Storage<'_>,
    records: &mut Records<'_>,
    start: usize,
    unit: u16,
    datatype: u8,
) -> Result<Option<Element>, ReadError>
    requires unit { unit ≤ 1000 }
    requires datatype { 2 ≤ least_size datatype }
    ensures boundary { GivesReading (λ e. e) result records.new (boundary_by_layer start unit datatype records.old) }
    ensures shape { IfOk result (λ found. IfSome found IsElement) }
    ensures rest { length records.new ≤ length records.old }
{
    let layer = read_layer(records, start, datatype)?;
    let xy = expect(records, start, kind::XY)?;
    let points = corners(storage, unit, xy)?;
    end_element(
        records,
        start,
        Element::Boundary(Boundary { layer, points }),
    )
}
