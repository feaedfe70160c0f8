//! Reads elements from their records.

ghost use Rattle.std.specs.Prelude.{◌≡◌, ◌≤◌, [], length, IfOk, IfSome, OnErr};
ghost use Rattle.mpw_structures.specs.Element.{IsElement};
ghost use Rattle.mpw_records.specs.Format.{least_size};
ghost use Rattle.mpw_records.specs.Records.{raw};
ghost use Rattle.mpw_elements.specs.Reading.{GivesReading};
ghost use Rattle.mpw_elements.specs.Grammar.{ignored, element};
ghost use Rattle.mpw_elements.specs.Internal.Grammar.{element_by_parts};

use crate::boundary::read_boundary;
use crate::fault::ReadError;
use crate::path::read_path;
use crate::reading::fault_of;
use crate::reference::read_reference;
use mpw_records::{Code, ReadFault, Record, Records, kind};
use mpw_structures::{Element, Storage};

/// Skips the records up to ENDEL.
fn skip(records: &mut Records<'_>, start: usize) -> Result<(), ReadError>
    ensures ignored { GivesReading (λ x. x) result records.new (ignored start records.old) }
    ensures rest { length records.new ≤ length records.old }
{
    while let Some(outcome) = records.next() {
        let found = outcome?;
        if found.kind == kind::ENDEL {
            return Ok(());
        }
        if found.kind == kind::ENDLIB {
            return Err(ReadError::Fault(fault_of(Code::Unexpected, found)));
        }
    }
    Err(ReadError::Fault(ReadFault {
        code: Code::Unexpected,
        offset: start,
    }))
}

/// An element, if its first record begins one.
#[tactic(auto, unfolding(crate::specs::Internal::Grammar::element_by_parts, mpw_records::specs::Format::least_size))]
fn one_element(
    storage: Storage<'_>,
    records: &mut Records<'_>,
    first: Record<'_>,
    unit: u16,
) -> Result<Option<Element>, ReadError>
    requires { unit ≤ 1000 }
    ensures element { GivesReading (λ e. e) result records.new (element_by_parts unit (raw first.entry) records.old) }
    ensures shape { IfOk result (λ found. IfSome found IsElement) }
    ensures rest { length records.new ≤ length records.old }
{
    let start = first.offset;
    match first.kind {
        kind::BOUNDARY => read_boundary(storage, records, start, unit, kind::DATATYPE),
        kind::BOX => read_boundary(storage, records, start, unit, kind::BOXTYPE),
        kind::PATH => read_path(storage, records, start, unit),
        kind::SREF => read_reference(storage.alloc, records, start, unit, false),
        kind::AREF => read_reference(storage.alloc, records, start, unit, true),
        kind::TEXT | kind::NODE => {
            skip(records, start)?;
            Ok(None)
        }
        _ => Err(ReadError::Fault(fault_of(Code::Unexpected, first))),
    }
}

/// Reads an element up to its ENDEL. Its first record, `first`, was read from `records`. Returns the
/// element, or `None` for a TEXT or a NODE, which are skipped. Each four-byte number is multiplied
/// by `unit`, in nm, before it is tested.
///
/// It takes memory only for one element, whose points stay in the text if the storage has the text, and reads each byte a
/// fixed number of times.
///
/// # Errors
/// The first fault of the element's records, in the order of the tests; or out of memory. After an error
/// `records` gives nothing more.
pub fn read_element(
    storage: Storage<'_>,
    records: &mut Records<'_>,
    first: Record<'_>,
    unit: u16,
) -> Result<Option<Element>, ReadError>
    requires { unit ≤ 1000 }
    ensures read { GivesReading (λ e. e) result records.new (element unit (raw first.entry) records.old) }
    ensures shape { IfOk result (λ found. IfSome found IsElement) }
    ensures err { OnErr result (records.new ≡ []) }
    ensures rest { length records.new ≤ length records.old }
{
    let outcome = one_element(storage, records, first, unit);
    if outcome.is_err() {
        records.stop();
    }
    outcome
}
