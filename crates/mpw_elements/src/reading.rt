//! Reads the next records of an element.

ghost use Rattle.std.specs.Prelude.{◌≡◌, ◌≤◌, ◌==◌, length, IsTrue, IfOk, IfSome};
ghost use Rattle.mpw_structures.specs.Element.{IsElement};
ghost use Rattle.mpw_records.specs.Format.{least_size};
ghost use Rattle.mpw_records.specs.Records.{raw, seen as raw_result, IsSized};
ghost use Rattle.mpw_elements.specs.Reading.{GivesReading, is_skipped, field, demanded, expected, fault_at};
ghost use Rattle.mpw_elements.specs.Internal.Grammar.{and_field, end_element};

use crate::fault::ReadError;
use mpw_records::{Code, ReadFault, Record, Records, kind};
use mpw_structures::Element;

/// A fault of a record.
pub fn fault_of(code: Code, at: Record<'_>) -> ReadFault
    ensures { result ≡ fault_at code (raw at.entry) }
{
    ReadFault {
        code,
        offset: at.offset,
    }
}

fn is_skipped(kind: u8) -> bool
    ensures { result ≡ is_skipped kind }
{
    matches!(
        kind,
        kind::ELFLAGS | kind::PLEX | kind::PROPATTR | kind::PROPVALUE
    )
}

/// The next record of the element that began at `start`. Records that don't concern its shape are skipped.
///
/// # Errors
/// The record's fault; `Unexpected` at `start` if there are no more records.
pub fn next_field<'a>(records: &mut Records<'a>, start: usize) -> Result<Record<'a>, ReadError>
    ensures field { GivesReading raw result records.new (field start records.old) }
    ensures rest { length records.new ≤ length records.old }
    ensures sized { IfOk result (λ r. IsSized (raw r)) }
{
    while let Some(outcome) = records.next() {
        let record = outcome?;
        if !is_skipped(record.kind) {
            return Ok(record);
        }
    }
    Err(ReadError::Fault(ReadFault {
        code: Code::Unexpected,
        offset: start,
    }))
}

/// The value of a record, and the next record of the element. A fault of the value comes first.
///
/// # Errors
/// The value's fault, or that of [`next_field`].
pub fn value_and_next<'a, T: Copy>(
    records: &mut Records<'a>,
    start: usize,
    value: Result<T, ReadFault>,
) -> Result<(T, Record<'a>), ReadError>
    ensures both { GivesReading (λ x. (x.0, raw x.1)) result records.new (and_field start value records.old) }
    ensures rest { length records.new ≤ length records.old }
    ensures sized { IfOk result (λ x. IsSized (raw x.1)) }
{
    let value = value?;
    let next = next_field(records, start)?;
    Ok((value, next))
}

/// Whether a record is of a type.
pub fn is_kind(found: Record<'_>, kind: u8) -> bool
    requires { IsSized (raw found) }
    ensures kind { result ≡ (found.entry.kind == kind) }
    ensures least { IsTrue result → least_size kind ≤ length found.entry.bytes.now }
{
    found.kind == kind
}

/// The record, which must have the given type. Constant time.
///
/// # Errors
/// `Unexpected`, at the record, if it has another type.
#[tactic(auto, unfolding(crate::specs::Reading::demanded))]
pub fn demand(found: Record<'_>, kind: u8) -> Result<Record<'_>, ReadFault>
    requires { IsSized (raw found) }
    ensures demanded { raw_result result ≡ demanded kind (raw found.entry) }
    ensures same { IfOk result (λ r. r ≡ found.entry) }
    ensures least { IfOk result (λ r. least_size kind ≤ length r.bytes.now) }
{
    if !is_kind(found, kind) {
        return Err(fault_of(Code::Unexpected, found));
    }
    Ok(found)
}

/// The next record of the element, which must have the given type.
///
/// # Errors
/// The fault of [`next_field`], or `Unexpected` at a record of another type.
#[tactic(auto, unfolding(crate::specs::Reading::expected))]
pub fn expect<'a>(
    records: &mut Records<'a>,
    start: usize,
    kind: u8,
) -> Result<Record<'a>, ReadError>
    ensures expected { GivesReading raw result records.new (expected start kind records.old) }
    ensures rest { length records.new ≤ length records.old }
    ensures least { IfOk result (λ r. least_size kind ≤ length r.bytes.now) }
{
    let found = next_field(records, start)?;
    Ok(demand(found, kind)?)
}

/// The element, whose next record must be ENDEL.
///
/// # Errors
/// The fault of [`next_field`], or `Unexpected` at another record.
#[tactic(auto, unfolding(crate::specs::Internal::Grammar::end_element))]
pub fn end_element(
    records: &mut Records<'_>,
    start: usize,
    element: Element,
) -> Result<Option<Element>, ReadError>
    requires { IsElement element }
    ensures element { GivesReading (λ e. e) result records.new (end_element start element records.old) }
    ensures shape { IfOk result (λ found. IfSome found IsElement) }
    ensures rest { length records.new ≤ length records.old }
{
    expect(records, start, kind::ENDEL)?;
    Ok(Some(element))
}
