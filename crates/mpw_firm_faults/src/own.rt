//! Finds the fault of an element that is read by itself.
ghost use Rattle.std.specs.Prelude.{◌≡◌, ◌≤◌, drop, option_map, IfOk};
ghost use Rattle.mpw_firm_faults.specs.Faults.{fault_in, moved, own_fault};
ghost use Rattle.mpw_records.specs.Records.{outcomes_of};

use mpw_elements::{ReadError, read_element};
use mpw_records::{ReadFault, Records};
use mpw_structures::Storage;
use std::alloc::{AllocError, Global};

/// A fault in the part of a text from an offset on, with its offset in the whole text, up to 2^64 - 1.
fn moved(at: usize, fault: ReadFault) -> ReadFault
    ensures { result ≡ moved at fault }
{
    ReadFault {
        code: fault.code,
        offset: fault.offset.saturating_add(at),
    }
}

/// The fault of the element with which a text begins.
fn fault_in(alloc: Global, text: &[u8], unit: u16) -> Result<Option<ReadFault>, AllocError>
    requires { unit ≤ 1000 }
    ensures { IfOk result (λ fault. fault ≡ fault_in unit (outcomes_of text.now)) }
{
    let mut records = Records::new(text);
    match records.next() {
        None => Ok(None),
        Some(Err(fault)) => Ok(Some(fault)),
        Some(Ok(first)) => match read_element(
            Storage { alloc, text: None },
            &mut records,
            first,
            unit,
        ) {
            Ok(_) => Ok(None),
            Err(ReadError::Fault(fault)) => Ok(Some(fault)),
            Err(ReadError::Memory) => Err(AllocError),
        },
    }
}

/// The bytes of a text from an offset on.
pub(crate) fn from(text: &[u8], at: usize) -> &[u8]
    ensures { result.now ≡ drop at text.now }
{
    match text.get(at..) {
        Some(rest) => rest,
        None => &[],
    }
}

/// The fault of the element that begins at an offset of a text with that unit, if it has one when it is read by itself.
///
/// # Errors
/// Out of memory.
pub(crate) fn own_fault(
    alloc: Global,
    unit: u16,
    text: &[u8],
    at: usize,
) -> Result<Option<ReadFault>, AllocError>
    requires { unit ≤ 1000 }
    ensures { IfOk result (λ fault. fault ≡ own_fault unit text.now at) }
{
    match fault_in(alloc, from(text, at), unit)? {
        Some(fault) => Ok(Some(moved(at, fault))),
        None => Ok(None),
    }
}
