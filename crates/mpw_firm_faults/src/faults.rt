//! Finds all faults of a text.
ghost use Rattle.std.specs.Prelude.{◌≡◌, ◌≤◌, ◌++◌, IfOk};
ghost use Rattle.mpw_firm_faults.specs.Faults.{begun_by, faults_of, of_elements, told};
ghost use Rattle.mpw_firm_faults.specs.LeavingOut.{element_faults};

use crate::found::FaultFound;
use crate::own::own_fault;
use crate::unit::unit_of;
use mpw_elements::ReadError;
use mpw_firm_skipping::{ElementSpan, elements_of};
use mpw_library::read_library;
use mpw_records::ReadFault;
use std::alloc::{AllocError, Global};

/// Adds the fault of an element, if it has one.
fn add(
    found: &mut Vec<FaultFound>,
    span: ElementSpan,
    fault: Option<ReadFault>,
) -> Result<(), AllocError>
    ensures { IfOk result (λ _. found.new.items ≡ found.old.items ++ told span fault) }
{
    if let Some(fault) = fault {
        let element = Some(span);
        found.push(FaultFound { fault, element })?;
    }
    Ok(())
}

/// The faults of the elements of a text with that unit.
fn of_elements(alloc: Global, unit: u16, text: &[u8]) -> Result<Vec<FaultFound>, AllocError>
    requires { unit ≤ 1000 }
    ensures { IfOk result (λ found. found.items ≡ of_elements unit text.now) }
{
    let spans = elements_of(alloc, text)?;
    let mut found = Vec::new(alloc);
    for span in spans.as_slice() {
        add(&mut found, *span, own_fault(alloc, unit, text, span.start)?)?;
    }
    Ok(found)
}

/// The faults of a text's elements: each element is read by itself, from its first record on, and each that has a fault gives one, in the
/// order of the text. [`elements_of`] defines the elements. There are none if the database unit can't be read. Each element is read once.
///
/// # Errors
/// Out of memory.
pub fn element_faults(alloc: Global, text: &[u8]) -> Result<Vec<FaultFound>, AllocError>
    ensures { IfOk result (λ found. found.items ≡ element_faults text.now) }
{
    match unit_of(text) {
        Some(unit) => of_elements(alloc, unit, text),
        None => Ok(Vec::new(alloc)),
    }
}

/// These faults, with the one that reading the library reports in front.
fn begun_by(
    alloc: Global,
    first: ReadFault,
    found: &[FaultFound],
) -> Result<Vec<FaultFound>, AllocError>
    ensures { IfOk result (λ all. all.items ≡ begun_by first found.now) }
{
    let mut all = Vec::new(alloc);
    match found {
        [head, rest @ ..] if head.fault.offset == first.offset => {
            let element = head.element;
            all.push(FaultFound {
                fault: first,
                element,
            })?;
            all.extend_from_slice(rest)?;
        }
        found => {
            all.push(FaultFound {
                fault: first,
                element: None,
            })?;
            all.extend_from_slice(found)?;
        }
    }
    Ok(all)
}

/// The faults of a library's text. There are none if it is a valid library. Otherwise each element of the text is read by itself, from its first record on, and
/// each that has a fault gives one, in the order of the text. The first of all is the fault that reading the library reports. If it isn't at the offset of the
/// first faulty element's fault, it comes before them, without an element. [`elements_of`] defines the elements of a text. If the database unit can't be read,
/// there is only the first fault.
///
/// Cost: linear in the text, whatever it is. The text is read once as a library, and once more to find the elements, each of which is read once. It takes
/// memory for the library, and then for the elements and the faults.
///
/// # Errors
/// Out of memory.
pub fn all_faults(alloc: Global, text: &[u8]) -> Result<Vec<FaultFound>, AllocError>
    ensures { IfOk result (λ found. found.items ≡ faults_of text.now) }
{
    match read_library(alloc, text) {
        Ok(_) => Ok(Vec::new(alloc)),
        Err(ReadError::Fault(fault)) => {
            let found = element_faults(alloc, text)?;
            begun_by(alloc, fault, found.as_slice())
        }
        Err(ReadError::Memory) => Err(AllocError),
    }
}
