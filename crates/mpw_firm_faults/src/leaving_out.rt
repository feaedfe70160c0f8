//! Leaves out the elements of a text that have a fault of their own.
ghost use Rattle.std.specs.Prelude.{◌≡◌, ◌++◌, IfOk};
ghost use Rattle.mpw_firm_faults.specs.LeavingOut.{cuts_of_element, cuts_of_faults};

use crate::found::FaultFound;
use mpw_firm_skipping::{Cut, ElementSpan};
use std::alloc::{AllocError, Global};

/// Adds the cut of an element, if there is one.
fn add(cuts: &mut Vec<Cut>, element: Option<ElementSpan>) -> Result<(), AllocError>
    ensures { IfOk result (λ _. cuts.new.items ≡ cuts.old.items ++ cuts_of_element element) }
{
    if let Some(ElementSpan { start, end, .. }) = element {
        cuts.push(Cut { start, end })?;
    }
    Ok(())
}

/// The cuts of the elements of these faults, in order. If the faults are those of [`crate::element_faults`], what is left of the text is read
/// as the library without these elements. Cost: linear in the faults.
///
/// # Errors
/// Out of memory.
pub fn cuts_of_faults(alloc: Global, found: &[FaultFound]) -> Result<Vec<Cut>, AllocError>
    ensures { IfOk result (λ cuts. cuts.items ≡ cuts_of_faults found.now) }
{
    let mut cuts = Vec::with_capacity(alloc, found.len())?;
    for fault in found {
        add(&mut cuts, fault.element)?;
    }
    Ok(cuts)
}
