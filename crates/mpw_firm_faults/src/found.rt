//! A fault, and the element that has it.

use mpw_firm_skipping::ElementSpan;
use mpw_records::ReadFault;

/// A fault, and the element that has it.
#[derive(Clone, Copy)]
pub struct FaultFound {
    /// The fault, with its offset in the text.
    pub fault: ReadFault,
    /// Its element; `None` if it is in none.
    pub element: Option<ElementSpan>,
}
