//! Laws of the reader of GDSII texts that none of its calls needs: where the first fault of a refused text is, and what is reported of a
//! good text that is cut off or changed.
//!
//! Each function does nothing. Its contract is the law, and speaks of the definitions of `mpw_records`, `mpw_elements` and `mpw_library`
//! alone. No program links this crate.
#![tactic(auto)]

mod laws;

pub use laws::{
    changed_lengths_are_tested, changed_records_are_told, faults_come_no_earlier,
    first_fault_is_refused, first_fault_is_told, fronts_are_short,
};
