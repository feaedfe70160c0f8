//! What `mpw check` and `mpw stitch` print about what goes wrong, and their exit status.
//!
//! A [`FirmFault`] is what ends a command, with its text; [`exit_status`] is the status that it gives. [`check_fault`] and [`deck_fault`]
//! say why a library or a deck can't be checked: its place, and a sentence on what it means and what to do.
//! [`parts_fault`] says why parts can't be stitched. `specs/` has each text, word for word.
#![tactic(auto)]

mod cause;
mod colon;
mod fault;
mod place;
mod sentences;
mod told;
mod told_parts;

pub use fault::{FirmFault, exit_status, is_full, is_memory};
pub use told::{
    check_fault, deck_fault, library_fault, misuse, output_fault, refusal, unread_by, unwritten,
    unwritten_by, write_reason,
};
pub use told_parts::{
    PartFile, beyond_plan, damaged_part, no_markers, no_part, older_part, parts_fault,
};
