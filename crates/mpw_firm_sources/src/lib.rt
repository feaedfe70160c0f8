//! What `mpw check` reads: decks and libraries, what is left out of these, and what it prints of them besides a fault.
//!
//! [`read_file`] and [`read_library`] read a file to its end, or as far as is needed to refuse it. A [`Source`] is a library's text as it is read,
//! without the elements and structures that are set aside. [`fault_lines`] has a line for each fault of its elements, which
//! [`tell_faults`] prints, and [`faults_seen`] gives them to a report. [`left_out_lines`] and [`left_out_seen`] are the same of the
//! elements that are left out for their faults. [`look`] and [`notes_of`] say whether the rules look at something.
#![tactic(auto)]

mod device;
mod fault_line;
mod front;
mod layered;
mod looked;
mod notes;
mod reached;
mod reading;
mod record;
mod seen;
mod source;
mod target;
mod told_faults;
mod tops;

pub use front::Content;
pub use layered::Layered;
pub use looked::look;
pub use notes::{notes_of, rule_notes, tell_notes};
pub use reading::{deck_of, read_file, read_library};
pub use seen::{SeenFault, faults_seen, left_out_seen, report_faults};
pub use source::Source;
pub use target::Target;
pub use told_faults::{fault_lines, left_out_lines, tell_faults, tell_faulty, tell_left_out};
pub use tops::tell_tops;
