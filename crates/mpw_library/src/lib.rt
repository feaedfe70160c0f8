//! Reads a whole GDSII library: its structures, each with its elements, in nm.
//!
//! `read_library(alloc, bytes)` reads a text once from front to end. It returns a `Library` of `mpw_structures`, or the
//! first fault by offset.
#![tactic(auto)]

mod laws;
mod read;
mod text;

pub use laws::{libraries_are_derived, unexpected_is_first};
pub use read::{read_library, read_shared};
pub use text::LibraryText;
