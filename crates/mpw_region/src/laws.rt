//! The sweep, which other crates may use step by step: [`Sweep::step`] goes to a row, and its clause says that
//! the list then contains exactly the boxes that have the row.

pub use crate::sweep::Sweep;
