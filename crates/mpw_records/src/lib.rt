//! Reads the records of a GDSII text one by one, with the first fault in them.
//!
//! `Records::new(bytes)` takes a text. `next` gives its records from the front, up to ENDLIB or the
//! first fault. Nothing is copied, and no memory is taken.
#![tactic(auto)]

mod fault;
pub mod kind;
mod reader;
mod record;

pub use fault::{Code, ReadFault};
pub use reader::Records;
pub use record::Record;
