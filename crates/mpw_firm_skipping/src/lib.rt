//! Leaves out parts of a GDSII text before it is read: elements on some layers, and structures that the top doesn't reach, with their faults.
//!
//! - [`elements_of`] finds the elements of a text: each from its first record through its ENDEL.
//! - [`without`] copies a text without some cuts. [`original`] returns the offset in the text of a byte of the copy, so that a fault in the copy can be
//!   reported in terms of the text.
//! - [`cuts_of_layers`] are the cuts of the elements on given layers. [`cuts_of_unreached`] are the cuts of the structures that one structure doesn't reach.
//!
//! - [`names_of`] are the names in the records of one type, except those in texts and nodes.
//! - [`structure_before`] is the structure that is open at a byte, and [`kind_before`] the type of the last record before it.
//!
//! Nothing here validates a text. Elements without an end stay in the text, and so does everything that is no element, and everything
//! after a record with an unsound length.
#![tactic(auto)]

mod before;
mod cut;
mod elements;
mod found;
mod layers;
mod link;
mod names;
mod span;
mod standing;
mod unreached;

pub use before::{kind_before, structure_before};
pub use cut::{Cut, original, without};
pub use elements::elements_of;
pub use found::record_at;
pub use layers::{cuts_of_layers, is_named};
pub use names::names_of;
pub use span::{ElementSpan, NODETYPE, TEXTTYPE};
pub use unreached::cuts_of_unreached;
