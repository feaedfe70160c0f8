//! Writes markers as a report database of KLayout (`lyrdb`), which its marker browser opens.
//!
//! - [`write_report`] writes a category for each rule of a deck and an item for each marker. It takes no
//!   memory.
//! - [`write_full_report`] writes a [`Report`]. That also names the layout's file, limits the items of a rule, notes in its
//!   description which rules check nothing, and can have the faults of a library's elements, in a category of their own. It can have
//!   only the first markers of each rule, with how many each rule has ([`first_markers_have_the_items`]).
//!
//! Lengths are in micrometres, exactly ([`lengths_are_exact`]). Names are escaped, for XML and for the path that names a category
//! ([`names_are_escaped`]). The parts that other drawings and texts use too are public: [`put_name`], [`put_rule`],
//! [`put_left_out`] and [`put_micrometres`].
#![tactic(auto)]

mod category;
mod content;
mod edge;
mod faults;
mod item;
mod laws;
mod length;
mod name;
mod notes;
mod part;
mod report;

pub use category::{put_left_out, put_rule};
pub use content::{Fault, Note, Report};
pub use laws::{first_markers_have_the_items, lengths_are_exact, names_are_escaped};
pub use length::put_micrometres;
pub use name::put_name;
pub use report::{write_full_report, write_report};
