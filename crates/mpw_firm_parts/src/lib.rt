//! Parts of a check: the keys of some of the columns into which a layout is cut, as a text that another machine reads.
//!
//! A [`Part`] has what was checked, its [`Subject`], and columns that are one after another with the keys of each. [`write_part`]
//! writes it, with the SHA-256 of its text on the last line. [`read_part`] reads what was written as that part again
//! ([`parts_are_read_back`]), and nothing else ([`only_parts_are_read`]). [`stitch_parts`] makes one
//! book of parts that have each column once: no run goes on in another column, so their lists are put one after another.
#![tactic(auto)]

mod book;
mod fault;
mod head;
mod key;
mod laws;
mod line;
mod part;
mod read;
mod stitch;
mod whole;
mod word;
mod write;

pub use fault::{Difference, PartsFault};
pub use laws::{each_column_has_its_list, only_parts_are_read, parts_are_read_back};
pub use part::{Part, Subject};
pub use read::{begins_as_part, is_older_part, read_part};
pub use stitch::stitch_parts;
pub use write::write_part;
