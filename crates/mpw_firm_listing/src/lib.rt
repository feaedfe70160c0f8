//! Writes the listing of markers.
//!
//! [`write_listing`] writes all markers: `OK` with their number, and then one line for each, with the marker's key and the structure's
//! name. All threads make the lines of many markers. [`write_limited`] writes the first markers of each rule, up to a limit, on one thread.
//! Markers after a rule's first ones don't matter ([`first_markers_are_listed`]). [`put_key`] writes a marker's key alone. Coordinates may
//! count parts of a nanometre. They are written in nm. [`count_of_rule`] is the number of markers of a rule.
#![tactic(auto)]

mod batches;
mod count;
mod key;
mod laws;
mod length;
mod limited;
mod line;
mod listing;

pub use batches::write_listing;
pub use count::count_of_rule;
pub use key::put_key;
pub use laws::{first_markers_are_listed, lengths_are_exact, whole_keys_are_numbers};
pub use limited::{Limited, write_limited};
pub use listing::Listing;
