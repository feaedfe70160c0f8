//! Checks a library's top by itself, under a deck, as a firm does before it submits.
//!
//! - [`read_layout`] reads a library and places its top where it was drawn.
//! - [`check_layout`] cuts it into tiles, finds each tile's markers in at most two threads for each processor, and stitches them. If there are
//!   too many tiles or shapes for that, it checks by columns ([`mpw_columns::check_columns`]). The markers are those of the flat layout of
//!   that top alone, whatever the tiles' side ([`markers_are_the_librarys`]). It reports to a [`Progress`] how many tiles or columns are
//!   checked.
//! - [`first_of_layout`] checks in the same way. It returns the first markers of each rule, and how many
//!   there are.
//! - [`check_tiles`] finds the markers of some tiles. The lists of all tiles, stitched, are the layout's markers again
//!   ([`tiles_make_the_layout`]).
#![tactic(auto)]

mod check;
mod fault;
mod first;
mod following;
mod group_firsts;
mod groups;
mod laws;
mod layout;

pub use check::{check_layout, check_tiles, checked_tiles, tile_count};
pub use fault::CheckFault;
pub use first::first_of_layout;
pub use laws::{markers_are_the_librarys, tiles_follow_on, tiles_make_the_layout};
pub use layout::read_layout;
pub use mpw_columns::{FirstMarkers, Progress, Silent};
