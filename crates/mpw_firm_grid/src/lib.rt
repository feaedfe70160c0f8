//! Libraries whose unit is a part of a nanometre: 1/n nm, with n from 2 to 1000 and without prime factors but 2 and 5.
//!
//! The reader of a library takes units of whole nanometres. [`grid_parts`] is n for a library's text, and [`on_grid`] is the same text with
//! a unit of 1 nm: its lengths then count parts of a nanometre, and each byte has its place. [`deck_on`] is a deck whose lengths count the
//! same parts, if no rule is [`first_beyond`] the limit. [`Parts`] is their number.
#![tactic(auto)]

mod deck;
mod grid;
mod parts;
mod unit;

pub use deck::{deck_on, first_beyond};
pub use grid::{grid_parts, on_grid};
pub use parts::Parts;
