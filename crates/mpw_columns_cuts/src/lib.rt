//! Estimates where the columns and cores of a layout are best cut. No contract depends on the estimates.
//!
//! [`Counts`] estimates how many flat shapes a layout has at which positions. [`lattices_of`] finds the lines on which its arrays repeat. [`cuts_of`] decides
//! where a core is cut, from the entries of its window, and [`shown_by`] estimates their flat shapes. A check by columns finds the same markers whatever they return: they decide how long it takes.
#![tactic(auto)]

mod clean;
mod common;
mod counts;
mod cutting;
mod large;
mod lattice;
mod line;
mod overlap;
mod room;
mod sample;
mod tally;
mod view;

pub use counts::Counts;
pub use cutting::{Core, Cuts, cuts_of};
pub use lattice::{
    Lattice, is_placed, is_within_cell, lattices_of, line_between, repeats, shown_by_cells,
    width_of_cells,
};
pub use view::shown_by;
