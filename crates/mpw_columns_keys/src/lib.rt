//! The columns into which a layout is cut, the keys of each, and how the layout's book is joined from these.
//!
//! - A [`Column`] is a half-open core over all rows of an extent, for vertical edges, or over all columns of it, for horizontal ones.
//!   [`are_columns`] tests whether columns are adjacent and in order.
//! - [`ColumnKeys`] are the keys of what a column found, in order. No run continues in another column. So
//!   [`together`] concatenates lists by rule, axis and side, and nothing is sorted as a whole.
//! - If only the first markers of each rule and their numbers are requested, a column stores only its [`Firsts`], and columns can share them, displaced
//!   ([`Placed`]). [`Shared`] joins these. [`shared_lists_have_the_first`] says that the result is the first of what the columns' whole lists make.
//! - [`joined`] makes the maximal runs of pieces that cores of a column find: it sorts them by line and by their beginnings, and one pass
//!   extends the current run by the next piece, or begins another one.
//!
//! ```
//! let first = ColumnKeys::of(keys_of_the_first_column);
//! let second = ColumnKeys::of(keys_of_the_second_column);
//! let markers = together(alloc, rules, &[first, second], &[])?;
//! ```
#![tactic(auto)]

mod column;
mod first;
mod keys;
mod laws;
mod lists;
mod pieces;
mod placed;

pub use column::{Column, are_columns};
pub use first::{First, Firsts};
pub use keys::ColumnKeys;
pub use laws::{shared_lists_have_the_first, test_decides_order};
pub use lists::together;
pub use pieces::joined;
pub use placed::{Placed, Shared};
