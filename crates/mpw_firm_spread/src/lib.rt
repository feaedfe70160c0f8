//! A layout's check spread over machines: each checks some columns and writes a part, and the parts are put together.
//!
//! [`columns_for_shares`] cuts a layout into columns, the same on each machine. [`Plan::span`] finds which of them a [`ColumnRange`] asks for: shares have
//! equal parts of the columns' estimated costs (`costs`). [`check_part`] checks these, and `mpw_firm_parts` writes, reads and stitches the parts. Parts that are
//! stitched have exactly the markers of the flat layout of the files that the first was made of ([`parts_make_the_layout`]).
#![tactic(auto)]

mod array;
mod bins;
mod costs;
mod laws;
mod line;
mod part;
mod plan;
mod range;
mod tree;

pub use laws::{parts_make_the_layout, shares_follow_on};
pub use part::{check_part, subject_of};
pub use plan::{Plan, columns_for_shares};
pub use range::{ColumnRange, Span, read_range};
