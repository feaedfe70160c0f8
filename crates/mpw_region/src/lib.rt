//! Computes the merged region of a list of boxes, as bands of rows.
//!
//! - [`bands`] gives boxes that have the same unit squares, ordered by rows and then from left to
//!   right. No two boxes of a row touch. [`row_bands`] gives only a list of these bands.
//! - [`laws::Sweep`] is the sweep that computes them.
//! - [`join_runs`] joins runs of whole numbers on lines if they overlap or touch.
//!
//! A call of [`bands`] takes the boxes of one window. Its cost grows with the boxes that share rows: the
//! comment at the top of `cut.rt` has the count.
#![tactic(auto)]

mod cut;
pub mod laws;
mod merge;
mod region;
mod runs;
mod sweep;

pub use cut::{bands, exchange, exchanged_box, has_area, row_bands};
pub use region::Bands;
pub use runs::{Line, Run, join_runs};
