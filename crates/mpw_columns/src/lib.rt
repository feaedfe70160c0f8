//! Checks a layout by columns: half-open strips over its whole height for vertical edges, and over its whole width for horizontal edges.
//!
//! A pair step of row `j` depends on row `j` alone. So a column's window is wider than the column to the left and to the right, and no wider up or down
//! ([`window_decides_along`]). The runs that a column finds are whole, and no other column finds them ([`columns_have_whole_runs`]). So no flat list is
//! needed: only the rectangles of the columns at work are in memory.
//!
//! - [`columns_of`] cuts the layout of a snapshot into columns.
//! - [`lists_of_columns`] finds the keys of each column, or of a share of the columns ([`columns_lie_within`]).
//! - [`mpw_columns_keys::together`] joins the lists of all columns into the flat layout's book ([`lists_make_the_layout`]). A column's list continues the list of the
//!   column before ([`columns_follow_on`]), so nothing is sorted as a whole.
//! - [`check_columns`] does all three.
//! - [`first_of_columns`] returns the first markers of each rule and their numbers alone, and holds no more of a column (`first`).
//!
//! A column *repeats* an earlier one if the two are identical up to translation. The columns of a regular layout do: the check finds them (`earlier`, `equal`)
//! and displaces the list of the earlier column (`like`). If arrays repeat, adjacent columns are first compared as one (`block`). So one comparison decides
//! all columns of an instance of an array.
//!
//! Within a column its halves are columns again (`divide`), down to leaves with few rectangles side by side. The bands of a leaf serve all rules (`leaf`).
//!
//! *Seen along an axis* means: as it is on `V`, and with x and y exchanged on `H`. Shapes are listed in this way (`list`), so all later code deals with
//! vertical edges. An *entry* of a window is a shape or an array of instances.
#![tactic(auto)]

mod batch;
mod block;
mod check;
mod columns;
mod cores;
mod displaced;
mod divide;
mod earlier;
mod equal;
mod first;
mod follow;
mod kept;
mod laws;
mod layout;
mod leaf;
mod like;
mod list;
mod load;
mod look;
mod part;
mod plan;
mod progress;
mod shared;
mod solve;
mod things;

pub use check::{MAX_SHOWN, check_columns, lists_of_columns};
pub use first::{Bounds, FirstMarkers, first_of_columns};
pub use follow::columns_follow_on;
pub use laws::{
    columns_have_whole_runs, columns_lie_within, columns_make_the_layout,
    displaced_columns_find_displaced_runs, displaced_columns_have_displaced_lists,
    lists_make_the_layout, moved_items_show_displaced, window_decides_along,
};
pub use plan::columns_of;
pub use progress::{Progress, Silent};
