//! The tiles of a run: the grid over the layout, and the window of each tile.
//!
//! A [`Grid`] covers a closed extent with square cells of one side. Their cores are half-open: each point of the extent lies in exactly one.
//! A cell's window is its core, extended on each side by a margin. [`Grid::meeting`] finds by division the cells whose windows share a
//! square with a box. So sorting a box into windows takes constant time and its entries in the lists.
//!
//! A [`Plan`] is such a grid over the layout's extent. Each pair step of a rule belongs to exactly one core. What a core finds
//! depends on the squares of its window, which is wider by the deck's greatest distance plus 1 on each side. [`windows_of`]
//! sorts placed rectangles into the windows that they touch.
//!
//! A [`Snapshot`] is what a run checks: a deck, placed submissions and the shelf that has them. Its plan is over
//! their shapes. [`cut`] makes the windows that represent it: by layer and origin they have the squares of the
//! shapes, and each listed rectangle has a square of its window.
#![tactic(auto)]

mod extent;
mod fill;
mod grid;
mod grid_laws;
mod laws;
mod listing;
mod place;
mod plan;
mod shapes;
mod snapshot;
mod span;

pub use fill::windows_of;
pub use grid::{Block, Grid};
pub use grid_laws::{each_point_has_one_core, windows_reach_no_further};
pub use laws::{
    each_step_has_one_tile, each_window_decides, each_window_tells_met, plans_lie_in_plane,
    squares_lie_in_boxes, windows_list_what_is_shown, windows_show_layers,
};
pub use listing::{Rectangle, Window, Windows};
pub use place::PlacedShape;
pub use plan::{MAX_TILES, Plan, TooManyTiles, greatest_distance};
pub use snapshot::{MAX_ROOTS, MAX_SHAPES, Snapshot, are_roots, cut};
