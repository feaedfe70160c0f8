//! The options of a check, or what the files say if they aren't given: the structure that is checked, the side of the tiles,
//! and layers.
//!
//! - [`only_top`] is the structure of a library that nothing places, if there is exactly one. [`unplaced_structures`] are all of these.
//! - A [`TileSide`] is a side for tiles that replaces the deck's; the rules stay as they are.
//! - [`read_layers`] reads a list of layers.
#![tactic(auto)]

mod layers;
mod side;
mod top;

pub use layers::read_layers;
pub use side::{TileSide, with_side};
pub use top::{only_top, unplaced_structures};
