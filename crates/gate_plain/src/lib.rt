//! Random layouts for golden tests, and their shapes and markers by plain second implementations.
//!
//! [`layout`] makes a shelf with a pad and a chip that places it, alone and in arrays, in any orientation. [`roots`] places them.
//! [`flat_list`] flattens placed submissions by plain recursion. [`squares_of`] gives the unit squares of a shape by their definition.
//! [`Picture`] paints them all and finds the markers of a rule square by square. Nothing here uses the walks, rectangles, bands or windows
//! that it is compared with.
#![tactic(auto)]

mod flat;
mod layouts;
mod named;
mod near;
mod notation;
mod picture;
mod search;
mod shelves;
mod snapshots;

pub use flat::{Affine, Cell, Shown, flat_list, layer, squares_of};
pub use layouts::{layout, roots};
pub use named::{bound, own};
pub use near::all_near;
pub use notation::Notation;
pub use picture::Picture;
pub use search::{PlainMarker, plain_markers};
pub use shelves::{Entry, placed_roots, put_entry, put_text, submit, submit_text};
pub use snapshots::{deck_of, drawn, placed};
