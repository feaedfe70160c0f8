//! Where a walk begins, and what it gives.

use mpw_geom::Placing;
use mpw_structures::Element;

/// A submission, by number, and its placing.
#[derive(Clone, Copy)]
pub struct Root {
    /// Its number on the shelf, from 0.
    pub submission: u32,
    /// The placing from the coordinates of its top to those of the shapes that a walk gives.
    pub placing: Placing,
}

/// A shape of the submission `origin`, and its placing.
#[derive(Clone, Copy)]
pub struct Placed<'a> {
    /// The number of the submission from which the shape comes, from 0.
    pub origin: u32,
    /// The placing from the coordinates of the shape's structure to those of the walk.
    pub placing: Placing,
    /// The shape as its library has it, not placed.
    pub element: &'a Element,
}
