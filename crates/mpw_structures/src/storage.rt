//! Where values are stored that are read from a text.

ghost use Rattle.std.specs.Prelude.{◌≡◌, IfOk};

use crate::points::{Points, SharedText};
use mpw_geom::Point;
use std::alloc::{AllocError, Global};

/// Where values are stored that are read from a text: in new memory, and points in the text itself if it is shared.
#[derive(Clone, Copy)]
pub struct Storage<'a> {
    /// New memory.
    pub alloc: Global,
    /// The text.
    pub text: Option<&'a SharedText>,
}

impl<'a> Storage<'a> {
    /// The points that were read at a byte of the text.
    ///
    /// # Errors
    /// Out of memory, or if no more copies of the text can be counted.
    pub fn points(self, at: usize, points: Vec<Point>) -> Result<Points, AllocError>
        ensures { IfOk result (λ found. found ≡ points.items) }
    {
        match self.text {
            Some(text) => text.points(self.alloc, at, points),
            None => Points::from_vec(self.alloc, points),
        }
    }
}
