//! A merged region: bands of rows, each with its columns.

ghost use Rattle.std.specs.Prelude.{◌≡◌};
ghost use Rattle.mpw_region.specs.Banded.{AreBands};
ghost use Rattle.mpw_region.specs.Region.{IsRegion, AreColumnsOf};

use mpw_geom::Box2;
use std::marker::Model;

/// A set of unit squares as bands of rows. Contracts see it as the list of its boxes: from below,
/// and in each band from left to right with a gap between any two. Users refer to the squares
/// alone, so it is unspecified whether neighbouring bands of equal columns are joined.
///
/// It also stores the bands of the same squares with their coordinates exchanged.
pub struct Bands {
    boxes: Vec<Box2>,
    columns: Vec<Box2>,
}

impl Drop for Bands {
    fn drop(self) {
        let Bands { boxes, columns } = self;
        drop(boxes);
        drop(columns);
    }
}

impl Model for Bands {
    ghost use Rattle.std.specs.Prelude.{List};
    ghost use Rattle.mpw_geom.specs.declared.plane.Box2.{Box2};
    ghost use Rattle.mpw_region.specs.Region.{IsRegion};

    ghost Value = { List Box2 };

    ghost view = { λ b. b.boxes.items };

    ghost invariant = { λ b. IsRegion b.boxes.items b.columns.items };
}

impl Bands {
    /// The region of boxes that are bands already, and of the bands of the exchanged squares.
    pub(crate) fn of(boxes: Vec<Box2>, columns: Vec<Box2>) -> Bands
        requires { IsRegion boxes.items columns.items }
        ensures { result ≡ boxes.items }
    {
        Bands { boxes, columns }
    }

    /// The boxes: bands of rows from below, and in each band intervals from left to right.
    pub fn as_slice(&self) -> &[Box2]
        ensures boxes { result.now ≡ self.now }
        ensures banded { AreBands self.now }
    {
        self.boxes.as_slice()
    }

    /// The bands of the same squares with their coordinates exchanged. They were made with the region.
    pub fn columns(&self) -> &[Box2]
        ensures { AreColumnsOf self.now result.now }
    {
        self.columns.as_slice()
    }
}
