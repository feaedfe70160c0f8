//! One placement on the wafer.

ghost use Rattle.std.specs.Prelude.{◌≡◌};
ghost use Rattle.mpw_placings.specs.Internal.Maps.{placement_of};

use crate::name::PlacementName;
use mpw_geom::Name;
use mpw_walk::Root;

/// A submission that is placed on the wafer. Its cell and its label together identify it.
pub struct Placement {
    /// The cell of the submission.
    pub cell: Name,
    /// The label. The cell has no other placement with this label.
    pub label: Name,
    /// The submission, by number, with its orientation and displacement.
    pub root: Root,
}

impl Drop for Placement {
    fn drop(self) {
        let Placement {
            cell,
            label,
            root: _,
        } = self;
        drop(cell);
        drop(label);
    }
}

impl Placement {
    /// What identifies it, and what is placed.
    pub(crate) fn into_entry(self) -> (PlacementName, Root)
        ensures { placement_of result ≡ self }
    {
        let Placement { cell, label, root } = self;
        (PlacementName { cell, label }, root)
    }
}

/// A placement as the table lends it.
#[derive(Clone, Copy)]
pub struct PlacementRef<'a> {
    /// The cell of the submission.
    pub cell: &'a Name,
    /// The label. The cell has no other placement with this label.
    pub label: &'a Name,
    /// The submission, by number, with its orientation and displacement.
    pub root: Root,
}
