//! What identifies a placement: its cell and its label together.

ghost use Rattle.std.specs.Prelude.{◌≡◌};

use indexmap::Equivalent;
use mpw_geom::Name;
use std::alloc::AllocError;

/// A cell and a label, by which a map finds their placement.
#[derive(PartialEq, Eq, Hash)]
pub(crate) struct PlacementName {
    pub(crate) cell: Name,
    pub(crate) label: Name,
}

impl Drop for PlacementName {
    fn drop(self) {
        let PlacementName { cell, label } = self;
        drop(cell);
        drop(label);
    }
}

impl Clone for PlacementName {
    ghost is_clone = { λ name copy. copy ≡ name };

    fn clone(&self) -> Result<PlacementName, AllocError> {
        Ok(PlacementName {
            cell: self.cell.copy()?,
            label: self.label.copy()?,
        })
    }
}

/// A borrowed cell and label, to look up their placement. So a look-up copies no name.
#[derive(Clone, Copy, PartialEq, Eq, Hash)]
pub(crate) struct PlacementNameRef<'a> {
    pub(crate) cell: &'a Name,
    pub(crate) label: &'a Name,
}

impl Equivalent<PlacementName> for PlacementNameRef<'_> {
    ghost use Rattle.mpw_placings.specs.Internal.Names.{is_named, named_alike, named_once};

    ghost equivalent = { λ name key. is_named name.cell.now name.label.now key };

    ghost respects_hash = { λ name key. named_alike name.cell.now name.label.now key };

    ghost respects_eq = { λ name x y. named_once name.cell.now name.label.now x y };

    fn equivalent(&self, key: &PlacementName) -> bool {
        (key.cell == *self.cell) & (key.label == *self.label)
    }
}
