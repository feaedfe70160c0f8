//! A layout as its columns are checked, and what is prepared once before that.

ghost use Rattle.std.specs.Prelude.{◌≡◌, length, Some, IfOk};
ghost use Rattle.mpw_tiles.specs.Snapshots.{shown_extent};
ghost use Rattle.mpw_columns.specs.Internal.Checked.{IsLayout, IsReady};

use crate::look::layers_of;
use mpw_columns_contents::Boxes;
use mpw_geom::{Box2, Layer};
use mpw_tiles::{Snapshot, greatest_distance};
use std::alloc::{AllocError, Global};

/// The input of a check: a snapshot with its extent, the layers of its deck's rules, the greatest of their distances in nm, and the boxes of the elements
/// of its small structures.
#[derive(Clone, Copy)]
pub(crate) struct Layout<'a> {
    pub(crate) snapshot: &'a Snapshot,
    pub(crate) extent: Box2,
    pub(crate) layers: &'a [Layer],
    pub(crate) distance: u32,
    pub(crate) boxes: &'a Boxes,
}

/// What is prepared once, before the columns of a layout are checked.
#[derive(Drop)]
pub(crate) struct Ready {
    layers: Vec<Layer>,
    boxes: Boxes,
}

impl Ready {
    /// The layers of the rules, and the boxes of the elements of small structures. The only error is out of memory.
    pub(crate) fn of(alloc: Global, snapshot: &Snapshot) -> Result<Ready, AllocError>
        requires { length snapshot.now.shelf ≡ 1 }
        ensures { IfOk result (IsReady snapshot.now) }
    {
        let layers = layers_of(alloc, snapshot.deck().rules().as_slice())?;
        let boxes = Boxes::of(alloc, snapshot.shelf())?;
        Ok(Ready { layers, boxes })
    }

    /// The layout with this extent.
    pub(crate) fn layout<'a>(&'a self, snapshot: &'a Snapshot, extent: Box2) -> Layout<'a>
        requires alone { length snapshot.now.shelf ≡ 1 }
        requires extent { shown_extent snapshot.now ≡ Some extent }
        requires ready { IsReady snapshot.now self.now }
        ensures layout { IsLayout result }
        ensures snapshot { result.snapshot.now ≡ snapshot.now }
        ensures extent { result.extent ≡ extent }
    {
        snapshot.is_snapshot();
        Layout {
            snapshot,
            extent,
            layers: self.layers.as_slice(),
            distance: greatest_distance(snapshot.deck().rules().as_slice()),
            boxes: &self.boxes,
        }
    }
}
