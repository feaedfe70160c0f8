//! What the rules find in a core: a half-open box, seen along its axis.

ghost use Rattle.std.specs.Prelude.{◌≡◌, ◌+◌, ◌↔◌, Contains, IfOk};
ghost use Rattle.mpw_markers.specs.declared.marker.Key.{Key as KeyValue};
ghost use Rattle.mpw_tiles.specs.Snapshots.{shown};
ghost use Rattle.mpw_job.specs.Answers.{listed_on};
ghost use Rattle.mpw_job.specs.Computed.{shown_on};
ghost use Rattle.mpw_columns_keys.specs.Columns.{seen_box, upright, across};
ghost use Rattle.mpw_columns.specs.Seen.{seen_on};
ghost use Rattle.mpw_columns.specs.Found.{IsFound};
ghost use Rattle.mpw_columns.specs.Internal.Found.{IsUpright, AgreeIn};
ghost use Rattle.mpw_columns.specs.Internal.Checked.{IsLayout};

use crate::columns::{upright, walk_within};
use crate::divide::add_column;
use crate::layout::Layout;
use crate::list::{list_shapes, seen_box};
use crate::look::Look;
use crate::part::{parts_in, window_of};
use mpw_columns_keys::Column;
use mpw_edges::Axis;
use mpw_geom::{Box2, Layer};
use mpw_markers::Key;
use mpw_tiles::{Rectangle, squares_lie_in_boxes};
use std::alloc::{AllocError, Global};

/// The most halvings of a column.
const MAX_DEPTH: u32 = 60;

/// The layer's number in the order of all layers.
fn layer_code(layer: Layer) -> u64 {
    u64::from(layer.layer) * 65536 + u64::from(layer.datatype)
}

/// The rectangles, sorted by layer.
pub(crate) fn by_layer(rectangles: Vec<Rectangle>) -> Vec<Rectangle>
    ensures { listed_on result.items ≡ listed_on rectangles.items }
{
    let mut rectangles = rectangles;
    rectangles.sort_unstable_by_key(|r| layer_code(r.layer));
    rectangles
}

/// The core of a column, seen along its axis.
pub(crate) fn core_of(layout: &Layout<'_>, column: &Column) -> Box2
    ensures { result ≡ upright (seen_box column.now.axis layout.now.extent) column.now }
{
    upright(&seen_box(column.axis, &layout.extent), column)
}

/// The rectangles of the layout in the window of a core, sorted by layer and seen along the axis.
pub(crate) fn rectangles_in(
    alloc: Global,
    layout: &Layout<'_>,
    axis: Axis,
    core: &Box2,
) -> Result<Vec<Rectangle>, AllocError>
    requires layout { IsLayout layout.now }
    requires upright { IsUpright core.now }
    ensures { IfOk result (λ v. AgreeIn layout.now.layers.now (across core.now (layout.now.distance + 1))
        (seen_on axis (shown_on (shown layout.now.snapshot.now))) (listed_on v.items)) }
{
    squares_lie_in_boxes();
    let mut walk = walk_within(layout.snapshot, axis, core, layout.distance);
    let listed = list_shapes(alloc, layout.layers, axis, &mut walk)?;
    let parts = parts_in(alloc, listed.as_slice(), &window_of(core, layout.distance))?;
    Ok(by_layer(parts))
}

/// The keys of the maximal runs in a core that is seen along the axis. The rectangles must be sorted by layer.
pub(crate) fn keys_in(
    alloc: Global,
    layout: &Layout<'_>,
    axis: Axis,
    core: &Box2,
    rectangles: &[Rectangle],
) -> Result<Vec<Key>, AllocError>
    requires layout { IsLayout layout.now }
    requires upright { IsUpright core.now }
    requires agree { AgreeIn layout.now.layers.now (across core.now (layout.now.distance + 1))
        (seen_on axis (shown_on (shown layout.now.snapshot.now))) (listed_on rectangles.now) }
    ensures { IfOk result (λ v. (k : KeyValue) → Contains v.items k
        ↔ IsFound layout.now.snapshot.now.deck.rules axis (seen_on axis (shown_on (shown layout.now.snapshot.now))) core.now k) }
{
    let look = Look {
        rules: layout.snapshot.deck().rules().as_slice(),
        layers: layout.layers,
        axis,
        distance: layout.distance,
    };
    let mut keys = Vec::new(alloc);
    add_column(alloc, &mut keys, &look, rectangles, core, MAX_DEPTH)?;
    Ok(keys)
}
