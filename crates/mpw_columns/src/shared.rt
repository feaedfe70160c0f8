//! What adjacent columns share: one list of the rectangles in the window that contains all of theirs.

ghost use Rattle.std.specs.Prelude.{◌≡◌, IfOk, IfSome, IsTrue};
ghost use Rattle.mpw_columns_keys.specs.Columns.{seen_box, upright};
ghost use Rattle.mpw_columns.specs.Internal.Blocks.{IsUprightIn, AreUprightIn};
ghost use Rattle.mpw_columns.specs.Internal.Checked.{IsLayout, AgreeInColumn, IsShared};

use crate::block::{is_part, whole_of};
use crate::cores::{core_of, rectangles_in};
use crate::layout::Layout;
use crate::part::{parts_in, window_of};
use mpw_columns_keys::Column;
use mpw_tiles::Rectangle;
use std::alloc::{AllocError, Global};

/// If the top has at least this many shapes and references of its own, the columns of a batch share one list.
const MANY_OWN: usize = 1 << 18;

/// The rectangles of the layout in the window of a column, listed once for the columns that lie in it.
#[derive(Drop)]
pub(crate) struct Shared {
    whole: Column,
    rectangles: Vec<Rectangle>,
}

/// The rectangles in the window of a column, sorted by layer and seen along its axis. If the column lies in the window of the shared ones, they are parts
/// of these, found in one pass. Otherwise [`rectangles_in`] lists them.
pub(crate) fn rectangles_of(
    alloc: Global,
    layout: &Layout<'_>,
    shared: &Option<Shared>,
    column: &Column,
) -> Result<Vec<Rectangle>, AllocError>
    requires layout { IsLayout layout.now }
    requires upright { IsUprightIn layout.now column.now }
    requires shared { IfSome shared.now (IsShared layout.now) }
    ensures { IfOk result (λ v. AgreeInColumn layout.now column.now v.items) }
{
    let core = core_of(layout, column);
    match shared {
        Some(shared) if is_part(column, &shared.whole) => {
            let window = window_of(&core, layout.distance);
            parts_in(alloc, shared.rectangles.as_slice(), &window)
        }
        _ => rectangles_in(alloc, layout, column.axis, &core),
    }
}

/// Whether columns share one list: the top has many shapes of its own, all of which a walk visits, and the columns fill most of the space between them.
fn are_shared(layout: &Layout<'_>, columns: &[Column], whole: &Column) -> bool {
    let Some(top) = layout
        .snapshot
        .shelf()
        .nodes(0)
        .and_then(|nodes| nodes.last())
    else {
        return false;
    };
    let mut width = 0u64;
    for column in columns {
        width = width.saturating_add(column.from.abs_diff(column.to));
    }
    let own = top.shapes.len().saturating_add(top.children.len());
    own >= MANY_OWN && whole.from.abs_diff(whole.to) / 2 <= width
}

/// The rectangles of the layout in the window of the smallest column that contains all these columns, if they have one axis and sharing pays.
pub(crate) fn shared_of(
    alloc: Global,
    layout: &Layout<'_>,
    columns: &[Column],
) -> Result<Option<Shared>, AllocError>
    requires layout { IsLayout layout.now }
    requires upright { AreUprightIn layout.now columns.now }
    ensures { IfOk result (λ o. IfSome o (IsShared layout.now)) }
{
    if columns.is_empty() {
        return Ok(None);
    }
    let Some(whole) = whole_of(layout, columns, 0, columns.len()) else {
        return Ok(None);
    };
    if !are_shared(layout, columns, &whole) {
        return Ok(None);
    }
    let rectangles = rectangles_in(alloc, layout, whole.axis, &core_of(layout, &whole))?;
    Ok(Some(Shared { whole, rectangles }))
}
