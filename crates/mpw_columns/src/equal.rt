//! Finds what of the layout touches a column's window, and whether two columns are identical up to translation.
//!
//! If the layout is regular, a short list of shapes and arrays touches a column's window. If two columns are equally wide, and their lists are equal up to the
//! displacement of the columns, then the contents of both windows are equal up to that displacement.

ghost use Rattle.std.specs.Prelude.{◌≡◌, ◌∷◌, [], ◌-ℤ◌, ◌↔◌, IsTrue, IfOk, IfSome};
ghost use Rattle.mpw_walk.specs.Roots.{root_at_origin};
ghost use Rattle.mpw_columns_keys.specs.Columns.{seen_box, upright};
ghost use Rattle.mpw_columns.specs.Displaced.{across_edges, IsDisplaced};
ghost use Rattle.mpw_columns.specs.Internal.Checked.{IsLayout};
ghost use Rattle.mpw_columns.specs.Internal.Found.{IsUpright};
ghost use Rattle.mpw_columns.specs.Internal.Like.{AreContentsOf, IsLike};

use crate::columns::upright;
use crate::laws::moved_items_show_displaced;
use crate::layout::Layout;
use crate::list::seen_box;
use crate::part::window_of;
use mpw_columns_contents::{Contents, Wanted, contents_in, displacement};
use mpw_columns_keys::Column;
use mpw_edges::Axis;
use mpw_geom::{Orient, Point};
use mpw_tiles::Snapshot;
use mpw_walk::{Root, roots_at_origin_show_their_submission};
use std::alloc::{AllocError, Global};

/// The most entries of a column's contents.
const MOST: usize = 4096;

/// Whether the root is the first submission, at the position where it was drawn.
fn is_at_origin(root: &Root) -> bool
    ensures { IsTrue result → root.now ≡ root_at_origin 0 }
{
    let Root {
        submission,
        placing,
    } = *root;
    submission == 0 && placing.orient == Orient::R0 && placing.by.x == 0 && placing.by.y == 0
}

/// Whether the first submission is the only root, at the position where it was drawn.
pub(crate) fn is_first_alone(snapshot: &Snapshot) -> bool
    ensures { IsTrue result → snapshot.now.roots ≡ root_at_origin 0 ∷ [] }
{
    let roots = snapshot.roots();
    roots.len() == 1 && is_at_origin(&roots[0])
}

/// The options of a column's contents: instances that are wider than the column are opened.
fn wanted(column: &Column) -> Wanted {
    Wanted {
        most: MOST,
        width: column.from.abs_diff(column.to),
        is_along_y: column.axis == Axis::H,
    }
}

/// What of the layout touches the column's window. `None` if that is no short list. Cost: what [`contents_in`] takes. The only error is out of
/// memory.
pub(crate) fn contents_of(
    alloc: Global,
    layout: &Layout<'_>,
    column: &Column,
) -> Result<Option<Contents>, AllocError>
    requires layout { IsLayout layout.now }
    requires upright { IsUpright (upright (seen_box column.now.axis layout.now.extent) column.now) }
    requires alone { layout.now.snapshot.now.roots ≡ root_at_origin 0 ∷ [] }
    ensures { IfOk result (λ o. IfSome o (λ things. AreContentsOf layout.now column.now things)) }
{
    roots_at_origin_show_their_submission();
    let core = upright(&seen_box(column.axis, &layout.extent), column);
    let window = seen_box(column.axis, &window_of(&core, layout.distance));
    contents_in(alloc, layout.snapshot.shelf(), window, wanted(column))
}

fn is_same_point(p: Point, q: Point) -> bool
    ensures { IsTrue result ↔ (p ≡ q) }
{
    p == q
}

pub(crate) fn is_same_axis(a: Axis, b: Axis) -> bool
    ensures { IsTrue result ↔ (a ≡ b) }
{
    a == b
}

pub(crate) fn is_same(a: i64, b: i64) -> bool
    ensures { IsTrue result ↔ (a ≡ b) }
{
    a == b
}

/// Whether a column is another one, displaced: both have the same axis and the same width.
pub(crate) fn is_displaced(layout: &Layout<'_>, earlier: &Column, column: &Column) -> bool
    requires earlier { IsUpright (upright (seen_box earlier.now.axis layout.now.extent) earlier.now) }
    requires column { IsUpright (upright (seen_box column.now.axis layout.now.extent) column.now) }
    ensures { IsTrue result → IsDisplaced (column.now.from -ℤ earlier.now.from) earlier.now column.now }
{
    if !is_same_axis(earlier.axis, column.axis) {
        return false;
    }
    let as_displaced = earlier.to + (column.from - earlier.from);
    is_same(column.to, as_displaced)
}

/// The distance from the beginning of one column to the beginning of another, in nm.
pub(crate) fn distance(layout: &Layout<'_>, earlier: &Column, column: &Column) -> i64
    requires earlier { IsUpright (upright (seen_box earlier.now.axis layout.now.extent) earlier.now) }
    requires column { IsUpright (upright (seen_box column.now.axis layout.now.extent) column.now) }
    ensures { result ≡ (column.now.from -ℤ earlier.now.from) }
{
    column.from - earlier.from
}

/// The vector from a column to another one of its axis.
fn way(layout: &Layout<'_>, earlier: &Column, column: &Column) -> Point
    requires earlier { IsUpright (upright (seen_box earlier.now.axis layout.now.extent) earlier.now) }
    requires column { IsUpright (upright (seen_box column.now.axis layout.now.extent) column.now) }
    ensures { result ≡ across_edges earlier.now.axis (column.now.from -ℤ earlier.now.from) }
{
    let by = distance(layout, earlier, column);
    match earlier.axis {
        Axis::V => Point { x: by, y: 0 },
        Axis::H => Point { x: 0, y: by },
    }
}

/// Whether these contents show that a column repeats another one: the column is the other, displaced, and so are its contents.
/// Cost: linear in the contents. Takes no memory.
pub(crate) fn is_like(
    layout: &Layout<'_>,
    earlier: &Column,
    first: &Contents,
    column: &Column,
    second: &Contents,
) -> bool
    requires earlier { IsUpright (upright (seen_box earlier.now.axis layout.now.extent) earlier.now) }
    requires column { IsUpright (upright (seen_box column.now.axis layout.now.extent) column.now) }
    requires first { AreContentsOf layout.now earlier.now first.now }
    requires second { AreContentsOf layout.now column.now second.now }
    ensures { IsTrue result → IsLike layout.now earlier.now column.now }
{
    moved_items_show_displaced();
    if !is_displaced(layout, earlier, column) {
        return false;
    }
    let way = way(layout, earlier, column);
    match displacement(first, second) {
        Some(found) => is_same_point(found, way),
        None => false,
    }
}
