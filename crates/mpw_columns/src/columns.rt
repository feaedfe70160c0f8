//! Cuts the extent of a layout into the columns of one axis.
//!
//! The extent is cut in two again and again, until a column's window has few flat shapes. It is cut in its middle, or where an array repeats. The left part
//! comes before the right one, so the columns are in order.

ghost use Rattle.std.specs.Prelude.{◌≡◌, ◌+◌, ◌≤◌, ◌^◌, length, ◌≤ℤ◌, ◌<ℤ◌, ◌+ℤ◌, pos, ℤ, IfOk, IfSome, OnOk};
ghost use Rattle.mpw_walk.specs.Turns.{given};
ghost use Rattle.mpw_walk.specs.Window.{items_met};
ghost use Rattle.mpw_tiles.specs.Snapshots.{shown};
ghost use Rattle.mpw_columns_keys.specs.Columns.{seen_box, upright, across, AreColumns};
ghost use Rattle.mpw_columns.specs.Internal.Found.{IsUpright, IsStretch, IsWide, AreHalvesOf, AreFew};

use crate::list::seen_box;
use crate::part::window_of;
use mpw_columns_cuts::{
    Counts, Lattice, is_within_cell, line_between, shown_by_cells, width_of_cells,
};
use mpw_columns_keys::Column;
use mpw_edges::Axis;
use mpw_geom::{Box2, Point};
use mpw_tiles::Snapshot;
use mpw_walk::Walk;
use std::alloc::{AllocError, Global};

/// The most halvings of an extent.
const MAX_DEPTH: u32 = 32;

/// If an axis has this many columns, none is halved any more.
const MAX_COLUMNS: usize = 1 << 20;

/// What decides where columns are cut: the counts of flat shapes, the lines on which arrays repeat, the axis, the extent seen along it, the width in nm
/// by which windows exceed columns, and the most flat shapes of a column, first in general and then where no array repeats.
#[derive(Clone, Copy)]
pub(crate) struct View<'a> {
    pub(crate) counts: &'a Counts,
    pub(crate) lattices: &'a [Lattice],
    pub(crate) axis: Axis,
    pub(crate) seen: Box2,
    pub(crate) distance: u32,
    pub(crate) most: u32,
    pub(crate) most_elsewhere: u32,
}

/// The core of a column of an extent. Both are seen along the axis.
pub(crate) fn upright(seen: &Box2, column: &Column) -> Box2
    ensures { result ≡ upright seen.now column.now }
{
    Box2 {
        x0: column.from,
        y0: seen.y0,
        x1: column.to,
        y1: seen.y1,
    }
}

/// The walk over the shapes whose boxes touch the window of a core. The core is seen along the axis.
pub(crate) fn walk_within<'a>(
    snapshot: &'a Snapshot,
    axis: Axis,
    core: &Box2,
    distance: u32,
) -> Walk<'a>
    requires { IsUpright core.now }
    ensures { given result.left ≡ items_met (seen_box axis (across core.now (distance + 1))) (shown snapshot.now) }
{
    snapshot.is_snapshot();
    let window = seen_box(axis, &window_of(core, distance));
    Walk::within(snapshot.shelf(), snapshot.roots(), window)
}

/// A point in the middle of a column, or its first position if it has no other.
fn middle(column: &Column) -> Point
    requires { IsStretch column.now }
    ensures left { column.now.from ≤ℤ result.x }
    ensures right { result.x <ℤ column.now.to }
{
    Point {
        x: column.from + (column.to - column.from) / 2,
        y: 0,
    }
}

/// The point at which a column is cut: on a line on which an array repeats, or else in its middle. It is the first position if there is no other.
fn cut_of(lattices: &[Lattice], column: &Column) -> Point
    requires { IsStretch column.now }
    ensures left { column.now.from ≤ℤ result.x }
    ensures right { result.x <ℤ column.now.to }
{
    match line_between(lattices, column.from, column.to) {
        Some(x) if column.from < x && x < column.to => Point { x, y: 0 },
        _ => middle(column),
    }
}

/// How many flat shapes the window of a column has, and how many those of its two parts have together.
#[derive(Clone, Copy)]
struct Load {
    whole: u64,
    parts: u64,
}

impl Load {
    /// The load of a column that is cut at a point. Constant time.
    fn of(view: &View<'_>, column: &Column, at: Point) -> Load {
        let margin = i64::from(view.distance) + 1;
        let (from, to) = (
            column.from.saturating_sub(margin),
            column.to.saturating_add(margin),
        );
        let left = view.counts.shown(from, at.x.saturating_add(margin));
        let right = view.counts.shown(at.x.saturating_sub(margin), to);
        Load {
            whole: view.counts.shown(from, to),
            parts: left.saturating_add(right),
        }
    }

    /// Whether the column has more than `most` flat shapes, and its parts have fewer than one and a half times as many. If wires cross all columns, each half
    /// has as many shapes as the whole, and halving saves nothing.
    fn is_above(self, most: u64) -> bool {
        self.whole > most && self.parts < self.whole.saturating_add(self.whole / 2)
    }
}

/// Whether a column is cut between two cells of an array. It must be wider than columns that have an eighth of the shapes that one may have: of columns that
/// repeat, only one is checked. And arrays must have a fair share of the column's shapes. The width decides because it is the same for columns that repeat.
/// The counts are estimates and differ.
fn is_cut_at_line(view: &View<'_>, width: u64, load: Load) -> bool {
    let most = u64::from(view.most) / 8;
    if width <= width_of_cells(view.lattices, most) || load.whole <= most / 2 {
        return false;
    }
    let of_arrays = shown_by_cells(view.lattices, width);
    of_arrays >= load.whole / 4 || load.is_above(most)
}

/// Whether a column should be halved. It never is if it is narrower than four margins of its window. Within a cell of the finest array it may have four times
/// as many shapes as elsewhere: narrower columns would repeat no other, and each instance would be checked by itself.
fn is_crowded(view: &View<'_>, column: &Column) -> bool
    requires { IsStretch column.now }
{
    let width = column.from.abs_diff(column.to);
    if width <= u64::from(view.distance).saturating_add(1).saturating_mul(4) {
        return false;
    }
    let load = Load::of(view, column, cut_of(view.lattices, column));
    let most = u64::from(view.most);
    if is_within_cell(view.lattices, width) {
        load.is_above(most.saturating_mul(4))
    } else if line_between(view.lattices, column.from, column.to).is_some() {
        is_cut_at_line(view, width, load)
    } else {
        load.is_above(u64::from(view.most_elsewhere))
    }
}

/// The column left of the cut, and the column right of it. `None` if the column has only one position.
fn halves(lattices: &[Lattice], column: &Column) -> Option<(Column, Column)>
    requires { IsStretch column.now }
    ensures { IfSome result (λ h. AreHalvesOf column.now h.0 h.1) }
{
    let at = cut_of(lattices, column);
    if at.x == column.from {
        return None;
    }
    let left = Column {
        axis: column.axis,
        from: column.from,
        to: at.x,
    };
    let right = Column {
        axis: column.axis,
        from: at.x,
        to: column.to,
    };
    Some((left, right))
}

/// Adds a column at the end.
fn add_one(columns: &mut Vec<Column>, column: &Column) -> Result<(), AllocError>
    requires { column.now.from <ℤ column.now.to }
    ensures columns { (low : ℤ) → AreColumns column.now.axis low column.now.from columns.old.items →
        OnOk result (AreColumns column.now.axis low column.now.to columns.new.items) }
    ensures one { OnOk result (length columns.new.items ≡ length columns.old.items + 1) }
{
    columns.push(*column)?;
    Ok(())
}

/// Adds the columns into which a column is cut: at most `depth` halvings, and none once there are [`MAX_COLUMNS`]. The only error is out of
/// memory.
fn add_columns(
    columns: &mut Vec<Column>,
    view: &View<'_>,
    column: &Column,
    depth: u32,
) -> Result<(), AllocError>
    requires { IsStretch column.now }
    ensures columns { (low : ℤ) → AreColumns column.now.axis low column.now.from columns.old.items →
        OnOk result (AreColumns column.now.axis low column.now.to columns.new.items) }
    ensures few { OnOk result (AreFew depth (length columns.old.items) (length columns.new.items)) }
{
    if depth == 0 || columns.len() >= MAX_COLUMNS || !is_crowded(view, column) {
        return add_one(columns, column);
    }
    let Some((left, right)) = halves(view.lattices, column) else {
        return add_one(columns, column);
    };
    add_columns(columns, view, &left, depth - 1)?;
    add_columns(columns, view, &right, depth - 1)
}

/// The column of all positions of an extent that is seen along the axis. It has one more than the extent has squares, since edges can lie at the end too.
fn whole(axis: Axis, seen: &Box2) -> Column
    requires { IsWide seen.now }
    ensures axis { result.axis ≡ axis }
    ensures from { result.from ≡ seen.now.x0 }
    ensures to { result.to ≡ (seen.now.x1 +ℤ pos 1) }
{
    Column {
        axis,
        from: seen.x0,
        to: seen.x1 + 1,
    }
}

/// The columns of the view. The window of each has at most `most` flat shapes, as far as halving achieves it.
pub(crate) fn columns_in(alloc: Global, view: &View<'_>) -> Result<Vec<Column>, AllocError>
    requires { IsWide view.now.seen }
    ensures columns { IfOk result (λ v. AreColumns view.now.axis view.now.seen.x0 (view.now.seen.x1 +ℤ pos 1) v.items) }
    ensures few { IfOk result (λ v. length v.items ≤ 2 ^ 20 + 32) }
{
    let whole = whole(view.axis, &view.seen);
    let mut columns = Vec::new(alloc);
    add_columns(&mut columns, view, &whole, MAX_DEPTH)?;
    Ok(columns)
}
