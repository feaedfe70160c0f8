//! Cuts a layout into columns.

ghost use Rattle.std.specs.Prelude.{◌≡◌, ◌+◌, ◌≤◌, ◌^◌, true, length, Some, IfOk};
ghost use Rattle.mpw_geom.specs.Plane.{IsOrdered};
ghost use Rattle.mpw_hier.specs.Boxes.{is_box_near};
ghost use Rattle.mpw_tiles.specs.Snapshots.{shown_extent};
ghost use Rattle.mpw_columns_keys.specs.Columns.{AreColumnsOf};
ghost use Rattle.mpw_columns.specs.Plan.{AreColumnsOfLayout};
ghost use Rattle.mpw_columns.specs.Internal.Checked.{IsCounted};

use crate::columns::{View, columns_in};
use crate::list::seen_box;
use mpw_columns_cuts::{Counts, is_placed, lattices_of};
use mpw_columns_keys::Column;
use mpw_edges::Axis;
use mpw_geom::Box2;
use mpw_tiles::{Snapshot, greatest_distance};
use std::alloc::{AllocError, Global};

/// If few structures have all the shapes, a column may have this many times as many flat shapes, since its entries are fewer.
const MORE_PLACED: u32 = 16;

/// The columns of an axis.
fn columns_along(
    alloc: Global,
    snapshot: &Snapshot,
    extent: &Box2,
    most: u32,
    axis: Axis,
) -> Result<Vec<Column>, AllocError>
    requires near { is_box_near extent.now ≡ true }
    requires ordered { IsOrdered extent.now }
    ensures columns { IfOk result (λ v. AreColumnsOf axis extent.now v.items) }
    ensures few { IfOk result (λ v. length v.items ≤ 2 ^ 20 + 32) }
{
    let seen = seen_box(axis, extent);
    let counts = Counts::of(alloc, snapshot, axis, &seen)?;
    let lattices = lattices_of(alloc, snapshot, axis)?;
    let view = View {
        counts: &counts,
        lattices: lattices.as_slice(),
        axis,
        seen,
        distance: greatest_distance(snapshot.deck().rules().as_slice()),
        most,
        most_elsewhere: if is_placed(snapshot) {
            most.saturating_mul(MORE_PLACED)
        } else {
            most
        },
    };
    columns_in(alloc, &view)
}

/// The columns of both axes of an extent, and how many of them are of axis `V`. These come first.
fn columns_of_both(
    alloc: Global,
    snapshot: &Snapshot,
    extent: &Box2,
    most: u32,
) -> Result<(Vec<Column>, usize), AllocError>
    requires extent { shown_extent snapshot.now ≡ Some extent.now }
    requires near { is_box_near extent.now ≡ true }
    requires ordered { IsOrdered extent.now }
    ensures plan { IfOk result (λ v. IsCounted snapshot.now v.1 v.0.items) }
    ensures few { IfOk result (λ v. length v.0.items ≤ 2 ^ 22) }
{
    let mut columns = columns_along(alloc, snapshot, extent, most, Axis::V)?;
    let upright = columns.len();
    let mut across = columns_along(alloc, snapshot, extent, most, Axis::H)?;
    columns.append(&mut across)?;
    Ok((columns, upright))
}

/// The columns of a layout, and how many of them are of axis `V`. These come first.
pub(crate) fn counted_columns(
    alloc: Global,
    snapshot: &Snapshot,
    most: u32,
) -> Result<(Vec<Column>, usize), AllocError>
    ensures plan { IfOk result (λ v. IsCounted snapshot.now v.1 v.0.items) }
    ensures few { IfOk result (λ v. length v.0.items ≤ 2 ^ 22) }
{
    match snapshot.extent() {
        Some(extent) => columns_of_both(alloc, snapshot, &extent, most),
        None => Ok((Vec::new(alloc), 0)),
    }
}

/// The columns into which the layout of a snapshot's roots is cut: first those of axis `V` from the left, then those of axis `H` from below. The columns of
/// each axis cover the extent. There are none if there are no shapes.
///
/// The extent is halved along each axis until the window of a column has at most `most` flat shapes, as far as halving achieves it, or until the axis has
/// 2^20 columns. The cuts depend on the layout, the deck and `most` alone. Cost: one count of the structures' shapes along each axis, and a few look-ups
/// in it for each column.
///
/// # Errors
/// Out of memory.
pub fn columns_of(alloc: Global, snapshot: &Snapshot, most: u32) -> Result<Vec<Column>, AllocError>
    ensures plan { IfOk result (λ v. AreColumnsOfLayout snapshot.now v.items) }
    ensures few { IfOk result (λ v. length v.items ≤ 2 ^ 22) }
{
    let (columns, _) = counted_columns(alloc, snapshot, most)?;
    Ok(columns)
}
