//! Columns: half-open cores over all rows of an extent.

ghost use Rattle.std.specs.Prelude.{◌≡◌, ◌<ℤ◌, ◌↔◌, IsTrue};
ghost use Rattle.mpw_columns_keys.specs.Columns.{AreColumns};

use mpw_edges::Axis;

/// The positions from `from` to before `to`, in nm. On axis `V` it has columns of the layout, over all rows of its extent, and on axis `H`
/// rows of it, over all columns.
#[derive(Clone, Copy)]
pub struct Column {
    /// The axis of the edges that a check finds in it.
    pub axis: Axis,
    /// The first position, in nm.
    pub from: i64,
    /// The position after the last one, in nm.
    pub to: i64,
}

fn is_same_axis(a: Axis, b: Axis) -> bool
    ensures { IsTrue result ↔ (a ≡ b) }
{
    a == b
}

/// Whether the column has that axis, begins at `low`, and has some position.
fn stands_at(axis: Axis, low: i64, column: &Column) -> bool
    ensures { IsTrue result ↔ ((column.now.axis ≡ axis) × (column.now.from ≡ low) × (column.now.from <ℤ column.now.to)) }
{
    is_same_axis(column.axis, axis) && column.from == low && column.from < column.to
}

/// Whether the columns all have that axis and some position, and are adjacent from `low` to before `high`. One pass.
pub fn are_columns(axis: Axis, low: i64, high: i64, columns: &[Column]) -> bool
    ensures { IsTrue result ↔ AreColumns axis low high columns.now }
{
    let mut reached = low;
    for column in columns {
        if !stands_at(axis, reached, column) {
            return false;
        }
        reached = column.to;
    }
    reached == high
}
