//! Makes the list of a column from the list of an earlier column that it repeats.

ghost use Rattle.std.specs.Prelude.{◌-ℤ◌, IfOk};
ghost use Rattle.mpw_columns_keys.specs.Columns.{seen_box, upright};
ghost use Rattle.mpw_columns.specs.Displaced.{IsDisplaced, ShowsDisplaced};
ghost use Rattle.mpw_columns.specs.Lists.{IsColumnList};
ghost use Rattle.mpw_columns.specs.Internal.Checked.{IsLayout};
ghost use Rattle.mpw_columns.specs.Internal.Found.{IsUpright};

use crate::laws::displaced_columns_have_displaced_lists;
use crate::layout::Layout;
use mpw_columns_keys::{Column, ColumnKeys};
use mpw_edges::test_decides_pair_steps;
use std::alloc::{AllocError, Global};

/// The keys of a column, from those of an earlier column that it repeats: the column and the content of its window are those of the earlier one,
/// displaced. Cost: linear in the keys. The only error is out of memory.
pub(crate) fn list_from(
    alloc: Global,
    layout: &Layout<'_>,
    column: &Column,
    earlier: &Column,
    keys: &ColumnKeys,
) -> Result<ColumnKeys, AllocError>
    requires layout { IsLayout layout.now }
    requires upright { IsUpright (upright (seen_box column.now.axis layout.now.extent) column.now) }
    requires earlier { IsUpright (upright (seen_box earlier.now.axis layout.now.extent) earlier.now) }
    requires displaced { IsDisplaced (column.now.from -ℤ earlier.now.from) earlier.now column.now }
    requires shown { ShowsDisplaced layout.now.snapshot.now layout.now.extent layout.now.layers.now layout.now.distance
        (column.now.from -ℤ earlier.now.from) earlier.now }
    requires list { IsColumnList layout.now.snapshot.now earlier.now keys.now }
    ensures { IfOk result (IsColumnList layout.now.snapshot.now column.now) }
{
    test_decides_pair_steps();
    displaced_columns_have_displaced_lists();
    keys.displaced(alloc, column.from - earlier.from)
}
