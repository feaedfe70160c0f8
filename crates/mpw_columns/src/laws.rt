//! Laws about the definitions. Each function does nothing but call the laws that it needs; its contract is the law.

ghost use Rattle.mpw_columns.specs.Laws.{WindowDecidesAlong, ColumnsHaveWholeRuns, ColumnsMakeTheLayout, ColumnsLieWithin, ListsMakeTheLayout, DisplacedColumnsFindDisplacedRuns, DisplacedColumnsHaveDisplacedLists, MovedItemsShowDisplaced};

use mpw_edges::test_decides_pair_steps;
use mpw_job::no_shapes_no_markers;
use mpw_tiles::squares_lie_in_boxes;
use mpw_walk::shapes_come_from_the_shelf;

/// Which pair steps of an axis lie in a half-open core depends only on the squares of its window along that axis. The window is wider than the core by the
/// greatest distance plus 1 across the edges, and no wider along them.
pub fn window_decides_along()
    ensures { WindowDecidesAlong }
{}

/// The maximal runs of a column over all rows of the extent are those of the whole layout whose `x1` lies in it. None continues in another
/// column.
pub fn columns_have_whole_runs()
    ensures { ColumnsHaveWholeRuns }
{
    test_decides_pair_steps();
    squares_lie_in_boxes();
}

/// If columns of both axes cover the extent, their lists, joined by rule, axis and side, are the book of the flat layout.
pub fn columns_make_the_layout()
    ensures { ColumnsMakeTheLayout }
{
    test_decides_pair_steps();
    squares_lie_in_boxes();
}

/// Each column of a layout has some position, and lies within the layout's extent.
pub fn columns_lie_within()
    ensures { ColumnsLieWithin }
{}

/// If all shapes are of one submission and columns of both axes cover the layout, the markers of their joined lists are the layout's. This also holds for
/// a layout without shapes.
pub fn lists_make_the_layout()
    ensures { ListsMakeTheLayout }
{
    columns_make_the_layout();
    no_shapes_no_markers();
    shapes_come_from_the_shelf();
    test_decides_pair_steps();
    squares_lie_in_boxes();
}

/// If two windows have the same squares on the layers of the rules, up to a displacement across the edges, then the runs of the displaced core are the
/// displaced runs of the core.
pub fn displaced_columns_find_displaced_runs()
    ensures { DisplacedColumnsFindDisplacedRuns }
{}

/// If the window of a column has the content of another column's window of the same axis, up to their displacement, then the list of the one column,
/// displaced, is the list of the other.
pub fn displaced_columns_have_displaced_lists()
    ensures { DisplacedColumnsHaveDisplacedLists }
{
    test_decides_pair_steps();
    columns_have_whole_runs();
    displaced_columns_find_displaced_runs();
}

/// If what touches a window is what touches another window, displaced, then the windows have the same content up to that displacement.
pub fn moved_items_show_displaced()
    ensures { MovedItemsShowDisplaced }
{
    squares_lie_in_boxes();
}
