//! Laws about the definitions. The contract of each function is the law.

ghost use Rattle.mpw_job.specs.Laws.{TestsTellShown, TestsTellMarkers, CoresLieInPlane, AnswersMakeTheLayout, LayoutDeterminesMarkers, EachMarkerMeetsSome, NoShapesNoMarkers};

use mpw_edges::test_decides_pair_steps;
use mpw_markers::stitched_is_whole;
use mpw_tiles::{
    each_step_has_one_tile, each_window_decides, each_window_tells_met, plans_lie_in_plane,
    squares_lie_in_boxes, windows_show_layers,
};

/// The test of a layer's squares is true exactly if a placed shape of the layer has the square.
pub fn tests_tell_shown()
    ensures { TestsTellShown }
{}

/// The markers that the computed tests of squares and rows determine are those of the flat layout.
pub fn tests_tell_markers()
    ensures { TestsTellMarkers }
{
    test_decides_pair_steps();
}

/// Each core of a snapshot's plan lies in the plane, as the core of a tile's job must.
pub fn cores_lie_in_plane()
    ensures { CoresLieInPlane }
{
    plans_lie_in_plane();
}

/// If windows represent a snapshot, and the job of each tile of its plan is answered, then the book stitched from the
/// answers has exactly the markers of the flat layout, whatever the side of the tiles.
pub fn answers_make_the_layout()
    ensures { AnswersMakeTheLayout }
{
    test_decides_pair_steps();
    stitched_is_whole();
    each_step_has_one_tile();
    each_window_decides();
    each_window_tells_met();
    squares_lie_in_boxes();
    windows_show_layers();
}

/// A layout has one list of markers: two books of its markers are equal.
pub fn layout_determines_markers()
    ensures { LayoutDeterminesMarkers }
{
    test_decides_pair_steps();
}

/// A marker of a layout touches at least one submission.
pub fn each_marker_meets_some()
    ensures { EachMarkerMeetsSome }
{
    test_decides_pair_steps();
}

/// A snapshot without shapes has no markers: the empty book is that of its layout.
pub fn no_shapes_no_markers()
    ensures { NoShapesNoMarkers }
{
    test_decides_pair_steps();
    squares_lie_in_boxes();
}
