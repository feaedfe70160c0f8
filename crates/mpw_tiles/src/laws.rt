//! Laws about the definitions. Each function does nothing but call the laws that it needs; its contract is the law.

ghost use Rattle.mpw_tiles.specs.Laws.{
  EachStepHasOneTile,
  EachWindowDecides,
  EachWindowDecidesRows,
  SquaresLieInBoxes,
  SquaresLieInExtents,
  LayersLieInExtents,
  SquaresLieInPlane,
  PlansLieInPlane,
  WindowsShowLayers,
  WindowsListWhatIsShown,
  MetSquaresLieInWindows,
  WindowsTellMet,
};

use crate::grid_laws::windows_reach_no_further;
use mpw_hier::extents_are_least_boxes;
use mpw_walk::roots_show_what_their_submissions_do;

/// Each pair step of a layout, on either axis, belongs to the core of exactly one tile of a plan over the
/// layout's extent.
pub fn each_step_has_one_tile()
    ensures { EachStepHasOneTile }
{}

/// What a tile's core finds for a rule of the deck depends only on the squares of its window. So do the pair steps of
/// each row.
pub fn each_window_decides()
    ensures runs { EachWindowDecides }
    ensures rows { EachWindowDecidesRows }
{}

/// The squares of a shape lie in its placed box. Those of a flat list lie in its extent, by layer too. Those of roots lie in the
/// plane, so no placed rectangle with such squares is cut off.
pub fn squares_lie_in_boxes()
    ensures boxes { SquaresLieInBoxes }
    ensures extents { SquaresLieInExtents }
    ensures layers { LayersLieInExtents }
    ensures plane { SquaresLieInPlane }
{
    extents_are_least_boxes();
    roots_show_what_their_submissions_do();
}

/// The windows of a snapshot's plan lie in the plane of coordinates from -2^48 to 2^48.
pub fn plans_lie_in_plane()
    ensures { PlansLieInPlane }
{
    windows_reach_no_further();
    extents_are_least_boxes();
    roots_show_what_their_submissions_do();
}

/// If windows represent a snapshot, then in its window a tile's list has the squares of the shapes on each
/// layer.
pub fn windows_show_layers()
    ensures { WindowsShowLayers }
{}

/// Let windows represent a snapshot, and let each listed rectangle have a square of its window, as in the windows of [`cut`](crate::cut). Then each
/// rectangle in a tile's list has a unit square of the tile's window that a shape with its layer and origin has. So a window reveals nothing of a
/// submission without shapes in it.
pub fn windows_list_what_is_shown()
    ensures { WindowsListWhatIsShown }
{}

/// Which origins have a closed square that touches the closed box of a run of a tile's core depends only on the squares of
/// the tile's window: each such square lies in the window. So the tile's list of rectangles determines them.
pub fn each_window_tells_met()
    ensures squares { MetSquaresLieInWindows }
    ensures origins { WindowsTellMet }
{}
