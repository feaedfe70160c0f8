//! Laws about the definitions.

ghost use Rattle.mpw_check.specs.Lists.{TilesFollowOn, TilesMakeTheLayout};
ghost use Rattle.mpw_check.specs.Tiled.{MarkersAreTheLibrarys};

use mpw_job::{answers_make_the_layout, no_shapes_no_markers};
use mpw_markers::lists_determine_the_book;
use mpw_walk::roots_at_origin_show_their_submission;

/// The markers of a layout that [`crate::read_layout`] returns are those of the flat list of the library's top, by itself, under the
/// deck's rules. Placings, tiles and other submissions don't matter.
pub fn markers_are_the_librarys()
    ensures { MarkersAreTheLibrarys }
{
    roots_at_origin_show_their_submission();
}

/// A law; the function does nothing. The lists of some tiles, followed by those of the next tiles, are the lists of all these
/// tiles.
pub fn tiles_follow_on()
    ensures { TilesFollowOn }
{}

/// The book stitched from the lists of all tiles, wherever each was found, has exactly the markers of the flat layout.
pub fn tiles_make_the_layout()
    ensures { TilesMakeTheLayout }
{
    answers_make_the_layout();
    lists_determine_the_book();
    no_shapes_no_markers();
}
