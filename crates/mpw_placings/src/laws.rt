//! Laws of the definitions alone. Each function calls at most the laws that its proof needs. Its contract is the law.
ghost use Rattle.mpw_placings.specs.Laws.{NoneArePlacings, PlacingKeeps, UnplacingKeeps, LaterShelvesKeep, PlacedAreShownAgain};

use mpw_hier::{earlier_submissions_stay, shelves_have_their_numbers};
use mpw_walk::{roots_show_what_their_submissions_do, roots_stay_roots};

/// A table without placements fits any shelf, and each change leaves one that fits: no two placements have the same cell and label, each is
/// of a submission of its cell, and a snapshot can have their roots.
pub fn each_change_keeps()
    ensures none { NoneArePlacings }
    ensures place { PlacingKeeps }
    ensures unplace { UnplacingKeeps }
{
    shelves_have_their_numbers();
}

/// Placements that fit a shelf still do after later submissions, and have the same shapes.
pub fn later_submissions_keep()
    ensures sound { LaterShelvesKeep }
    ensures shapes { PlacedAreShownAgain }
{
    earlier_submissions_stay();
    roots_stay_roots();
    roots_show_what_their_submissions_do();
}
