//! Laws of the definitions alone.
ghost use Rattle.mpw_firm.specs.Drawings.{AreFlatByEachSide};
ghost use Rattle.mpw_firm.specs.Stitched.{WholesAreListedAsChecks};

use mpw_check::markers_are_the_librarys;
use mpw_firm_spread::parts_make_the_layout;
use mpw_job::layout_determines_markers;

/// What is listed of parts that are stitched is what a check lists of the files that the first of them was made of, byte for byte;
/// unless two libraries that differ have one SHA-256.
pub fn wholes_are_listed_as_checks()
    ensures { WholesAreListedAsChecks }
{
    parts_make_the_layout();
    layout_determines_markers();
}

/// The markers of a layout are those of the flat list of a library's structure, by itself, under the deck's rules, whatever the side
/// of the tiles is: the deck's, or one in its place.
pub fn markers_are_flat()
    ensures { AreFlatByEachSide }
{
    markers_are_the_librarys();
}
