//! Laws of the definitions alone.
ghost use Rattle.mpw_firm_spread.specs.Ranges.{SharesFollowOn};
ghost use Rattle.mpw_firm_spread.specs.Spread.{PartsMakeTheLayout};

use mpw_columns::lists_make_the_layout;
use mpw_firm_parts::each_column_has_its_list;

/// Parts that were made anywhere, of any files, have, if they are stitched at all, just the markers of the flat layout of the
/// files that the first was made of; unless two libraries that differ have one SHA-256.
pub fn parts_make_the_layout()
    ensures { PartsMakeTheLayout }
{
    each_column_has_its_list();
    lists_make_the_layout();
}

/// The shares of one number begin at column 0, each where the one before ends, up to the last column. A law: the function does nothing.
pub fn shares_follow_on()
    ensures { SharesFollowOn }
{}
