//! Laws of the definitions alone. Each function calls at most the laws that its proof needs. Its contract is the law.
ghost use Rattle.mpw_wafer.specs.Laws.{ChangesKeepPlacings};

use mpw_placings::each_change_keeps;

/// If the placements fit the shelf, then so do those of each wafer that a request gives.
pub fn changes_of_the_wafer_keep_its_placings()
    ensures { ChangesKeepPlacings }
{
    each_change_keeps();
}
