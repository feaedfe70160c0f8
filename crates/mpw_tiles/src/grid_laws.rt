//! Laws about the definitions. Each function has an empty body; its contract is the law.

ghost use Rattle.mpw_tiles.specs.GridLaws.{EachPointHasOneCore, CellsAreNumbered, WindowsReachNoFurther};

/// Each point of a grid's closed extent, as the lower left corner of a unit square, lies in exactly one
/// of its half-open cores, which division finds. Cells are numbered row by row.
pub fn each_point_has_one_core()
    ensures one { EachPointHasOneCore }
    ensures numbered { CellsAreNumbered }
{}

/// A window exceeds the extent of its grid by at most a side plus the margin.
pub fn windows_reach_no_further()
    ensures { WindowsReachNoFurther }
{}
