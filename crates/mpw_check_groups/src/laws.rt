//! Laws about the definitions. The function does nothing but call the laws that it needs; its contract is the law.

ghost use Rattle.mpw_check_groups.specs.Joined.{GroupsMakeTheLayout};

use mpw_job::{each_marker_meets_some, tests_tell_markers};
use mpw_walk::shapes_come_from_the_shelf;

/// If each rule of a deck is in a group, then the markers of the groups' parts, joined rule by rule, are the markers of the layout.
pub fn groups_make_the_layout()
    ensures { GroupsMakeTheLayout }
{
    each_marker_meets_some();
    tests_tell_markers();
    shapes_come_from_the_shelf();
}
