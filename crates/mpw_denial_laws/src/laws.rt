//! The law. The function does nothing but to call the law that its proof needs. Its contract is the law.

ghost use Rattle.mpw_denial_laws.specs.Blind.{NothingIsToldOfLayouts};

use mpw_access::entering_is_by_the_need;

/// If nothing is permitted to a connection, two desks with the same policy, run and waivers answer its requests identically, whatever else
/// they have: submissions, placements, decks and trails. So nothing shows whether a cell exists that it may not read.
pub fn nothing_is_told_of_layouts()
    ensures { NothingIsToldOfLayouts }
{
    entering_is_by_the_need();
}
