//! A law of placings. The function has an empty body. Its contract is the law.
ghost use Rattle.mpw_laws.specs.PlacingLaws.{UnplacingUndoes, VersionIsTold};

use mpw_hier::shelves_have_their_numbers;

/// Removing a placement by its cell and label gives the placings before it was placed. Its version is that of the cell's present submission.
pub fn placing_is_undone()
    ensures undone { UnplacingUndoes }
    ensures version { VersionIsTold }
{
    shelves_have_their_numbers();
}
