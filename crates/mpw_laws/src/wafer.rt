//! A law of the requests of the wafer. The function calls the law that its proof needs. Its contract is the law.
ghost use Rattle.mpw_laws.specs.WaferLaws.{PlacingsTellTheirVersion};

use crate::placings::placing_is_undone;

/// The reply to an accepted `place` has the version of the cell's present submission.
pub fn placings_tell_their_version()
    ensures { PlacingsTellTheirVersion }
{
    placing_is_undone();
}
