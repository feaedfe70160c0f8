//! Laws of the sign-off requests. Each function calls at most the laws that its proof needs. Its contract is the law.
ghost use Rattle.mpw_laws.specs.SignOffLaws.{AskedAreShown, AskersAreTold, CleanIsSignedOff, PlacesAreLeft, SignOffLinesAreOfReadable, SignedOffIsClean, SignersStandApart, SubmittersAreTold, ToldAreShown};

use crate::waivers::{
    denials_have_their_cause, none_unsigned_where_all_are_signed, signers_are_apart,
};
use mpw_markers::places_are_of_their_keys;
use mpw_run::tests_are_exact;

/// A waiver is signed by a user who neither asked for it nor submitted what its marker touches.
pub fn signers_stand_apart()
    ensures { SignersStandApart }
{
    places_are_of_their_keys();
    signers_are_apart();
}

/// A user who is denied as a submitter submitted a version that the marker touches. The denial names its cell, the first one in
/// alphabetical order. A user who is denied as the asker asked for the waiver.
pub fn denials_of_separation_are_true()
    ensures submitter { SubmittersAreTold }
    ensures asker { AskersAreTold }
{
    places_are_of_their_keys();
    denials_have_their_cause();
}

/// A change of the waivers by a request leaves the number of entries unchanged.
pub fn places_are_left()
    ensures { PlacesAreLeft }
{}

/// A marker that is waived, signed or listed with its waiver is full for the session.
pub fn waivers_are_of_shown_markers()
    ensures waived { AskedAreShown }
    ensures signed { SignersStandApart }
    ensures told { ToldAreShown }
{
    places_are_of_their_keys();
    signers_stand_apart();
}

/// The verdict of a run is `clean` only if the deck and the placings are those that it checked, and each marker has a signed waiver.
pub fn clean_is_signed_off()
    ensures { CleanIsSignedOff }
{
    tests_are_exact();
    none_unsigned_where_all_are_signed();
}

/// If they are those and each marker has a signed waiver, the verdict for a session with the permission is `clean`.
pub fn signed_off_is_clean()
    ensures { SignedOffIsClean }
{
    tests_are_exact();
    none_unsigned_where_all_are_signed();
}

/// The lines of `waivers` name only cells that the connection's session may read.
pub fn lines_of_the_sign_off_are_of_readable_cells()
    ensures { SignOffLinesAreOfReadable }
{}
