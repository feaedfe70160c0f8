//! Laws of waivers. Each function has an empty body. Its contract is the law.
ghost use Rattle.mpw_laws.specs.WaiverLaws.{PutOrBefore, NoneAtFirst, SignersAreApart, ApartMaySign, SubmitterIsLeast, AskerAsked, ReachedHaveTheirSize, ReachedAreSignedApart, NoneIsUnsigned};

/// After a waiver was put at an index, each waiver was put there or was there before. At first there is none.
pub fn waivers_stand_where_they_were_put()
    ensures put { PutOrBefore }
    ensures none { NoneAtFirst }
{}

/// A user may sign a waiver exactly if the user neither asked for it nor submitted what its marker touches.
pub fn signers_are_apart()
    ensures apart { SignersAreApart }
    ensures all { ApartMaySign }
{}

/// A denial names its cause: the first cell, in alphabetical order, of which the user submitted a touched submission; or that the user
/// asked for the waiver.
pub fn denials_have_their_cause()
    ensures submitter { SubmitterIsLeast }
    ensures asker { AskerAsked }
{}

/// After any requests, the signer of each signed waiver neither asked for it nor submitted what its marker touches.
pub fn signers_stay_apart()
    ensures size { ReachedHaveTheirSize }
    ensures apart { ReachedAreSignedApart }
{}

/// No marker is unsigned exactly if each marker has a signed waiver.
pub fn none_unsigned_where_all_are_signed()
    ensures { NoneIsUnsigned }
{}
