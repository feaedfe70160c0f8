//! Laws of the sign-off requests. Each function has an empty body. Its contract is the law.

ghost use Rattle.mpw_signoff_laws.specs.SignedOnce.{SignedExactly, AskedExactly, SignaturesStay, AskersStay, SecondSignaturesAreRefused, SecondAskersAreRefused};

/// A `sign` is accepted exactly if the session may sign, the run is finished, the marker is full for the session, its waiver exists and is
/// unsigned, and the session's user neither asked for it nor submitted what the marker touches: `sign_test` of `mpw_waiver`.
pub fn signed_exactly()
    ensures { SignedExactly }
{}

/// A `waive` is accepted exactly if the session may waive, the run is finished, and the marker is full for the session and has no waiver.
pub fn asked_exactly()
    ensures { AskedExactly }
{}

/// A signed waiver stays unchanged, whatever request comes, and from whomever.
pub fn signatures_stay()
    ensures { SignaturesStay }
{}

/// A waiver that was asked for stays, with the user who asked for it.
pub fn askers_stay()
    ensures { AskersStay }
{}

/// After a `sign` was accepted, a further `sign` of the same marker is refused as `known` and changes nothing, if the session may sign and
/// the marker is full for it. This holds for any user, and whatever the policy and the placements are then.
pub fn second_signatures_are_refused()
    ensures { SecondSignaturesAreRefused }
{}

/// After a `waive` was accepted, the same holds of a further `waive` of the same marker, if each marker has an entry for its waiver.
pub fn second_askers_are_refused()
    ensures { SecondAskersAreRefused }
{}
