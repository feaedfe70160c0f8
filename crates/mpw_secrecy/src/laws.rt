//! Laws of the definitions alone. Each function calls at most the laws that its proof needs. Its contract is the law.
ghost use Rattle.mpw_events.specs.History.{state_of};
ghost use Rattle.mpw_secrecy.specs.Apart.{EveryStateIsSignedApart};
ghost use Rattle.mpw_secrecy.specs.Clean.{CleanWafersMayStart};
ghost use Rattle.mpw_secrecy.specs.Secrecy.{EqualViewsAreAnsweredAlike, EqualViewsGiveEqualAnswers, EqualViewsGiveEqualAnswersToLists, EqualViewsGiveEqualListings, EqualViewsGiveEqualLists, EqualViewsStayEqual, ListingsLeaveTheViews};

use mpw_access::entering_is_by_the_need;
use mpw_core::Core;
use mpw_hier::shelves_have_their_numbers;
use mpw_laws::{
    clean_runs_are_signed_off, every_state_has_a_place_for_each_marker, places_are_left,
    signers_stand_apart, waivers_are_of_shown_markers,
};
use mpw_markers::places_are_of_their_keys;

/// If a connection's sessions on two desks have the same view, both desks list the same for it, and the views are the same after it. This
/// holds for each of `whoami`, `cells`, `shapes`, `status`, `markers` and `waivers`, and so for every list of them.
pub fn equal_views_give_equal_listings()
    ensures told { EqualViewsGiveEqualListings }
    ensures left { ListingsLeaveTheViews }
    ensures lists { EqualViewsGiveEqualLists }
{
    shelves_have_their_numbers();
    entering_is_by_the_need();
}

/// The same holds of `waive` and `sign`: if a connection's sessions on two desks have the same view, both desks answer them identically.
/// The views are the same after them, with the waiver that was asked for or signed; and so for every list of these requests. The condition
/// that the states are orderly holds of every desk.
pub fn equal_views_give_equal_answers()
    ensures told { EqualViewsGiveEqualAnswers }
    ensures left { EqualViewsStayEqual }
    ensures lists { EqualViewsGiveEqualAnswersToLists }
{
    shelves_have_their_numbers();
    entering_is_by_the_need();
    places_are_of_their_keys();
    places_are_left();
}

/// This holds of any two desks: over every list of these requests, they give the same answers to a connection's sessions with the same
/// view, and the views are the same after it.
pub fn desks_of_equal_views_answer_alike(first: &Core, second: &Core)
    ensures { EqualViewsAreAnsweredAlike (state_of first.now) (state_of second.now) }
{
    first.run_is_sound();
    second.run_is_sound();
    every_state_has_a_place_for_each_marker();
    equal_views_give_equal_answers();
}

/// In every state that calls lead to, each signed waiver is of a marker of a finished run. Its signer neither asked for it nor submitted a
/// submission that the marker touches.
pub fn every_state_is_signed_apart()
    ensures { EveryStateIsSignedApart }
{
    signers_stand_apart();
    waivers_are_of_shown_markers();
}

/// If the verdict of a wafer's desk is `clean`, whoever asks, the wafer may start. The run is finished. The deck and the placed submissions
/// are those that it checked. Its book has exactly the markers of the flat layout that it checked. Each marker has a waiver, whose signer
/// neither asked for it nor submitted what the marker touches.
pub fn clean_wafers_may_start(core: &Core)
    ensures { CleanWafersMayStart (state_of core.now) }
{
    core.run_is_sound();
    every_state_has_a_place_for_each_marker();
    every_state_is_signed_apart();
    clean_runs_are_signed_off();
}
