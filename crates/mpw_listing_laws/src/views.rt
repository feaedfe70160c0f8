//! The answers to sessions with the same view. The contract is the law.

ghost use Rattle.mpw_listing_laws.specs.Views.{AnswerOneViewAlike};

use mpw_core::Core;
use mpw_laws::every_state_has_a_place_for_each_marker;
use mpw_secrecy::equal_views_give_equal_answers;

/// Two desks answer sessions with the same view identically, whatever the numbers of their connections. This holds over each list of
/// `whoami`, `cells`, `shapes`, `status`, `markers`, `waivers`, `waive` and `sign`. The conditions: open desks whose histories have room
/// handle them one after another, and both desks or neither store the change of each request. After it the sessions have the same view.
pub fn one_view_is_answered_alike(first: &Core, second: &Core)
    ensures { AnswerOneViewAlike first.now second.now }
{
    first.run_is_sound();
    second.run_is_sound();
    every_state_has_a_place_for_each_marker();
    equal_views_give_equal_answers();
}
