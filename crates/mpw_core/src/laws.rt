//! Laws of the definitions alone. Each function calls at most the laws that its proof needs. Its contract is the law.
ghost use Rattle.std.specs.Prelude.{◌≤◌, ℕ, List, length};
ghost use Rattle.mpw_run.specs.Step.{TakenAtMost};
ghost use Rattle.mpw_events.specs.History.{state_after};
ghost use Rattle.mpw_placings.specs.Placements.{ArePlacings};
ghost use Rattle.mpw_requests.specs.declared.run.RunRequest.TheVariants as run;
ghost use Rattle.mpw_events.specs.Step.{new_state};
ghost use Rattle.mpw_events.specs.declared.event.Event.{Event};
ghost use Rattle.mpw_events.specs.declared.event.Event.TheVariants as event;
ghost use Rattle.mpw_events.specs.declared.event.Response.{Response};
ghost use Rattle.mpw_events.specs.declared.event.Call.{Call};

use mpw_placings::{each_change_keeps, later_submissions_keep};
use mpw_wafer::changes_of_the_wafer_keep_its_placings;
use mpw_wafer::run::{a_request_counts_one_run_at_most, a_request_hands_nothing_out};

/// In every state that calls lead to, the placements fit the shelf: no two have the same cell and label, each is of a submission of its
/// cell, and a run can check them.
pub fn every_state_keeps_its_placings()
    ensures { (officer digest : List ℕ) (calls : List Call) → ArePlacings (state_after (new_state officer digest) calls).shelf (state_after (new_state officer digest) calls).wafer.placings }
{
    each_change_keeps();
    later_submissions_keep();
    changes_of_the_wafer_keep_its_placings();
}

/// In every state that calls lead to, at most as many runs were accepted as calls were made.
pub fn every_state_counts_its_runs()
    ensures { (officer digest : List ℕ) (calls : List Call) → (state_after (new_state officer digest) calls).run.number ≤ length calls }
{
    a_request_counts_one_run_at_most();
    a_request_hands_nothing_out();
}

/// In every state that calls lead to, each tile was handed out at most as often as calls were made.
pub fn every_state_counts_its_hand_outs()
    ensures { (officer digest : List ℕ) (calls : List Call) → TakenAtMost (length calls) (state_after (new_state officer digest) calls).run.phase }
{
    a_request_counts_one_run_at_most();
    a_request_hands_nothing_out();
}
