//! Laws of the desk, over every state, every event and every history. Each function calls at most the laws that its proof needs. Its contract
//! is the law.
ghost use Rattle.std.specs.Prelude.{◌≡◌, ◌≢◌, ◌∷◌, ◌++◌, [], ℕ, Bool, List, All, length, true, false, None};
ghost use Rattle.mpw_geom.specs.Names.{contains_name};
ghost use Rattle.mpw_rbac.specs.Policy.{authorized, is_user, permits, session_of};
ghost use Rattle.mpw_rbac.specs.Rows.{is_login, user_of};
ghost use Rattle.mpw_rbac_laws.specs.Existing.{AreTablesSound};
ghost use Rattle.mpw_rbac_laws.specs.Laws.{IsLeastDynamic, IsLeastStatic};
ghost use Rattle.mpw_rbac.specs.Sound.{active_authorized, Sound};
ghost use Rattle.mpw_requests.specs.declared.policy.PolicyRequest.{PolicyRequest as AnyPolicyRequest};
ghost use Rattle.mpw_access.specs.Guard.{Has};
ghost use Rattle.mpw_requests.specs.Needs.{need_of};
ghost use Rattle.mpw_laws.specs.Requested.{is_administration, requested_policy};
ghost use Rattle.mpw_events.specs.History.{state_after};
ghost use Rattle.mpw_replies.specs.Listing.{Listed, stored};
ghost use Rattle.mpw_replies.specs.declared.reply.Line.TheVariants as line;
ghost use Rattle.mpw_job.specs.Jobs.{FoundMarkers};
ghost use Rattle.mpw_run.specs.Step.{book_size};
ghost use Rattle.mpw_run.specs.declared.phase.RunReply.TheVariants as told;
ghost use Rattle.mpw_requests.specs.declared.run.RunRequest.TheVariants as run;
ghost use Rattle.mpw_requests.specs.declared.sign_off.MarkerName.{MarkerName};
ghost use Rattle.mpw_requests.specs.declared.sign_off.SignOffRequest.{SignOffRequest as AnySignOffRequest};
ghost use Rattle.mpw_requests.specs.declared.sign_off.SignOffRequest.TheVariants as sign;
ghost use Rattle.mpw_laws.specs.SignOffLaws.{IsRightlyAsked, IsAsker, IsRightlySigned, IsSignedOff, IsSubmitter};
ghost use Rattle.mpw_waiver.specs.Waivers.{none_asked};
ghost use Rattle.mpw_laws.specs.Readable.{IsOfReadable};
ghost use Rattle.mpw_events.specs.Step.{State, new_state, outcome_of, event_outcome, not_kept_response, no_change, step, response_of, entries_of, after};
ghost use Rattle.mpw_events.specs.declared.event.Event.{Event};
ghost use Rattle.mpw_events.specs.declared.event.Event.TheVariants as event;
ghost use Rattle.mpw_events.specs.declared.event.Response.{Response};
ghost use Rattle.mpw_events.specs.declared.event.Response.TheVariants as response;
ghost use Rattle.mpw_requests.specs.declared.request.Request.{Request as AnyRequest};
ghost use Rattle.mpw_requests.specs.declared.request.Request.TheVariants as ask;
ghost use Rattle.mpw_requests.specs.declared.policy.PolicyRequest.TheVariants as Request;
ghost use Rattle.mpw_trail.specs.declared.verdict.Code.{Code};
ghost use Rattle.mpw_trail.specs.declared.verdict.Code.TheVariants as code;
ghost use Rattle.mpw_trail.specs.declared.verdict.Denial.{Denial};
ghost use Rattle.mpw_trail.specs.declared.verdict.Denial.TheVariants as denial;
ghost use Rattle.mpw_replies.specs.Rows.{IsNegative};
ghost use Rattle.mpw_replies.specs.declared.reply.Reply.{Reply as AnyReply};
ghost use Rattle.mpw_replies.specs.declared.reply.Reply.TheVariants as Reply;
ghost use Rattle.mpw_events.specs.declared.event.Call.{Call};
ghost use Rattle.mpw_permissions.specs.declared.permission.Object.{Object};
ghost use Rattle.mpw_permissions.specs.declared.permission.Operation.{Operation};
ghost use Rattle.mpw_run.specs.declared.phase.RunReply.{RunReply as AnyRunReply};
ghost use Rattle.mpw_laws.specs.RunLaws.{leaves};
ghost use Rattle.mpw_run.specs.Step.{restarted};
ghost use Rattle.mpw_core.specs.Answer.{run_response};

use crate::checking::lines_of_markers_are_of_readable_cells;
use crate::layouts::{
    denials_of_layouts_name_what_is_lacked, lines_of_layouts_are_of_readable_cells,
};
use crate::runs::unkept_leaves_the_run;
use crate::sign_off::{
    clean_is_signed_off, denials_of_separation_are_true,
    lines_of_the_sign_off_are_of_readable_cells, places_are_left, signers_stand_apart,
    waivers_are_of_shown_markers,
};
use mpw_access::entering_is_by_the_need;
use mpw_rbac_laws::{
    denied_only_for_the_least_broken_set, each_request_keeps_the_tables,
    sets_are_told_where_they_are_tested,
};

/// In every state that calls lead to, the user of each session is authorized for each of its active roles.
pub fn every_state_keeps_authorization()
    ensures { (officer digest : List ℕ) (calls : List Call) → active_authorized (state_after (new_state officer digest) calls).policy ≡ true }
{
    every_state_keeps_separation();
}

/// In every state that calls lead to, the policy is sound: every active role is authorized, the static sets hold for every user, and the
/// dynamic ones for every session.
pub fn every_state_keeps_separation()
    ensures { (officer digest : List ℕ) (calls : List Call) → Sound (state_after (new_state officer digest) calls).policy }
{
    every_state_keeps_its_tables();
}

/// A login with an unknown user and one with a wrong token are denied in the same way.
pub fn unknown_users_are_denied_like_wrong_tokens()
    ensures unknown { (state : State) (connection : ℕ) (user digest : List ℕ) → session_of state.policy connection ≡ None → is_user state.policy user ≡ false → (outcome_of state connection (ask.Policy (Request.Open user digest))).response ≡ response.Told (Reply.Denied denial.Login) }
    ensures wrong { (state : State) (connection : ℕ) (user digest : List ℕ) → session_of state.policy connection ≡ None → is_login state.policy user digest ≡ false → (outcome_of state connection (ask.Policy (Request.Open user digest))).response ≡ response.Told (Reply.Denied denial.Login) }
{}

/// Whatever the request, a denial or a refusal by its decision table leaves the state unchanged, and is no change that must be stored.
pub fn states_are_left_unless_a_request_is_accepted()
    ensures { (state : State) (connection : ℕ) (request : AnyRequest) (reply : AnyReply) → IsNegative reply → (outcome_of state connection request).response ≡ response.Told reply → outcome_of state connection request ≡ no_change (response.Told reply) state }
{}

/// A denial leaves the state unchanged, but for the trail, which has the request. So does a refusal, unless it says that the change could
/// not be stored.
pub fn denials_and_refusals_change_nothing()
    ensures denied { (state : State) (event : Event) (kept : Bool) (why : Denial) → response_of state event kept ≡ response.Told (Reply.Denied why) → (step state event kept).state ≡ state }
    ensures refused { (state : State) (event : Event) (kept : Bool) (why : Code) → why ≢ code.Store → response_of state event kept ≡ response.Told (Reply.Refused why) → (step state event kept).state ≡ state }
{}

/// A result that the run doesn't accept leaves the state unchanged: its reply says that it is a stranger's, a duplicate, or of an old run.
/// So does a call that gets no job.
pub fn what_is_not_kept_leaves_the_run()
    ensures { (state : State) (event : Event) (kept : Bool) (reply : AnyRunReply) → leaves reply ≡ true → response_of state event kept ≡ run_response reply → (step state event kept).state ≡ state }
{
    unkept_leaves_the_run();
}

/// A change that is stored takes effect. A change that could not be stored closes the desk and changes nothing else.
pub fn changes_count_once_they_are_kept()
    ensures kept { (state : State) (event : Event) → step state event true ≡ event_outcome state event }
    ensures unkept { (state : State) (event : Event) → (event_outcome state event).changes ≡ true → step state event false ≡ no_change (not_kept_response event) (record state { closed = true }) }
{}

/// A restart ends every session, and takes a run whose tiles are being checked back to its cutting. It changes nothing else: with the
/// earlier sessions and run put back, the state is the earlier one.
pub fn a_restart_ends_every_session()
    ensures told { (state : State) (kept : Bool) → response_of state event.Restart kept ≡ response.Restarted }
    ensures ended { (state : State) (kept : Bool) (connection : ℕ) → session_of (after state event.Restart kept).policy connection ≡ None }
    ensures cut { (state : State) (kept : Bool) → (after state event.Restart kept).run ≡ restarted state.run }
    ensures rest { (state : State) (kept : Bool) → record (after state event.Restart kept) { policy = record (after state event.Restart kept).policy { sessions = state.policy.sessions }; run = state.run } ≡ state }
{}

/// Whatever the request, each line of its reply that names a cell, or shows a shape of one, is of a cell that the connection's session may
/// read. Rows of the trail and lines of waivers are not part of this law.
pub fn lines_are_of_readable_cells()
    ensures { (state : State) (connection : ℕ) (request : AnyRequest) (kept : Bool) (lines : List Listed) → response_of state (event.Ask connection request) kept ≡ response.Told (Reply.Ok lines) → All (IsOfReadable state.policy connection) lines }
{
    lines_of_layouts_are_of_readable_cells();
    lines_of_markers_are_of_readable_cells();
    lines_of_the_sign_off_are_of_readable_cells();
}

/// Whatever the request, if a session is denied, the connection has none, and if a permission is denied, its session lacks it. A denied
/// activation names the requested role, for which the session's user is not authorized.
pub fn denials_name_what_the_session_lacks()
    ensures session { (state : State) (connection : ℕ) (request : AnyRequest) (kept : Bool) → response_of state (event.Ask connection request) kept ≡ response.Told (Reply.Denied denial.Session) → session_of state.policy connection ≡ None }
    ensures permission { (state : State) (connection : ℕ) (request : AnyRequest) (kept : Bool) (operation : Operation) (object : Object) →
        response_of state (event.Ask connection request) kept ≡ response.Told (Reply.Denied (denial.Permission operation object)) →
        permits state.policy connection operation object ≡ false }
    ensures activation { (state : State) (connection : ℕ) (role other : List ℕ) (kept : Bool) → response_of state (event.Ask connection (ask.Policy (Request.Activate role))) kept ≡ response.Told (Reply.Denied (denial.Activation other)) →
        (other ≡ role) × (contains_name (authorized state.policy (user_of state.policy connection)) role ≡ false) }
{
    entering_is_by_the_need();
    denials_of_layouts_name_what_is_lacked();
}

/// In every state that calls lead to, the policy's tables name users and roles that exist, and have no more rows than their limits allow.
pub fn every_state_keeps_its_tables()
    ensures { (officer digest : List ℕ) (calls : List Call) → AreTablesSound (state_after (new_state officer digest) calls).policy }
{
    entering_is_by_the_need();
    each_request_keeps_the_tables();
}

/// Whatever the request, it is accepted only if the connection has what it needs: nothing for `open`, a session for a request about one's
/// own session, else a session with the permission in the table `need_of`.
pub fn accepted_requests_had_what_they_need()
    ensures { (state : State) (connection : ℕ) (request : AnyRequest) (kept : Bool) (lines : List Listed) → response_of state (event.Ask connection request) kept ≡ response.Told (Reply.Ok lines) → Has state.policy connection (need_of request) }
{
    entering_is_by_the_need();
}

/// A denial for a set of separation of duty names the first set of its kind, in alphabetical order, that the requested policy would break.
pub fn sets_are_denied_for_what_was_asked()
    ensures ssd { (state : State) (connection : ℕ) (request : AnyPolicyRequest) (kept : Bool) (name : List ℕ) → response_of state (event.Ask connection (ask.Policy request)) kept ≡ response.Told (Reply.Denied (denial.Ssd name)) → IsLeastStatic (requested_policy state.policy connection request) name }
    ensures dsd { (state : State) (connection : ℕ) (request : AnyPolicyRequest) (kept : Bool) (name : List ℕ) → response_of state (event.Ask connection (ask.Policy request)) kept ≡ response.Told (Reply.Denied (denial.Dsd name)) → IsLeastDynamic (requested_policy state.policy connection request) name }
{
    entering_is_by_the_need();
    denied_only_for_the_least_broken_set();
    sets_are_told_where_they_are_tested();
}

/// `open`, `close`, `activate` and `drop` are never denied because a permission is missing.
pub fn own_requests_are_never_denied_a_permission()
    ensures { (state : State) (connection : ℕ) (request : AnyPolicyRequest) (kept : Bool) (operation : Operation) (object : Object) →
        is_administration request ≡ false →
        response_of state (event.Ask connection (ask.Policy request)) kept ≡ response.Told (Reply.Denied (denial.Permission operation object)) → ⊥ }
{
    entering_is_by_the_need();
}

/// Only `open` is answered `DENIED login`. Of the requests that change the policy, only `open` is refused because the connection has a
/// session already (code 30).
pub fn only_open_is_answered_for_a_login()
    ensures login { (state : State) (connection : ℕ) (request : AnyRequest) (kept : Bool) → response_of state (event.Ask connection request) kept ≡ response.Told (Reply.Denied denial.Login) → (user : List ℕ) × (digest : List ℕ) × (request ≡ ask.Policy (Request.Open user digest)) }
    ensures opened { (state : State) (connection : ℕ) (request : AnyPolicyRequest) (kept : Bool) → response_of state (event.Ask connection (ask.Policy request)) kept ≡ response.Told (Reply.Refused code.Opened) → (user : List ℕ) × (digest : List ℕ) × (request ≡ Request.Open user digest) }
{
    entering_is_by_the_need();
}

/// The trail after an event is that before it, and after a request one more entry: its user, and the first line of its reply. So it has
/// each request that is a call of the history, in order, and nothing else.
pub fn the_trail_has_each_request()
    ensures { (state : State) (event : Event) (kept : Bool) → (after state event kept).trail ≡ state.trail ++ entries_of state.policy (after state event kept).policy event (response_of state event kept) }
{}

/// When a run begins, the waivers of the run before are removed. When a run is finished, it has an entry for each of its markers, and no waiver.
pub fn waivers_go_with_their_run()
    ensures begun { (state : State) (connection : ℕ) (kept : Bool) (lines : List Listed) → response_of state (event.Ask connection (ask.Run run.Run)) kept ≡ response.Told (Reply.Ok lines) → (after state (event.Ask connection (ask.Run run.Run)) kept).waivers ≡ [] }
    ensures finished { (state : State) (answer : FoundMarkers) (kept : Bool) → response_of state (event.Tile answer) kept ≡ run_response told.Finished → (after state (event.Tile answer) kept).waivers ≡ none_asked (book_size (after state (event.Tile answer) kept).run.phase) }
{}

/// In every state that calls lead to, there is an entry for a waiver of each marker of a finished run, and no other entry.
pub fn every_state_has_a_place_for_each_marker()
    ensures { (officer digest : List ℕ) (calls : List Call) → length (state_after (new_state officer digest) calls).waivers ≡ book_size (state_after (new_state officer digest) calls).run.phase }
{
    places_are_left();
}

/// A waiver that is asked for or signed is of a marker that is full for the session. Its signer neither asked for it nor submitted what the
/// marker touches.
pub fn waivers_are_signed_apart()
    ensures asked { (state : State) (connection : ℕ) (name : MarkerName) (kept : Bool) (lines : List Listed) → response_of state (event.Ask connection (ask.SignOff (sign.Waive name))) kept ≡ response.Told (Reply.Ok lines) →
        IsRightlyAsked state.policy state.run state.waivers connection name (after state (event.Ask connection (ask.SignOff (sign.Waive name))) kept).waivers }
    ensures signed { (state : State) (connection : ℕ) (name : MarkerName) (kept : Bool) (lines : List Listed) → response_of state (event.Ask connection (ask.SignOff (sign.Sign name))) kept ≡ response.Told (Reply.Ok lines) →
        IsRightlySigned state.policy state.run state.waivers connection name (after state (event.Ask connection (ask.SignOff (sign.Sign name))) kept).waivers }
{
    signers_stand_apart();
    waivers_are_of_shown_markers();
}

/// A user who is denied to sign as a submitter submitted what the marker touches. The denial names its cell, the first one in alphabetical
/// order. A user who is denied as the asker asked for the waiver.
pub fn denials_to_sign_are_true()
    ensures submitter { (state : State) (connection : ℕ) (request : AnySignOffRequest) (kept : Bool) (cell : List ℕ) → response_of state (event.Ask connection (ask.SignOff request)) kept ≡ response.Told (Reply.Denied (denial.Submitter cell)) →
        (name : MarkerName) × (request ≡ sign.Sign name) × IsSubmitter state.policy state.run connection name cell }
    ensures asker { (state : State) (connection : ℕ) (request : AnySignOffRequest) (kept : Bool) →
        response_of state (event.Ask connection (ask.SignOff request)) kept ≡ response.Told (Reply.Denied denial.Asker) →
        (name : MarkerName) × (request ≡ sign.Sign name) × IsAsker state.policy state.run state.waivers connection name }
{
    entering_is_by_the_need();
    denials_of_separation_are_true();
}

/// The verdict of a run is `clean` only if the deck and the placings are those that it checked, and each of its markers has a signed waiver.
pub fn clean_runs_are_signed_off()
    ensures { (state : State) (connection : ℕ) (kept : Bool) → response_of state (event.Ask connection (ask.SignOff sign.Verdict)) kept ≡ response.Told (Reply.Ok (stored line.Clean ∷ [])) → IsSignedOff state.wafer state.run state.waivers }
{
    clean_is_signed_off();
}
