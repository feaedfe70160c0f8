//! Laws of the desk that none of its calls needs: what follows from the written decision tables for every request, every state and every history.
//!
//! Each function does nothing. Its contract is the law, and speaks of the definitions alone. No program links this crate, so no program
//! waits for its proofs. A law that a call of the desk needs is in the crate of that call.
#![tactic(auto)]

mod checking;
mod desk;
mod layouts;
mod listings;
mod placings;
mod runs;
mod serving;
mod sign_off;
mod wafer;
mod waivers;
mod work;

pub use checking::lines_of_markers_are_of_readable_cells;
pub use desk::{
    a_restart_ends_every_session, accepted_requests_had_what_they_need,
    changes_count_once_they_are_kept, clean_runs_are_signed_off,
    denials_and_refusals_change_nothing, denials_name_what_the_session_lacks,
    denials_to_sign_are_true, every_state_has_a_place_for_each_marker,
    every_state_keeps_authorization, every_state_keeps_its_tables, every_state_keeps_separation,
    lines_are_of_readable_cells, only_open_is_answered_for_a_login,
    own_requests_are_never_denied_a_permission, sets_are_denied_for_what_was_asked,
    states_are_left_unless_a_request_is_accepted, the_trail_has_each_request,
    unknown_users_are_denied_like_wrong_tokens, waivers_are_signed_apart,
    waivers_go_with_their_run, what_is_not_kept_leaves_the_run,
};
pub use layouts::{
    denials_of_layouts_name_what_is_lacked, lines_of_layouts_are_of_readable_cells,
    lines_of_shapes_are_no_references,
};
pub use listings::{
    full_markers_are_not_hidden, hidden_markers_leave_no_trace,
    lines_of_books_are_of_readable_cells,
};
pub use placings::placing_is_undone;
pub use runs::{
    each_run_keeps, finished_once_all_were_kept, next_is_fewest, runs_go_on_or_are_finished,
    taking_counts_alone, unkept_leaves_the_run,
};
pub use serving::served_changes_are_kept_in_order;
pub use sign_off::{
    clean_is_signed_off, denials_of_separation_are_true,
    lines_of_the_sign_off_are_of_readable_cells, places_are_left, signed_off_is_clean,
    signers_stand_apart, waivers_are_of_shown_markers,
};
pub use wafer::placings_tell_their_version;
pub use waivers::{
    denials_have_their_cause, none_unsigned_where_all_are_signed, signers_are_apart,
    signers_stay_apart, waivers_stand_where_they_were_put,
};
pub use work::{work_ends, work_goes_on};
