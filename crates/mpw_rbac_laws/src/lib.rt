//! Laws of the access control policy that none of its calls needs (ANSI INCITS 359-2004): what each request preserves, what is denied and
//! why, and what roles permit.
//!
//! Each function does nothing. Its contract is the law, and speaks of the definitions of `mpw_rbac` alone. No program links this crate.
#![tactic(auto)]

mod accepted;
mod laws;
mod tables;

pub use accepted::sets_are_told_where_they_are_tested;
pub use laws::{
    activation_is_denied_only_to_the_unauthorized, denied_only_for_the_least_broken_set,
    each_request_keeps_authorization, each_request_keeps_separation, ended_sessions_permit_nothing,
    more_active_roles_never_permit_less, only_activation_adds_active_roles,
    sound_policies_keep_duties_apart, static_sets_are_tested_first, trim_leaves_sound_policies,
};
pub use tables::each_request_keeps_the_tables;
