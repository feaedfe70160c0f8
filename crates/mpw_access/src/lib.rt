//! The guard that comes before every request, and which submissions a session sees.
#![tactic(auto)]

mod guard;
mod seen;

pub use guard::{enter, entering_is_by_the_need, session_user};
pub use seen::seen_by;
