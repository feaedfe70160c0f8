//! The sign-off requests for a finished run: `waive`, `sign`, `waivers` and `verdict`.
//!
//! [`answer_request`] gives the lines of such a request, and the change of the waivers, if there is one: the session's user asked for one, or
//! signed one. It changes nothing itself.
#![tactic(auto)]

mod answer;
mod ending;
mod lines;
mod named;
mod present;
mod rows;
mod sight;

pub use answer::answer_request;
pub use ending::SignOffEnding;
pub use rows::{ByUser, WaiverChange};
