//! The requests of the checking run: `run`, `cancel`, `status` and `markers`.
//!
//! [`answer_request`] gives the lines of such a request, and the change of the run, if there is one: a new run that was prepared, or its
//! cancellation. It changes nothing itself.

mod answer;
mod begin;
mod laws;
mod rows;

pub use answer::{NextRun, answer_request};
pub use laws::{a_request_counts_one_run_at_most, a_request_hands_nothing_out};
