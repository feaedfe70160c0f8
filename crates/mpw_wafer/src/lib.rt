//! The requests of the wafer: `place`, `unplace` and `deck`; and those of its checking run, in [`run`].
//!
//! [`answer_request`] gives the new wafer of a request, with the lines of the reply. It doesn't change the desk's own.
#![tactic(auto)]

mod answer;
mod laws;
mod rows;
pub mod run;

pub use answer::answer_request;
pub use laws::changes_of_the_wafer_keep_its_placings;
