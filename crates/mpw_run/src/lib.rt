//! The run of a desk: what is cut, what is handed out, and which answers are accepted.
#![tactic(auto)]

mod laws;
mod phase;
mod prepare;
mod run;
mod same;
mod tiles;

pub use laws::{stitched_computes, tests_are_exact};
pub use phase::{Checked, Checks, Phase, Planned, RunReply};
pub use prepare::Prepared;
pub use run::Run;
