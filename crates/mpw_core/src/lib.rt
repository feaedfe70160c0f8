//! The core of the desk: one atomic step for each event, and the history of all steps.
//!
//! Contracts see the core as its history. One invariant holds of the tables in the code: they are what the written decision tables give for
//! that history. An event is answered in three parts. *Prepare* makes the reply, the changed tables and all the room that they need, and
//! changes nothing. *Store* hands the change to a store writer. *Commit* moves the prepared parts in. It takes no memory and cannot fail.
#![tactic(auto)]

mod answer;
mod desk;
mod laws;
mod noting;
mod policy;
mod ready;
mod run_answer;
mod settling;
mod tables;

pub use desk::{Core, MAX_EVENTS, replay};
pub use laws::{
    every_state_counts_its_hand_outs, every_state_counts_its_runs, every_state_keeps_its_placings,
};
