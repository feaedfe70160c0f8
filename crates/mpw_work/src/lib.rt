//! Executes jobs: cuts a snapshot into windows, and finds the markers of a tile.
//!
//! [`do_job`] executes one job, and [`work_all`] executes many in several threads. [`mpw_job`] defines jobs and answers, and says what follows from
//! the answers of all tiles. The type of an answer guarantees that it is correct.
#![tactic(auto)]

mod answer;
mod find;
mod layers;
mod met;
mod shared;
mod work;

pub use answer::do_job;
pub use work::work_all;
