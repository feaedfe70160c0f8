//! Laws of checking runs that none of the desk's calls needs: what a tile's window decides, what finishes a run, what a restart undoes, and
//! that right answers make the flat layout's markers.
//!
//! The functions do nothing. Their contracts are the laws, and speak of the definitions alone. No program links this crate.
#![tactic(auto)]

mod finishing;
mod restarts;
mod right;
mod windows;

pub use finishing::a_run_is_finished_once_all_was_kept;
pub use restarts::restarts_take_back_answers;
pub use right::{histories_are_right, right_answers_make_the_layout};
pub use windows::squares_decide;
