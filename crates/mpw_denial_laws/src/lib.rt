//! What denials show: nothing of what others have on the desk.
//!
//! The function does nothing. Its contract is the law, and speaks of the desk's step. No program links this crate.
#![tactic(auto)]

mod laws;

pub use laws::nothing_is_told_of_layouts;
