//! What a desk stores can be reopened: laws of the definitions of the desk, of the rows of a store, and of reopening.
//!
//! The functions do nothing. Their contracts are the laws. No program links this crate.
#![tactic(auto)]

mod reopening;

pub use reopening::{
    histories_can_be_reopened, reopened_desks_have_the_state, rows_are_never_bad,
    stores_can_be_reopened_again,
};
