//! The laws that compare what a check prints of markers with a desk's reply to `markers`.
//!
//! The functions do nothing. Their contracts are the laws. No program links this crate.
#![tactic(auto)]

mod laws;

pub use laws::{desks_list_as_checks, listings_are_replies};
