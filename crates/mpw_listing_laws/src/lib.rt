//! Laws of listings and views that none of the desk's calls needs: what an accepted `markers` shows of a book, and that sessions with the
//! same view get the same answers, whatever the numbers of their connections.
//!
//! The functions do nothing. Their contracts are the laws. No program links this crate.
#![tactic(auto)]

mod markers;
mod views;

pub use markers::markers_tell_what_is_readable;
pub use views::one_view_is_answered_alike;
