//! Counts the flat shapes that come from submissions that may be seen, without making the flat list.
//!
//! The content of a structure is its own shapes, and the content of each reference's target as often as the reference has instances. So
//! [`seen_count`] visits the nodes of a submission once, each after those that it places, and those of the submissions that it reaches.
//! Instances and levels cost nothing.
#![tactic(auto)]

mod count;
mod laws;
mod marks;
mod node;
mod seen;

pub use count::seen_count;
pub use seen::is_seen;
