//! Finds the layers of placed submissions' shapes, without making their flat list.
//!
//! The content of a structure is its own shapes, and the content of each reference's target as often as the reference has instances. So
//! [`layer_count`] and [`unnamed_layers`] visit the nodes of each submission once, each after those that it places. Instances and
//! levels cost nothing.
#![tactic(auto)]

mod count;
mod gathered;
mod laws;
mod layer;
mod layers;
mod named;
mod node;
mod unnamed;

pub use count::{layer_count, shows};
pub use layers::Layers;
pub use unnamed::unnamed_layers;
