//! Plane geometry in whole nanometres, and names: points, boxes, layers, orientations, placings.
#![tactic(auto)]

mod laws;
mod name;
mod names;
mod placing;
mod plane;

pub use laws::names_lead_by_chains;
pub use name::{MAX_NAME, Name, NameFault, is_name, is_visible};
pub use names::Names;
pub use placing::Placing;
pub use plane::{Box2, Layer, Orient, Point};
