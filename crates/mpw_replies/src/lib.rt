//! The replies of the desk: the lines of an accepted request, and why a request is denied or refused.
//!
//! Copies of a reply share its lines. A listing is stored as what it lists.
#![tactic(auto)]

mod lines;
mod listing;
mod markers;
mod masked;
mod met;
mod reply;
mod row;
mod sight;

pub use lines::{Kept, Lines};
pub use listing::{ShapeListing, ShapeView, ShapeViews};
pub use markers::{MarkerLines, MarkerListing, MarkerView, MarkerViews};
pub use masked::{MaskedView, MaskedViews};
pub use met::MetCells;
pub use reply::{Line, Reply};
pub use row::{Done, Ending, Ends, Fault, need};
