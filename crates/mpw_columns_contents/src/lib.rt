//! Finds what of a layout touches a window, as a short list of entries: shapes, and arrays of instances of structures.
//!
//! [`contents_in`] begins with the top and opens what is wider than requested, level by level. So its result is short if the layout is
//! regular. If the contents of two windows are equal up to a displacement ([`displacement`]), then so are their flat shapes. The test costs
//! no more than the lists are long.
#![tactic(auto)]

mod boxes;
mod codes;
mod contents;
mod displaced;
mod fit;
mod laws;
mod layers;
mod layout;
mod making;
mod opening;
mod own;
mod part;
mod placed;
mod stop;
mod thing;

pub use boxes::Boxes;
pub use codes::code;
pub use contents::Contents;
pub use displaced::displacement;
pub use layout::Wanted;
pub use making::contents_in;
pub use opening::element_of;
pub use part::Part;
pub use thing::{Array, Shape, Thing};
