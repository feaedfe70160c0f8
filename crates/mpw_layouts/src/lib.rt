//! The requests of the layouts: `submit`, `cells` and `shapes`.
//!
//! [`answer_request`] gives what such a request lists, or the new shelf. It doesn't change the desk's own.
#![tactic(auto)]

mod answer;
mod ending;
mod rows;
mod sight;

pub use answer::answer_request;
pub use ending::LayoutEnding;
pub use rows::MAX_SHAPES;
