//! The four checks over many rectangles: a core is cut into strips.
//!
//! A band reaches across its whole region, so the bands of a wide core have many more boxes than there
//! are rectangles.
//!
//! - [`strips_of`] halves the core across, first along rows and then along columns, as long as that pays. Each half takes the parts of the rectangles
//!   in its window, and a narrow strip gets its own bands.
//! - [`pieces_in`] checks each strip for a rule, and joins the runs that continue from one strip to the next. Rules of
//!   the same layers share the strips.
//! - [`pieces`] does both.
#![tactic(auto)]

mod across;
mod cells;
mod halves;
mod load;
mod strips;

pub use cells::{pieces, strips_of};
pub use strips::{Strips, pieces_in};
