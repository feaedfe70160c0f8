//! The placements on the wafer, here called placings: which submissions are placed, and where.
//!
//! A placement is identified by its cell and its label together. It has the submission that was the cell's present one when it was made.
//! [`Placings`] is the table of them, which copies share. [`Placings::place`] and [`Placings::unplace`] make the changed table and leave
//! the old one unchanged. The law [`each_change_keeps`] says what holds of each table that they make, on its shelf and on that shelf after
//! later submissions. So a run's snapshot can have [`Placings::roots`] without a further test. [`Wafer`] has the table and the deck.
#![tactic(auto)]

mod fault;
mod laws;
mod limits;
mod map;
mod name;
mod placement;
mod placings;
mod wafer;

pub use fault::PlacingFault;
pub use laws::{each_change_keeps, later_submissions_keep};
pub use limits::MAX_SHAPES;
pub use placement::{Placement, PlacementRef};
pub use placings::Placings;
pub use wafer::Wafer;
