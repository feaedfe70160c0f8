//! Finds all faults of a library's elements.
//!
//! Reading a library ends at its first fault. [`all_faults`] continues after each element that has one: it reads each element of the text by itself,
//! from its first record on. The first of the list is the fault that reading the library reports. [`structure_of`] and [`first_point`] are the
//! structure and the position of an element. [`Lifts`] gives its box and its position in the coordinates of a top.
//! [`element_faults`] are the faults of elements alone, and [`cuts_of_faults`] leave these elements out.
#![tactic(auto)]

mod area;
mod details;
mod faults;
mod found;
mod laws;
mod leaving_out;
mod lifting;
mod own;
mod unit;
mod way;

pub use details::{first_point, structure_of};
pub use faults::{all_faults, element_faults};
pub use found::FaultFound;
pub use laws::faulty_elements_are_left_out;
pub use leaving_out::cuts_of_faults;
pub use lifting::Lifts;
pub use unit::unit_of;
pub use way::Seen;
