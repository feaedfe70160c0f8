//! Reads the elements of a GDSII structure by the grammar: boundaries, paths and references, in nm.
#![tactic(auto)]

mod boundary;
mod fault;
mod laws;
mod layer;
mod path;
mod read;
mod reading;
mod reference;
mod shape;
mod values;

pub use fault::ReadError;
pub use laws::elements_are_derived;
pub use read::read_element;
pub use reading::{demand, fault_of};
pub use values::read_name;
