//! Layouts as values: elements, structures and libraries, in nm.
//!
//! Reading a text produces these values, and all other crates that deal with a layout use them. Reading itself is in
//! `mpw_elements` and `mpw_library`, so that a crate that needs only the values doesn't depend on the grammar.
#![tactic(auto)]

mod boxed;
mod coordinates;
mod element;
mod library;
mod list;
mod points;
mod storage;
mod structures;

pub use boxed::Boxed;
pub use coordinates::scale;
pub use element::{Boundary, Element, Path, Reference};
pub use library::Library;
pub use list::OwnedList;
pub use points::{Points, PointsView, SharedText};
pub use storage::Storage;
pub use structures::{Elements, Structure, Structures};
