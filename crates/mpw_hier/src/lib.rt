//! The shelf: all submissions, in their order. A submission's library may refer to cells that others submitted before, and uses their
//! present submissions.
//!
//! [`Outline`] is what depends on a library and its top alone. It is computed once: the names outside, which [`Shelf::bind`] binds to
//! submissions, and the structures from the lowest up, of which [`Shelf::put`] makes the nodes.
//!
//! The structures of a library are places of a graph (`graph`). They are sorted from the lowest up (`order`) without recursion, since a
//! chain can be as long as a text. The names outside are collected in that order (`outside`).
#![tactic(auto)]

mod bindings;
mod fault;
mod graph;
mod hierarchy;
mod laws;
mod node;
mod order;
mod outline;
mod outside;
mod places;
mod shelf;
mod size;
mod size_array;
mod size_box;
mod size_shape;
mod submission;
mod table;

pub use bindings::{Binding, Bindings};
pub use fault::HierFault;
pub use laws::{
    boxes_are_placed, earlier_submissions_stay, extents_are_least_boxes, names_list_their_targets,
    names_show_their_targets, reaching_is_decided, shelves_have_their_numbers,
};
pub use node::{Child, Node, Nodes, Target};
pub use outline::Outline;
pub use places::Places;
pub use shelf::Shelf;
pub use size::{MAX_SHAPES, Size};
pub use size_box::{hull, is_box_near};
pub use size_shape::element_box;
pub use submission::Submission;
