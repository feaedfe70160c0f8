//! Computes the exact unit squares of boundaries and paths, as rectangles.
//!
//! [`rectangles`] turns an element into boxes whose union is the element's set of unit squares.
//!
//! A boundary is split into its vertical edges (`edge`), which are processed from left to right (`sweep`). A
//! tree over the corners' heights stores for each row its winding number, and where the squares began that
//! are in no box yet. Rows in the same state are one node (`rows`). An edge turns the rows that it crosses
//! (`turn`): squares begin where a winding number leaves 0, and become a box where it comes back to 0. Boxes
//! that lie on one another are joined (`boxes`).
//!
//! If no row begins or ends at an edge, the edge's contribution is stored once at a node for all of its rows. So
//! an edge takes O(log n), and O(log n) for each run of rows that begins or ends there.
//!
//! A path gives one box for each segment of its centre line (`path`). [`Wire`] makes them one at a
//! time.
#![tactic(auto)]

mod boundary;
mod boxes;
mod edge;
mod path;
mod rows;
mod shape;
mod sweep;
mod turn;

pub use path::{Wire, first_wire};
pub use shape::{rectangles, squares_are_placed};
