//! Walks over the flat lists of submissions on a shelf, one shape at a time.
//!
//! [`Walk`] visits placed submissions and gives each flat shape with its origin and its placing. It
//! goes down the hierarchy with its own stack of fixed size, one frame for each level. A walk within a
//! window ([`Walk::within`]) gives the shapes whose boxes touch the window, and enters only the
//! instances whose placed extents do. In an array, a division finds them (`skip`).
#![tactic(auto)]

mod fit;
mod frame;
mod frames;
mod laws;
mod root;
mod skip;
mod walk;
mod way;
mod window;

pub use fit::all_fit;
pub use laws::{
    missed_instances_show_nothing_met, roots_are_placed_again,
    roots_at_origin_show_their_submission, roots_show_what_their_submissions_do, roots_stay_roots,
    shapes_are_no_references, shapes_come_from_the_shelf, turns_give_flat_lists,
};
pub use root::{Placed, Root};
pub use walk::Walk;
