//! The role hierarchy: roles, their immediate pairs, and the order that these make (ANSI INCITS 359-2004, general role hierarchies).
//!
//! [`Roles`] stores the pairs that were added, and for each role a [`Mask`]: the indexes of the roles at or below it, one bit each. The
//! index of a role is its position in the order of the roles. So a question of order is one bit, and the roles below several others are the
//! union of their masks. A change of pairs leaves the masks right. A new pair joins masks. If a pair or a role is removed, all masks are
//! made again, with a pass over them for each pair that is left.
#![tactic(auto)]

mod below;
mod fault;
mod laws;
mod mask;
mod pairs;
mod places;
mod register;
mod remask;
mod renumber;
mod roles;
mod room;
mod settled;
mod table;

pub use below::Below;
pub use fault::RolesFault;
pub use laws::order_is_chains;
pub use mask::{Mask, join_masks, reserve_mask};
pub use register::Register;
pub use roles::{MAX_ROLES, Roles};
