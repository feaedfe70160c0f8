//! Permissions (ANSI INCITS 359-2004, core RBAC): operations, the objects that they are on, and which roles have grants of them.
//!
//! [`Permissions`] has the roles and the grants to them in their order. Copies share both. The grants have masks of their roles. So the
//! test whether one of some roles has a grant costs a look-up and an `and` of eight words.
#![tactic(auto)]

mod block;
mod bucket;
mod grants;
mod group;
mod holders;
mod permission;
mod permissions;

pub use permission::{Grant, Object, Operation};
pub use permissions::Permissions;
