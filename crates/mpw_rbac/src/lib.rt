//! The access control policy of the desk: users, roles, grants, separation sets and sessions (ANSI INCITS 359-2004, core RBAC with a
//! general role hierarchy and separation of duty).
//!
//! [`Policy`] answers each request by the tests of its decision table, in their order. The first that fails refuses the request. A refused
//! request changes nothing. No table tests whether the connection has a session and the permission that the request needs: callers test it
//! before, by [`Policy::has_session`] and [`Policy::permits`].
#![tactic(auto)]

mod access;
mod active;
mod admin;
mod hierarchy;
mod policy;
mod refusal;
mod roster;
mod separation;
mod session;
mod sessions;
mod trim;
mod users;

pub use access::Access;
pub use policy::{MAX_GRANTS, MAX_USERS, Policy};
pub use refusal::{PolicyFault, Refusal};
pub use session::{Digest, Identity, Session, User};
