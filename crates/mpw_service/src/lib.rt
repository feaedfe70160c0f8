//! The threads of a service: connections of a socket and workers over one shared desk.
//!
//! One thread accepts connections. As many threads as there may be connections at once serve them, one after the other, and workers execute runs
//! meanwhile. Each connection and each worker has a pass of the desk. All passes come back at the end, so that [`mpw_desk::Shared::finish`] can
//! compare what they counted with the desk's history. The log of `mpw_log` gets a line for each connection and for each request.
//!
//! The desk's core and its store writer are type parameters here, so this crate needs no core, no store and no file.
#![tactic(auto)]

mod accepting;
mod arrival;
mod fault;
mod hall;
mod ledger;
mod lobby;
mod opening;
mod parts;
mod patience;
mod scribe;
mod service;
mod staff;
mod steering;
mod threads;

pub use fault::ServeFault;
pub use mpw_log::Log;
pub use mpw_reception::Strangers;
pub use opening::{Begun, Opening};
pub use parts::Gathered;
pub use service::{serve, serve_desk};
pub use staff::Staff;
