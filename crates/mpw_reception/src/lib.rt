//! The connections of a service: who gets in, which place it has, and how it is read and written within the limits.
//!
//! A *stranger* is a connection that never had a session. `mpw_admission` decides what it may take; here the clock is read, and what isn't allowed waits or ends.
//! This crate knows no desk: what is read and written are bytes.
#![tactic(auto)]

mod accepting;
mod intake;
mod notice;
mod outflow;
mod rations;
mod reception;
mod time;
mod watch;

pub use accepting::{accept, is_momentary};
pub use intake::Intake;
pub use outflow::Outflow;
pub use rations::{Rations, Strangers};
pub use reception::{Arrival, Reception};
pub use watch::{Limit, Watch};
