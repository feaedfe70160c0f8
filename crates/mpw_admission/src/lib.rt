//! Whom a service lets in, and for how long: the limits of connections, as decisions that read no clock and no socket.
//!
//! A *stranger* is a connection that never had a session. Callers give the time in milliseconds since any fixed moment. Nothing here waits: each call returns
//! what is allowed, or how long to wait for it.
#![tactic(auto)]

mod budget;
mod drain;
mod lines;
mod login;
mod pail;
mod pause;
mod places;
mod retries;
mod stage;
mod visit;

pub use budget::{Budget, DENIED_BYTES};
pub use drain::{DRAIN_BYTES, DRAIN_TIME, Drain};
pub use login::{FAILED_LOGIN, login_delay};
pub use pail::{OWN_LINES, OWN_RATE, Pail};
pub use pause::{FIRST_PAUSE, LONGEST_PAUSE, Pause};
pub use places::{Placed, kept_places, leaving};
pub use retries::{Retries, Tried};
pub use stage::Stage;
pub use visit::{LINE_TIME, PAYLOAD_GRACE, PAYLOAD_RATE, Times, Visit};
