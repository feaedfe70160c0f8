//! What the desk does, as a specification: its events, their responses, the step, and the history of all steps.
//!
//! Code that serves a connection sees the desk as a [`Handler`] of events. The core is one. So such code relies on this specification, and
//! not on how the core does it.
#![tactic(auto)]

mod event;
mod handler;
mod keeper;
mod laws;
mod shared;

pub use event::{Call, Event, Response};
pub use handler::Handler;
pub use keeper::{Change, Keeper, KeptChange, NoKeeper, NotKept};
pub use laws::{an_event_adds_its_call_or_nothing, keepers_have_the_changes_in_order};
pub use shared::{SharedCut, SharedRunReply, SharedTile};
