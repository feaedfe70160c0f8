//! Waivers of a finished run's markers: who asked for one, and who signed it.
//!
//! The signer of a waiver neither asked for it nor submitted what its marker touches. [`Waivers`] has an entry for each marker of the run's
//! book. A request is tested first, by [`Waivers::may_ask`] or [`Waivers::may_sign`]. Then [`Waivers::ask`] or [`Waivers::sign`] enters its
//! user, which takes no memory and can't fail. [`Waivers::new`] takes the memory for all of it.
#![tactic(auto)]

mod fault;
mod own;
mod waiver;
mod waivers;

pub use fault::WaiverFault;
pub use waiver::Waiver;
pub use waivers::Waivers;
