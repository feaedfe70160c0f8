//! Separation of duty: sets of roles of which nobody may have too many at once (ANSI INCITS 359-2004, 6.3 static and 6.4 dynamic separation of duty).
//!
//! [`Sets`] has the sets of both kinds. Some seniors break a set if as many of its roles as its cardinality are at or below one of them.
//! The caller chooses the seniors: a user's assigned roles for the static sets, a session's active roles for the dynamic ones.
//! [`PlacedSets`] adds the indexes of each set's roles, so that the answer is a count of bits.
#![tactic(auto)]

mod fault;
mod least;
mod named;
mod placed;
mod set;
mod sets;

pub use fault::SetsFault;
pub use least::lesser;
pub use placed::PlacedSets;
pub use set::{Kind, SeparationSet};
pub use sets::{MAX_SETS, Sets};
