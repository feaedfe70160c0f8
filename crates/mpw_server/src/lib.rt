//! The program `mpw serve`: a desk on a socket, which may be the desk of a store.
//!
//! The threads of a service are in `mpw_service`, over any core and any store writer. Here a desk is made for them: a new one, or that of
//! a store's rows. Each accepted change is stored under the desk's lock, before its reply is written. At the end the store comes back, and why, if
//! a change could not be stored.
//!
//! The core is a type parameter in this crate, and the store is one in all but `program.rt`, which opens and closes its file. So a check of this crate
//! needs no core.
#![tactic(auto)]

mod desk;
mod fault;
mod laws;
mod opening;
mod program;
mod serving;
mod terms;

pub use fault::ServiceFault;
pub use laws::services_store_their_changes;
pub use program::run;
pub use serving::serve_over;
pub use terms::Terms;
