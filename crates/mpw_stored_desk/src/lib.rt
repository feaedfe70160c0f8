//! A desk that goes on after a stop: it is reopened from its store, and a script is served over it.
//!
//! [`reopen`] makes the table if the database has nothing, hands its rows to a new desk one by one, stores the end of each connection that
//! still has a session, and restarts the desk. The result is the desk of the committed rows, with a store writer that goes on after them.
//! [`count_rows`] counts the rows first, and those of finished runs, since each of these runs is executed again.
//!
//! [`serve_store`] reopens the desk, serves one connection over it, and returns the outcome of both. [`run_stored_script`] is what the
//! program does with the file of a store, which [`open_desk`] opens as the settings say. [`announce_rows`] prints what it has, before a desk
//! is made of it, and [`open_announced`] does both.
#![tactic(auto)]

mod closing;
mod counting;
mod fault;
mod opening;
mod program;
mod reopened;
mod restorer;
mod serving;

pub use counting::{Counted, count_rows};
pub use fault::{StoredFault, exit_status};
pub use opening::{announce_rows, open_announced, open_desk, terms_of};
pub use program::{run_opened, run_script_over_store, run_stored_script};
pub use reopened::{Reopened, reopen};
pub use serving::{Stopped, serve_store};
