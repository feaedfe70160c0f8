//! Making a desk of the rows of its store again.
//!
//! [`restore_row`] handles again what a row stands for: a request, a connection's end, or the work of a run that became finished,
//! whose markers are computed anew. It refuses a row that the desk doesn't accept as the row's change. After the last row
//! [`open_connections`] says whose sessions go on, and [`restart`] ends them.
//!
//! What rows lead to is said in `specs/Restoring.antt`. That a run which is cutting becomes finished by its windows and the
//! markers of its tiles is proved, and so nothing here looks at what the run answers.
#![tactic(auto)]

mod asked;
mod finished;
mod handing;
mod laws;
mod restoring;
mod sessions;

pub use laws::{rows_add_their_changes, rows_lead_to_one_desk};
pub use restoring::{restart, restore_row};
pub use sessions::{greatest_connection, open_connections};
