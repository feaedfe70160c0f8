//! Serves a connection: reads its lines, passes each to a [`Responder`], and writes the replies in order.
//!
//! [`OwnDesk`] is a responder that has a desk for itself. The desk is any [`mpw_events::Handler`] with its store writer. If it accepts a
//! `run`, the run is executed before its reply is written: the snapshot is cut, the jobs of its tiles are done in batches, and their
//! results are handed to the desk. A [`Progress`] receives how many jobs are done.
//!
//! The desk's program is a library here. [`command_line`] reads its settings. [`run_script`] serves a script from its input to its output,
//! with an [`Executor`] that reports progress.
#![tactic(auto)]

mod executor;
mod fault;
mod own_desk;
mod program;
mod progress;
mod responder;
mod script;
mod serve;
mod terminal_line;
mod working;

pub use executor::Executor;
pub use fault::{ProgramFault, exit_status};
pub use own_desk::{OwnDesk, serve_core};
pub use program::{command_line, print_help, run_script, run_script_over, tell};
pub use progress::{Progress, Silent};
pub use responder::Responder;
pub use script::serve_script;
pub use serve::{End, MAX_LINES, Served, serve_connection};
pub use terminal_line::TerminalLine;
pub use working::work_behind;
