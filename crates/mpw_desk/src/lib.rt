//! The desk that many connections share: one lock, and one critical section for each event.
//!
//! The lock guards the core, its store writer, and a register of the calls since the desk was shared. Each connection and each worker has a
//! [`Pass`]: a connection number, with receipts that exist in the proofs alone. [`Shared::ask`] takes the lock, hands one event to the
//! core, and adds the call to the history, to the register and to the pass's receipts. The lock is held for that alone. Workers take a
//! run's jobs under the lock and do them outside it ([`Shared::worker`]).
//!
//! At the end [`Shared::conclude`] compares the counts of the passes with the history. If they agree, the passes counted as many calls as
//! the history has since the desk was shared. Each of these calls is legal, and was made while the history had room. Each pass's receipts
//! are the calls of its connection, each once, in order.
//!
//! Begin with `locked.rt`, which has the critical section as a function that waits for nobody. `shared.rt` only takes the lock.
#![tactic(auto)]

mod hints;
mod laws;
mod lent;
mod locked;
mod numbers;
mod pass;
mod room;
mod shared;
mod step;
mod turns;
mod worker;

pub use laws::passes_receive_the_calls_of_their_lines;
pub use lent::{Caller, Unwatched, Witness, serve_caller, serve_pass};
pub use locked::{Locked, MOST_PASSES, ask_in, event_in};
pub use numbers::are_below;
pub use pass::Pass;
pub use room::{Blank, Room};
pub use shared::{Mismatch, Shared};
